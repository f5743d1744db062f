//! Why verdicts matter: each committed transaction may be run at its place in the commit order, and
//! all of them one at a time.
//!
//! `specs/Commits.antt`, `specs/Stores.antt`, `specs/Serial.antt`, `specs/Replies.antt` and
//! `specs/Shards.antt`, to be read in this order, say so of any list of processed batches, and what
//! replies say to a proxy about it. The laws prove it of every chain, which is what the resolver
//! promises to process.
//!
//! A transaction is a plan that changes no key outside its write ranges. Index look-ups, atomic
//! additions and versionstamps are plans. A reader of keys that it doesn't declare is one too: the
//! laws then say nothing about its reads, and everything about those of the others. Batches that
//! were answered `Never` or `Held`, and batches after a stop, are not specified.
#![tactic(auto)]

pub mod laws;
