//! The resolver: takes batches along the chain of versions, and owes each proxy its answers.
//!
//! [`Core`] is the resolver over values. Its contracts say that it represents a log of steps: its
//! answers are those that the reference resolver answers to that log. The definition is `Stands`,
//! in `specs/Stands.antt`.
//!
//! [`open`] makes a [`Resolver`] over lanes, and a [`Client`] for each proxy; [`open_at`] makes one
//! that starts at a version. Each turn takes a batch of some proxy and sends answers. Once all
//! clients have been returned, [`Resolver::settle`] says what each of them has sent and received,
//! beside the reference resolver. The definitions are `StandsOver`, in `specs/Resolver.antt`, and
//! `Settled`, in `specs/Settled.antt`.
//!
//! [`Core::admit_observed`] and [`Resolver::turn_observed`] show each batch that they process to an
//! [`Observer`]. The definitions are in `specs/Observed.antt`.
//!
//! [`share`] is the share of each proxy in what the resolver holds. While no client has more
//! batches sent without an answer, no turn returns `GateFull`. The definitions are in
//! `specs/Share.antt`.
//!
//! The laws of [`laws`] say that none of these has a batch of a proxy without a client. They also
//! say that a client which keeps to its share has no more batches unanswered than that.
#![tactic(auto)]

mod all_lanes;
mod client;
pub mod laws;
mod open_error;
mod owed;
mod proxy_lanes;
mod resolver;
mod resolver_core;
mod resolver_opening;
mod shares;
mod turn;

pub use client::Client;
pub use limits::{MAX_PROXIES, Stop};
pub use observer::{Observer, Unobserved};
pub use open_error::OpenError;
pub use resolver::Resolver;
pub use resolver_core::Core;
pub use resolver_opening::{open, open_at};
pub use shares::share;
pub use turn::{Account, Turn};
