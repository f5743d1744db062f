//! Tests of the program `replay` after its files are open, by the public calls of `replay_program`
//! alone.
//!
//! `verdicts`, `reports`, `batches`, `options` and `files` are the worked rows, played over memory
//! by `runs`: one test per table, whose failure has the row's name. `meeting_proxies` holds back
//! two proxies that wait for each other. `words` looks at the command line, and `lines` at a writer
//! that fails. The tests of `memory` and `sort_memory` pass whichever one growth is refused;
//! `.ci/refused-memory` refuses each in turn.
//!
//! A program that always stops with `Memory` would also meet the contract of `replay_over`. Each
//! row that expects a line refuses it, `empty_batch` first; so does `gate_full_through_replay`,
//! which expects another stop.
#![tactic(auto)]

#[cfg(test)]
mod answers;
#[cfg(test)]
mod batches;
#[cfg(test)]
mod counting_gatekeeper;
#[cfg(test)]
mod files;
#[cfg(test)]
mod lines;
#[cfg(test)]
mod meeting_proxies;
#[cfg(test)]
mod memory;
#[cfg(test)]
mod options;
#[cfg(test)]
mod reports;
#[cfg(test)]
mod rows;
#[cfg(test)]
mod runs;
#[cfg(test)]
mod sort_memory;
#[cfg(test)]
mod verdicts;
#[cfg(test)]
mod words;
