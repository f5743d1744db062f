//! The greatest settings of a resolver, and the reasons why it stops.
//!
//! The crates that keep to a limit export it too. `resolver` has the number of proxies and
//! [`Stop`], `lane` the capacity, `conflict` the window, and `stepmap` the limit of boundaries.
//! Crates that only read settings or print a stop use this crate instead.
#![tactic(auto)]

mod settings;
mod stop;

pub use settings::{MAX_CAPACITY, MAX_LIMIT, MAX_PROXIES, MAX_WINDOW};
pub use stop::Stop;
