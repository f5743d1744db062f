//! Records of a header and key bytes, in slots that are used again.
//!
//! An [`Arena`] keeps records for a structure that names them by [`Slot`], as a search tree whose
//! keys they are, or whose nodes are their headers. Storage grows by chunks of 16,384 key bytes,
//! each cut into slots of one size, and nothing that is stored moves. Room can be reserved first,
//! so that later calls are not refused.
//!
//! The layer above may use the contracts of [`Arena`], which see it as a finite map from slots to
//! records, and for each of ten sizes a number of spare slots. Chunks, indices and lists of free
//! slots show nowhere.
#![tactic(auto)]

mod ahead;
mod arena;
mod chunk;
mod error;
mod size;
mod slot;
mod spare_slots;
mod spares;

pub use arena::Arena;
pub use error::ArenaError;
pub use size::MAX_LENGTH;
pub use slot::Slot;
