//! The column of a line of JSON at which a fault begins.
//!
//! [`column_of`] finds the column of a refusal by `json_lines`, in the tokens of the line. If the
//! line isn't JSON, it is that of the first token that can't be there.
#![tactic(auto)]

mod column;
mod json_fault;
mod json_tokens;

pub use column::column_of;
pub use json_tokens::is_space;
