//! What explains why the transactions of an answer were rejected: lines under it, or a member of
//! its object of JSON.
//!
//! An [`Explainer`] observes the batches that a resolver processes. It keeps the text of each batch
//! with a rejection by proxy and version, and [`Explainer::explanation`] returns it. The [`laws`]
//! say that each transaction rejected as a conflict has a line, or an object, and so has each of
//! its read ranges in conflict.
//!
//! `specs/` says, in reading order, the objects of JSON (`Json`), which lines or objects a batch
//! has (`Lines`) and what an explainer holds of the batches that it saw (`Explainer`). `forms`
//! appends numbers, keys and ranges to a text, `lines` the lines, `json` the objects, `form` either
//! of them, and `batch_lines` the text of a batch; `texts` keeps them.
#![tactic(auto)]

mod batch_lines;
mod explainer;
mod form;
mod forms;
mod json;
pub mod laws;
mod lines;
mod texts;

pub use explainer::Explainer;
pub use form::ExplanationForm;
