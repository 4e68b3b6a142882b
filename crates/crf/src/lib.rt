// Instructions of the Commit-Reconcile & Fences model, and which of them keep which others waiting.
#![tactic(auto)]

pub mod binding;
pub mod fence;
pub mod instruction;
pub mod span;
