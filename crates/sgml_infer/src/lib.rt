//! The open elements of a document, and the inference of tags that are left out (ISO 8879 7.3.1,
//! 11.2.4, 11.2.5).
//!
//! It stands on the tables of document types and on the definitions of reading. The layers above
//! use the contract of `Tree::accept`: the tree that stands for what was read finds the longest run
//! of omitted tags before a visible piece, and then stands for what was read with both, or it tells
//! the reason for which the piece can't stand. `Tree::judge` and `Tree::take_judged` do the same in
//! two steps, told of what is open and of no history; `Tree::judge_plain` and `Tree::judge_run` are
//! the first of these in two parts.
#![tactic(auto)]

mod beginning;
mod element;
mod exceptions;
mod fitting;
mod known;
mod laws;
mod level;
mod mentions;
mod omitting;
mod opening;
mod reasons;
mod standing;
mod steps;
mod tree;
mod visible;
mod walk;
mod wanted;

pub use fitting::Fit;
pub use known::ContentKind;
pub use laws::accepted_is_judged;
pub use sgml_dtd as dtd;
pub use tree::Tree;
pub use visible::{Chain, Visible};
