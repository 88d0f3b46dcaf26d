//! A counter of steps, which contracts see as a number and which takes no bytes and no time.
//!
//! It stands on nothing. A call that is given one says in its contract how many steps it counts, so
//! a caller can bound the work of many calls.
#![tactic(auto)]

mod steps;

pub use steps::Steps;
