// What a path keeps from step to step: which transitions are enabled, their propensities with the running sums, and which of these are rounded. A step works
// out again only what it may have changed. An inner crate: a function here may ask what its callers have proved, and no entry stands here.
#![tactic(auto)]

pub mod marks;
pub mod openness;
pub mod refresh;
pub mod tables;
pub mod values;
