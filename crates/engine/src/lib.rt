// The net as a run uses it, below every crate that plays one: its slots in order with the limit of each, made once a call, and what the counts
// allow, weigh, round and become. An inner crate: a function here may ask what its callers have proved, and no entry stands here.
#![tactic(auto)]

pub mod guards;
pub mod marking;
pub mod rounding;
pub mod sets;
pub mod slots;
