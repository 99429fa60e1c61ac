// A path played on from any state: its steps, the loop that takes them, and what it shows in a lent table. An inner crate: a function here may ask what its
// callers have proved, and no entry stands here.
#![tactic(auto)]

pub mod begin;
mod firing;
pub mod peak;
pub mod run;
pub mod shown;
mod starts;
mod step;
pub mod tables;

use refusals::Refusal;

// How a path ends, or the refusal that turned it down. Only a path that names a number of steps is halted.
#[derive(Clone, Copy)]
pub enum PathEnd {
    Quiet,
    Spent,
    Reached,
    Halted,
    Refused(Refusal),
}
