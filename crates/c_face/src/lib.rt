// The leaf functions, the reader of net texts, the path, a halted and carried one, the ensemble, the diffusion and its objections to a net, the balance of weights, the soak load,
// the game, the timer list and the index under plain names, for a program in C or Rust to call. Those on slices do in one call what as many calls would.
#![tactic(auto)]

mod diffusion;
mod ensemble;
mod generator;
mod halted;
mod halted_words;
mod leaves;
mod listing;
mod objections;
mod path;
mod reader;
mod sampler;
mod search;
mod slices;
mod soak_load;
mod timer_list;
mod weights;
