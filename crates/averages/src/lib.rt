// What the ensemble and the diffusion share: the tests of a request, its seeds and instants, the means and deviations over paths.
#![tactic(auto)]

pub mod moments;
pub mod request;
