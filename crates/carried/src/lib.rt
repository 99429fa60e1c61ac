// What a carrying call asks of a path that is handed to it (document 02, order 8): the tests of its state, of its records and of the renaming list, and the
// renaming itself.
#![tactic(auto)]

pub mod records;
pub mod renaming;
pub mod state;
