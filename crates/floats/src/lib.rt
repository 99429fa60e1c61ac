// Floats that several crates name, as definitions: specs/ has them, and there is no program.
#![tactic(auto)]
