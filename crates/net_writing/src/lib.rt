// The text of a net is a definition, and that it reads back a theorem: specs/. There is no program here.
#![tactic(auto)]
