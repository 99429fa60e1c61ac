// The cases that document 01 marks P are one theorem on the definitions: specs/Cases. There is no program here.
#![tactic(auto)]
