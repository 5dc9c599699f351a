//! The claim about sequences is not empty, and no clause of it can be left out. There is no code here.

#![tactic(auto)]
