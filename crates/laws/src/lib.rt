//! Theorems about the definitions of `model`; there is no code here.

#![tactic(auto)]
