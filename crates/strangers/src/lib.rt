//! The claim on strangers, about whole sequences of calls. There is no code here.

#![tactic(auto)]
