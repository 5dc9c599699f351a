//! Numbers, and rows of any length, in bytes that a caller lends; nothing here knows what a row means.
#![tactic(auto)]

pub mod edits;
pub mod numbers;
