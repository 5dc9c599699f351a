//! How a permission is found: what lines and a grant give, the sets, and their explanation; for the tables of any image.
#![tactic(auto)]

pub mod decision;
pub mod explanation;
pub mod folders;
pub mod parts;
