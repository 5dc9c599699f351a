//! What all subjects hold on one item without a role; they are taken one after the other, for the tables of any image.
#![tactic(auto)]

pub mod counts;
pub mod editors;
