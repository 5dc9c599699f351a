//! The calls that ask. Each opens the image, then asks its own questions, and answers the number of the first question
//! answered no. A refused call has only read.
#![tactic(auto)]

pub mod editor;
pub mod explanation;
pub mod holders;
pub mod list_lines;
mod list_rows;
pub mod sets;
pub mod steps;
