//! Reads the layout of an image, and reads and writes rows in its bytes; what runs past the end reads as 0 and is not written.
#![tactic(auto)]

pub mod grant;
pub mod header;
pub mod item;
pub mod key;
pub mod line;
pub mod privileges;
pub mod subject;
pub mod table;
