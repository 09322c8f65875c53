// Numbers and bytes: fixed widths, decimal text, and writing into a lent buffer.
#![tactic(auto)]

pub mod decimal;
pub mod fixed;
pub mod little;
pub mod pairs;
pub mod put;
pub mod scan;
pub mod width;
