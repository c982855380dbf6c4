// The chart: where a cell stands, in the order of 01 and while it is filled; and counts that stop at 2.
#![tactic(auto)]

pub mod by_ends;
pub mod cells;
pub mod rows;
pub mod sums;
