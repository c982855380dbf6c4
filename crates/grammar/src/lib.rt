// The check of a grammar's bytes (01's book): refusals 1 to 8.
#![tactic(auto)]

pub mod check;
