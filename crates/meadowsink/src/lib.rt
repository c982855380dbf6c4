// The calls for programs in C: each slice is a pointer and its length. include/meadowsink.h says what they mean.
// A module to an operation. Each that can refuse has two calls, one for its answer as a number and one for the place of its refusal.
#![tactic(auto)]

pub mod check;
pub mod check_flat;
pub mod check_listing;
pub mod conflict;
pub mod flat;
pub mod ordered;
pub mod read;
pub mod read_flat;
pub mod step;
pub mod summary;
pub mod text_under;
pub mod why;
pub mod write_page;
