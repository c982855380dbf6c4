// The limits of 01, "The book". Each number stands here and nowhere else in the code.

// Most sorts.
pub const SORT_LIMIT: usize = 32;
// Most productions (01's rules).
pub const PRODUCTION_LIMIT: usize = 64;
// Most character classes.
pub const CLASS_LIMIT: usize = 64;
// Most arguments of a production.
pub const ARGUMENT_LIMIT: usize = 8;
// Most ranges of a character class.
pub const RANGE_LIMIT: usize = 16;
// The kinds of declaration are 1, 2, … up to this.
pub const KIND_LIMIT: usize = 7;
// Those up to this are of two productions, those above it of a whole group (02, [2]).
pub const PAIR_KIND_LIMIT: usize = 4;
// How far a kind of groups stands above the kind of two productions that says the same.
pub const GROUP_STEP: usize = 3;
// The argument byte of class 0.
pub const CLASS_BASE: usize = 64;
// The bytes before the contents.
pub const HEADER_LENGTH: usize = 6;
// The bytes of a declaration.
pub const DECLARATION_LENGTH: usize = 3;
