// The numbers of code, for the crates that write it and those that run it. specs/Kinds.antt has the definitions.
#![tactic(auto)]

// The words of the header row: how many rows and how many groups.
pub const ROWS: usize = 0;

pub const GROUPS: usize = 1;

// How many words of the header row are used.
pub const HEADER_USED: usize = 2;

// The words of a row: its kind, two operands, a zero, and a byte set.
pub const KIND: usize = 0;

pub const FIRST: usize = 1;

pub const SECOND: usize = 2;

pub const FOURTH: usize = 3;

pub const SET: usize = 4;

// The kinds of rows: numbers, since they are words of code, which C and Rust callers lend as they please and whose format is the
// outline's. An enum would have to be read from a word where each of these is matched, with an arm more for a word of no kind.
pub const ACCEPT: u32 = 1;

pub const CONSUME: u32 = 2;

pub const JUMP: u32 = 3;

pub const FORK: u32 = 4;

pub const OPEN: u32 = 5;

pub const CLOSE: u32 = 6;

pub const RESET: u32 = 7;

pub const BEGIN: u32 = 8;

pub const END: u32 = 9;

pub const ASSERT: u32 = 10;

// The assertions, by an Assert's operand, a word of code too: `^`, `$`, `\b`, `\B`.
pub const AT_START: u32 = 0;

pub const AT_END: u32 = 1;

pub const AT_EDGE: u32 = 2;

pub const OFF_EDGE: u32 = 3;

// The rows at which searching, and matching at the start, begin.
pub const SEARCH_ROW: usize = 0;

pub const MATCH_ROW: usize = 5;
