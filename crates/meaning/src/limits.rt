// The outline's limits and sizes, each under one name. specs/Limits.antt has the definitions.

// The longest pattern, in bytes (refusal 1).
pub const PATTERN_LIMIT: usize = 2048;

// The highest count (refusal 8), and a maximum where there is none: above every count.
pub const COUNT_LIMIT: u32 = 1000;

pub const NO_MAXIMUM: u32 = COUNT_LIMIT + 1;

// The deepest parentheses (refusal 13).
pub const DEPTH_LIMIT: u32 = 32;

// The most groups (refusals 14 and 20).
pub const GROUP_LIMIT: u32 = 31;

// The most rows, and the fewest (refusals 15 and 20).
pub const ROW_LIMIT: u32 = 1024;

pub const LEAST_ROWS: u32 = 8;

// The words of a row, and of a byte set.
pub const ROW_WORDS: usize = 12;

pub const SET_WORDS: usize = 8;

// The longest text, in bytes (refusal 21).
pub const TEXT_LIMIT: usize = 16777216;

// The longest text that the second engine takes (refusal 21).
pub const SECOND_LIMIT: usize = 4096;

// A register's word is a position below this number, and -1 from it on.
pub const POSITION_LIMIT: u32 = 2147483648;

// The most registers that a run writes: two for each group and for the whole match.
pub const REGISTER_LIMIT: usize = 2 * (GROUP_LIMIT as usize + 1);

// The buffers of the intake program and of the host: words of table, code and workspace.
pub const TABLE_SIZE: usize = 4128;

pub const CODE_SIZE: usize = 1164;

pub const WORKSPACE_SIZE: usize = 8000;

// Stands for "no byte", past either end of a pattern or a text.
pub const NO_BYTE: u32 = 256;

// LF, which ends a line.
pub const LF: u8 = 10;

// The most digits of a number (refusal 28).
pub const DIGIT_LIMIT: u32 = 15;
