// Code that passes the check and that no compiler writes: the steps alone say what it does. It has nine rows, all Accept but
// those that are given, as ` 5 Jump    5 0;`: row, kind and two operands.
use crate::questions::{byte_at, digit_at};
use machine::{
    ACCEPT, BEGIN, CLOSE, CONSUME, END, FIRST, FORK, GROUPS, JUMP, KIND, OPEN, ROWS, SECOND, SET,
};
use meaning::limits::ROW_WORDS;

// The kind that a name's third letter tells.
fn kind_of(letter: u8) -> u32 {
    match letter {
        b'n' => CONSUME,
        b'm' => JUMP,
        b'r' => FORK,
        b'e' => OPEN,
        b'o' => CLOSE,
        b'g' => BEGIN,
        b'd' => END,
        _ => ACCEPT,
    }
}

// A row. A Consume takes the bytes 60 to 7F hex.
fn put_row(code: &mut [u32; 120], row: &[u8]) {
    let number = digit_at(row, 1) as usize;
    if number < 9 {
        let kind = kind_of(byte_at(row, 5));
        let at = ROW_WORDS * (number + 1);
        code[at + KIND] = kind;
        code[at + FIRST] = u32::from(digit_at(row, 11));
        code[at + SECOND] = u32::from(digit_at(row, 13));
        if kind == CONSUME {
            code[at + SET + 3] = !0;
        }
    }
}

// Nine rows of Accept, with one number in all words that they do not use.
fn accepts(unused: u32) -> [u32; 120] {
    let mut code = [unused; 120];
    code[ROWS] = 9;
    code[GROUPS] = 0;
    for row in 1..10usize {
        code[ROW_WORDS * row] = ACCEPT;
    }
    code
}

// The code of some rows, with a number in the words that are not used.
pub fn code_of(rows: &[u8], unused: u32) -> [u32; 120] {
    let mut code = accepts(unused);
    for row in rows.chunks_exact(15) {
        put_row(&mut code, row);
    }
    code
}
