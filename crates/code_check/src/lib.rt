// The check that stands before every run: whether code can be run (refusal 20).
#![tactic(auto)]

ghost use Rattle.std.specs.Prelude.{◌≡◌, true, List, ℕ, ◌+◌, ◌≤◌, eqb, length};
ghost use Rattle.meaning.specs.Limits.{row_words};
ghost use Rattle.machine.specs.Words.{row_start, decode_row, row_passes, may_be_last, header_passes, code_passes};
ghost use Rattle.machine.specs.Rows.{Row.reset};
ghost use Rattle.machine.specs.Kinds.{listed};
ghost use Rattle.code_check.specs.Check.{row_checked, rest_clean};

use machine::{
    ACCEPT, ASSERT, BEGIN, CLOSE, CONSUME, END, FIRST, FORK, FOURTH, GROUPS, HEADER_USED, JUMP,
    OFF_EDGE, OPEN, RESET, ROWS, SECOND,
};
use meaning::limits::{GROUP_LIMIT, LEAST_ROWS, ROW_LIMIT, ROW_WORDS};

// Whether a row of a listed kind may be the last: it is Accept, Jump, Fork or End.
fn may_be_last(kind: u32) -> bool
    requires { listed kind ≡ true }
    ensures { (a b : ℕ) (s : List ℕ) → result ≡ may_be_last (decode_row kind a b s) }
{
    matches!(kind, ACCEPT | JUMP | FORK | END)
}

// Whether a Reset's groups are 1 ≤ lowest ≤ highest ≤ g, or 1, 0 for none.
fn reset_passes(lowest: u32, highest: u32, n: u32, g: u32) -> bool
    ensures { result ≡ row_passes n g (reset lowest highest) }
{
    if highest == 0 {
        return lowest == 1;
    }
    (1..=highest).contains(&lowest) && highest <= g
}

// The fourth word of a row and its set words, one or another: zero exactly if all are.
fn rest_of(code: &[u32], start: usize) -> u32
    requires { start + row_words ≤ length code.now }
    ensures { eqb result 0 ≡ rest_clean code.now start }
{
    let mut rest = 0;
    for word in &code[start + FOURTH..start + ROW_WORDS] {
        rest = *word | rest;
    }
    rest
}

// Whether row q passes: its kind is listed, its targets are below n, its groups at most g, and what it does not use is zero.
fn row_passes(code: &[u32], q: usize, n: u32, g: u32) -> bool
    requires { row_start q + row_words ≤ length code.now }
    ensures { result ≡ row_checked code.now n g q }
{
    let start = ROW_WORDS * (q + 1);
    let a = code[start + FIRST];
    let b = code[start + SECOND];
    let rest = rest_of(code, start);
    // A line for each kind, as in the outline's list.
    match code[start] {
        ACCEPT => (a | (b | rest)) == 0,
        CONSUME => (a | (b | code[start + FOURTH])) == 0,
        JUMP => (a < n) & ((b | rest) == 0),
        FORK => (a < n) & (b < n) & (rest == 0),
        OPEN => (a <= g) & ((b | rest) == 0),
        CLOSE => (a <= g) & ((b | rest) == 0),
        RESET => reset_passes(a, b, n, g) & (rest == 0),
        BEGIN => (a | (b | rest)) == 0,
        END => (a < n) & ((b | rest) == 0),
        ASSERT => (a <= OFF_EDGE) & ((b | rest) == 0),
        _ => false,
    }
}

// Whether the header row's numbers are within the limits.
fn header_passes(n: u32, g: u32) -> bool
    ensures { result ≡ header_passes n g }
{
    (LEAST_ROWS..=ROW_LIMIT).contains(&n) && g <= GROUP_LIMIT
}

// Whether code can be run: it has the words of the rows that it says, each row passes, and none is behind the last to fall into.
pub fn check(code: &[u32]) -> bool
    ensures { result ≡ code_passes code.now }
{
    if code.len() < ROW_WORDS {
        return false;
    }
    let n = code[ROWS];
    let g = code[GROUPS];
    if !header_passes(n, g) {
        return false;
    }
    let rows = n as usize;
    if code.len() < ROW_WORDS * (rows + 1) {
        return false;
    }
    if (code[HEADER_USED] | rest_of(code, 0)) != 0 {
        return false;
    }
    (0..rows).all(|q| row_passes(code, q, n, g)) && may_be_last(code[ROW_WORDS * rows])
}
