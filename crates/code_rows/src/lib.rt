// The rows of a pattern, written from the table of its records. Rows are written from the last one back: each function here
// writes the rows that end before row `end`, and answers the row where they begin.
#![tactic(auto)]

ghost use Rattle.std.specs.Prelude.{◌≡◌};
ghost use Rattle.machine.specs.Layout.{size_of, rows_of};
ghost use Rattle.code_rows.specs.Emits.{Asks, Lays, fresh_size, fresh_rows, repeats_size, repeats_rows};
ghost use Rattle.code_rows.specs.Emits.{turn_size, turn_of, turns_size, turns_of, alternative_size, alternative_rows};
ghost use Rattle.table.specs.Table.{kind_word, group_kind, sequence_kind, alternation_kind, quantifier_kind, word_of};
ghost use Rattle.code_words.specs.Wrote.{Room, Wrote};
ghost use Rattle.code_rows.specs.Lines.{in_words};
ghost use Rattle.code_rows.specs.Program.{prefix_rows, Compiling, Compiles};
ghost use Rattle.code_rows.specs.Emission.{SomeTabled, Emits, answer_of, emission_of};

use code_words::{consuming, place, plain, put_before, row_before};
use machine::{ACCEPT, ASSERT, BEGIN, CLOSE, END, FORK, JUMP, MATCH_ROW, OPEN, RESET};
use meaning::limits::{LEAST_ROWS, NO_MAXIMUM, ROW_LIMIT, ROW_WORDS};
use meaning::refusals::Refusal;
use table::{
    ALTERNATION, ASSERTION, BYTE_SET, EMPTY, GROUP, HIGHEST, ITEMS, KIND, LAZY, LEAST, LOWEST,
    MOST, OPERAND, QUANTIFIER, SEQUENCE, SIZE, last_words, previous, word,
};

// The rows of a turn besides its part's: Fork, Begin, Reset, End.
const TURN_ROWS: usize = 4;

// The rows of the part whose records end at `top`, by its kind; an empty part has none, and there is no other kind.
#[cycle(writing)]
fn part(table: &[u32], top: usize, code: &mut [u32], end: usize) -> usize
    requires { Asks size_of table.now top code.old end }
    ensures { Lays size_of rows_of table.now top code.old code.new result end }
{
    match word(table, top, KIND) {
        BYTE_SET => put_before(code, end, consuming(last_words(table, top))),
        ASSERTION => row_before(code, end, ASSERT, word(table, top, OPERAND), 0),
        GROUP => group(table, top, code, end),
        SEQUENCE => sequence(table, top, code, end),
        ALTERNATION => alternation(table, top, code, end),
        QUANTIFIER => quantifier(table, top, code, end),
        EMPTY => end,
        _ => end,
    }
}

// A group: Open, the part inside it, Close.
#[cycle(writing)]
fn group(table: &[u32], top: usize, code: &mut [u32], end: usize) -> usize
    requires { Asks size_of table.now top code.old end × (word_of table.now top kind_word ≡ group_kind) }
    ensures { Lays size_of rows_of table.now top code.old code.new result end }
{
    let k = word(table, top, OPERAND);
    let inside = row_before(code, end, CLOSE, k, 0);
    let first = part(table, top - 1, code, inside);
    row_before(code, first, OPEN, k, 0)
}

// A sequence: its items, from the last one back.
#[cycle(writing)]
fn sequence(table: &[u32], top: usize, code: &mut [u32], end: usize) -> usize
    requires { Asks size_of table.now top code.old end × (word_of table.now top kind_word ≡ sequence_kind) }
    ensures { Lays size_of rows_of table.now top code.old code.new result end }
{
    let items = word(table, top, ITEMS);
    let mut item = top - 1;
    let mut at = end;
    for _ in 0..items {
        at = part(table, item, code, at);
        item = previous(table, item);
    }
    at
}

// An alternation: its last alternative, and then the others, from the last of them back.
#[cycle(writing)]
fn alternation(table: &[u32], top: usize, code: &mut [u32], end: usize) -> usize
    requires { Asks size_of table.now top code.old end × (word_of table.now top kind_word ≡ alternation_kind) }
    ensures { Lays size_of rows_of table.now top code.old code.new result end }
{
    let items = word(table, top, ITEMS);
    let last = top - 1;
    let mut at = part(table, last, code, end);
    let mut item = previous(table, last);
    for _ in 1..items {
        at = alternative(table, item, end as u32, code, at);
        item = previous(table, item);
    }
    at
}

// An alternative that is not the last: Fork to it or past it, its part, Jump to row `out`, the end of the alternation.
#[cycle(writing)]
fn alternative(table: &[u32], top: usize, out: u32, code: &mut [u32], end: usize) -> usize
    requires { Asks alternative_size table.now top code.old end }
    ensures { Lays alternative_size (alternative_rows out) table.now top
        code.old code.new result end }
{
    let behind = row_before(code, end, JUMP, out, 0);
    let body = part(table, top, code, behind);
    row_before(code, body, FORK, body as u32, end as u32)
}

// A quantifier: the part as often as it must be, and then the turns that can be left out.
#[cycle(writing)]
fn quantifier(table: &[u32], top: usize, code: &mut [u32], end: usize) -> usize
    requires { Asks size_of table.now top code.old end × (word_of table.now top kind_word ≡ quantifier_kind) }
    ensures { Lays size_of rows_of table.now top code.old code.new result end }
{
    let least = word(table, top, LEAST);
    let most = word(table, top, MOST);
    let lazy = word(table, top, LAZY) == 1;
    let inside = top - 1;
    if most == NO_MAXIMUM {
        let size = word(table, inside, SIZE) as usize;
        let back = end - (size + TURN_ROWS);
        let first = turn(table, inside, lazy, end as u32, back as u32, code, end);
        return repeats(table, inside, least, code, first);
    }
    let first = turns(table, inside, lazy, most - least, code, end);
    repeats(table, inside, least, code, first)
}

// Reset of a part's groups, and the part.
#[cycle(writing)]
fn fresh(table: &[u32], top: usize, code: &mut [u32], end: usize) -> usize
    requires { Asks fresh_size table.now top code.old end }
    ensures { Lays fresh_size fresh_rows table.now top code.old code.new result end }
{
    let first = part(table, top, code, end);
    row_before(
        code,
        first,
        RESET,
        word(table, top, LOWEST),
        word(table, top, HIGHEST),
    )
}

// That n times.
#[cycle(writing)]
fn repeats(table: &[u32], top: usize, n: u32, code: &mut [u32], end: usize) -> usize
    requires { Asks (repeats_size n) table.now top code.old end }
    ensures { Lays (repeats_size n) (repeats_rows n) table.now top
        code.old code.new result end }
{
    let mut at = end;
    for _ in 0..n {
        at = fresh(table, top, code, at);
    }
    at
}

// A turn that can be left out: Fork, Begin, Reset, the part, End. It goes on at row `back`, or out to row `out`. `lazy` is the
// quantifier's own word, and chooses which of the two the Fork tries first.
#[cycle(writing)]
fn turn(
    table: &[u32],
    top: usize,
    lazy: bool,
    out: u32,
    back: u32,
    code: &mut [u32],
    end: usize,
) -> usize
    requires { Asks turn_size table.now top code.old end }
    ensures { Lays turn_size (turn_of lazy out back) table.now top
        code.old code.new result end }
{
    let last = row_before(code, end, END, back, 0);
    let body = fresh(table, top, code, last);
    let first = row_before(code, body, BEGIN, 0, 0);
    if lazy {
        return row_before(code, first, FORK, out, first as u32);
    }
    row_before(code, first, FORK, first as u32, out)
}

// n turns that can be left out, each of which goes on at the next row, or out past the last.
#[cycle(writing)]
fn turns(table: &[u32], top: usize, lazy: bool, n: u32, code: &mut [u32], end: usize) -> usize
    requires { Asks (turns_size n) table.now top code.old end }
    ensures { Lays (turns_size n) (turns_of lazy end n) table.now top
        code.old code.new result end }
{
    let mut at = end;
    for _ in 0..n {
        at = turn(table, top, lazy, end as u32, at as u32, code, at);
    }
    at
}

// The prefix: five rows, which take as few bytes as can be before row 5.
fn prefix(code: &mut [u32])
    requires { Room code.old 5 }
    ensures { Wrote code.old code.new 0 5 5 (in_words prefix_rows) }
{
    let end = row_before(code, MATCH_ROW, END, 0, 0);
    let any = put_before(code, end, consuming(sets::all()));
    let clear = row_before(code, any, RESET, 1, 0);
    let begin = row_before(code, clear, BEGIN, 0, 0);
    row_before(code, begin, FORK, 5, 1);
}

// Writes the program of the pattern whose records are the table's first: header, prefix, Open 0, the pattern, Close 0, Accept.
pub fn write_program(table: &[u32], records: usize, groups: u32, code: &mut [u32])
    requires { Compiling table.now records code.old }
    ensures { Compiles table.now records groups code.old code.new }
{
    let n = LEAST_ROWS + word(table, records, SIZE);
    let accept = row_before(code, n as usize, ACCEPT, 0, 0);
    let close = row_before(code, accept, CLOSE, 0, 0);
    let first = part(table, records, code, close);
    row_before(code, first, OPEN, 0, 0);
    prefix(code);
    place(code, 0, plain(n, groups, 0));
}

// The program of the pattern whose records are the table's first, and its number of rows, unless they are too many or the code
// is too short for them.
pub fn emit(table: &[u32], records: usize, groups: u32, code: &mut [u32]) -> Result<u32, Refusal>
    requires { SomeTabled table.now records }
    ensures emits { Emits table.now records groups code.old code.new (emission_of result) }
    ensures refusals { result ≡ answer_of (emission_of result) }
{
    let n = LEAST_ROWS + word(table, records, SIZE);
    if ROW_LIMIT < n {
        return Err(Refusal::ManyRows);
    }
    if code.len() < ROW_WORDS * (n as usize + 1) {
        return Err(Refusal::ShortCode);
    }
    write_program(table, records, groups, code);
    Ok(n)
}
