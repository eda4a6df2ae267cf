// Rows as words: one row is written before row `end`, and the answer is the row where it begins.
#![tactic(auto)]

ghost use Rattle.std.specs.Prelude.{◌≡◌, ◌∷◌, ◌++◌, ◌+◌, ◌-◌, ◌*◌, ◌≤◌, ◌<◌, length, take, drop};
ghost use Rattle.meaning.specs.Limits.{row_words};
ghost use Rattle.machine.specs.Kinds.{consume_kind};
ghost use Rattle.machine.specs.Words.{plain_words};
ghost use Rattle.code_words.specs.Wrote.{Room, Wrote};

use machine::CONSUME;
use meaning::limits::{ROW_WORDS, SET_WORDS};

// The words of a row that has two operands and no set.
pub fn plain(kind: u32, a: u32, b: u32) -> [u32; ROW_WORDS]
    ensures { result ≡ plain_words kind a b }
{
    let mut row = [0u32; ROW_WORDS];
    row[machine::KIND] = kind;
    row[machine::FIRST] = a;
    row[machine::SECOND] = b;
    row
}

// The words of a row that consumes a byte of a set.
pub fn consuming(set: [u32; SET_WORDS]) -> [u32; ROW_WORDS]
    ensures { result ≡ consume_kind ∷ 0 ∷ 0 ∷ 0 ∷ set }
{
    let mut row = plain(CONSUME, 0, 0);
    *row.last_chunk_mut().unwrap() = set;
    row
}

// Writes the words of a row from word `start` on, as one array: `copy_from_slice` tests for an overlap, and took longer.
pub fn place(code: &mut [u32], start: usize, row: [u32; ROW_WORDS])
    requires { start + row_words ≤ length code.old }
    ensures { code.new ≡ take start code.old ++
        (row ++ drop (start + row_words) code.old) }
{
    let (front, _) = code.split_at_mut(start + ROW_WORDS);
    let (_, words) = front.split_at_mut(start);
    *words.as_mut_array::<ROW_WORDS>().unwrap() = row;
}

// Writes a row before row `end`.
pub fn put_before(code: &mut [u32], end: usize, row: [u32; ROW_WORDS]) -> usize
    requires { (0 < end) × Room code.old end }
    ensures { Wrote code.old code.new result end 1 row }
{
    place(code, ROW_WORDS * end, row);
    end - 1
}

// Writes a row that has two operands and no set.
pub fn row_before(code: &mut [u32], end: usize, kind: u32, a: u32, b: u32) -> usize
    requires { (0 < end) × Room code.old end }
    ensures { Wrote code.old code.new result end 1 (plain_words kind a b) }
{
    put_before(code, end, plain(kind, a, b))
}
