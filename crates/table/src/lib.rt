// The table: the records of a pattern, 16 words each, a part after the parts inside it (docs/TABLE.md). It is lent, as code and
// workspace are: there is no heap, and the sizes are the outline's, so that a tree of boxes or a vector has no place here.
#![tactic(auto)]

ghost use Rattle.std.specs.Prelude.{◌≡◌, ◌+◌, ◌-◌, ◌*◌, ◌<◌, ◌≤◌, min, max, length, take, drop, get_or};
ghost use Rattle.std.proofs.Math.Seq.{paste};
ghost use Rattle.meaning.specs.Node.{lower};
ghost use Rattle.meaning.specs.Limits.{no_maximum, set_words};
ghost use Rattle.table.specs.Table.{record_words, records_word, set_word, word_of, size_cap};
ghost use Rattle.table.specs.Derived.{root_of, beside_of, leaf_of, turns_of, closed_size};
ghost use Rattle.table.specs.Stands.{SomeSeries, SomeMade, Along, Derives, Beside, Closing, Putting, Puts};

use meaning::limits::{NO_MAXIMUM, ROW_LIMIT, SET_WORDS};

// The words of a record, and which they are: kind, operand, records, items, size, lowest and highest group; from SET on a byte
// set, or a quantifier's minimum, maximum and laziness. specs/Table.antt has the definitions.
pub const RECORD_WORDS: usize = 16;

pub const KIND: usize = 0;

pub const OPERAND: usize = 1;

pub const RECORDS: usize = 2;

pub const ITEMS: usize = 3;

pub const SIZE: usize = 4;

pub const LOWEST: usize = 5;

pub const HIGHEST: usize = 6;

pub const SET: usize = 8;

pub const LEAST: usize = 8;

pub const MOST: usize = 9;

pub const LAZY: usize = 10;

// The kinds of records.
pub const EMPTY: u32 = 1;

pub const BYTE_SET: u32 = 2;

pub const ASSERTION: u32 = 3;

pub const GROUP: u32 = 4;

pub const SEQUENCE: u32 = 5;

pub const ALTERNATION: u32 = 6;

pub const QUANTIFIER: u32 = 7;

// The size in rows is held at a cap just above the limit of rows.
const SIZE_CAP: u32 = ROW_LIMIT + 1;

// The words of a record that are derived of its part.
#[derive(Drop)]
pub struct Derived {
    pub records: u32,
    pub size: u32,
    pub lowest: u32,
    pub highest: u32,
}

// Word `which` of the record before record number `top`.
pub fn word(table: &[u32], top: usize, which: usize) -> u32
    requires { (0 < top) × (which < record_words) × (record_words * top ≤ length table.now) }
    ensures { result ≡ word_of table.now top which }
{
    table[RECORD_WORDS * (top - 1) + which]
}

// Where the part before the one that ends at `top` ends.
pub fn previous(table: &[u32], top: usize) -> usize
    requires { (0 < top) × (record_words * top ≤ length table.now) × (word_of table.now top records_word ≤ top) }
    ensures { result ≡ top - word_of table.now top records_word }
{
    top - word(table, top, RECORDS) as usize
}

// The last eight words of that record: a byte set, or a quantifier's minimum, maximum and laziness.
pub fn last_words(table: &[u32], top: usize) -> [u32; SET_WORDS]
    requires { (0 < top) × (record_words * top ≤ length table.now) }
    ensures { result ≡ take set_words (drop (record_words * (top - 1) + set_word) table.now) }
{
    let from = RECORD_WORDS * (top - 1) + SET;
    *table[from..from + SET_WORDS].as_array().unwrap()
}

// The derived words of the record before record number `top`.
pub fn root(table: &[u32], top: usize) -> Derived
    requires { (0 < top) × (record_words * top ≤ length table.now) }
    ensures { result ≡ root_of table.now top }
{
    Derived {
        records: word(table, top, RECORDS),
        size: word(table, top, SIZE),
        lowest: word(table, top, LOWEST),
        highest: word(table, top, HIGHEST),
    }
}

// A size held at the cap.
fn capped(size: u32) -> u32
    ensures { result ≡ min size size_cap }
{
    size.min(SIZE_CAP)
}

// The first of two numbers where there are groups, else the second. A highest group of 0 is the table's word for none.
fn first_with(highest: u32, first: u32, second: u32) -> u32
    ensures { result ≡ lower highest first second }
{
    if highest == 0 { second } else { first }
}

// The derived words of two neighbours together.
fn beside(left: Derived, right: Derived) -> Derived
    requires { Beside left right }
    ensures { result ≡ beside_of left right }
{
    Derived {
        records: left.records + right.records,
        size: capped(left.size + right.size),
        lowest: first_with(left.highest, left.lowest, right.lowest),
        highest: left.highest.max(right.highest),
    }
}

// The derived words of the items whose records end at `top`, together. They are taken from the last one back: its root
// stands right below `top`, and says where the one before it ends.
fn along(table: &[u32], top: usize, items: u32) -> Derived
    requires { SomeSeries table.now top items }
    ensures { Along result table.now top items }
{
    let mut all = root(table, top);
    for _ in 1..items {
        let passed = all.records as usize;
        let both = beside(root(table, top - passed), all);
        all = both;
    }
    all
}

// The rows of a quantifier over a part: the minimum times a Reset and the part, and then the turns that can be left out.
fn turns(size: u32, least: u32, most: u32) -> u32
    requires { (size ≤ size_cap) × (least ≤ most) × (most ≤ no_maximum) }
    ensures { result ≡ turns_of size least most }
{
    let forced = least * (size + 1);
    if most == NO_MAXIMUM {
        return forced + (size + 4);
    }
    forced + (most - least) * (size + 4)
}

// The size of a part, held at the cap, by that of the parts inside it.
fn closed_size(kind: u32, items: u32, least: u32, most: u32, size: u32) -> u32
    requires { Closing kind items least most size }
    ensures { result ≡ closed_size kind items least most size }
{
    match kind {
        GROUP => capped(size + 2),
        ALTERNATION => capped(size + 2 * (items - 1)),
        QUANTIFIER => capped(turns(size, least, most)),
        _ => capped(size),
    }
}

// The derived words of a part with no parts inside it: an empty one has no rows.
fn leaf(kind: u32) -> Derived
    ensures { result ≡ leaf_of kind }
{
    let size = if kind == EMPTY { 0 } else { 1 };
    Derived {
        records: 1,
        size,
        lowest: 1,
        highest: 0,
    }
}

// The derived words of a part whose own record is to stand at `top`, on the records of its items.
pub fn derive(
    table: &[u32],
    top: usize,
    kind: u32,
    operand: u32,
    items: u32,
    least: u32,
    most: u32,
) -> Derived
    requires { SomeMade table.now top kind operand items least most }
    ensures { Derives result table.now top kind operand items least most }
{
    if kind <= ASSERTION {
        return leaf(kind);
    }
    let inside = along(table, top, items);
    let size = closed_size(kind, items, least, most, inside.size);
    let records = inside.records + 1;
    if kind == GROUP {
        return Derived {
            records,
            size,
            lowest: operand,
            highest: operand.max(inside.highest),
        };
    }
    Derived {
        records,
        size,
        ..inside
    }
}

// The words of a record into the table from an index on. By a loop: `copy_from_slice` tests for an overlap, and was slower.
pub fn copy(table: &mut [u32], base: usize, words: &[u32; RECORD_WORDS])
    requires { (base + record_words ≤ length table.old) × (length words.now ≡ record_words) }
    ensures { table.new ≡ paste table.old base words.now record_words }
{
    for k in 0..RECORD_WORDS {
        table[base + k] = words[k];
    }
}

// The whole record at `top`, on the records of its items. Its last eight words are a byte set; or a quantifier's minimum,
// maximum and laziness; or zero.
pub fn put(table: &mut [u32], top: usize, kind: u32, operand: u32, items: u32, last: [u32; 8])
    requires { Putting table.old top kind operand items last }
    ensures { Puts table.old table.new top kind operand items last }
{
    let d = derive(table, top, kind, operand, items, last[0], last[1]);
    let words = [
        kind, operand, d.records, items, d.size, d.lowest, d.highest, 0, last[0], last[1], last[2],
        last[3], last[4], last[5], last[6], last[7],
    ];
    copy(table, RECORD_WORDS * top, &words);
}
