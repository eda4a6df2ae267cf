// Carrying out a law of the tidier at a part of a pattern that stands as records in a table (docs/TABLE.md), in place. There are
// `n` records, and those of the part end at record number `top`, its own the last. Answered is how many records are left.
#![tactic(auto)]

ghost use Rattle.std.specs.Prelude.{◌+◌, ◌*◌, ◌<◌, ◌≤◌, length};
ghost use Rattle.table.specs.Table.{record_words};
ghost use Rattle.tidying_laws.specs.Laws.{t1, t7};
ghost use Rattle.tidying_rewriting.specs.Rewriting.{SomePlaced, SomeFitting, Rewrites, Shrinks};
ghost use Rattle.tidying_rewriting.specs.Quantifiers.{unquantified, unnested};
ghost use Rattle.tidying_rewriting.specs.Frames.{Cut};
ghost use Rattle.tidying_rewriting.specs.Series.{Rejoins};
ghost use Rattle.tidying_rewriting.specs.Dropping.{dropping};

use table::{BYTE_SET, EMPTY, ITEMS, KIND, LEAST, RECORD_WORDS, RECORDS, SEQUENCE, word};
use tidying_fitting::series::leftmost;
use tidying_fitting::{Want, start};
use tidying_shapes::{remove, set_items, stamp};

// A part becomes one record of a kind: its other records go.
fn shrink(table: &mut [u32], n: usize, top: usize, kind: u32) -> usize
    requires { SomePlaced table.old n top }
    ensures { Shrinks table.old table.new n top kind result }
{
    let gone = word(table, top, RECORDS) as usize - 1;
    let at = top - 1 - gone;
    remove(table, n, at, gone);
    stamp(table, at, kind, 0, 0, [0u32; 8]);
    n - gone
}

// The `count` records from `at` on go, and no word before them changes.
fn cut(table: &mut [u32], n: usize, at: usize, count: usize) -> usize
    requires { (at + count ≤ n) × (record_words * n ≤ length table.old) }
    ensures { Cut table.old table.new n at count result }
{
    remove(&mut table[RECORD_WORDS * at..], n - at, 0, count);
    n - count
}

// A series of which `kept` parts are left: none is empty, and one is that part. Asked: its own record is there.
pub fn rejoin(table: &mut [u32], n: usize, top: usize, kept: u32) -> usize
    requires { (0 < top) × (top ≤ n) × (record_words * n ≤ length table.old) }
    ensures { Rejoins table.old table.new n top kept result }
{
    if kept == 0 {
        stamp(table, top - 1, EMPTY, 0, 0, [0u32; 8]);
        return n;
    }
    if kept == 1 {
        remove(table, n, top - 1, 1);
        return n - 1;
    }
    set_items(table, top - 1, kept);
    n
}

// T1: empty items leave a sequence. The items are taken from the last one back, so that the words of those before stay.
// Asked: a sequence stands there that has an empty item.
pub fn drop_empty(table: &mut [u32], n: usize, top: usize) -> usize
    requires { SomeFitting t1 table.old n top }
    ensures { Rewrites t1 table.old table.new n top result }
{
    let items = word(table, top, ITEMS);
    let mut end = top - 1;
    let mut count = n;
    let mut kept: u32 = 0;
    for _ in 0..items {
        if word(table, end, KIND) == EMPTY {
            end -= 1;
            count = cut(table, count, end, 1);
        } else {
            end -= word(table, end, RECORDS) as usize;
            kept += 1;
        }
    }
    rejoin(table, count, top + count - n, kept)
}

// T2, T3, T4 and T10: a quantifier with a minimum of 0 becomes empty, and any other its part. Asked: a quantifier stands there.
pub fn unquantify(table: &mut [u32], n: usize, top: usize) -> usize
    requires { SomeFitting unquantified table.old n top }
    ensures { Rewrites unquantified table.old table.new n top result }
{
    if word(table, top, LEAST) == 0 {
        return shrink(table, n, top, EMPTY);
    }
    remove(table, n, top - 1, 1);
    n - 1
}

// T5 and T9: of a quantifier over another the inner one goes. Asked: two such quantifiers stand there.
pub fn unnest(table: &mut [u32], n: usize, top: usize) -> usize
    requires { SomeFitting unnested table.old n top }
    ensures { Rewrites unnested table.old table.new n top result }
{
    remove(table, n, top - 2, 1);
    n - 1
}

// T6 and T7: the leftmost alternative that a law looks for goes. Asked: an alternation that has one stands there.
pub fn drop_alternative(table: &mut [u32], n: usize, top: usize, sought: Want) -> usize
    requires { SomeFitting (dropping sought) table.old n top }
    ensures { Rewrites (dropping sought) table.old table.new n top result }
{
    let items = word(table, top, ITEMS);
    let end = leftmost(table, top, sought).unwrap();
    let from = start(table, end);
    let count = cut(table, n, from, end - from);
    rejoin(table, count, top + count - n, items - 1)
}

// T7: a sequence becomes the empty set, and the leftmost empty set of an alternation goes. Asked: T7 fits the part there.
pub fn void(table: &mut [u32], n: usize, top: usize) -> usize
    requires { SomeFitting t7 table.old n top }
    ensures { Rewrites t7 table.old table.new n top result }
{
    if word(table, top, KIND) == SEQUENCE {
        return shrink(table, n, top, BYTE_SET);
    }
    drop_alternative(table, n, top, Want::Void)
}
