// The primitive edits of a table of records: whole records go, come, and say something else. What a record says by itself is its
// token; the words that are derived of its parts are stale after an edit, and one pass writes them anew.
#![tactic(auto)]

ghost use Rattle.std.specs.Prelude.{◌≡◌, ◌+◌, ◌-◌, ◌*◌, ◌<◌, ◌≤◌, length};
ghost use Rattle.table.specs.Table.{record_words};
ghost use Rattle.tidying_shapes.specs.Skeleton.{token_of};
ghost use Rattle.tidying_shapes.specs.Edits.{Removed, Inserted, Stamped, Counted};
ghost use Rattle.tidying_shapes.specs.Merging.{Parented, place_of, Inside, SomeUnmerged, Merged};
ghost use Rattle.tidying_shapes.specs.Fresh.{SomeSaid, Refreshed};

use table::{ALTERNATION, ITEMS, OPERAND, RECORD_WORDS, SEQUENCE};

// The `count` records from `at` on go: the words behind them move down.
pub fn remove(table: &mut [u32], n: usize, at: usize, count: usize)
    requires { (at + count ≤ n) × (record_words * n ≤ length table.old) }
    ensures { Removed table.old table.new n at count }
{
    table.copy_within(
        RECORD_WORDS * (at + count)..RECORD_WORDS * n,
        RECORD_WORDS * at,
    );
}

// Room for a record at `at`: the words from there on move up.
pub fn insert(table: &mut [u32], n: usize, at: usize)
    requires { (at ≤ n) × (record_words * (n + 1) ≤ length table.old) }
    ensures { Inserted table.old table.new n at }
{
    table.copy_within(RECORD_WORDS * at..RECORD_WORDS * n, RECORD_WORDS * (at + 1));
}

// The record at `at` becomes one of this kind, operand, number of items and last eight words.
pub fn stamp(table: &mut [u32], at: usize, kind: u32, operand: u32, items: u32, last: [u32; 8])
    requires { (record_words * (at + 1) ≤ length table.old) × (length last ≡ 8) }
    ensures { Stamped table.old table.new at (token_of kind operand items last) }
{
    let words = [
        kind, operand, 0, items, 0, 0, 0, 0, last[0], last[1], last[2], last[3], last[4], last[5],
        last[6], last[7],
    ];
    table::copy(table, RECORD_WORDS * at, &words);
}

// The record at `at` says that it has so many items.
pub fn set_items(table: &mut [u32], at: usize, items: u32)
    requires { record_words * (at + 1) ≤ length table.old }
    ensures { Counted table.old table.new at items }
{
    table[RECORD_WORDS * at + ITEMS] = items;
}

// The record that a part, whose own record is `part`, is an item of: the first behind it that takes more items than there are
// parts since.
pub fn parent(table: &[u32], n: usize, part: usize) -> Option<usize>
    requires { (part < n) × (record_words * n ≤ length table.now) }
    ensures parented { Parented table.now n part (place_of n result) }
    ensures inside { Inside n result }
{
    let mut since: usize = 0;
    for at in part + 1..n {
        let items = table[RECORD_WORDS * at + ITEMS] as usize;
        if since < items {
            return Some(at);
        }
        since = since + 1 - items;
    }
    None
}

// A part, whose own record is `root`, becomes a part of its parent: where that is a row of the part's own kind, its own record
// goes, and its items are the parent's. Answers how many records there are then.
pub fn merge(table: &mut [u32], n: usize, root: usize) -> usize
    requires { SomeUnmerged table.old n root }
    ensures { Merged table.old table.new n root result }
{
    let kind = table[RECORD_WORDS * root];
    if kind != SEQUENCE && kind != ALTERNATION {
        return n;
    }
    let Some(at) = parent(table, n, root) else {
        return n;
    };
    if table[RECORD_WORDS * at] != kind {
        return n;
    }
    let items = table[RECORD_WORDS * at + ITEMS] + table[RECORD_WORDS * root + ITEMS] - 1;
    set_items(table, at, items);
    remove(table, n, root, 1);
    n - 1
}

// The derived words of every record, written anew from left to right: a record stands on those of its parts, which are written.
pub fn refresh(table: &mut [u32], n: usize)
    requires { SomeSaid table.old n }
    ensures { Refreshed table.old table.new n }
{
    for at in 0..n {
        let kind = table[RECORD_WORDS * at];
        let operand = table[RECORD_WORDS * at + OPERAND];
        let items = table[RECORD_WORDS * at + ITEMS];
        let last = table::last_words(table, at + 1);
        table::put(table, at, kind, operand, items, last);
    }
}
