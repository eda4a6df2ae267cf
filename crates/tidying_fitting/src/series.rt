// The tests of the laws for the items of a sequence and the alternatives of an alternation, T1 and T6 to T8. Each looks for a part
// in a series, and the parts of a series are passed from the last one back: its own record says where the one before it ends.
ghost use Rattle.std.specs.Prelude.{[]};
ghost use Rattle.tidying_laws.specs.Equal.{same};
ghost use Rattle.tidying_laws.specs.Laws.{is_void, t7};
ghost use Rattle.tidying_laws.specs.Alternatives.{past};
ghost use Rattle.tidying_fitting.specs.Fitting.{fits};
ghost use Rattle.table.specs.Stands.{SomePart};
ghost use Rattle.tidying_fitting.specs.Parts.{SomeLast, Tells, TellsLast, TellsBoth, FirstEnds};
ghost use Rattle.tidying_fitting.specs.Wants.{wants, alike, goes, follows, repeats, wanted_end, has_wanted};

use super::{Want, last_words, own, start};
use table::{ALTERNATION, BYTE_SET, EMPTY, RECORD_WORDS, SEQUENCE};

// Whether a part is a byte set with no byte.
fn is_void(table: &[u32], top: usize) -> bool
    requires { SomePart table.now top }
    ensures { Tells result table.now top is_void }
{
    own(table, top).kind == BYTE_SET && sets::same(last_words(table, top), sets::none())
}

// Where the first item of a part ends: the items of a sequence are passed from the last one back, any other part is its own.
fn first_item(table: &[u32], top: usize) -> usize
    requires { SomePart table.now top }
    ensures { FirstEnds result table.now top }
{
    let whole = own(table, top);
    if whole.kind != SEQUENCE {
        return top;
    }
    let mut end = top - 1;
    for _ in 1..whole.items {
        end = start(table, end);
    }
    end
}

// Whether the first items of two parts are the same byte set.
pub fn begins_alike(table: &[u32], one: usize, other: usize) -> bool
    requires { SomePart table.now one × SomePart table.now other }
    ensures { TellsBoth result table.now one other alike }
{
    let a = first_item(table, one);
    let b = first_item(table, other);
    own(table, a).kind == BYTE_SET
        && own(table, b).kind == BYTE_SET
        && sets::same(last_words(table, a), last_words(table, b))
}

// T8: whether the last part of a series begins as its left neighbour does.
fn follows(table: &[u32], top: usize, items: u32) -> bool
    requires { SomeLast table.now top items }
    ensures { TellsLast result table.now top items (λ front q. follows (past front []) q) }
{
    1 < items && begins_alike(table, start(table, top), top)
}

// Whether two parts are equal: their records are, word for word.
fn same_part(table: &[u32], one: usize, other: usize) -> bool
    requires { SomePart table.now one × SomePart table.now other }
    ensures { TellsBoth result table.now one other same }
{
    let from = start(table, one);
    let back = start(table, other);
    table[RECORD_WORDS * from..RECORD_WORDS * one]
        == table[RECORD_WORDS * back..RECORD_WORDS * other]
}

// Whether the last part of a series equals an earlier one.
fn repeats(table: &[u32], top: usize, items: u32) -> bool
    requires { SomeLast table.now top items }
    ensures { TellsLast result table.now top items (λ front q. repeats (past front []) q) }
{
    let mut end = start(table, top);
    for _ in 1..items {
        if same_part(table, top, end) {
            return true;
        }
        end = start(table, end);
    }
    false
}

// T6: whether the last part of a series has no group and equals an earlier one.
fn goes(table: &[u32], top: usize, items: u32) -> bool
    requires { SomeLast table.now top items }
    ensures { TellsLast result table.now top items (λ front q. goes (past front []) q) }
{
    own(table, top).highest == 0 && repeats(table, top, items)
}

// Whether the last part of a series is what a law looks for.
fn wanted(table: &[u32], top: usize, items: u32, want: Want) -> bool
    requires { SomeLast table.now top items }
    ensures { TellsLast result table.now top items (λ front q. wants want (past front []) q) }
{
    match want {
        Want::Empty => own(table, top).kind == EMPTY,
        Want::Equal => goes(table, top, items),
        Want::Void => is_void(table, top),
        Want::Alike => follows(table, top, items),
    }
}

// Where the leftmost such part among the parts of a part ends. They are passed from the last one back.
pub fn leftmost(table: &[u32], top: usize, want: Want) -> Option<usize>
    requires { SomePart table.now top }
    ensures { Tells result table.now top (wanted_end want top) }
{
    let mut end = top - 1;
    let mut found = None;
    for left in (1..=own(table, top).items).rev() {
        if wanted(table, end, left, want) {
            found = Some(end);
        }
        end = start(table, end);
    }
    found
}

// Whether a part is of a kind, and among its parts is one that a law looks for.
pub(super) fn has_wanted(table: &[u32], top: usize, kind: u32, want: Want) -> bool
    requires { SomePart table.now top }
    ensures { Tells result table.now top (has_wanted kind want) }
{
    own(table, top).kind == kind && leftmost(table, top, want).is_some()
}

// T7: an alternative is a set with no byte, or an item of a sequence without groups.
pub fn void_part(table: &[u32], top: usize) -> bool
    requires { SomePart table.now top }
    ensures { Tells result table.now top (fits t7) }
{
    has_wanted(table, top, ALTERNATION, Want::Void)
        || has_wanted(table, top, SEQUENCE, Want::Void) && own(table, top).highest == 0
}
