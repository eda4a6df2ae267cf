// Whether a table is of the form (docs/TABLE.md): the records of a tree, and zeros behind them.
#![tactic(auto)]

ghost use Rattle.std.specs.Prelude.{◌≡◌, cond, ◌+◌, ◌*◌, ◌<◌, ◌≤◌, eqb, length, get_or, unwrap_or, IfSome};
ghost use Rattle.table.specs.Table.{record_words, size_word, size_cap, word_of};
ghost use Rattle.table.specs.Derived.{record_limit};
ghost use Rattle.showing_form.specs.Form.{form_of};
ghost use Rattle.showing_form.specs.Order.{follows};
ghost use Rattle.showing_form.specs.Shapes.{counts_fit, bare, shaped, barred, opens};
ghost use Rattle.showing_form.specs.Stack.{SomeStack, Closes, SomeItems, Walks, derived_told};
ghost use Rattle.showing_form.specs.Checked.{records_of, Used, whole_fits, Zeros};

use meaning::limits::{COUNT_LIMIT, GROUP_LIMIT, LEAST_ROWS, NO_MAXIMUM, PATTERN_LIMIT, ROW_LIMIT};
use table::{
    ALTERNATION, ASSERTION, BYTE_SET, Derived, EMPTY, GROUP, HIGHEST, ITEMS, KIND, LOWEST, OPERAND,
    QUANTIFIER, RECORD_WORDS, RECORDS, SEQUENCE, SIZE, derive, last_words, previous, word,
};

// The highest assertion.
const LAST_ASSERTION: u32 = 3;

// The word of a record that is always zero.
const ZERO_WORD: usize = 7;

// Whether the last words of a record are a quantifier's counts and laziness, within the limits, and zeros.
fn counts_fit(last: [u32; 8]) -> bool
    ensures { result ≡ counts_fit last }
{
    let [least, most, lazy, ..] = last;
    least <= COUNT_LIMIT
        && (most == NO_MAXIMUM || (least <= most && most <= COUNT_LIMIT))
        && lazy <= 1
        && sets::same(last, [least, most, lazy, 0, 0, 0, 0, 0])
}

// Whether the operand and the number of items are those of a record with neither set nor counts.
fn bare(kind: u32, operand: u32, items: u32) -> bool
    ensures { result ≡ bare kind operand items }
{
    match kind {
        EMPTY => operand == 0 && items == 0,
        ASSERTION => operand <= LAST_ASSERTION && items == 0,
        GROUP => 1 <= operand && items == 1,
        SEQUENCE | ALTERNATION => operand == 0 && 2 <= items,
        _ => false,
    }
}

// Whether a record's kind, operand, number of items and last words go together.
#[tactic(auto, unfolding(crate::specs::Shapes::shaped))]
fn shaped(kind: u32, operand: u32, items: u32, last: [u32; 8]) -> bool
    ensures { result ≡ shaped kind operand items last }
{
    match kind {
        BYTE_SET => operand == 0 && items == 0,
        QUANTIFIER => operand == 0 && items == 1 && counts_fit(last),
        _ => sets::same(last, [0; 8]) && bare(kind, operand, items),
    }
}

// Whether a part's highest group stands right before the lowest of those behind it, where both have groups.
fn follows(high: u32, next: u32) -> bool
    ensures { result ≡ follows high next }
{
    high == 0 || next == 0 || next - 1 == high
}

// The lowest group of a part and those behind it.
fn lowest_of(high: u32, low: u32, next: u32) -> u32
    ensures { result ≡ cond (eqb high 0) next low }
{
    if high == 0 { next } else { low }
}

// The kind that items may not have: that of a sequence or an alternation. It is compared with a word of the table, where 0 is no
// kind, so 0 bars none.
fn barred(kind: u32) -> u32
    ensures { result ≡ barred kind }
{
    match kind {
        SEQUENCE | ALTERNATION => kind,
        _ => 0,
    }
}

// Whether a group's number stands right before the lowest of those inside it.
fn opens(kind: u32, operand: u32, next: u32) -> bool
    ensures { result ≡ opens kind operand next }
{
    kind != GROUP || next == 0 || next - 1 == operand
}

// Whether the items whose records end at `top` may stand in a part of a kind, and their groups follow on; the last one first.
fn ordered(table: &[u32], top: usize, kind: u32, operand: u32, items: u32) -> bool
    requires { SomeItems table.now top items }
    ensures { Walks result table.now top kind operand items }
{
    let not = barred(kind);
    let mut next = 0;
    let mut at = top;
    for _ in 0..items {
        let high = word(table, at, HIGHEST);
        if word(table, at, KIND) == not || !follows(high, next) {
            return false;
        }
        next = lowest_of(high, word(table, at, LOWEST), next);
        at = previous(table, at);
    }
    opens(kind, operand, next)
}

// Whether the derived words of the record before record number `top` are these, and word 7 is zero.
fn derived_told(table: &[u32], top: usize, d: Derived) -> bool
    requires { (0 < top) × (record_words * top ≤ length table.now) }
    ensures { result ≡ derived_told table.now top d }
{
    word(table, top, RECORDS) == d.records
        && word(table, top, SIZE) == d.size
        && word(table, top, LOWEST) == d.lowest
        && word(table, top, HIGHEST) == d.highest
        && word(table, top, ZERO_WORD) == 0
}

// How many parts are complete with the record at `top`, on so many before it; none where it closes none of them.
fn closes(table: &[u32], top: usize, count: usize) -> Option<usize>
    requires { SomeStack table.now top count × (record_words * (top + 1) ≤ length table.now) × (top < record_limit) }
    ensures exact { Closes (unwrap_or result 0) table.now top count }
    ensures some { IfSome result (λ n. 0 < n) }
{
    let kind = word(table, top + 1, KIND);
    let operand = word(table, top + 1, OPERAND);
    let items = word(table, top + 1, ITEMS);
    let last = last_words(table, top + 1);
    if !shaped(kind, operand, items, last) {
        return None;
    }
    if count < items as usize {
        return None;
    }
    if !ordered(table, top, kind, operand, items) {
        return None;
    }
    let d = derive(table, top, kind, operand, items, last[0], last[1]);
    if !derived_told(table, top + 1, d) {
        return None;
    }
    Some(count - items as usize + 1)
}

// The most records that a table is asked to hold, and one.
const RECORD_LIMIT: usize = 2 * (PATTERN_LIMIT + 1);

// Whether there is a record at `top`: within the limit, whole, and of a kind.
fn used(table: &[u32], top: usize) -> bool
    requires { top < record_limit }
    ensures { Used result table.now top }
{
    top + 1 < RECORD_LIMIT
        && RECORD_WORDS * (top + 1) <= table.len()
        && table[RECORD_WORDS * top] != 0
}

// Whether the whole, whose record is the one before record number `top`, has its groups from 1 on, and is within the limits.
fn whole_fits(table: &[u32], top: usize) -> bool
    requires { (0 < top) × (record_words * top ≤ length table.now) × (word_of table.now top size_word ≤ size_cap) }
    ensures { result ≡ whole_fits table.now top }
{
    let highest = word(table, top, HIGHEST);
    (highest == 0 || word(table, top, LOWEST) == 1)
        && highest <= GROUP_LIMIT
        && LEAST_ROWS + word(table, top, SIZE) <= ROW_LIMIT
}

// Whether all words from an index on are zero.
fn zeros(table: &[u32], from: usize) -> bool
    ensures { Zeros result table.now from }
{
    table.iter().skip(from).all(|w| *w == 0)
}

// How many records a table of the form has; none for any other table. One pass: each record closes items of the parts complete
// before it, and in the end one part is left, with zeros behind it.
pub fn form(table: &[u32]) -> Option<usize>
    ensures exact { unwrap_or result 0 ≡ records_of (form_of table.now) }
    ensures some { IfSome result (λ n. 0 < n) }
{
    let mut top = 0;
    let mut count = 0;
    while used(table, top) {
        count = closes(table, top, count)?;
        top += 1;
    }
    if count != 1 {
        return None;
    }
    if !whole_fits(table, top) {
        return None;
    }
    if !zeros(table, RECORD_WORDS * top) {
        return None;
    }
    Some(top)
}
