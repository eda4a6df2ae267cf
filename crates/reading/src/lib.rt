// From a pattern's bytes to a table of its records, or to the outline's refusal: readers of alternatives, of sequences and of
// atoms call one another in a cycle.

#![tactic(auto)]

ghost use Rattle.std.specs.Prelude.{◌≡◌, false, ◌-◌, ◌*◌, ◌≤◌, take};
ghost use Rattle.meaning.specs.Limits.{depth_limit};
ghost use Rattle.table.specs.Table.{record_words};
ghost use Rattle.reading_atoms.specs.Chars.{byte_at, ends_sequence};
ghost use Rattle.reading_items.specs.Reading.{item_at, sequence_at, alternatives_at};
ghost use Rattle.reading_items.specs.Answers.{got_of};
ghost use Rattle.reading_items.specs.Meets.{Fine, Leaves};
ghost use Rattle.reading.specs.Answers.{Reads, Checked, reading_of};

use meaning::limits::PATTERN_LIMIT;
use meaning::refusals::{Refusal, Refused};
use reading_atoms::byte_at;
use reading_items::{
    Reached, clear, closed, ends_sequence, first_high, joined, opening_at, single, splice,
};
use table::{ALTERNATION, RECORD_WORDS, SEQUENCE};

// A pattern that was read: its records in the table, and its groups.
#[derive(Clone, Copy, Debug, PartialEq, Eq)]
pub struct Pattern {
    pub records: usize,
    pub groups: u32,
}

// An atom with its quantifier, or an assertion. What a `(` opens holds alternatives again, one level deeper.
#[cycle(alternatives_atom_sequence)]
fn atom(s: &[u8], table: &mut [u32], from: Reached, depth: u32) -> Result<Reached, Refused>
    requires { Fine s.now table.old from.at from.groups from.top × (depth ≤ depth_limit)
        × (ends_sequence (byte_at s.now from.at) ≡ false) }
    ensures { Leaves (item_at (depth_limit - depth) s.now from.at from.groups) (got_of result) from.top table.old
        table.new }
{
    if byte_at(s, from.at) != Some(b'(') {
        return single(s, table, from);
    }
    let opening = opening_at(s, from.at, depth, from.groups as u32)?;
    let opened = Reached {
        at: opening.from,
        groups: opening.groups as usize,
        ..from
    };
    let inside = alternatives(s, table, opened, depth + 1)?;
    closed(s, table, inside, opening.group)
}

// Items up to a `|`, a `)` or the end. A sequence that is an item gives its own items.
#[cycle(alternatives_atom_sequence)]
fn sequence(s: &[u8], table: &mut [u32], from: Reached, depth: u32) -> Result<Reached, Refused>
    requires { Fine s.now table.old from.at from.groups from.top × (depth ≤ depth_limit) }
    ensures { Leaves (sequence_at (depth_limit - depth) s.now from.at from.groups) (got_of result) from.top table.old
        table.new }
{
    let mut read = from;
    let mut count: u32 = 0;
    while !ends_sequence(s, read.at) {
        read = atom(s, table, read, depth)?;
        let spliced = splice(table, read.top, SEQUENCE);
        read.top = spliced.top;
        count += spliced.items;
    }
    read.top = joined(table, read.top, SEQUENCE, count);
    Ok(read)
}

// Sequences with `|` between them. An alternation that is an alternative gives its own alternatives.
#[cycle(alternatives_atom_sequence)]
fn alternatives(s: &[u8], table: &mut [u32], from: Reached, depth: u32) -> Result<Reached, Refused>
    requires { Fine s.now table.old from.at from.groups from.top × (depth ≤ depth_limit) }
    ensures { Leaves (alternatives_at (depth_limit - depth) s.now from.at from.groups) (got_of result) from.top table.old
        table.new }
{
    let mut read = from;
    let mut count: u32 = 0;
    loop {
        read = sequence(s, table, read, depth)?;
        let spliced = splice(table, read.top, ALTERNATION);
        read.top = spliced.top;
        count += spliced.items;
        if byte_at(s, read.at) != Some(b'|') {
            break;
        }
        read.at += 1;
    }
    read.top = joined(table, read.top, ALTERNATION, count);
    Ok(read)
}

// A pattern that passed checks 1 to 3: a refusal leaves a table of zeros, and a pattern its records with zeros behind them.
fn whole(pattern: &[u8], table: &mut [u32]) -> Result<Pattern, Refused>
    requires { Checked pattern.now table.old }
    ensures { Reads pattern.now table.old table.new (reading_of result) }
{
    let start = Reached {
        at: 0,
        top: 0,
        groups: 0,
    };
    match alternatives(pattern, table, start, 0) {
        Err(refused) => {
            clear(table, 0);
            Err(refused)
        }
        Ok(reached) => {
            if reached.at < pattern.len() {
                clear(table, 0);
                return Err(Refusal::Unmatched.at(reached.at));
            }
            clear(table, RECORD_WORDS * reached.top);
            Ok(Pattern {
                records: reached.top,
                groups: reached.groups as u32,
            })
        }
    }
}

// Any pattern and any table. Checks 1 to 3 come first, in order, and change nothing.
pub fn read(pattern: &[u8], table: &mut [u32]) -> Result<Pattern, Refused>
    ensures { Reads pattern.now table.old table.new (reading_of result) }
{
    let length = pattern.len();
    if length > PATTERN_LIMIT {
        return Err(Refusal::LongPattern.into());
    }
    if table.len() < 32 * (length + 1) {
        return Err(Refusal::SmallTable.into());
    }
    if let Some(place) = first_high(pattern) {
        return Err(Refusal::HighByte.at(place));
    }
    whole(pattern, table)
}
