// Atoms that hold no other part, each with its quantifier, and assertions.
ghost use Rattle.std.specs.Prelude.{◌≡◌, false, ◌*◌, ◌<◌, ◌≤◌, length, take};
ghost use Rattle.sets.specs.Sets.{Formed};
ghost use Rattle.meaning.specs.Limits.{last_assertion};
ghost use Rattle.meaning.specs.Node.{Node.assert};
ghost use Rattle.table.specs.Table.{record_words};
ghost use Rattle.reading_atoms.specs.Chars.{byte_at, open_paren, ends_sequence};
ghost use Rattle.reading_atoms.specs.Classes.{class_at};
ghost use Rattle.reading_atoms.specs.Escapes.{escape_at};
ghost use Rattle.reading_items.specs.Reading.{Part.part, set_item, class_part, escape_item, item_at};
ghost use Rattle.reading_items.specs.Answers.{got_of};
ghost use Rattle.reading_items.specs.Meets.{Fine, Room, Leaves};

use crate::parts::{Reached, quantified};
use crate::words::is_quantifier;
use meaning::refusals::{Refusal, Refused};
use reading_atoms::{Class, Escape, class_at, dot_set, escape_at, literal_set, named_set};
use table::{ASSERTION, BYTE_SET, put};

// A byte set with the quantifier behind it.
fn set_item(s: &[u8], table: &mut [u32], from: Reached, set: [u32; 8]) -> Result<Reached, Refused>
    requires { Fine s.now table.old from.at from.groups from.top × Formed set }
    ensures { Leaves (set_item s.now set from.at from.groups) (got_of result) from.top table.old table.new }
{
    put(table, from.top, BYTE_SET, 0, 0, set);
    quantified(
        s,
        table,
        Reached {
            top: from.top + 1,
            ..from
        },
    )
}

// An assertion, which is never directly quantified.
fn assertion(table: &mut [u32], from: Reached, number: u32) -> Result<Reached, Refused>
    requires { Room table.old from.top × (number ≤ last_assertion) }
    ensures { Leaves (part (assert number) from.at from.groups) (got_of result) from.top table.old table.new }
{
    put(table, from.top, ASSERTION, number, 0, [0u32; 8]);
    Ok(Reached {
        top: from.top + 1,
        ..from
    })
}

// The class whose `[` stands at a place.
fn class_item(s: &[u8], table: &mut [u32], from: Reached) -> Result<Reached, Refused>
    requires { Fine s.now table.old from.at from.groups from.top × (from.at < length s.now) }
    ensures { Leaves (class_part s.now from.groups (class_at s.now from.at)) (got_of result) from.top table.old
        table.new }
{
    let Class { set, end } = class_at(s, from.at)?;
    set_item(s, table, Reached { at: end, ..from }, set)
}

// The escape whose `\` stands at a place.
fn escape_item(s: &[u8], table: &mut [u32], from: Reached) -> Result<Reached, Refused>
    requires { Fine s.now table.old from.at from.groups from.top × (from.at < length s.now) }
    ensures { Leaves (escape_item s.now from.at from.groups (escape_at false s.now from.at)) (got_of result) from.top
        table.old table.new }
{
    let behind = Reached {
        at: from.at + 2,
        ..from
    };
    match escape_at(false, s, from.at) {
        Ok(Escape::Byte(b, end)) => set_item(s, table, Reached { at: end, ..from }, literal_set(b)),
        Ok(Escape::Named(k)) => set_item(s, table, behind, named_set(k)),
        Ok(Escape::Assertion(number)) => assertion(table, behind, number),
        Err(why) => Err(why.at(from.at)),
    }
}

// The item at a place where no `(` stands, by its first byte.
pub fn single(s: &[u8], table: &mut [u32], from: Reached) -> Result<Reached, Refused>
    requires { Fine s.now table.old from.at from.groups from.top × (from.at < length s.now)
        × (byte_at s.now from.at ≡ open_paren → ⊥) }
    ensures { Leaves (item_at 0 s.now from.at from.groups) (got_of result) from.top table.old table.new }
{
    let b = s[from.at];
    if is_quantifier(b) {
        return Err(Refusal::NoAtom.at(from.at));
    }
    let behind = Reached {
        at: from.at + 1,
        ..from
    };
    match b {
        b'[' => class_item(s, table, from),
        b'\\' => escape_item(s, table, from),
        b'.' => set_item(s, table, behind, dot_set()),
        b'^' => assertion(table, behind, 0),
        b'$' => assertion(table, behind, 1),
        b']' | b'}' => Err(Refusal::Stray.at(from.at)),
        _ => set_item(s, table, behind, literal_set(b)),
    }
}
