// Where a reader stands, and what stands behind a part: its quantifier, or the `)` of what a `(` opened.
ghost use Rattle.std.specs.Prelude.{◌≡◌, ◌*◌, ◌≤◌};
ghost use Rattle.table.specs.Stands.{SomePart};
ghost use Rattle.reading_items.specs.Answers.{got_of};
ghost use Rattle.reading_items.specs.Meets.{Behind, Room, Quantifies, Closes, Groups};

use crate::words::is_quantifier;
use meaning::refusals::{Refusal, Refused};
use reading_atoms::{Repeat, byte_at, quantifier_at};
use table::{GROUP, QUANTIFIER, put};

// How far a reading has come, as a reader is handed it and as it answers it: the place behind what was read, the top of the
// table above its records, and the groups so far. All three are as wide: a copy of padding waits for the stores before it.
#[derive(Clone, Copy, Debug, PartialEq, Eq)]
pub struct Reached {
    pub at: usize,
    pub top: usize,
    pub groups: usize,
}

// The part below the top with the quantifier that stands at the place, if there is one. Most parts have none, and make no call.
#[inline(always)]
pub fn quantified(s: &[u8], table: &mut [u32], from: Reached) -> Result<Reached, Refused>
    requires { Behind s.now table.old from.at from.top × SomePart table.old from.top }
    ensures { Quantifies s.now from.at from.groups from.top table.old table.new (got_of result) }
{
    let Some(b) = byte_at(s, from.at) else {
        return Ok(from);
    };
    if !is_quantifier(b) {
        return Ok(from);
    }
    repeated(s, table, from)
}

// The same by the quantifier's reader: a part that has a quantifier, or is refused for one.
fn repeated(s: &[u8], table: &mut [u32], from: Reached) -> Result<Reached, Refused>
    requires { Behind s.now table.old from.at from.top × SomePart table.old from.top }
    ensures { Quantifies s.now from.at from.groups from.top table.old table.new (got_of result) }
{
    let Some(repeat) = quantifier_at(s, from.at)? else {
        return Ok(from);
    };
    let Repeat {
        min,
        max,
        lazy,
        end,
    } = repeat;
    put(
        table,
        from.top,
        QUANTIFIER,
        0,
        1,
        [min, max, lazy as u32, 0, 0, 0, 0, 0],
    );
    Ok(Reached {
        at: end,
        top: from.top + 1,
        ..from
    })
}

// The part below `top` as a group; `(?:` leaves no record.
fn grouped(table: &mut [u32], top: usize, group: u32) -> usize
    requires { Room table.old top × SomePart table.old top }
    ensures { Groups group top result table.old table.new }
{
    if group == 0 {
        return top;
    }
    put(table, top, GROUP, group, 1, [0u32; 8]);
    top + 1
}

// Behind what a `(` opened stand its `)` and its quantifier.
pub fn closed(s: &[u8], table: &mut [u32], from: Reached, group: u32) -> Result<Reached, Refused>
    requires { Behind s.now table.old from.at from.top × SomePart table.old from.top × (from.top ≤ 2 * from.at) }
    ensures { Closes s.now from.at group from.groups from.top table.old table.new (got_of result) }
{
    if byte_at(s, from.at) != Some(b')') {
        return Err(Refusal::Unmatched.at(from.at));
    }
    let behind = Reached {
        at: from.at + 1,
        top: grouped(table, from.top, group),
        ..from
    };
    quantified(s, table, behind)
}
