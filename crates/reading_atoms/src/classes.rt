// Classes: `[` to `]`.
ghost use Rattle.std.specs.Prelude.{◌≡◌, false, suc, ◌≤◌, ◌<◌, length, Ok};
ghost use Rattle.sets.specs.Sets.{set_of};
ghost use Rattle.reading_atoms.specs.Classes.{class_atom, ranged, begins_range, class_item, class_go, class_at};
ghost use Rattle.reading_atoms.specs.Answers.{atom_of, class_of};

use crate::byte_sets::{class_set, literal_set, named_set};
use crate::chars::byte_at;
use crate::escapes::{Escape, escape_at};
use meaning::refusals::{Refusal, Refused};

// What a class has read: a set, and the place behind it.
#[derive(Clone, Copy, Debug, PartialEq, Eq)]
pub struct Class {
    pub set: [u32; 8],
    pub end: usize,
}

// A class atom: a byte, or the set of an escape by its number; and the place behind it.
#[derive(Clone, Copy, Debug, PartialEq, Eq)]
pub enum ClassAtom {
    One(u8, usize),
    Several(usize, usize),
}

// The atom at a place within the pattern; `-` where an atom is due is itself. A refusal is at the atom's `\`.
#[tactic(auto, unfolding(crate::specs::Classes::class_atom))]
fn class_atom(s: &[u8], at: usize) -> Result<ClassAtom, Refused>
    requires { at < length s.now }
    ensures { atom_of result ≡ class_atom s.now at }
{
    let b = s[at];
    if b != b'\\' {
        return Ok(ClassAtom::One(b, at + 1));
    }
    match escape_at(true, s, at) {
        Ok(Escape::Byte(byte, end)) => Ok(ClassAtom::One(byte, end)),
        Ok(Escape::Named(k)) => Ok(ClassAtom::Several(k, at + 2)),
        Ok(Escape::Assertion(_)) => Err(Refusal::BadEscape.at(at)),
        Err(why) => Err(why.at(at)),
    }
}

// A range whose first byte stands at `from`, once both ends are read: it may be reversed or have a set as an end.
fn ranged(held: [u32; 8], from: usize, first: ClassAtom, last: ClassAtom) -> Result<Class, Refused>
    ensures { class_of result ≡ ranged held from (atom_of (Ok first)) (atom_of (Ok last)) }
{
    match (first, last) {
        (ClassAtom::One(a, _), ClassAtom::One(b, end)) if a <= b => Ok(Class {
            set: sets::union(held, sets::range(a, b)),
            end,
        }),
        _ => Err(Refusal::BadClass.at(from)),
    }
}

// Whether the atom that ends at a place begins a range: a `-` follows that is not the last.
fn begins_range(s: &[u8], end: usize) -> bool
    ensures { result ≡ begins_range s.now end }
{
    byte_at(s, end) == Some(b'-') && !matches!(byte_at(s, end + 1), None | Some(b']'))
}

// An atom, or a range, added to a set.
fn class_item(s: &[u8], held: [u32; 8], at: usize) -> Result<Class, Refused>
    requires { at < length s.now }
    ensures { class_of result ≡ class_item s.now held at (class_atom s.now at) }
{
    let first = class_atom(s, at)?;
    let (more, end) = match first {
        ClassAtom::One(b, end) => (literal_set(b), end),
        ClassAtom::Several(k, end) => (named_set(k), end),
    };
    if begins_range(s, end) {
        return ranged(held, at, first, class_atom(s, end + 1)?);
    }
    Ok(Class {
        set: sets::union(held, more),
        end,
    })
}

// The atoms of a class from a place on, up to its `]`.
fn class_go(s: &[u8], negated: bool, from: usize) -> Result<Class, Refused>
    requires { from ≤ length s.now }
    ensures { class_of result ≡ class_go s.now negated (suc (length s.now)) (set_of (λ x. false)) from }
{
    let mut read = Class {
        set: sets::none(),
        end: from,
    };
    while read.end < s.len() {
        if s[read.end] == b']' {
            return Ok(Class {
                set: class_set(negated, read.set),
                end: read.end + 1,
            });
        }
        read = class_item(s, read.set, read.end)?;
    }
    Err(Refusal::BadClass.at(read.end))
}

// The class whose `[` stands at a place within the pattern.
#[tactic(auto, unfolding(crate::specs::Classes::class_at))]
pub fn class_at(s: &[u8], at: usize) -> Result<Class, Refused>
    requires { at < length s.now }
    ensures { class_of result ≡ class_at s.now at }
{
    if byte_at(s, at + 1) == Some(b'^') {
        return class_go(s, true, at + 2);
    }
    class_go(s, false, at + 1)
}
