// What a `(` opens.
ghost use Rattle.std.specs.Prelude.{◌≡◌, ◌+◌, ◌≤◌, ◌<◌, length};
ghost use Rattle.meaning.specs.Limits.{pattern_limit, depth_limit, group_limit};
ghost use Rattle.reading_atoms.specs.Chars.{byte_at, open_paren, question};
ghost use Rattle.reading_atoms.specs.Answers.{byte_of};
ghost use Rattle.reading_items.specs.Reading.{is_look};
ghost use Rattle.reading_items.specs.Answers.{opening_of};
ghost use Rattle.reading_items.specs.Meets.{Opens, OpensAt};

use meaning::limits::{DEPTH_LIMIT, GROUP_LIMIT};
use meaning::refusals::{Refusal, Refused};
use reading_atoms::byte_at;

// Alternatives from a place on, a group's number or 0 for `(?:`, and the groups so far. The 0 is no None: `closed`
// takes any number, and would have to require that a group's is not 0.
#[derive(Clone, Copy, Debug, PartialEq, Eq)]
pub struct Opening {
    pub from: usize,
    pub group: u32,
    pub groups: u32,
}

// Whether a byte makes `(?` a form that is left out: `=` `!` `<`.
fn is_look(b: Option<u8>) -> bool
    ensures { result ≡ is_look (byte_of b) }
{
    matches!(b, Some(b'=' | b'!' | b'<'))
}

// Behind `(?`. A form that is left out is refused before the depth, by the smaller number; a `?` with no form after it, behind
// the depth, by the greater place.
fn behind_question(s: &[u8], at: usize, depth: u32, groups: u32) -> Result<Opening, Refused>
    requires { OpensAt s.now at depth groups × (byte_at s.now (at + 1) ≡ question) }
    ensures { Opens s.now at depth groups (opening_of result) }
{
    let b = byte_at(s, at + 2);
    if is_look(b) {
        return Err(Refusal::LeftOut.at(at));
    }
    if depth == DEPTH_LIMIT {
        return Err(Refusal::TooDeep.at(at));
    }
    if b != Some(b':') {
        return Err(Refusal::NoAtom.at(at + 1));
    }
    Ok(Opening {
        from: at + 3,
        group: 0,
        groups,
    })
}

// What the `(` at a place opens, below `depth` others.
#[tactic(auto, using(crate::proofs::Opens::group_deep, crate::proofs::Opens::group_many, crate::proofs::Opens::group_opens))]
pub fn opening_at(s: &[u8], at: usize, depth: u32, groups: u32) -> Result<Opening, Refused>
    requires { OpensAt s.now at depth groups }
    ensures { Opens s.now at depth groups (opening_of result) }
{
    if byte_at(s, at + 1) == Some(b'?') {
        return behind_question(s, at, depth, groups);
    }
    if depth == DEPTH_LIMIT {
        return Err(Refusal::TooDeep.at(at));
    }
    if GROUP_LIMIT <= groups {
        return Err(Refusal::ManyGroups.at(at));
    }
    Ok(Opening {
        from: at + 1,
        group: groups + 1,
        groups: groups + 1,
    })
}
