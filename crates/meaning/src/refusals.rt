// The outline's grounds for turning a call away, each under one name. specs/Refusals.antt has the numbers, and specs/Refusing.antt
// which number is whose.
ghost use Rattle.std.specs.Prelude.{◌≡◌};
ghost use Rattle.meaning.specs.Refusing.{number_of};

use std::error::Error;
use std::fmt;

// Why a call was turned away. A ground's number is part of what the outline promises.
#[derive(Clone, Copy, Debug, PartialEq, Eq)]
pub enum Refusal {
    // The checks that come before a pattern is read: it is too long; the table is too small; a byte is above 7F.
    LongPattern,
    SmallTable,
    HighByte,
    // An escape neither listed nor left out, or `\` at the end.
    BadEscape,
    // What the standard has and this matcher leaves out.
    LeftOut,
    // A quantifier with no atom to repeat, and a `?` behind `(`.
    NoAtom,
    // A `{` that is not one of the three forms; a count above the limit; a minimum above the maximum.
    BadBraces,
    HighCount,
    ReversedCounts,
    // A range reversed or with a set as an end; a class unclosed.
    BadClass,
    // A `)` unmatched, or a `(` unclosed.
    Unmatched,
    // A stray `]` or `}`.
    Stray,
    // Parentheses too deep, and a group too many.
    TooDeep,
    ManyGroups,
    // A pattern that was read and has no program: too many rows, and code too short for them.
    ManyRows,
    ShortCode,
    // A run: code fails its check; the text is too long; the start is beyond it; too few registers; too small a workspace.
    CodeFails,
    LongText,
    StartBeyond,
    FewRegisters,
    SmallWorkspace,
    // A list too short for the matches of a repetition.
    ShortList,
    // A table to be shown: it is outside the form; its text is too long, too deep or larger than the room.
    OutsideForm,
    Unshown,
    // A span that is no number, one of no bytes included; a gate whose limit is no number.
    BadField,
    BadGate,
}

impl Refusal {
    // The outline's number.
    pub fn number(self) -> u32
        ensures { result ≡ number_of self }
    {
        match self {
            Refusal::LongPattern => 1,
            Refusal::SmallTable => 2,
            Refusal::HighByte => 3,
            Refusal::BadEscape => 4,
            Refusal::LeftOut => 5,
            Refusal::NoAtom => 6,
            Refusal::BadBraces => 7,
            Refusal::HighCount => 8,
            Refusal::ReversedCounts => 9,
            Refusal::BadClass => 10,
            Refusal::Unmatched => 11,
            Refusal::Stray => 12,
            Refusal::TooDeep => 13,
            Refusal::ManyGroups => 14,
            Refusal::ManyRows => 15,
            Refusal::ShortCode => 16,
            Refusal::CodeFails => 20,
            Refusal::LongText => 21,
            Refusal::StartBeyond => 22,
            Refusal::FewRegisters => 23,
            Refusal::SmallWorkspace => 24,
            Refusal::ShortList => 25,
            Refusal::OutsideForm => 26,
            Refusal::Unshown => 27,
            Refusal::BadField => 28,
            Refusal::BadGate => 29,
        }
    }

    // The refusal about a place.
    pub fn at(self, place: usize) -> Refused
        ensures { result ≡ record { why = self; place = place } }
    {
        Refused { why: self, place }
    }
}

// A refusal, and the place in the pattern that it is about.
#[derive(Clone, Copy, Debug, PartialEq, Eq)]
pub struct Refused {
    pub why: Refusal,
    pub place: usize,
}

// What is not about a place in the pattern is at place 0.
impl From<Refusal> for Refused {
    ghost from_gives = { λ why refused. refused ≡ record { why = why; place = 0 } };

    fn from(why: Refusal) -> Refused {
        why.at(0)
    }
}

impl fmt::Display for Refusal {
    fn fmt<W: fmt::Write>(&self, f: &mut fmt::Formatter<W>) -> fmt::Result {
        write!(f, "refused {}", self.number())
    }
}

impl fmt::Display for Refused {
    fn fmt<W: fmt::Write>(&self, f: &mut fmt::Formatter<W>) -> fmt::Result {
        write!(f, "{} at {}", self.why, self.place)
    }
}

impl Error for Refusal {}

impl Error for Refused {}
