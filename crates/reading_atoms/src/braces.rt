// Quantifiers: * + ? {n} {n,} {n,m}, each lazy with a ? after it.
ghost use Rattle.std.specs.Prelude.{◌≡◌, ℕ, ◌<◌, ◌≤◌, length, Ok, Some};
ghost use Rattle.reading_atoms.specs.Braces.{number_at, judged, unlimited, after_comma, braces_at, lazily, quantifier_at};
ghost use Rattle.reading_atoms.specs.Answers.{Capped, braces_of, counts_of, QuantifierIs};

use crate::chars::byte_at;
use meaning::limits::{COUNT_LIMIT, NO_MAXIMUM};
use meaning::refusals::{Refusal, Refused};

// A count is taken apart into its two numbers and the place behind it, or refused.
// An enum of its own, not a Result: docs/01-scope.md names this form for it, which let .. else takes apart.
#[derive(Clone, Copy, Debug, PartialEq, Eq)]
pub enum Braces {
    Counts(u32, u32, usize),
    Refused(Refusal),
}

// The value of the digits from a place on, held at a cap above every count, and the place behind them.
#[derive(Clone, Copy, Debug, PartialEq, Eq)]
pub struct Number {
    pub value: u32,
    pub end: usize,
}

// A quantifier's counts, its laziness and the place behind it. No maximum is NO_MAXIMUM, as in the table's words.
#[derive(Clone, Copy, Debug, PartialEq, Eq)]
pub struct Repeat {
    pub min: u32,
    pub max: u32,
    pub lazy: bool,
    pub end: usize,
}

// Leading zeros are allowed, and any number of digits: past the cap another digit changes nothing.
fn number_at(s: &[u8], at: usize) -> Number
    ensures { Capped result (number_at s.now at) }
{
    let mut value = 0;
    let mut end = at;
    while let Some(digit @ b'0'..=b'9') = byte_at(s, end) {
        value = (10 * value + u32::from(digit - b'0')).min(NO_MAXIMUM);
        end += 1;
    }
    Number { value, end }
}

// Two counts: one may be above the limit, or the minimum above the maximum.
fn judged(min: u32, max: u32, end: usize) -> Braces
    ensures { braces_of result ≡ judged min max end }
{
    if min > COUNT_LIMIT || max > COUNT_LIMIT {
        return Braces::Refused(Refusal::HighCount);
    }
    if max < min {
        return Braces::Refused(Refusal::ReversedCounts);
    }
    Braces::Counts(min, max, end)
}

// A minimum and no maximum.
fn unlimited(min: u32, end: usize) -> Braces
    ensures { braces_of result ≡ unlimited min end }
{
    if min > COUNT_LIMIT {
        return Braces::Refused(Refusal::HighCount);
    }
    Braces::Counts(min, NO_MAXIMUM, end)
}

// Behind the comma: `}`, or a number and `}`.
#[tactic(auto, unfolding(sets::specs::Sets::is_digit))]
fn after_comma(s: &[u8], min: u32, at: usize) -> Braces
    ensures { braces_of result ≡ after_comma s.now min at }
{
    match byte_at(s, at) {
        Some(b'}') => unlimited(min, at + 1),
        Some(b'0'..=b'9') => {
            let Number { value, end } = number_at(s, at);
            match byte_at(s, end) {
                Some(b'}') => judged(min, value, end + 1),
                _ => Braces::Refused(Refusal::BadBraces),
            }
        }
        _ => Braces::Refused(Refusal::BadBraces),
    }
}

// The counts whose `{` stands at a place within the pattern.
#[tactic(auto, unfolding(crate::specs::Braces::braces_at, sets::specs::Sets::is_digit))]
pub fn braces_at(s: &[u8], at: usize) -> Braces
    requires { at < length s.now }
    ensures { braces_of result ≡ braces_at s.now at }
{
    let Some(b'0'..=b'9') = byte_at(s, at + 1) else {
        return Braces::Refused(Refusal::BadBraces);
    };
    let Number { value, end } = number_at(s, at + 1);
    match byte_at(s, end) {
        Some(b'}') => judged(value, value, end + 1),
        Some(b',') => after_comma(s, value, end + 1),
        _ => Braces::Refused(Refusal::BadBraces),
    }
}

// A ? makes it lazy; the counts have a quantifier wherever their braces stand.
fn lazily(s: &[u8], min: u32, max: u32, end: usize) -> Repeat
    requires { min ≤ max }
    ensures { (at : ℕ) → QuantifierIs (Ok (Some result)) (lazily s.now at (counts_of min max end)) }
{
    if byte_at(s, end) == Some(b'?') {
        return Repeat {
            min,
            max,
            lazy: true,
            end: end + 1,
        };
    }
    Repeat {
        min,
        max,
        lazy: false,
        end,
    }
}

// What stands behind an atom that ends at a place: no quantifier; one; or a refusal at its `{`.
#[tactic(auto, unfolding(crate::specs::Braces::quantifier_at))]
pub fn quantifier_at(s: &[u8], at: usize) -> Result<Option<Repeat>, Refused>
    ensures { QuantifierIs result (quantifier_at s.now at) }
{
    match byte_at(s, at) {
        Some(b'*') => Ok(Some(lazily(s, 0, NO_MAXIMUM, at + 1))),
        Some(b'+') => Ok(Some(lazily(s, 1, NO_MAXIMUM, at + 1))),
        Some(b'?') => Ok(Some(lazily(s, 0, 1, at + 1))),
        Some(b'{') => {
            let found = braces_at(s, at);
            let Braces::Counts(min, max, end) = found else {
                let Braces::Refused(why) = found else {
                    unreachable!()
                };
                return Err(why.at(at));
            };
            Ok(Some(lazily(s, min, max, end)))
        }
        _ => Ok(None),
    }
}
