// Sets of bytes: 256 bits in eight words. Each contract says which bytes the answer holds, for all 256 at once.
#![tactic(auto)]

ghost use Rattle.std.specs.Prelude.{◌≡◌, true, false, not, ◌||◌, ◌<◌, ◌≤◌, length, eqb};
ghost use Rattle.sets.specs.Sets.{Holds, has, same_bytes, between, is_dot, in_escape};

// The set of no byte.
pub fn none() -> [u32; 8]
    ensures { Holds result (λ x. false) }
{
    [0u32; 8]
}

// The set of all bytes.
pub fn all() -> [u32; 8]
    ensures { Holds result (λ x. true) }
{
    [!0u32; 8]
}

// Whether a byte is in a set: bit b mod 32 of word b div 32. No other routine tests one bit.
pub fn has(set: &[u32], b: u32) -> bool
    requires { (8 ≤ length set.now) × (b < 256) }
    ensures { result ≡ has set.now b }
{
    set[b as usize / 32] >> (b % 32) & 1 == 1
}

// A set with one byte more.
pub fn with(set: [u32; 8], b: u8) -> [u32; 8]
    ensures { Holds result (λ x. has set x || eqb x b) }
{
    let mut r = set;
    let i = (b / 32) as usize;
    r[i] |= 1 << (b % 32);
    r
}

// The set of one byte.
pub fn one(b: u8) -> [u32; 8]
    ensures { Holds result (λ x. eqb x b) }
{
    with(none(), b)
}

// The bytes from `first` to `last`, both included; none if they are reversed.
pub fn range(first: u8, last: u8) -> [u32; 8]
    ensures { Holds result (between first last) }
{
    let mut r = none();
    for b in first..=last {
        let more = with(r, b);
        r = more;
    }
    r
}

// The bytes of either set.
pub fn union(a: [u32; 8], b: [u32; 8]) -> [u32; 8]
    ensures { Holds result (λ x. has a x || has b x) }
{
    // By index: what a closure given to array::from_fn answers was not found by the proof.
    let mut r = [0u32; 8];
    for i in 0..8 {
        r[i] = a[i] | b[i];
    }
    r
}

// The bytes that are not in a set.
pub fn complement(a: [u32; 8]) -> [u32; 8]
    ensures { Holds result (λ x. not (has a x)) }
{
    // By index: what a closure given to map answers was not found by the proof.
    let mut r = [0u32; 8];
    for j in 0..8 {
        r[j] = !a[j];
    }
    r
}

// Whether two sets hold the same bytes, which is whether their words are the same.
pub fn same(a: [u32; 8], b: [u32; 8]) -> bool
    ensures { result ≡ same_bytes a b }
{
    a == b
}

// The digits, in word 1.
const DIGITS: u32 = 0x03FF_0000;

// A-Z and _, in word 2.
const UPPER: u32 = 0x87FF_FFFE;

// a-z, in word 3.
const LOWER: u32 = 0x07FF_FFFE;

// The spaces 09 to 0D, in word 0; the space 20 is the lowest bit of word 1.
const SPACES: u32 = 0x0000_3E00;

// The no-break space A0, in word 5.
const NO_BREAK: u32 = 0x0000_0001;

// What \d \D \w \W \s \S take, a row for each.
const ESCAPES: [[u32; 8]; 6] = [
    [0, DIGITS, 0, 0, 0, 0, 0, 0],
    [!0, !DIGITS, !0, !0, !0, !0, !0, !0],
    [0, DIGITS, UPPER, LOWER, 0, 0, 0, 0],
    [!0, !DIGITS, !UPPER, !LOWER, !0, !0, !0, !0],
    [SPACES, 1, 0, 0, 0, NO_BREAK, 0, 0],
    [!SPACES, !1, !0, !0, !0, !NO_BREAK, !0, !0],
];

// What a set escape takes, by its number: \d \D \w \W \s \S from 0 to 5.
pub fn escape(k: usize) -> [u32; 8]
    requires { k < 6 }
    ensures { Holds result (in_escape k) }
{
    ESCAPES[k]
}

// What the dot takes: all but 0A and 0D.
pub fn dot() -> [u32; 8]
    ensures { Holds result is_dot }
{
    complement(with(one(0x0A), 0x0D))
}
