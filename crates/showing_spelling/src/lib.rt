// The one spelling of a byte, a byte set, an assertion and a quantifier. Texts are written from their last byte back: each
// method here writes before the place of a room, which is then where its text begins. Place 0 says that room was missing,
// and is no Option: the next write goes on from it as from any place, and nobody asks until the whole text is written.
#![tactic(auto)]

mod classes;
mod counts;
mod escapes;
mod room;

ghost use Rattle.std.specs.Prelude.{◌≡◌, [], ◌∷◌, ◌≤◌, ◌<◌, ◌/◌, ◌%◌};
ghost use Rattle.meaning.specs.Limits.{last_assertion};
ghost use Rattle.reading_atoms.specs.Chars.{backslash};
ghost use Rattle.showing_spelling.specs.Wrote.{Wrote};
ghost use Rattle.showing_spelling.specs.Spelling.{guarded, hex_digit, byte_text, assertion_text};

pub use room::Room;

// The bytes that stand behind `\`, outside a class and in one.
const SPECIAL: [u8; 14] = *b"^$\\.*+?()[]{}|";

const SPECIAL_IN_CLASS: [u8; 4] = *b"\\]^-";

// Whether a byte stands behind `\`.
fn guarded(in_class: bool, b: u8) -> bool
    ensures { result ≡ guarded in_class b }
{
    if in_class {
        SPECIAL_IN_CLASS.contains(&b)
    } else {
        SPECIAL.contains(&b)
    }
}

// \t \n \v \f \r.
const CONTROLS: [u8; 5] = *b"tnvfr";

// A hex digit, with capitals.
fn hex_digit(n: u8) -> u8
    requires { n < 16 }
    ensures { result ≡ hex_digit n }
{
    if n < 10 { b'0' + n } else { b'A' + (n - 10) }
}

impl Room<'_> {
    // One byte; none where no room is left.
    pub fn put(&mut self, b: u8)
        ensures { Wrote self.old (b ∷ []) self.new }
    {
        if self.at == 0 {
            return;
        }
        self.at -= 1;
        self.out[self.at] = b;
    }

    // A byte behind `\`.
    fn put_escaped(&mut self, b: u8)
        ensures { Wrote self.old (backslash ∷ b ∷ []) self.new }
    {
        self.put(b);
        self.put(b'\\');
    }

    // `\x` and two hex digits.
    fn put_hex(&mut self, b: u8)
        ensures { Wrote self.old
            (backslash ∷ 0x78 ∷ hex_digit (b / 16) ∷ hex_digit (b % 16) ∷ []) self.new }
    {
        self.put(hex_digit(b % 16));
        self.put(hex_digit(b / 16));
        self.put_escaped(b'x');
    }

    // A byte, in a class or not.
    pub fn put_byte(&mut self, in_class: bool, b: u8)
        ensures { Wrote self.old (byte_text in_class b) self.new }
    {
        match b {
            0x09..=0x0D => self.put_escaped(CONTROLS[b as usize - 0x09]),
            0x20..=0x7E if guarded(in_class, b) => self.put_escaped(b),
            0x20..=0x7E => self.put(b),
            _ => self.put_hex(b),
        }
    }

    // An assertion by its number.
    pub fn put_assertion(&mut self, a: u32)
        requires { a ≤ last_assertion }
        ensures { Wrote self.old (assertion_text a) self.new }
    {
        match a {
            0 => self.put(b'^'),
            1 => self.put(b'$'),
            2 => self.put_escaped(b'b'),
            _ => self.put_escaped(b'B'),
        }
    }
}
