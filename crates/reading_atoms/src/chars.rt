// The byte at a place of a pattern, and the classes of bytes that the grammar asks for.
ghost use Rattle.std.specs.Prelude.{◌≡◌};
ghost use Rattle.sets.specs.Sets.{is_digit, is_word};
ghost use Rattle.reading_atoms.specs.Chars.{byte_at, is_letter, is_hex, hex_value};
ghost use Rattle.reading_atoms.specs.Answers.{byte_of};

// The byte at a place, if the pattern goes on to there.
pub fn byte_at(s: &[u8], at: usize) -> Option<u8>
    ensures { byte_of result ≡ byte_at s.now at }
{
    s.get(at).copied()
}

// A digit, as the specs' definition of that name says it.
#[tactic(auto, unfolding(sets::specs::Sets::is_digit))]
pub fn is_digit(b: u8) -> bool
    ensures { result ≡ is_digit b }
{
    b.is_ascii_digit()
}

// A letter, of either case.
pub fn is_letter(b: u8) -> bool
    ensures { result ≡ is_letter b }
{
    b.is_ascii_alphabetic()
}

// A letter, a digit or `_`.
#[tactic(auto, unfolding(sets::specs::Sets::is_digit, sets::specs::Sets::is_word))]
pub fn is_word(b: u8) -> bool
    ensures { result ≡ is_word b }
{
    b.is_ascii_alphanumeric() || b == b'_'
}

// A hex digit, and its value.
#[tactic(auto, unfolding(sets::specs::Sets::is_digit))]
pub fn is_hex(b: u8) -> bool
    ensures { result ≡ is_hex b }
{
    b.is_ascii_hexdigit()
}

#[tactic(auto, unfolding(sets::specs::Sets::is_digit))]
pub fn hex_value(b: u8) -> u8
    ensures { result ≡ hex_value b }
{
    if is_digit(b) { b - b'0' } else { b % 32 + 9 }
}
