// The bytes of a pattern and the words of a table, one by one.
ghost use Rattle.std.specs.Prelude.{◌≡◌, ◌++◌, ◌-◌, ◌≤◌, length, take, replicate};
ghost use Rattle.reading_atoms.specs.Chars.{byte_at, ends_sequence, is_quantifier};
ghost use Rattle.reading_items.specs.Highs.{high_in};

use reading_atoms::byte_at;

// Whether a sequence ends at a place: at the end of the pattern, at | and at ).
pub fn ends_sequence(s: &[u8], at: usize) -> bool
    ensures { result ≡ ends_sequence (byte_at s.now at) }
{
    matches!(byte_at(s, at), None | Some(b'|' | b')'))
}

// Whether a byte begins a quantifier: * + ? {
pub fn is_quantifier(b: u8) -> bool
    ensures { result ≡ is_quantifier b }
{
    matches!(b, b'*' | b'+' | b'?' | b'{')
}

// The place of the first byte above 7F.
pub fn first_high(s: &[u8]) -> Option<usize>
    ensures { result ≡ high_in s.now }
{
    s.iter().position(|b| *b > 0x7F)
}

// The words of a table from an index on are made zero.
pub fn clear(table: &mut [u32], from: usize)
    requires { from ≤ length table.old }
    ensures { table.new ≡ take from table.old ++ replicate (length table.old - from) 0 }
{
    table[from..].fill(0);
}
