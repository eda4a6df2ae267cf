// Words of 32 bits as bytes, four to a word, low byte first: how a program in another language hands words over.
#![tactic(auto)]

ghost use Rattle.std.specs.Prelude.{◌≡◌, refl, ℕ, ◌*◌, ◌^◌, ◌≤◌, ◌<◌, length};
ghost use Rattle.std.specs.Int.{w32, cast_unsigned, cast_signed};
ghost use Rattle.std.proofs.lemmas.Int.{of_z-to_z};
ghost use Rattle.wire.specs.Wire.{word_of4, bytes_of_word, loaded, stored, written};

// A number that is passed as the four bytes of a word.
pub trait Word: Copy {
    // The number's word, and the number of a word.
    ghost bits: { Self → ℕ };

    ghost of_bits: { ℕ → Self };

    fn to_bytes(self) -> [u8; 4]
        ensures { result ≡ bytes_of_word (bits self) };

    fn from_bytes(bytes: [u8; 4]) -> Self
        ensures { result ≡ of_bits (word_of4 bytes 0) };

    // No word is lost.
    ghost back: { (n : ℕ) → n < 2 ^ 32 → bits (of_bits n) ≡ n };
}

// A word is itself.
#[tactic(auto, using(crate::proofs::Passing::bytes_machine, crate::proofs::Passing::word_machine))]
impl Word for u32 {
    ghost bits = { λ n. n };

    ghost of_bits = { λ n. n };

    ghost back = { λ n _. refl };

    fn to_bytes(self) -> [u8; 4] {
        self.to_le_bytes()
    }

    fn from_bytes(bytes: [u8; 4]) -> u32 {
        u32::from_le_bytes(bytes)
    }
}

// A signed number is its bits, in two's complement.
impl Word for i32 {
    ghost bits = { cast_unsigned w32 };

    ghost of_bits = { cast_signed w32 };

    ghost back = { of_z-to_z w32 };

    fn to_bytes(self) -> [u8; 4] {
        self.cast_unsigned().to_bytes()
    }

    fn from_bytes(bytes: [u8; 4]) -> i32 {
        u32::from_bytes(bytes).cast_signed()
    }
}

// The words are those of bytes, from the first on. Asked: as many whole words of bytes.
#[tactic(auto, unfolding(crate::specs::Wire::words_of))]
pub fn load<T: Word>(bytes: &[u8], words: &mut [T])
    requires { 4 * length words.old ≤ length bytes.now }
    ensures { words.new ≡ loaded T.of_bits bytes.now (length words.old) }
{
    let (fours, _) = bytes.as_chunks::<4>();
    for i in 0..words.len() {
        words[i] = T::from_bytes(fours[i]);
    }
}

// The first bytes are those of the words; later bytes stay. Asked: room for the words.
#[tactic(auto, unfolding(crate::specs::Wire::bytes_of_words))]
pub fn store<T: Word>(words: &[T], bytes: &mut [u8])
    requires { 4 * length words.now ≤ length bytes.old }
    ensures { bytes.new ≡ written (stored T.bits words.now) bytes.old }
{
    for k in 0..words.len() {
        bytes[4 * k..4 * k + 4].copy_from_slice(&words[k].to_bytes());
    }
}
