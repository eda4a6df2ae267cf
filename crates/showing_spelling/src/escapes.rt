// The set escapes.
ghost use Rattle.std.specs.Prelude.{◌≡◌, ◌<◌};
ghost use Rattle.sets.specs.Sets.{Holds, in_escape};
ghost use Rattle.showing_spelling.specs.Spelling.{escape_letter};

// A set escape, by its number among \d \D \w \W \s \S.
#[derive(Clone, Copy)]
pub struct Escape {
    pub number: usize,
    ghost known: { number < 6 },
}

// Their letters.
const LETTERS: [u8; 6] = *b"dDwWsS";

impl Escape {
    // The bytes that it takes.
    pub fn set(self) -> [u32; 8]
        ensures { Holds result (in_escape self.number) }
    {
        sets::escape(self.number)
    }

    // What stands behind its `\`.
    pub fn letter(self) -> u8
        ensures { result ≡ escape_letter self.number }
    {
        LETTERS[self.number]
    }
}
