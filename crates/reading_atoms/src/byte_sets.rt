// The byte sets of atoms, by the names that the readers reach them by.
#![tactic(auto, using(sets::specs::Laws::words_of))]

ghost use Rattle.std.specs.Prelude.{◌≡◌, ◌<◌};
ghost use Rattle.sets.specs.Sets.{set_of, is_dot, in_escape};
ghost use Rattle.reading_atoms.specs.Classes.{takes, class_set};

// What a literal takes.
pub fn literal_set(b: u8) -> [u32; 8]
    ensures { result ≡ set_of (takes b) }
{
    sets::one(b)
}

// What the dot takes.
pub fn dot_set() -> [u32; 8]
    ensures { result ≡ set_of is_dot }
{
    sets::dot()
}

// What a set escape takes, by its number, which its callers have from the escape's reader.
pub fn named_set(k: usize) -> [u32; 8]
    requires { k < 6 }
    ensures { result ≡ set_of (in_escape k) }
{
    sets::escape(k)
}

// The closing of a class, complemented or not: `negated` is whether `^` stood at its head.
pub fn class_set(negated: bool, held: [u32; 8]) -> [u32; 8]
    ensures { result ≡ class_set negated held }
{
    if negated {
        sets::complement(held)
    } else {
        held
    }
}
