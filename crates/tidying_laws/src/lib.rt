// The tidier's laws, in the order of specs/List.antt. specs/ByNumber.antt has the number of each, which counts from 1.
#![tactic(auto)]

ghost use Rattle.tidying_laws.specs.ByNumber.{Numbered};

#[derive(Clone, Copy, Debug, PartialEq, Eq)]
pub enum Law {
    T1,
    T2,
    T3,
    T4,
    T5,
    T6,
    T7,
    T8,
    T9,
    T10,
}

impl Law {
    // Every law once, the lowest first.
    pub const ALL: [Law; 10] = [
        Law::T1,
        Law::T2,
        Law::T3,
        Law::T4,
        Law::T5,
        Law::T6,
        Law::T7,
        Law::T8,
        Law::T9,
        Law::T10,
    ];
}

// A number that no law has.
#[derive(Clone, Copy, Debug, PartialEq, Eq)]
pub struct NoLaw(pub u32);

impl TryFrom<u32> for Law {
    type Error = NoLaw;

    ghost try_from_gives = { Numbered };

    fn try_from(number: u32) -> Result<Self, NoLaw> {
        match number {
            1 => Ok(Law::T1),
            2 => Ok(Law::T2),
            3 => Ok(Law::T3),
            4 => Ok(Law::T4),
            5 => Ok(Law::T5),
            6 => Ok(Law::T6),
            7 => Ok(Law::T7),
            8 => Ok(Law::T8),
            9 => Ok(Law::T9),
            10 => Ok(Law::T10),
            _ => Err(NoLaw(number)),
        }
    }
}
