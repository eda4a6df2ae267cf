// Fields and gates for programs in other languages: values and limits are passed as 64-bit floats.
ghost use Rattle.std.specs.Prelude.{◌≡◌};
ghost use Rattle.millkettle.specs.Calls.Scanning.{field_of};
ghost use Rattle.millkettle.specs.Calls.Gates.{passing_value};
ghost use Rattle.millkettle.specs.Calls.Views.{field_view, passing_view};
ghost use Rattle.host.specs.Readings.{field_numbers, passed_numbers};

use millkettle::{Gate, Passing, Reading, Refused};

// What reading a field answers: 0, the value and its decimals; or the number of a refusal, at place 0.
#[repr(C)]
#[derive(Drop)]
pub struct Read {
    pub number: u32,
    pub decimals: u32,
    pub place: usize,
    pub value: f64,
}

// What a gate answers: 0, and 1 if the value passes or 0 if it is stopped; or the number of a refusal, at place 0.
#[repr(C)]
#[derive(Drop)]
pub struct Passed {
    pub number: u32,
    pub passes: u32,
    pub place: usize,
}

// The numbers passed for each case of the answer.
impl From<Result<Reading, Refused>> for Read {
    ghost from_gives = { λ answer numbers. numbers ≡ field_numbers (field_view answer) };

    fn from(answer: Result<Reading, Refused>) -> Read {
        match answer {
            Ok(reading) => Read {
                number: 0,
                decimals: reading.decimals,
                place: 0,
                value: reading.value,
            },
            Err(refused) => Read {
                number: refused.why.number(),
                decimals: 0,
                place: refused.place,
                value: 0.0,
            },
        }
    }
}

// The numbers passed for each case of the answer.
impl From<Result<Passing, Refused>> for Passed {
    ghost from_gives = { λ answer numbers. numbers ≡ passed_numbers (passing_view answer) };

    fn from(answer: Result<Passing, Refused>) -> Passed {
        match answer {
            Ok(Passing::Passes) => Passed {
                number: 0,
                passes: 1,
                place: 0,
            },
            Ok(Passing::Stopped) => Passed {
                number: 0,
                passes: 0,
                place: 0,
            },
            Err(refused) => Passed {
                number: refused.why.number(),
                passes: 0,
                place: refused.place,
            },
        }
    }
}

// Reads the span of a text from two registers as a number. Answers 0 with its value and decimals, or 28.
pub fn millkettle_read_field(text: &[u8], start: i32, end: i32) -> Read
    ensures { result ≡ field_numbers (field_of text.now start end) }
{
    millkettle::read_field(text, start, end).into()
}

// Whether a value lies between two limits, ends included. Answers 0 with 1 or 0, or 29 for a limit that is no number. At most
// and at least have an infinity as their other limit.
pub fn millkettle_pass(low: f64, high: f64, value: f64) -> Passed
    ensures { result ≡ passed_numbers (passing_value (Gate.Between low high) value) }
{
    let reading = Reading { value, decimals: 0 };
    millkettle::pass(Gate::Between(low, high), reading).into()
}
