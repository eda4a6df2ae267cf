// Fields and gates: values and limits are passed as 64-bit floats.
ghost use Rattle.std.specs.Prelude.{◌≡◌};
ghost use Rattle.millkettle.specs.Calls.Scanning.{field_of};
ghost use Rattle.millkettle.specs.Calls.Gates.{passing_value};
ghost use Rattle.host.specs.Readings.{field_numbers, passed_numbers};

use host::readings::{Passed, Read};
use millkettle::Gate;

// Reads the span of a text from two registers as a number. Answers 0 with its value and decimals, or 28.
#[unsafe(no_mangle)]
pub extern "C" fn millkettle_read_field(text: &[u8], start: i32, end: i32) -> Read
    ensures { result ≡ field_numbers (field_of text.now start end) }
{
    host::readings::millkettle_read_field(text, start, end)
}

// Whether a value lies between two limits, ends included. Answers 0 with 1 or 0, or 29 for a limit that is no number. At most
// and at least have an infinity as their other limit.
#[unsafe(no_mangle)]
pub extern "C" fn millkettle_pass(low: f64, high: f64, value: f64) -> Passed
    ensures { result ≡ passed_numbers (passing_value (Gate.Between low high) value) }
{
    host::readings::millkettle_pass(low, high, value)
}
