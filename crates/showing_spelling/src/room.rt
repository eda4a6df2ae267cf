// A lent buffer that is filled from its end back.
ghost use Rattle.std.specs.Prelude.{◌≤◌, length};

// The buffer, and the place in it where what is written so far begins.
#[derive(Drop)]
pub struct Room<'a> {
    pub out: &'a mut [u8],
    pub at: usize,
    ghost within: { at ≤ length out.now },
}
