// A lent buffer that is filled from the front.

ghost use Rattle.std.specs.Prelude.{◌≤◌, length};

/// The buffer, and how many of its bytes are filled.
#[derive(Drop)]
pub struct Page<'a> {
    pub buffer: &'a mut [u8],
    pub at: usize,
    ghost within: { at ≤ length buffer.now },
}
