// Where reading stands in a text.
ghost use Rattle.std.specs.Prelude.{◌≤◌, length};

// A text of at most 1,048,576 bytes, and a place in it or at its end.
#[derive(Clone, Copy)]
pub struct Cursor<'a> {
    pub text: &'a [u8],
    pub at: usize,
    ghost within: { at ≤ length text.now },
    ghost short: { length text.now ≤ 1048576 },
}
