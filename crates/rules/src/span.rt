// A part of the source text. Offset and length are copied from a sheet, and never added up.
ghost use Rattle.std.specs.Prelude.{◌≡◌};

#[derive(Clone, Copy)]
pub struct Span {
    pub offset: u32,
    pub len: u32,
}

impl Span {
    // The span of `len` bytes from `offset`.
    pub fn new(offset: u32, len: u32) -> Span
        ensures { result ≡ record { offset = offset; len = len } }
    {
        Span { offset, len }
    }
}
