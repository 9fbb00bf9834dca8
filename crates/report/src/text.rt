// Text that is put into a buffer which has room for it.
ghost use Rattle.std.specs.Prelude.{◌≡◌, ◌+◌, ◌≤◌, length};
ghost use Rattle.rules.specs.Printed.{decimal};
ghost use Rattle.report.specs.Put.{state_of, Adds};

// The text stands at the start of the buffer, and every byte behind it is kept. No `fmt::Write`: `write!` promises its text only where it
// returns `Ok`, and not that it does. The length stands beside the buffer, since `report` answers how long the text is and keeps the bytes
// behind it: of a slice that shrinks it would have to be counted back. What room a function asks for is what it puts, another number each
// time, so that no invariant of the type says it.
#[derive(Drop)]
pub struct Text<'a> {
    pub buffer: &'a mut [u8],
    pub len: usize,
}

impl<'a> Text<'a> {
    // No text yet, in that buffer.
    pub fn new(buffer: &'a mut [u8]) -> Text<'a>
        ensures reference { result.buffer.ghost_name ≡ buffer.entry.ghost_name }
        ensures state { state_of result ≡ (buffer.old, 0) }
    {
        Text { buffer, len: 0 }
    }

    // Puts the bytes behind the text.
    pub fn put(&mut self, bytes: &[u8])
        requires { self.old.len + length bytes.now ≤ length self.old.buffer.now }
        ensures { Adds self.old self.new bytes.now }
    {
        let end = self.len + bytes.len();
        self.buffer[self.len..end].copy_from_slice(bytes);
        self.len = end;
    }

    // Puts the number in decimal.
    pub fn put_decimal(&mut self, x: u32)
        requires { self.old.len + 10 ≤ length self.old.buffer.now }
        ensures adds { Adds self.old self.new (decimal x) }
        ensures short { self.new.len ≤ self.old.len + 10 }
    {
        self.put(itoa::Buffer::new().format(x).as_bytes());
    }
}
