// The list buffer of a replayed call, before and after it.
ghost use Rattle.std.specs.Prelude.{◌≡◌, ◌/◌, ◌<◌, length, get_or};
ghost use Rattle.rules.specs.Buffer.{written_of};
ghost use Rattle.rules.specs.Words.{same_bytes};
ghost use Rattle.recorded.specs.Buffer.{mark, marks, recorded_after};

use rules::Violation;

// The bytes of a violation of the file.
pub const VIOLATION: usize = 16;

// The byte at a place before the call. It casts what is 251 at most; `u8::try_from` would give a `Result` for each byte that is never an error.
fn mark_at(i: usize) -> u8
    ensures { result ≡ mark i }
{
    (i % 251 + 1) as u8
}

// Fills the buffer as it must be before the call.
#[tactic(auto, using(crate::proofs::Buffers::mark_next), unfolding(crate::specs::Buffer::marks))]
pub fn fill(list: &mut [u8])
    ensures { list.new ≡ marks (length list.old) }
{
    for (i, byte) in list.iter_mut().enumerate() {
        *byte = mark_at(i);
    }
}

// How many violations are written of those in so many bytes of the file, to a buffer of that length.
fn written(recorded: usize, len: usize) -> usize
    ensures { result ≡ written_of (recorded / 16) len }
{
    (recorded / VIOLATION).min(len / Violation::SIZE)
}

// The byte at a place of a buffer of `len` bytes after the call.
#[tactic(auto, using(crate::proofs::Buffers::written_byte, crate::proofs::Buffers::kept_byte))]
fn byte_after(violations: &[u8], len: usize, i: usize) -> u8
    requires { i < len }
    ensures { result ≡ get_or (recorded_after violations.now (marks len)) i 0 }
{
    let record = i / Violation::SIZE;
    if record < written(violations.len(), len) {
        violations[VIOLATION * record + i % Violation::SIZE]
    } else {
        mark_at(i)
    }
}

// Whether the buffer is as it must be after the call.
pub fn is_after(violations: &[u8], list: &[u8]) -> bool
    ensures { result ≡ same_bytes (recorded_after violations.now (marks (length list.now))) list.now }
{
    (0..list.len()).all(|i| byte_after(violations, list.len(), i) == list[i])
}
