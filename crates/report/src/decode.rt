// Violations from bytes, little-endian.
ghost use Rattle.std.specs.Prelude.{◌≡◌, ◌≤◌, length};
ghost use Rattle.rules.specs.Buffer.{decode_violation, violation_size};

use rules::{Span, Violation};

// The violation in the first twelve bytes. A function and no `From`: it reads the first bytes of a longer slice, and one of other length has no violation.
pub fn violation(bytes: &[u8]) -> Violation
    requires { violation_size ≤ length bytes.now }
    ensures { result ≡ decode_violation bytes.now }
{
    Violation {
        class: u16::from_le_bytes([bytes[0], bytes[1]]),
        severity: bytes[2],
        span: Span::new(
            u32::from_le_bytes([bytes[4], bytes[5], bytes[6], bytes[7]]),
            u32::from_le_bytes([bytes[8], bytes[9], bytes[10], bytes[11]]),
        ),
    }
}
