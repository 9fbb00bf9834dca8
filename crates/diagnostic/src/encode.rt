// A violation as bytes, little-endian.
ghost use Rattle.std.specs.Prelude.{◌≡◌};
ghost use Rattle.rules.specs.Buffer.{encode};

use rules::Violation;

// The twelve bytes of the violation. A function and no `From`: that could only stand in `rules`, beside the type, away from the one list that is written so.
#[tactic(auto, unfolding(rules::specs::Buffer::encode, rules::specs::Words::bytes))]
pub fn encode(violation: Violation) -> [u8; Violation::SIZE]
    ensures { result ≡ encode violation }
{
    let class = violation.class.to_le_bytes();
    let offset = violation.span.offset.to_le_bytes();
    let len = violation.span.len.to_le_bytes();
    [
        class[0],
        class[1],
        violation.severity,
        0,
        offset[0],
        offset[1],
        offset[2],
        offset[3],
        len[0],
        len[1],
        len[2],
        len[3],
    ]
}
