// The bucket of a name. Its bytes are weighed four at a time, those of a long name at its ends and in its middle.
ghost use Rattle.std.specs.Prelude.{◌≡◌, ◌+◌, ◌*◌, ◌≤◌, ◌<◌, length, get_or};
ghost use Rattle.rules.specs.Refusals.{max_records};
ghost use Rattle.names.specs.Buckets.{word_at, weighed_bytes, weighed, bucket_of};

use rules::Sheet;

// The number in the four bytes from `at` on, which the caller knows to be there. The readers of `sheet` ask that of each call, since what another crate can name
// has no `requires`.
#[tactic(auto, unfolding(crate::specs::Buckets::word_at))]
fn word(name: &[u8], at: usize) -> u64
    requires { at + 4 ≤ length name.now }
    ensures { (result ≡ word_at at name.now) × (result < 4294967296) }
{
    u64::from(u32::from_le_bytes([name[at], name[at + 1], name[at + 2], name[at + 3]]))
}

// The byte at `at`, as a number of 64 bits with its bound; 0 past the last. It is the library's `get`.
fn byte(name: &[u8], at: usize) -> u64
    ensures { (result ≡ get_or name.now at 0) × (result < 256) }
{
    name.get(at).map_or(0, |&byte| u64::from(byte))
}

// The bytes of a name of fewer than four, weighed.
fn bytes(name: &[u8]) -> u64
    ensures { result ≡ weighed_bytes name.now }
{
    506952121 * byte(name, 0) + 351452291 * byte(name, 1) + 302546453 * byte(name, 2)
}

// The numbers in the four bytes from each of two places on, weighed.
#[tactic(auto, using(crate::proofs::Weights::weighed_few))]
fn pair(name: &[u8], first: u64, at: usize, second: u64, behind: usize) -> u64
    requires weights { (first < 536870912) × (second < 536870912) }
    requires places { (at + 4 ≤ length name.now) × (behind + 4 ≤ length name.now) }
    ensures { (result ≡ first * word_at at name.now + second * word_at behind name.now) × (result < 4611686018427387904) }
{
    first * word(name, at) + second * word(name, behind)
}

// The bytes, weighed.
#[tactic(auto, unfolding(crate::specs::Buckets::weighed))]
fn weigh(name: &[u8]) -> u64
    ensures { result ≡ weighed name.now }
{
    let len = name.len();
    if len < 4 {
        return bytes(name);
    }
    let ends = pair(name, 506952121, 0, 512927357, len - 4);
    if len < 8 {
        return ends;
    }
    let next = pair(name, 351452291, 4, 466848937, len - 8);
    if len < 17 {
        return ends + next;
    }
    let middle = len / 2;
    ends + next + pair(name, 302546453, middle, 409637633, middle - 4)
}

// The bucket.
#[tactic(auto, unfolding(crate::specs::Buckets::bucket_of))]
pub fn bucket(name: &[u8]) -> usize
    ensures { (result ≡ bucket_of name.now) × (result < max_records) }
{
    let sum = weigh(name);
    ((sum / 262144 + sum / 1099511627776) % Sheet::MAX_RECORDS as u64) as usize
}
