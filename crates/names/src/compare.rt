// When two names are the same.
ghost use Rattle.std.specs.Prelude.{◌≡◌, ◌+◌, ◌≤◌, ◌<◌, length};
ghost use Rattle.rules.specs.Words.{same_bytes};
ghost use Rattle.sheet.specs.Window.{passes};
ghost use Rattle.names.specs.Same.{same_at};

// Whether the `n` bytes from `at` on are the same. No byte ends the loop early, so that many are compared at once. As a `fold` of `zip` it is not proved: the
// search finds no way from what `zip` gives to the bytes at each index.
#[tactic(auto, using(crate::proofs::Same::windows), unfolding(crate::specs::Same::same_at))]
fn window_same(a: &[u8], b: &[u8], at: usize, n: usize) -> bool
    requires { (at + n ≤ length a.now) × (at + n ≤ length b.now) }
    ensures { result ≡ passes (same_at a.now b.now) at n }
{
    let mut all = true;
    for k in 0..n {
        all &= a[at + k] == b[at + k];
    }
    all
}

// Whether both have the same bytes, by windows of `n` bytes; the last may overlap the one before it. As `all` over the windows it is not proved: nothing says
// at its closure that a window lies within the names.
#[tactic(auto, using(crate::proofs::Same::windows))]
fn windows_same(a: &[u8], b: &[u8], n: usize) -> bool
    requires { (0 < n) × (n ≤ length a.now) × (length a.now ≡ length b.now) }
    ensures { result ≡ passes (same_at a.now b.now) 0 (length a.now) }
{
    let last = b.len() - n;
    if !window_same(a, b, last, n) {
        return false;
    }
    // where the length is a multiple of `n`, the last window is looked at twice: so one division counts them, and no test of what it leaves
    for k in 0..last / n + 1 {
        if !window_same(a, b, k * n, n) {
            return false;
        }
    }
    true
}

// Whether both have the same bytes, by windows that suit the length of a name. `==` looks at one byte after another, which takes `collisions` from 258 to 346
// microseconds; its bound is 300. The length is asked of the second, which is the same in each turn of a walk along a chain, and so is asked once there.
#[tactic(auto, using(crate::proofs::Same::windows))]
pub fn same_bytes(a: &[u8], b: &[u8]) -> bool
    ensures { result ≡ same_bytes a.now b.now }
{
    let len = b.len();
    if len < 4 {
        return a.len() == len && window_same(a, b, 0, len);
    }
    if len < 8 {
        return a.len() == len && windows_same(a, b, 4);
    }
    if len < 32 {
        return a.len() == len && windows_same(a, b, 8);
    }
    a.len() == len && windows_same(a, b, 16)
}
