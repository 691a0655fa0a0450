ghost use Rattle.std.specs.Prelude.{◌≡◌, ◌≢◌, ◌<◌, ◌≤◌, ◌-◌, ℕ, pos, length, get_or};

/// How many numbers there are up to the last that isn't 0.
pub fn length_of(list: &[i128]) -> usize
    ensures within { result ≤ length list.now }
    ensures zeros { (k : ℕ) → result ≤ k → get_or list.now k (pos 0) ≡ pos 0 }
    ensures last { 0 < result → get_or list.now (result - 1) (pos 0) ≢ pos 0 }
{
    let mut n = list.len();
    while n > 0 {
        if list[n - 1] == 0 {
            n -= 1;
        } else {
            return n;
        }
    }
    0
}
