ghost use Rattle.std.specs.Prelude.{◌≡◌, ◌≤◌, ◌+◌, ◌*◌, length, ℕ, ◌+ℤ◌, ◌*ℤ◌, neg_ℤ, unsigned_abs};
ghost use Rattle.sg_algebra.specs.Coefficients.{Each};
ghost use Rattle.sg_plain.specs.Plain.{dot};

/// The sum of the values, each times its weight.
pub fn dot(weights: &[i128], values: &[i128]) -> i128
    requires weights { Each (λ w. unsigned_abs w ≤ 4096) weights.now }
    requires values { Each (λ v. unsigned_abs v ≤ 70368744177664) values.now }
    requires few { length values.now ≤ 8 }
    ensures value { result ≡ dot weights.now values.now }
    ensures small { (b : ℕ) → Each (λ v. unsigned_abs v ≤ b) values.now → unsigned_abs result ≤ length values.now * (4096 * b) }
    ensures limit { unsigned_abs result ≤ length values.now * 288230376151711744 }
{
    match weights.split_first() {
        None => 0,
        Some((w, weights)) => match values.split_first() {
            None => 0,
            Some((v, values)) => plus(weighted(*w, *v), dot(weights, values)),
        },
    }
}

// The product of a weight and a value.
fn weighted(w: i128, v: i128) -> i128
    requires weight { unsigned_abs w ≤ 4096 }
    requires value { unsigned_abs v ≤ 70368744177664 }
    ensures value { result ≡ w *ℤ v }
    ensures small { (b : ℕ) → unsigned_abs v ≤ b → unsigned_abs result ≤ 4096 * b }
{
    multiplied(w, v)
}

/// The product of two numbers of small sizes.
pub fn multiplied(a: i128, b: i128) -> i128
    requires left { unsigned_abs a ≤ 67108864 }
    requires right { unsigned_abs b ≤ 316912650057057350374175801344 }
    ensures { result ≡ a *ℤ b }
{
    a * b
}

/// The sum of two numbers of small sizes.
pub fn plus(a: i128, b: i128) -> i128
    requires left { unsigned_abs a ≤ 42535295865117307932921825928971026432 }
    requires right { unsigned_abs b ≤ 42535295865117307932921825928971026432 }
    ensures value { result ≡ a +ℤ b }
    ensures size { unsigned_abs result ≤ unsigned_abs a + unsigned_abs b }
{
    a + b
}

/// The opposite of a number that isn't the lowest of all.
pub fn opposite(a: i128) -> i128
    requires { unsigned_abs a ≤ 42535295865117307932921825928971026432 }
    ensures { result ≡ neg_ℤ a }
{
    -a
}
