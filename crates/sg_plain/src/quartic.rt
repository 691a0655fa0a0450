ghost use Rattle.std.specs.Prelude.{◌≡◌, ◌≤◌, ◌*◌, pos, ◌*ℤ◌, unsigned_abs, length, ℤ, ℕ, IsTrue, ◌↔◌, [], ◌∷◌};
ghost use Rattle.sg_algebra.specs.Coefficients.{Each};
ghost use Rattle.sg_plain.specs.Plain.{dot, Interpolated, IsDifference};

use crate::products::dot;

/// A polynomial of degree at most four with small whole coefficients.
#[derive(Clone, Copy)]
pub struct Quartic {
    pub constant: i128,
    pub linear: i128,
    pub square: i128,
    pub cube: i128,
    pub fourth: i128,
    pub ghost small_constant: { unsigned_abs constant ≤ 70368744177664 },
    pub ghost small_linear: { unsigned_abs linear ≤ 70368744177664 },
    pub ghost small_square: { unsigned_abs square ≤ 70368744177664 },
    pub ghost small_cube: { unsigned_abs cube ≤ 70368744177664 },
    pub ghost small_fourth: { unsigned_abs fourth ≤ 70368744177664 },
}

impl Quartic {
    /// The polynomial with these values at 0, 1, 2, 3 and 4, where it has whole coefficients (Newton's interpolation).
    pub fn interpolated(values: &[i128]) -> Quartic
        requires small { Each (λ v. unsigned_abs v ≤ 67108864) values.now }
        requires five { length values.now ≡ 5 }
        ensures { (a b c d e : ℤ) → Interpolated values.now a b c d e
            → Interpolated values.now result.constant result.linear result.square result.cube result.fourth }
    {
        Quartic {
            constant: coefficient(&[24, 0, 0, 0, 0], values),
            linear: coefficient(&[-50, 96, -72, 32, -6], values),
            square: coefficient(&[35, -104, 114, -56, 11], values),
            cube: coefficient(&[-10, 36, -48, 28, -6], values),
            fourth: coefficient(&[1, -4, 6, -4, 1], values),
        }
    }

    /// Whether it is what the other polynomial grows by from each number to the next.
    pub fn is_difference_of(self, other: Quartic) -> bool
        ensures yes { IsTrue result → IsDifference self.constant self.linear self.square self.cube self.fourth
            (other.constant ∷ other.linear ∷ other.square ∷ other.cube ∷ other.fourth ∷ []) }
        ensures no { IsDifference self.constant self.linear self.square self.cube self.fourth
            (other.constant ∷ other.linear ∷ other.square ∷ other.cube ∷ other.fourth ∷ []) → IsTrue result }
    {
        let p = [
            other.constant,
            other.linear,
            other.square,
            other.cube,
            other.fourth,
        ];
        if !is_sum(&[0, 1, 1, 1, 1], &p, self.constant) {
            return false;
        }
        if !is_sum(&[0, 0, 2, 3, 4], &p, self.linear) {
            return false;
        }
        if !is_sum(&[0, 0, 0, 3, 6], &p, self.square) {
            return false;
        }
        if !is_sum(&[0, 0, 0, 0, 4], &p, self.cube) {
            return false;
        }
        self.fourth == 0
    }
}

// Whether it is the sum of the values, each times its weight.
fn is_sum(weights: &[i128], values: &[i128], sum: i128) -> bool
    requires weights { Each (λ w. unsigned_abs w ≤ 4096) weights.now }
    requires values { Each (λ v. unsigned_abs v ≤ 70368744177664) values.now }
    requires few { length values.now ≤ 8 }
    ensures { IsTrue result ↔ (dot weights.now values.now ≡ sum) }
{
    dot(weights, values) == sum
}

// The sum of the values, each times its weight, over 24, which divides it.
fn coefficient(weights: &[i128], values: &[i128]) -> i128
    requires weights { Each (λ w. unsigned_abs w ≤ 4096) weights.now }
    requires small { Each (λ v. unsigned_abs v ≤ 67108864) values.now }
    requires five { length values.now ≡ 5 }
    ensures value { (c : ℤ) → pos 24 *ℤ c ≡ dot weights.now values.now → result ≡ c }
    ensures small { unsigned_abs result ≤ 70368744177664 }
{
    exact(dot(weights, values))
}

// A multiple of 24 over 24.
fn exact(n: i128) -> i128
    requires { unsigned_abs n ≤ 1374389534720 }
    ensures value { (c : ℤ) → pos 24 *ℤ c ≡ n → result ≡ c }
    ensures small { unsigned_abs result ≤ 70368744177664 }
{
    n / 24
}
