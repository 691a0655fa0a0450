ghost use Rattle.std.specs.Prelude.{◌≡◌, ◌≢◌, ◌+◌, ◌*◌, ◌<◌, ◌≤◌, ◌-◌, ◌^◌, ℕ, ℤ, pos, ◌*ℤ◌, ◌+ℤ◌, ◌≤ℤ◌, [], length, get_or, take, unsigned_abs, IfSome, IfNone, IsTrue, IsFalse, ◌↔◌};
ghost use Rattle.sg_spec.specs.Parts.{leading, trimmed, cauchy};
ghost use Rattle.sg_parts.specs.Planes.{IsLightRow, IsLight, IsRootOf, VanishesAt, IsLeastZero, LimitsZeros, lowest, greatest};

use crate::line::Line;
use sg_num::length_of;

// The sum.
pub fn sum(a: i128, b: i128) -> i128
    requires { unsigned_abs a + unsigned_abs b < 2 ^ 127 }
    ensures value { result ≡ a +ℤ b }
    ensures small { unsigned_abs result ≤ unsigned_abs a + unsigned_abs b }
{
    a + b
}

// Whether Cauchy's bound of the row, without the zeros at its end, is above 4,096.
pub fn is_far(row: &[i128]) -> bool
    requires { trimmed row.now ≢ [] }
    ensures far { IsTrue result → 4096 < cauchy (trimmed row.now) }
    ensures near { IsFalse result → cauchy (trimmed row.now) ≤ 4096 }
{
    let n = length_of(row);
    if n == 0 {
        return false;
    }
    outweighs(greatest(row, n - 1), row[n - 1].unsigned_abs())
}

// The place of the highest row with a coefficient other than 0.
pub fn leading_place(plane: &[Line]) -> Option<usize>
    ensures inside { IfSome result (λ i. i < length plane.now) }
    ensures some { IfSome result (λ i. (leading plane.now ≡ trimmed (get_or plane.now i [])) × (trimmed (get_or plane.now i []) ≢ [])) }
    ensures none { IfNone result (leading plane.now ≡ []) }
{
    let mut i = plane.len();
    while i > 0 {
        i -= 1;
        if length_of(plane[i].as_slice()) > 0 {
            return Some(i);
        }
    }
    None
}

/// The least number from the limit on at which the polynomial is 0 for every parameter.
pub fn first_zero(plane: &[Line], limit: i64) -> Option<i64>
    requires small { IsLight plane.now }
    requires near { cauchy (leading plane.now) ≤ 4096 }
    ensures some { IfSome result (λ m. IsLeastZero plane.now limit m) }
    ensures none { IfNone result ((m : ℤ) → limit ≤ℤ m → VanishesAt plane.now m → ⊥) }
{
    match leading_place(plane) {
        None => Some(limit),
        Some(i) => {
            let low = lowest(plane[i].as_slice()).unsigned_abs();
            least_zero(plane, low, limit.max(-4095), 4095)
        }
    }
}

// Whether one size is above 4,095 times another.
fn outweighs(left: u128, right: u128) -> bool
    ensures { IsTrue result ↔ (right * 4095 < left) }
{
    left > right.saturating_mul(4095)
}

// The greatest size of the first `n`.
fn greatest(list: &[i128], n: usize) -> u128
    requires { n ≤ length list.now }
    ensures { result ≡ greatest (take n list.now) }
{
    let mut size = 0;
    let mut i = n;
    while i > 0 {
        i -= 1;
        size = list[i].unsigned_abs().max(size);
    }
    size
}

// The lowest coefficient other than 0; 0 where there is none.
fn lowest(list: &[i128]) -> i128
    ensures { result ≡ lowest list.now }
{
    let mut low = 0;
    let mut i = list.len();
    while i > 0 {
        i -= 1;
        if list[i] != 0 {
            low = list[i];
        }
    }
    low
}

/// The least number from `first` on and up to `last` at which all rows are 0. Only 0 and numbers that divide `low` are tried.
fn least_zero(plane: &[Line], low: u128, first: i64, last: i64) -> Option<i64>
    requires small { IsLight plane.now }
    requires low { LimitsZeros plane.now low }
    requires last { last ≤ℤ pos 4096 }
    ensures some { IfSome result (λ m. IsLeastZero plane.now first m) }
    ensures none { IfNone result ((m : ℤ) → first ≤ℤ m → m ≤ℤ last → VanishesAt plane.now m → ⊥) }
{
    for m in first..last + 1 {
        if is_common_zero(plane, low, m) {
            return Some(m);
        }
    }
    None
}

// Whether all rows are 0 at `m`, by way of the lowest coefficient of one of them.
fn is_common_zero(plane: &[Line], low: u128, m: i64) -> bool
    requires small { IsLight plane.now }
    requires low { LimitsZeros plane.now low }
    ensures { IsTrue result ↔ VanishesAt plane.now m }
{
    let point = i128::from(m);
    may_be_root(low, point) && vanishes(plane, point)
}

// Whether it may be a root of a polynomial whose lowest coefficient has this size: 0 may, and so may each divisor.
fn may_be_root(low: u128, m: i128) -> bool
    ensures zero { m ≡ pos 0 → IsTrue result }
    ensures divisor { (q : ℤ) (l : ℤ) → unsigned_abs l ≡ low → q *ℤ m ≡ l → IsTrue result }
{
    let size = m.unsigned_abs();
    size == 0 || low % size == 0
}

// Whether all rows are 0 at `m`.
fn vanishes(plane: &[Line], m: i128) -> bool
    requires { IsLight plane.now }
    ensures { IsTrue result ↔ VanishesAt plane.now m }
{
    for i in 0..plane.len() {
        if !is_zero_at(plane[i].as_slice(), m) {
            return false;
        }
    }
    true
}

// Whether `m` is a root.
fn is_zero_at(list: &[i128], m: i128) -> bool
    requires { IsLightRow list.now }
    ensures { IsTrue result ↔ IsRootOf list.now m }
{
    if m == 0 {
        return starts_with_zero(list);
    }
    is_root(list, m)
}

// Whether the lowest coefficient is 0.
fn starts_with_zero(list: &[i128]) -> bool
    ensures { IsTrue result ↔ IsRootOf list.now (pos 0) }
{
    list.is_empty() || list[0] == 0
}

// Whether `m`, which isn't 0, is a root: from the lowest coefficient on, the sum of a coefficient and what was divided before
// has to be a multiple of `m`. No number is greater than the sizes of the coefficients together.
fn is_root(list: &[i128], m: i128) -> bool
    requires some { m ≢ pos 0 }
    requires small { IsLightRow list.now }
    ensures { IsTrue result ↔ IsRootOf list.now m }
{
    let mut carry = 0;
    for i in 0..list.len() {
        let s = sum(carry, list[i]);
        match quotient(s, m) {
            Some(q) => carry = q,
            None => return false,
        }
    }
    carry == 0
}

// The quotient, where it is whole.
fn quotient(a: i128, b: i128) -> Option<i128>
    requires some { b ≢ pos 0 }
    requires small { unsigned_abs a < 2 ^ 127 }
    ensures some { IfSome result (λ q. q *ℤ b ≡ a) }
    ensures none { IfNone result ((q : ℤ) → q *ℤ b ≢ a) }
{
    if a.unsigned_abs() % b.unsigned_abs() != 0 {
        return None;
    }
    Some(a / b)
}
