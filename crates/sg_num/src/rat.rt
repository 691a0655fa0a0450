ghost use Rattle.std.specs.Prelude.{◌≡◌, ℕ, ◌<◌, ◌≤◌, ◌^◌, ◌↔◌, pos, ◌<ℤ◌, unsigned_abs, IsTrue, IsSome, IsNone, IfSome, IfOk, IfErr, IsOk, int_lt, ◌*◌, ◌/◌, ◌≢◌, ◌≤ℤ◌, ◌*ℤ◌, ◌+ℤ◌, ◌-ℤ◌, ◌&&◌};
ghost use Rattle.sg_algebra.specs.Divisor.{gcd};
ghost use Rattle.sg_spec.specs.Width.{with_sign, fits_num, fits_den, differ, is_below_zero};

use crate::step::{Op, Wide};

/// A fraction in lowest terms, with a numerator from -2^127 to 2^127 - 1 and a denominator from 1 to 2^127 - 1.
#[derive(Clone, Copy, Debug, PartialEq, Eq)]
pub struct Rat {
    num: i128,
    den: i128,
    pub ghost positive: { pos 0 <ℤ den },
    pub ghost lowest: { gcd (unsigned_abs num) (unsigned_abs den) ≡ 1 },
}

impl Rat {
    ghost use Rattle.sg_num.specs.Value.{fraction, number};
    ghost use Rattle.sg_algebra.proofs.Value.{◌+ᵛ◌, ◌-ᵛ◌, ◌*ᵛ◌, ◌/ᵛ◌, zero_value};
    ghost use Rattle.sg_algebra.proofs.Rational.{whole_value};
    ghost use Rattle.sg_spec.specs.Width.{reduced, fits_reduced, left_part, right_part, common_den, fits_parts, crossed, fits};
    ghost use Rattle.sg_spec.specs.Fraction.{Same, whole};
    ghost use Rattle.std.specs.Int.{int_div_euclid, int_rem_euclid};
    ghost use Rattle.sg_num.specs.Steps.{outcome, fits_step};

    /// The fraction `num / den` in lowest terms; None exactly where `den` is 0 or the reduced pair doesn't fit.
    pub fn new(num: i128, den: i128) -> Option<Rat>
        ensures value { IfSome result (λ r. fraction r ≡ reduced num den) }
        ensures some { IsSome result ↔ IsTrue (fits_reduced num den) }
    {
        if den == 0 {
            return None;
        }
        let size = num.unsigned_abs();
        let below = den.unsigned_abs();
        let common = gcd_of(size, below);
        let negative = signs_differ(num < 0, den < 0);
        Rat::lowest(negative, divided(size, common), divided(below, common))
    }

    /// The whole number n as a fraction.
    #[tactic(auto, using(sg_algebra::proofs::Divisor::gcd_one_right))]
    pub fn whole(n: i128) -> Rat
        ensures value { fraction result ≡ whole n }
        ensures as_number { number result ≡ whole_value 0 n }
    {
        Rat { num: n, den: 1 }
    }

    /// The numerator.
    pub fn num(self) -> i128
        ensures { result ≡ (fraction self).num }
    {
        self.num
    }

    /// The denominator, which is at least 1.
    pub fn den(self) -> i128
        ensures { result ≡ pos (fraction self).den }
    {
        self.den
    }

    /// Whether the fraction is 0.
    pub fn is_zero(self) -> bool
        ensures value { IsTrue result ↔ ((fraction self).num ≡ pos 0) }
        ensures as_number { IsTrue result ↔ (number self ≡ zero_value) }
    {
        self.num == 0
    }

    /// The least whole number that isn't below the fraction.
    pub fn ceil(self) -> i128
        ensures low { (fraction self).num ≤ℤ (result *ℤ pos (fraction self).den) }
        ensures least { (result *ℤ pos (fraction self).den) <ℤ ((fraction self).num +ℤ pos (fraction self).den) }
    {
        let down = self.floor();
        let rest = self.rest();
        if rest == 0 { down } else { down + 1 }
    }

    // The greatest whole number that isn't above the fraction.
    fn floor(self) -> i128
        ensures { result ≡ int_div_euclid (fraction self).num (pos (fraction self).den) }
    {
        self.num.div_euclid(self.den)
    }

    // What the numerator has above the floor's multiple of the denominator.
    fn rest(self) -> i128
        ensures value { result ≡ int_rem_euclid (fraction self).num (pos (fraction self).den) }
        ensures low { pos 0 ≤ℤ result }
        ensures high { result <ℤ pos (fraction self).den }
    {
        self.num.rem_euclid(self.den)
    }

    /// The exact sum. It is Wide exactly where a numerator over the least common denominator, the sum of the two or that
    /// denominator doesn't fit, before the sum is reduced.
    pub fn plus(self, other: Rat) -> Result<Rat, Wide>
        ensures value { IfOk result (λ r. Same (fraction r) (outcome Op.Add (fraction self) (fraction other))) }
        ensures as_number { IfOk result (λ r. number r ≡ number self +ᵛ number other) }
        ensures wide { IfErr result (λ w. w ≡ record { op = Op.Add; left = self; right = other }) }
        ensures exact { IsOk result ↔ IsTrue (fits_step Op.Add (fraction self) (fraction other)) }
    {
        if let Some(common) = self.over_common(other) {
            if let Some(result) = common.sum() {
                return Ok(result);
            }
        }
        Err(Wide {
            op: Op::Add,
            left: self,
            right: other,
        })
    }

    /// The exact difference, Wide as the sum is.
    pub fn minus(self, other: Rat) -> Result<Rat, Wide>
        ensures value { IfOk result (λ r. Same (fraction r) (outcome Op.Sub (fraction self) (fraction other))) }
        ensures as_number { IfOk result (λ r. number r ≡ number self -ᵛ number other) }
        ensures wide { IfErr result (λ w. w ≡ record { op = Op.Sub; left = self; right = other }) }
        ensures exact { IsOk result ↔ IsTrue (fits_step Op.Sub (fraction self) (fraction other)) }
    {
        if let Some(common) = self.over_common(other) {
            if let Some(result) = common.difference() {
                return Ok(result);
            }
        }
        Err(Wide {
            op: Op::Sub,
            left: self,
            right: other,
        })
    }

    /// The exact product. It is Wide exactly where the product in lowest terms doesn't fit.
    pub fn times(self, other: Rat) -> Result<Rat, Wide>
        ensures value { IfOk result (λ r. Same (fraction r) (outcome Op.Mul (fraction self) (fraction other))) }
        ensures as_number { IfOk result (λ r. number r ≡ number self *ᵛ number other) }
        ensures wide { IfErr result (λ w. w ≡ record { op = Op.Mul; left = self; right = other }) }
        ensures exact { IsOk result ↔ IsTrue (fits_step Op.Mul (fraction self) (fraction other)) }
    {
        let negative = signs_differ(self.is_negative(), other.is_negative());
        let product = Rat::crossed(
            negative,
            self.size(),
            self.below(),
            other.size(),
            other.below(),
        );
        match product {
            Some(r) => Ok(r),
            None => Err(Wide {
                op: Op::Mul,
                left: self,
                right: other,
            }),
        }
    }

    /// The exact quotient. It is Wide exactly where the quotient in lowest terms doesn't fit.
    pub fn over(self, other: Rat) -> Result<Rat, Wide>
        requires { (fraction other).num ≢ pos 0 }
        ensures value { IfOk result (λ r. Same (fraction r) (outcome Op.Div (fraction self) (fraction other))) }
        ensures as_number { IfOk result (λ r. number r ≡ number self /ᵛ number other) }
        ensures wide { IfErr result (λ w. w ≡ record { op = Op.Div; left = self; right = other }) }
        ensures exact { IsOk result ↔ IsTrue (fits_step Op.Div (fraction self) (fraction other)) }
    {
        let opposite = signs_differ(self.is_negative(), other.is_negative());
        let product = Rat::crossed(
            opposite,
            self.size(),
            self.below(),
            other.below(),
            other.size(),
        );
        match product {
            Some(r) => Ok(r),
            None => Err(Wide {
                op: Op::Div,
                left: self,
                right: other,
            }),
        }
    }

    // The size of the numerator.
    fn size(self) -> u128
        ensures { result ≡ unsigned_abs (fraction self).num }
    {
        self.num.unsigned_abs()
    }

    // The denominator.
    fn below(self) -> u128
        ensures value { result ≡ (fraction self).den }
        ensures some { 0 < result }
        ensures small { result < 2 ^ 127 }
    {
        self.den.unsigned_abs()
    }

    // Whether the fraction is below 0.
    fn is_negative(self) -> bool
        ensures { result ≡ is_below_zero (fraction self).num }
    {
        self.num < 0
    }

    // The two numerators over the least common denominator, and that denominator.
    fn over_common(self, other: Rat) -> Option<Common>
        ensures left { IfSome result (λ t. t.left ≡ left_part (fraction self) (fraction other)) }
        ensures right { IfSome result (λ t. t.right ≡ right_part (fraction self) (fraction other)) }
        ensures den { IfSome result (λ t. t.den ≡ common_den (fraction self) (fraction other)) }
        ensures positive { IfSome result (λ t. 0 < t.den) }
        ensures small { IfSome result (λ t. t.den < 2 ^ 127) }
        ensures some { IsSome result ↔ IsTrue (fits_parts (fraction self) (fraction other)) }
    {
        let below = self.below();
        let other_below = other.below();
        let common = gcd_of(below, other_below);
        let scale = divided(other_below, common);
        let left = scaled(self.num, scale)?;
        let right = scaled(other.num, divided(below, common))?;
        let den = multiplied(below, scale)?;
        Some(Common { left, right, den })
    }

    // The fraction num / den in lowest terms, for numbers in range.
    fn reduced(num: i128, den: u128) -> Rat
        requires positive { 0 < den }
        requires small { den < 2 ^ 127 }
        ensures { fraction result ≡ reduced num (pos den) }
    {
        let size = num.unsigned_abs();
        let common = gcd_of(size, den);
        Rat::lowest(num < 0, divided(size, common), divided(den, common)).unwrap()
    }

    // The product of a / b and c / d, each in lowest terms, with this sign.
    fn crossed(negative: bool, a: u128, b: u128, c: u128, d: u128) -> Option<Rat>
        requires below { (0 < b) × (0 < d) }
        requires lowest { (gcd a b ≡ 1) × (gcd c d ≡ 1) }
        ensures value { IfSome result (λ r. fraction r ≡ crossed negative a b c d) }
        ensures some { IsSome result ↔ IsTrue (fits (crossed negative a b c d)) }
    {
        let left = gcd_of(a, d);
        let right = gcd_of(c, b);
        let size = divided(a, left).checked_mul(divided(c, right))?;
        let below = divided(b, right).checked_mul(divided(d, left))?;
        Rat::lowest(negative, size, below)
    }

    // The fraction of this sign, size and denominator, which are in lowest terms.
    fn lowest(negative: bool, size: u128, below: u128) -> Option<Rat>
        requires positive { 0 < below }
        requires coprime { gcd size below ≡ 1 }
        ensures value { IfSome result (λ r. fraction r ≡ record { num = with_sign negative size; den = below }) }
        ensures some { IsSome result ↔ IsTrue (fits_num (with_sign negative size) && fits_den below) }
    {
        let num = signed(negative, size)?;
        let den = signed(false, below)?;
        Some(Rat { num, den })
    }
}

/// The greatest common divisor, by Euclid's divisions; the last of them, by 1, is not done.
#[tactic(auto, using(sg_algebra::proofs::Divisor::gcd_step, sg_algebra::proofs::Divisor::gcd_end, sg_algebra::proofs::Divisor::gcd_one_right, sg_algebra::proofs::Divisor::gcd_positive))]
pub fn gcd_of(a: u128, b: u128) -> u128
    ensures value { result ≡ gcd a b }
    ensures some { 0 < b → 0 < result }
{
    let mut x = a;
    let mut y = b;
    while y > 1 {
        let rest = x % y;
        x = y;
        y = rest;
    }
    if y == 1 { 1 } else { x }
}

// The quotient. By 1, as with whole numbers, nothing is divided.
fn divided(a: u128, by: u128) -> u128
    requires { 0 < by }
    ensures { result ≡ a / by }
{
    if by == 1 { a } else { a / by }
}

// The number of this sign and size, where it fits.
fn signed(negative: bool, size: u128) -> Option<i128>
    ensures value { IfSome result (λ z. z ≡ with_sign negative size) }
    ensures size { IfSome result (λ z. unsigned_abs z ≡ size) }
    ensures fits { IsSome result ↔ IsTrue (fits_num (with_sign negative size)) }
{
    if negative {
        if size > 0x8000_0000_0000_0000_0000_0000_0000_0000 {
            return None;
        }
        if size == 0 {
            return Some(0);
        }
        Some(-1 - (size - 1) as i128)
    } else {
        i128::try_from(size).ok()
    }
}

// The product, where it fits.
fn scaled(n: i128, by: u128) -> Option<i128>
    requires { by < 2 ^ 127 }
    ensures value { IfSome result (λ z. z ≡ n *ℤ pos by) }
    ensures fits { IsSome result ↔ IsTrue (fits_num (n *ℤ pos by)) }
{
    if by == 1 {
        return Some(n);
    }
    n.checked_mul(by as i128)
}

// Exactly one of the two is negative.
fn signs_differ(a: bool, b: bool) -> bool
    ensures { result ≡ differ a b }
{
    a != b
}

// Two numerators over their least common denominator.
#[derive(Clone, Copy)]
struct Common {
    left: i128,
    right: i128,
    den: u128,
}

impl Common {
    ghost use Rattle.sg_num.specs.Value.{fraction};
    ghost use Rattle.sg_spec.specs.Width.{reduced};

    // The sum of the two, in lowest terms, where its numerator fits.
    fn sum(self) -> Option<Rat>
        requires positive { 0 < self.den }
        requires small { self.den < 2 ^ 127 }
        ensures value { IfSome result (λ r. fraction r ≡ reduced (self.left +ℤ self.right) (pos self.den)) }
        ensures some { IsSome result ↔ IsTrue (fits_num (self.left +ℤ self.right)) }
    {
        let num = added(self.left, self.right)?;
        Some(Rat::reduced(num, self.den))
    }

    // The difference of the two, likewise.
    fn difference(self) -> Option<Rat>
        requires positive { 0 < self.den }
        requires small { self.den < 2 ^ 127 }
        ensures value { IfSome result (λ r. fraction r ≡ reduced (self.left -ℤ self.right) (pos self.den)) }
        ensures some { IsSome result ↔ IsTrue (fits_num (self.left -ℤ self.right)) }
    {
        let num = subtracted(self.left, self.right)?;
        Some(Rat::reduced(num, self.den))
    }
}

// The product, where it fits a denominator.
fn multiplied(a: u128, b: u128) -> Option<u128>
    ensures value { IfSome result (λ n. n ≡ a * b) }
    ensures fits { IsSome result ↔ IsTrue (fits_den (a * b)) }
{
    let product = a.checked_mul(b)?;
    if product < 0x8000_0000_0000_0000_0000_0000_0000_0000 {
        Some(product)
    } else {
        None
    }
}

// The sum, where it fits.
fn added(a: i128, b: i128) -> Option<i128>
    ensures value { IfSome result (λ z. z ≡ a +ℤ b) }
    ensures fits { IsSome result ↔ IsTrue (fits_num (a +ℤ b)) }
{
    a.checked_add(b)
}

// The difference, where it fits.
fn subtracted(a: i128, b: i128) -> Option<i128>
    ensures value { IfSome result (λ z. z ≡ a -ℤ b) }
    ensures fits { IsSome result ↔ IsTrue (fits_num (a -ℤ b)) }
{
    a.checked_sub(b)
}
