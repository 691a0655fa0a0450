//! What a reader takes.
ghost use Rattle.std.specs.Prelude.{◌≡◌, ◌-◌, ◌^◌, pos};
ghost use Rattle.sg_spec.specs.Reading.{is_small};
ghost use Rattle.sg_syntax.specs.Drafts.{value_of};
ghost use Rattle.sg_text.specs.Limited.{limits_of};

use sg_syntax::Numeral;

/// How many bytes and open parentheses a text may have, and how large its numbers and exponents may be.
#[derive(Clone, Copy)]
pub struct Bounds {
    pub bytes: u32,
    pub parens: u32,
    pub numeral: i128,
    pub exponent: u128,
}

impl Bounds {
    /// The bounds of the texts that the program is given.
    pub fn input() -> Bounds
        ensures { result ≡ record { bytes = 4096; parens = 32; numeral = pos (10 ^ 18 - 1); exponent = 32 } }
    {
        Bounds {
            bytes: 4096,
            parens: 32,
            numeral: 999_999_999_999_999_999,
            exponent: 32,
        }
    }

    pub(crate) fn takes_numeral(&self, n: Numeral) -> bool
        ensures { result ≡ (limits_of self.now).numeral (value_of n.value) }
    {
        let most = self.numeral;
        match n.value {
            Some(v) => 0 <= most && v <= most.unsigned_abs(),
            None => false,
        }
    }

    pub(crate) fn takes_exponent(&self, n: Numeral) -> bool
        ensures { result ≡ (limits_of self.now).exponent (value_of n.value) }
    {
        let most = self.exponent;
        match n.value {
            Some(v) => v <= most,
            None => false,
        }
    }
}

/// Whether a number may be a lower limit.
pub(crate) fn is_small(n: Numeral) -> bool
    ensures { result ≡ is_small (value_of n.value) }
{
    match n.value {
        Some(v) => v < 1001,
        None => false,
    }
}
