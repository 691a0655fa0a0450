ghost use Rattle.std.specs.Prelude.{◌≡◌};

use crate::Rat;
use std::alloc::AllocError;
use thiserror::Error;

/// One of the four operations on fractions.
#[derive(Clone, Copy, Debug, PartialEq, Eq)]
pub enum Op {
    Add,
    Sub,
    Mul,
    Div,
}

/// A step that doesn't fit 128 bits: the operator and both operands.
#[derive(Clone, Copy, Debug, PartialEq, Eq, Error)]
#[error("a step does not fit 128 bits")]
pub struct Wide {
    pub op: Op,
    pub left: Rat,
    pub right: Rat,
}

/// Why a computing call gave up.
#[derive(Debug, Drop, Error)]
pub enum Stop {
    #[error("out of memory")]
    Memory(AllocError),
    #[error(transparent)]
    Wide(Wide),
}

impl From<Wide> for Stop {
    ghost use Rattle.sg_num.specs.declared.step.Stop.TheVariants.{Wide as IsWide};

    ghost from_gives = { λ w e. e ≡ IsWide w };

    fn from(wide: Wide) -> Stop {
        Stop::Wide(wide)
    }
}

impl From<AllocError> for Stop {
    ghost use Rattle.sg_num.specs.declared.step.Stop.TheVariants.{Memory as IsMemory};

    ghost from_gives = { λ w e. e ≡ IsMemory w };

    fn from(want: AllocError) -> Stop {
        Stop::Memory(want)
    }
}
