ghost use Rattle.std.specs.Prelude.{◌≡◌, alloc_error};
ghost use Rattle.sg_num.specs.declared.step.Stop.TheVariants.{Memory as IsMemory};

use sg_expr::Expr;
use sg_num::Stop;
use std::alloc::AllocError;
use thiserror::Error;

/// Which limit the expressions of a command pass, or which part of them is 0. The expressions count from 1. The depth of a part
/// is the number of bodies of sums and products that it stands in.
#[derive(Debug, Drop, Error)]
pub enum LimitFault {
    #[error("expression {item} has too many nodes")]
    Nodes {
        item: u32,
    },
    #[error("a degree of expression {item} is too high")]
    Degree {
        item: u32,
    },
    #[error("there are too many sums")]
    Sums,
    #[error("there are too many products")]
    Products,
    #[error("expression {item} has a pole that may be too far out")]
    FarPole {
        item: u32,
        part: Expr,
        depth: u32,
    },
    #[error("expression {item} has a pole at {at}")]
    Pole {
        item: u32,
        at: i64,
        part: Expr,
        depth: u32,
    },
    #[error("a factor of expression {item} is 0 at {at}")]
    ZeroFactor {
        item: u32,
        at: i64,
        part: Expr,
        depth: u32,
    },
    #[error(transparent)]
    Stop(Stop),
}

impl From<AllocError> for LimitFault {
    ghost use Rattle.sg_num.specs.declared.step.Stop.TheVariants.{Memory as IsMemory};
    ghost use Rattle.sg_limits.specs.declared.fault.LimitFault.TheVariants.{Stop as IsStop};

    ghost from_gives = { λ w e. e ≡ IsStop (IsMemory w) };

    fn from(want: AllocError) -> LimitFault {
        LimitFault::Stop(Stop::Memory(want))
    }
}

impl From<Stop> for LimitFault {
    ghost use Rattle.sg_limits.specs.declared.fault.LimitFault.TheVariants.{Stop as IsStop};

    ghost from_gives = { λ s e. e ≡ IsStop s };

    fn from(stop: Stop) -> LimitFault {
        LimitFault::Stop(stop)
    }
}
