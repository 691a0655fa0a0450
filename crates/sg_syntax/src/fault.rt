ghost use Rattle.std.specs.Prelude.{◌≡◌};

use std::alloc::AllocError;
use thiserror::Error;

/// Why a text has no tree: the first place at which no text goes on like this, or out of memory. Places count bytes from 0.
#[derive(Debug, Drop, Error)]
pub enum SyntaxFault {
    #[error("no text goes on like this at {at}")]
    Syntax { at: u32 },
    #[error("out of memory")]
    Memory(AllocError),
}

impl From<AllocError> for SyntaxFault {
    ghost use Rattle.sg_syntax.specs.declared.fault.SyntaxFault.TheVariants.{Memory as IsMemory};

    ghost from_gives = { λ w e. e ≡ IsMemory w };

    fn from(want: AllocError) -> SyntaxFault {
        SyntaxFault::Memory(want)
    }
}
