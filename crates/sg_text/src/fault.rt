ghost use Rattle.std.specs.Prelude.{◌≡◌};

use std::alloc::AllocError;
use thiserror::Error;

/// Why a text isn't read. Places count bytes from 0.
#[derive(Debug, Drop, Error)]
pub enum ReadFault {
    #[error("the text is too long")]
    Long,
    #[error("too many open parentheses at {at}")]
    Deep { at: u32 },
    #[error("no text goes on like this at {at}")]
    Syntax { at: u32 },
    #[error("the number at {at} is too large")]
    Numeral { at: u32 },
    #[error("the exponent at {at} is out of range")]
    Exponent { at: u32 },
    #[error("the name at {at} is bound by nothing")]
    Unbound { at: u32 },
    #[error("the part at {at} has a form that isn't allowed there")]
    Form { at: u32 },
    #[error("out of memory")]
    Memory(AllocError),
}

impl From<AllocError> for ReadFault {
    ghost use Rattle.sg_text.specs.declared.fault.ReadFault.TheVariants.{Memory as IsMemory};

    ghost from_gives = { λ w e. e ≡ IsMemory w };

    fn from(want: AllocError) -> ReadFault {
        ReadFault::Memory(want)
    }
}
