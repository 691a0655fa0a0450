ghost use Rattle.std.specs.Prelude.{◌≡◌};
ghost use Rattle.sg_top.specs.Code.{code_of};

/// How a command ended.
#[derive(Clone, Copy, Debug, PartialEq, Eq)]
pub enum Status {
    Done,
    No,
    Usage,
    Refused,
    Wide,
    Memory,
    ReadFault,
    WriteFault,
}

impl Status {
    /// The exit status of the program: 0 to 7, in the order of the variants.
    pub fn code(self) -> u8
        ensures { result ≡ code_of self }
    {
        match self {
            Status::Done => 0,
            Status::No => 1,
            Status::Usage => 2,
            Status::Refused => 3,
            Status::Wide => 4,
            Status::Memory => 5,
            Status::ReadFault => 6,
            Status::WriteFault => 7,
        }
    }
}
