// What a call answers where it could not do its work.
ghost use Rattle.std.specs.Prelude.{◌≡◌};
ghost use Rattle.oxt_io.specs.declared.outcome.InputFault.TheVariants.{Memory};

use std::alloc::AllocError;

/// One read or one write that failed and handled no byte.
#[derive(Clone, Copy, Debug, PartialEq, Eq)]
pub struct Failed;

/// Why an input was not read to its end.
#[derive(Clone, Copy, Debug, PartialEq, Eq)]
pub enum InputFault {
    /// There was no memory to hold it.
    Memory,
    /// The source failed.
    Fault,
    /// The source gave more bytes than the limit.
    TooLong,
}

impl From<AllocError> for InputFault {
    ghost from_gives = { λ _ fault. fault ≡ Memory };

    fn from(_error: AllocError) -> InputFault {
        InputFault::Memory
    }
}
