//! Why no word is shown.
ghost use Rattle.std.specs.Prelude.{◌≡◌};
ghost use Rattle.oxt_cases.specs.declared.fault.Fault.TheVariants.{Memory};

use oxt_io::InputFault;
use oxt_json::ReadFault;
use oxt_names::ids::OutOfMemory;
use std::alloc::AllocError;
use thiserror::Error;

/// Why no word is shown.
#[derive(Debug, Drop, Error)]
pub enum Fault {
    /// The input was not read to its end.
    #[error("input {0:?}")]
    Input(InputFault),
    /// The input is no tree.
    #[error("{0}")]
    Tree(ReadFault),
    /// Memory ran out.
    #[error("out of memory")]
    Memory,
    /// The output failed, and took a prefix of the lines.
    #[error("output")]
    Output,
}

impl From<OutOfMemory> for Fault {
    ghost from_gives = { λ _ fault. fault ≡ Memory };

    fn from(_error: OutOfMemory) -> Fault {
        Fault::Memory
    }
}

impl From<AllocError> for Fault {
    ghost from_gives = { λ _ fault. fault ≡ Memory };

    fn from(_error: AllocError) -> Fault {
        Fault::Memory
    }
}
