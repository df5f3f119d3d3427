//! Why bytes are refused.
ghost use Rattle.std.specs.Prelude.{◌≡◌};
ghost use Rattle.oxt_transform.specs.Faults.{refusal_in, read_refusal};

pub use oxt_check::fault::Fault;
use oxt_json::ReadFault;

/// A fault of reading, as one of the whole work.
pub(crate) fn fault_of_reading(fault: ReadFault) -> Fault
    ensures { refusal_in result ≡ read_refusal fault }
{
    match fault {
        ReadFault::OutOfMemory => Fault::OutOfMemory,
        ReadFault::Json => Fault::Json,
        ReadFault::Shape { place } => Fault::Shape { place },
    }
}
