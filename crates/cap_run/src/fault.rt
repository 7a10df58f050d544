//! The fault of a sink's output.

ghost use Rattle.cap_words.specs.Sinks.{sink_fault_of};
ghost use Rattle.std.specs.Prelude.{◌≡◌};

use cap_words::{OutFault, SinkFault};

/// The fault of a sink's output.
pub(crate) fn output_fault(fault: SinkFault) -> OutFault
    ensures { sink_fault_of result ≡ fault }
{
    match fault {
        SinkFault::Device => OutFault::Device,
        SinkFault::Memory => OutFault::Memory,
        SinkFault::Spent => OutFault::Spent,
    }
}
