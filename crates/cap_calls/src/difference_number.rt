//! The numbers of the reasons why a message isn't canonical.

ghost use Rattle.cap_calls.specs.DifferenceNumbers.{reason_number};
ghost use Rattle.std.specs.Prelude.{◌≡◌};

use cap_difference::DifferenceReason;

// The number of a reason in the header. It never changes.
pub(crate) fn difference_number(reason: DifferenceReason) -> u64
    ensures { result ≡ reason_number reason }
{
    match reason {
        DifferenceReason::Segments => 1,
        DifferenceReason::Far => 2,
        DifferenceReason::Capability => 3,
        DifferenceReason::EmptyStruct => 4,
        DifferenceReason::Place => 5,
        DifferenceReason::Bits => 6,
        DifferenceReason::EmptyList => 7,
        DifferenceReason::Surplus => 8,
        DifferenceReason::DataZero => 9,
        DifferenceReason::PointerNull => 10,
        DifferenceReason::Trailing => 11,
    }
}
