//! The charge of a message up to the pointer at which it passes the word limit.

ghost use Rattle.cap_explain.specs.Charges.{ChargeOf, HasChargeUpTo};
ghost use Rattle.cap_spec.specs.Faults.{IsRefused};
ghost use Rattle.cap_walk.specs.Limits.{depth_of, words_of};

use cap_frame::Segments;
use cap_spec::{Reason, Refusal, StrictRefusal};
use cap_walk::{Limits, charge_up_to};

/// The charge up to the pointer that this refusal of a message within limits names, with that
/// pointer and its target, if the word limit is passed there. `None` if another reason applies. It
/// walks only for the word limit. Allocates nothing.
pub(crate) fn refusal_charge<M: Segments>(
    message: &M,
    refusal: &StrictRefusal,
    limits: Limits,
) -> Option<u64>
    ensures { ChargeOf (M.segments message.now) (words_of limits) (depth_of limits) refusal.now
        result }
{
    match refusal {
        StrictRefusal::Refused(refusal) => charge_of(message, refusal, limits),
        StrictRefusal::ManySegments => None,
        StrictRefusal::Pointer { .. } => None,
    }
}

// The same of a refusal by `vet`.
fn charge_of<M: Segments>(message: &M, refusal: &Refusal, limits: Limits) -> Option<u64>
    ensures { IsRefused (M.segments message.now) (words_of limits) (depth_of limits) refusal.now →
        HasChargeUpTo (M.segments message.now) (words_of limits) (depth_of limits) result }
{
    match refusal.reason {
        Reason::WordLimit => charge_up_to(message, limits),
        _ => None,
    }
}
