//! Vetting a message, and whether it is its own canonical copy, in one walk.

ghost use Rattle.cap_canon.specs.InOrder.{IsNotCanonical};
ghost use Rattle.cap_spec.specs.Copies.{IsCanonical};
ghost use Rattle.cap_spec.specs.Faults.{IsRefused};
ghost use Rattle.cap_spec.specs.Strict.{IsStrict};
ghost use Rattle.cap_spec.specs.declared.Refusal.{Refusal};
ghost use Rattle.cap_spec.specs.declared.StrictRefusal.{StrictRefusal};
ghost use Rattle.cap_spec.specs.declared.StrictRefusal.TheVariants.{Refused};
ghost use Rattle.cap_vet.specs.Vettings.{message_of, report_of};
ghost use Rattle.cap_walk.specs.Demands.{IsDemandFault, Meets, words_under};
ghost use Rattle.cap_walk.specs.Limits.{depth_of, words_of};
ghost use Rattle.cap_walk.specs.Reports.{IsAccepted};
ghost use Rattle.cap_walk.specs.Turns.{IsStopped};
ghost use Rattle.std.specs.Prelude.{Err, ◌↔◌, ◌≡◌, IfErr, IfOk, IsFalse, IsOk, IsTrue};

use crate::in_order::{InOrder, NotCanonical};
use cap_frame::Segments;
use cap_spec::StrictRefusal;
use cap_vet::{Demands, Limits, Stopped, Vetted, limits_under, vet_with, vet_with_turn};

/// Whether a message has one segment, and its words are its canonical copy (encoding:
/// Canonicalization). With a capability it isn't. Takes no memory, and makes no copy.
pub fn is_canonical<M: Segments>(v: &Vetted<'_, M>) -> bool
    ensures { IsTrue result ↔ IsCanonical (M.segments (message_of v.now)) }
{
    // For the proof alone: what is known of the message.
    let _report = v.report();
    match check_in_order(v.message(), Limits::greatest()) {
        Ok((_, canonical)) => canonical,
        Err(Stopped::Refused(_)) => false,
        Err(Stopped::ByTurn(NotCanonical)) => false,
    }
}

/// Vets a message under demands, as [`vet_with`] does, and returns with an accepted message whether
/// it is canonical, as [`is_canonical`] says (encoding: Canonicalization). Walks once through a
/// canonical message. After a difference in the first quarter of the message it walks a second time,
/// without comparing. After a later one it does so only if the message is amplified, or at a far
/// pointer that common readers may reject. Allocates nothing, and makes no copy.
///
/// # Errors
///
/// Those of [`vet_with`].
// It is inlined, since its result would be copied from call to call.
#[inline(always)]
pub fn check_with<'m, M: Segments>(
    message: &'m M,
    limits: Limits,
    demands: Demands,
) -> Result<(Vetted<'m, M>, bool), StrictRefusal>
    ensures ok { let m = M.segments message.now in IfOk result (λ r.
        IsAccepted m (words_under demands m (words_of limits)) (depth_of limits) (report_of r.0)
        × Meets demands m (words_of limits) (depth_of limits)) }
    ensures message { IfOk result (λ r. message_of r.0 ≡ message.now) }
    ensures canonical { IfOk result (λ r. IsTrue r.1 ↔ IsCanonical (M.segments message.now)) }
    ensures err { let m = M.segments message.now in
        IfErr result (IsDemandFault demands m (words_of limits) (depth_of limits)) }

    // The other direction.
    ensures accepts { let m = M.segments message.now in
        Meets demands m (words_of limits) (depth_of limits) → IsOk result }
    ensures refuses { let m = M.segments message.now in (r : StrictRefusal) →
        IsDemandFault demands m (words_of limits) (depth_of limits) r → result ≡ Err r }

    // Without demands it accepts what `vet` does.
    ensures accepted { let m = M.segments message.now in
        IsFalse demands.strict → IsFalse demands.unamplified →
        IfOk result (λ r. IsAccepted m (words_of limits) (depth_of limits) (report_of r.0)) }
    ensures refused { let m = M.segments message.now in
        IsFalse demands.strict → IsFalse demands.unamplified → IfErr result (λ fault.
        (r : Refusal) × (fault ≡ Refused r) × IsRefused m (words_of limits) (depth_of limits) r) }
{
    match check_in_order(message, limits_under(message, limits, demands)) {
        Ok(checked) => return Ok(checked),
        Err(Stopped::Refused(refusal)) => return Err(StrictRefusal::Refused(refusal)),
        Err(Stopped::ByTurn(NotCanonical)) => {}
    }
    match vet_with(message, limits, demands) {
        Ok(vetted) => Ok((vetted, false)),
        Err(refusal) => Err(refusal),
    }
}

// The same within these limits, of a message that is strict then. The walk may stop where it finds
// that the message isn't canonical.
#[inline(always)]
fn check_in_order<'m, M: Segments>(
    message: &'m M,
    limits: Limits,
) -> Result<(Vetted<'m, M>, bool), Stopped<NotCanonical>>
    ensures ok { let m = M.segments message.now in IfOk result (λ r.
        IsAccepted m (words_of limits) (depth_of limits) (report_of r.0)
        × IsStrict m (words_of limits) (depth_of limits)) }
    ensures message { IfOk result (λ r. message_of r.0 ≡ message.now) }
    ensures canonical { IfOk result (λ r. IsTrue r.1 ↔ IsCanonical (M.segments message.now)) }
    ensures err { let m = M.segments message.now in
        IfErr result (IsStopped m limits (λ _. IsNotCanonical m)) }
{
    match vet_with_turn::<M, InOrder>(message, limits) {
        Ok((vetted, turn)) => {
            if vetted.report().caps != 0 {
                return Ok((vetted, false));
            }
            Ok((vetted, turn.end == message.len(0)))
        }
        Err(stopped) => Err(stopped),
    }
}
