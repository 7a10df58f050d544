//! Vetting a message under demands.

ghost use Rattle.cap_spec.specs.Faults.{IsRefused};
ghost use Rattle.cap_spec.specs.declared.Refusal.{Refusal};
ghost use Rattle.cap_spec.specs.declared.StrictRefusal.{StrictRefusal};
ghost use Rattle.cap_spec.specs.declared.StrictRefusal.TheVariants.{Refused};
ghost use Rattle.cap_vet.specs.Vettings.{message_of, report_of};
ghost use Rattle.cap_walk.specs.Demands.{IsDemandFault, Meets, words_under};
ghost use Rattle.cap_walk.specs.Limits.{depth_of, words_of};
ghost use Rattle.cap_walk.specs.Reports.{IsAccepted};
ghost use Rattle.std.specs.Prelude.{Err, ◌≡◌, IfErr, IfOk, IsFalse, IsOk};

use crate::nodes::vetted::Vetted;
use crate::strictness::strict_vetting::vet_strict;
use crate::vetting::vet;
use cap_frame::Segments;
use cap_spec::StrictRefusal;
use cap_walk::{Demands, Limits, limits_under};

/// Vets a message under demands (profile). Where an unamplified message is demanded, the word limit
/// is the smaller one of that in `limits` and the words of the message's segments and 4,096 more.
/// Without demands this is [`crate::vet`]. Walks once. Allocates nothing.
///
/// # Errors
///
/// - [`StrictRefusal::Refused`]: `vet` refuses the message within that word limit.
/// - [`StrictRefusal::ManySegments`], [`StrictRefusal::Pointer`]: a strict message is demanded, and
///   the message is accepted and isn't strict. See [`crate::vet_strict`].
pub fn vet_with<'m, M: Segments>(
    message: &'m M,
    limits: Limits,
    demands: Demands,
) -> Result<Vetted<'m, M>, StrictRefusal>
    ensures ok { let m = M.segments message.now in IfOk result (λ v.
        IsAccepted m (words_under demands m (words_of limits)) (depth_of limits) (report_of v)
        × Meets demands m (words_of limits) (depth_of limits)) }
    ensures message { IfOk result (λ v. message_of v ≡ message.now) }
    ensures err { let m = M.segments message.now in
        IfErr result (IsDemandFault demands m (words_of limits) (depth_of limits)) }

    // The other direction.
    ensures accepts { let m = M.segments message.now in
        Meets demands m (words_of limits) (depth_of limits) → IsOk result }
    ensures refuses { let m = M.segments message.now in (r : StrictRefusal) →
        IsDemandFault demands m (words_of limits) (depth_of limits) r → result ≡ Err r }

    // Without demands it is `vet`.
    ensures accepted { let m = M.segments message.now in
        IsFalse demands.strict → IsFalse demands.unamplified →
        IfOk result (λ v. IsAccepted m (words_of limits) (depth_of limits) (report_of v)) }
    ensures refused { let m = M.segments message.now in
        IsFalse demands.strict → IsFalse demands.unamplified → IfErr result (λ fault.
        (r : Refusal) × (fault ≡ Refused r) × IsRefused m (words_of limits) (depth_of limits) r) }
{
    let limits = limits_under(message, limits, demands);
    if demands.strict {
        return match vet_strict(message, limits) {
            Ok(strict) => Ok(strict.into_vetted()),
            Err(refusal) => Err(refusal),
        };
    }
    match vet(message, limits) {
        Ok(vetted) => Ok(vetted),
        Err(refusal) => Err(StrictRefusal::Refused(refusal)),
    }
}
