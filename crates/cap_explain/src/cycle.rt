//! The cycle on the path to a pointer that is refused for a limit.

ghost use Rattle.cap_explain.specs.Cycles.{IsFaultCycle, IsRefusedCycle, is_limit};
ghost use Rattle.cap_spec.specs.Faults.{IsRefused};
ghost use Rattle.cap_walk.specs.Demands.{IsDemandFault};
ghost use Rattle.cap_walk.specs.Limits.{depth_of};
ghost use Rattle.cap_walk.specs.declared.demands.Demands.{Demands};
ghost use Rattle.std.specs.Prelude.{◌≡◌, ℕ};

use cap_frame::Segments;
use cap_spec::{Reason, Refusal, StrictRefusal};
use cap_trace::{Cycle, last_cycle};
use cap_walk::Limits;

/// The last cycle on the path to the refused pointer, as [`last_cycle`] gives it. `None` if the path
/// reaches each pointer word once, or if the reason is no limit. The word limit of `limits` has no
/// effect. It looks at pointer words only for a limit. Allocates nothing.
pub fn fault_cycle<M: Segments>(
    message: &M,
    refusal: &StrictRefusal,
    limits: Limits,
) -> Option<Cycle>
    ensures { let m = M.segments message.now in (demands : Demands) (words : ℕ) →
        (h : IsDemandFault demands m words (depth_of limits) refusal.now) →
        IsFaultCycle demands m words (depth_of limits) refusal.now h result }
{
    match refusal {
        StrictRefusal::Refused(refusal) => refused_cycle(message, refusal, limits),
        StrictRefusal::ManySegments => None,
        StrictRefusal::Pointer { .. } => None,
    }
}

// The same of a refusal by `vet`.
fn refused_cycle<M: Segments>(message: &M, refusal: &Refusal, limits: Limits) -> Option<Cycle>
    ensures { let m = M.segments message.now in (words : ℕ) →
        (h : IsRefused m words (depth_of limits) refusal.now) →
        IsRefusedCycle m words (depth_of limits) refusal.now h result }
{
    if is_limit(refusal.reason) {
        last_cycle(message, limits, refusal.pointers)
    } else {
        None
    }
}

// Whether a limit is the reason.
fn is_limit(reason: Reason) -> bool
    ensures { result ≡ is_limit reason }
{
    match reason {
        Reason::DepthLimit => true,
        Reason::WordLimit => true,
        _ => false,
    }
}
