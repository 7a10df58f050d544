//! One pointer word of a walk: what it leads to is counted, and what a turn does there.

ghost use Rattle.cap_ptr.specs.UsedPlaces.{UsesPlace};
ghost use Rattle.cap_spec.specs.Messages.{HasWord};
ghost use Rattle.cap_spec.specs.Paths.{Reaches};
ghost use Rattle.cap_spec.specs.declared.Step.{Step};
ghost use Rattle.cap_walk.specs.Limits.{depth_of, words_of};
ghost use Rattle.cap_walk.specs.Looking.{IsLooked, IsNotLax};
ghost use Rattle.cap_walk.specs.Trails.{Ahead};
ghost use Rattle.cap_walk.specs.Turning.{added, run_below};
ghost use Rattle.cap_walk.specs.Turns.{IsFaultNext, IsNextIn};
ghost use Rattle.cap_walk.specs.Walking.{IsLookedAt};
ghost use Rattle.std.specs.Prelude.{◌<◌, ◌≡◌, ◌^◌, [], ◌∷◌, IfErr, IfOk, IsFalse, List, OnOk, ℕ};

use crate::limits::Limits;
use crate::looking::{Looked, look};
use crate::pointer_run::PointerRun;
use crate::report::Report;
use cap_frame::Segments;
use cap_ptr::Place;
use cap_spec::Refusal;

/// Why a walk stops.
pub enum Stopped<S> {
    /// At the first fault.
    Refused(Refusal),
    /// Where the turn stops it.
    ByTurn(S),
}

/// What a walk does after it has looked at a pointer word, beside counting it. It isn't called at
/// null words that the walk skips.
pub trait Turn {
    /// Why it stops a walk.
    type Stop;

    // What it knows of a message after the pointers at these paths, the last one first.
    ghost knows: { Self → List (List ℕ) → List (List Step) → Type 0 };

    // When it stops a walk through a message.
    ghost stops: { List (List ℕ) → Self.Stop → Type 0 };

    /// The turn at this pointer word, which can be followed, and costs `cost` words. It is number
    /// `pointers` of those looked at, and `object` has the words of its object, none for null and a
    /// capability. If `may_be_lax` is false, common readers don't reject the pointer.
    fn after<M: Segments>(
        &mut self,
        message: &M,
        s: u32,
        w: u32,
        object: Place,
        may_be_lax: bool,
        pointers: u64,
        cost: u64,
    ) -> Result<(), Self::Stop>
        requires object { UsesPlace (M.segments message.now) s w object }
        requires strict { IsFalse may_be_lax → IsNotLax (M.segments message.now) s w }
        requires known { let m = M.segments message.now in (seen : List (List Step)) × (a : Ahead)
            × IsLookedAt m seen a s w pointers cost × knows self.old m seen }
        ensures ok { let m = M.segments message.now in (seen : List (List Step)) (a : Ahead) →
            IsLookedAt m seen a s w pointers cost → knows self.old m seen →
            OnOk result (knows self.new m (a.path ∷ seen)) }
        ensures err { IfErr result (stops (M.segments message.now)) };

    // A null word changes nothing.
    ghost passes: { (turn : Self) (m : List (List ℕ)) (seen : List (List Step)) (p : List Step)
        (level s w : ℕ) →
        Reaches m p level s w → HasWord m s w 0 → knows turn m seen → knows turn m (p ∷ seen) };
}

/// A turn that any walk may begin with.
pub trait FirstTurn: Turn {
    /// The turn before the first pointer word of this message, or why it stops a walk there.
    fn begin<M: Segments>(message: &M) -> Result<Self, Self::Stop>
        ensures ok { IfOk result (λ turn. Self.knows turn (M.segments message.now) []) }
        ensures err { IfErr result (Self.stops (M.segments message.now)) };
}

/// Looks at the next pointer word. The error is the first fault.
#[inline(always)]
pub(crate) fn visit<M: Segments>(
    message: &M,
    limits: &Limits,
    report: &Report,
    s: u32,
    w: u32,
    level: u32,
) -> Result<Looked, Refusal>
    requires next { let m = M.segments message.now in (runs : List PointerRun)
        × IsNextIn m limits.now s w level runs report.now }
    ensures ok { let m = M.segments message.now in IfOk result (IsLooked m
        (words_of limits.now) (depth_of limits.now) report.now.charge s w level) }
    ensures err { IfErr result (IsFaultNext (M.segments message.now) limits.now s w level report.now) }
{
    match look(message, limits, report.charge, s, w, level) {
        Err(reason) => Err(Refusal {
            segment: s,
            word: w,
            reason,
            pointers: report.pointers + 1,
        }),
        Ok(looked) => Ok(looked),
    }
}

// Counts a pointer word, and gives the run of its object's pointers.
#[inline(always)]
pub(crate) fn add(report: &mut Report, s: u32, w: u32, looked: Looked) -> Option<PointerRun>
    requires fits { ((added report.old s w looked).charge < 2 ^ 64)
        × ((added report.old s w looked).pointers < 2 ^ 64)
        × ((added report.old s w looked).caps < 2 ^ 64) }
    ensures report { report.new ≡ added report.old s w looked }
    ensures run { result ≡ run_below looked }
{
    report.pointers += 1;
    match looked {
        Looked::Null(cost) => {
            report.charge += cost;
            None
        }
        Looked::Cap(cost) => {
            report.charge += cost;
            report.caps += 1;
            if report.first_cap.is_none() {
                report.first_cap = Some((s, w));
            }
            None
        }
        Looked::Object(cost, deepest, below, _) => {
            report.charge += cost;
            if report.depth < deepest {
                report.depth = deepest;
            }
            below
        }
    }
}
