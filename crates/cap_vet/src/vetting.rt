//! The verdict of a message.

ghost use Rattle.cap_spec.specs.Accepting.{IsWithin};
ghost use Rattle.cap_spec.specs.Denoting.{Denotes};
ghost use Rattle.cap_spec.specs.Faults.{IsRefused};
ghost use Rattle.cap_spec.specs.Tree.{Tree, pointer_count};
ghost use Rattle.cap_spec.specs.Verdicts.{Justified};
ghost use Rattle.cap_spec.specs.declared.Refusal.{Refusal};
ghost use Rattle.cap_spec.specs.declared.Step.{Step};
ghost use Rattle.cap_vet.specs.Vettings.{message_of, report_of};
ghost use Rattle.cap_walk.specs.Limits.{depth_of, words_of};
ghost use Rattle.cap_walk.specs.Reports.{IsAccepted};
ghost use Rattle.cap_walk.specs.Turns.{HoldsBefore, HoldsOfAll, IsStopped};
ghost use Rattle.std.specs.Prelude.{◌≡◌, ⊤, Err, IfErr, IfOk, IsOk, List, ℕ};

use crate::nodes::vetted::Vetted;
use cap_frame::Segments;
use cap_ptr::Place;
use cap_spec::Refusal;
use cap_walk::{FirstTurn, Limits, Report, Stopped, Turn, walk};
use std::convert::Infallible;

/// Walks a message from its root in preorder, the pointers of each object in order. Accepts it if
/// the root denotes a finite tree within the limits (encoding: Security Considerations). Allocates
/// nothing.
///
/// # Errors
///
/// A refusal names the first pointer word in preorder at which anything is wrong or a limit is
/// passed, and the first reason that applies there. Its `pointers` counts the pointer words that
/// were looked at, that one included.
///
/// - [`crate::Reason::NoRoot`]: segment 0 has no words. It is refused at 0:0, and `pointers` is 0.
/// - `Reserved` to `CompositeOverrun`: the pointer can't be followed, see [`crate::Reason`].
/// - [`crate::Reason::DepthLimit`]: its target is past the depth limit, or the structs of its target
///   are.
/// - [`crate::Reason::WordLimit`]: the charges up to it, its own included, are more than the word
///   limit.
pub fn vet<'m, M: Segments>(message: &'m M, limits: Limits) -> Result<Vetted<'m, M>, Refusal>
    ensures ok { let m = M.segments message.now in
        IfOk result (λ v. IsAccepted m (words_of limits) (depth_of limits) (report_of v)) }
    ensures message { IfOk result (λ v. message_of v ≡ message.now) }
    ensures err { let m = M.segments message.now in
        IfErr result (IsRefused m (words_of limits) (depth_of limits)) }
    ensures justified { let m = M.segments message.now in
        IfErr result (Justified m (words_of limits) (depth_of limits)) }

    // The other direction: what denotes a tree within the limits is accepted.
    ensures accepts { let m = M.segments message.now in
        IsWithin m (words_of limits) (depth_of limits) → IsOk result }
    ensures refuses { let m = M.segments message.now in (r : Refusal) →
        IsRefused m (words_of limits) (depth_of limits) r → result ≡ Err r }

    // The reported numbers are those of the one tree that the root denotes.
    ensures one { (t : Tree) (c d : ℕ) → Denotes (M.segments message.now) 0 0 t c d →
        IfOk result (λ v. let r = report_of v in
        (r.charge ≡ c) × (r.depth ≡ d) × (r.pointers ≡ pointer_count t)) }
{
    let mut report = Report::default();
    match walk(message, &limits, &mut Plain, &mut report) {
        Ok(()) => {}
        Err(Stopped::Refused(refusal)) => return Err(refusal),
        Err(Stopped::ByTurn(never)) => match never {},
    }
    Ok(Vetted { message, report })
}

/// Vets a message as [`vet`] does, and takes a turn at each pointer word but null ones, in preorder.
/// Returns the turn as it is after the last. Walks once. Allocates nothing.
///
/// # Errors
///
/// - [`Stopped::Refused`]: `vet` refuses the message, and the turn didn't stop the walk before.
/// - [`Stopped::ByTurn`]: the turn stopped the walk.
#[inline(always)]
pub fn vet_with_turn<'m, M: Segments, T: FirstTurn + Drop>(
    message: &'m M,
    limits: Limits,
) -> Result<(Vetted<'m, M>, T), Stopped<T::Stop>>
    ensures ok { let m = M.segments message.now in
        IfOk result (λ r. IsAccepted m (words_of limits) (depth_of limits) (report_of r.0)) }
    ensures message { IfOk result (λ r. message_of r.0 ≡ message.now) }
    ensures knows { let m = M.segments message.now in
        IfOk result (λ r. HoldsOfAll m (T.knows r.1 m)) }
    ensures err { let m = M.segments message.now in
        IfErr result (IsStopped m limits (T.stops m)) }

    // Before a refusal the turn was taken up to the fault, and never stopped the walk.
    ensures before { let m = M.segments message.now in IfErr result
        (HoldsBefore m limits (λ (seen : List (List Step)). (turn : T) × T.knows turn m seen)) }
{
    let mut turn = match T::begin(message) {
        Ok(turn) => turn,
        Err(stop) => return Err(Stopped::ByTurn(stop)),
    };
    let mut report = Report::default();
    match walk(message, &limits, &mut turn, &mut report) {
        Ok(()) => Ok((Vetted { message, report }, turn)),
        Err(stopped) => Err(stopped),
    }
}

// A walk that only counts.
#[derive(Drop)]
struct Plain;

impl Turn for Plain {
    type Stop = Infallible;

    ghost knows = { λ _ _ _. ⊤ };

    ghost stops = { λ _ _. ⊥ };

    #[inline(always)]
    fn after<M: Segments>(
        &mut self,
        _message: &M,
        _s: u32,
        _w: u32,
        _object: Place,
        _may_be_lax: bool,
        _pointers: u64,
        _cost: u64,
    ) -> Result<(), Infallible> {
        Ok(())
    }

    ghost passes = { λ _ _ _ _ _ _ _ _ _ _. tt };
}
