//! Getters of messages that weren't vetted, under demands.

ghost use Rattle.cap_spec.specs.Arriving.{PathFinds};
ghost use Rattle.cap_spec.specs.Paths.{Spot as Where};
ghost use Rattle.cap_spec.specs.declared.Kind.{Kind};
ghost use Rattle.cap_spec.specs.declared.Step.{Step};
ghost use Rattle.cap_spec.specs.declared.StrictRefusal.{StrictRefusal};
ghost use Rattle.cap_vet.specs.Charging.{Arrives};
ghost use Rattle.cap_vet.specs.PathDemands.{IsPathFault, MeetsOnPath};
ghost use Rattle.cap_vet.specs.GivenPaths.{IsGiven};
ghost use Rattle.cap_vet.specs.Views.{kept_place, view_kind, view_message};
ghost use Rattle.cap_vet.specs.PathEnds.{HasFound, IsSomePathEnd, IsPathEnd, SomeArrives};
ghost use Rattle.cap_walk.specs.Demands.{words_under};
ghost use Rattle.cap_walk.specs.Limits.{depth_of, words_of};
ghost use Rattle.std.specs.Prelude.{◌++◌, ◌≡◌, Err, IfErr, IfNone, IfOk, IfSome, IsOk, List, ℕ};

use crate::nodes::charged::{Arrival, at_root};
use crate::nodes::near_arrival::at_root_near;
use crate::nodes::path_end::PathEnd;
use crate::nodes::step_source::StepSource;
use crate::nodes::view::View;
use crate::strictness::path_strictness::strict_fault;
use cap_frame::Segments;
use cap_spec::StrictRefusal;
use cap_walk::{Demands, Limits, limits_under};

/// Follows a path in a message that needn't be vetted, under demands, and gives what it arrives at
/// (encoding: Security Considerations). The limits and demands are those of [`crate::vet_with`], and
/// apply to the pointers on the path alone, the root's among them. A word that two steps lead to is
/// charged twice. What is wrong beside the path isn't noticed. Allocates nothing.
///
/// `None` if the path arrives at nothing.
///
/// # Errors
///
/// - [`StrictRefusal::Refused`]: the first pointer on the path that is wrong, or past a limit, as for
///   [`crate::get_charged`].
/// - [`StrictRefusal::ManySegments`], [`StrictRefusal::Pointer`]: a strict message is demanded, no
///   pointer on the path is refused, and the message has 512 segments, or a pointer on the path has
///   a form in [`crate::Lax`]. The first one on the path is named. Its `pointers` counts the
///   pointers on the path up to it, that one included.
pub fn get_with<'m, M: Segments, S: StepSource + Copy>(
    message: &'m M,
    limits: Limits,
    demands: Demands,
    path: S,
) -> Result<Option<View<'m, M>>, StrictRefusal>
    ensures meets { let m = M.segments message.now in
        (steps : List Step) → S.gives path steps → IfOk result (λ _.
        MeetsOnPath demands m (words_of limits) (depth_of limits) steps) }
    ensures none { let m = M.segments message.now in
        (steps : List Step) → S.gives path steps → IfOk result (λ o. IfNone o (
        (k : Kind) (t b n : ℕ) → ¬ PathFinds m steps k t b n)) }
    ensures some { let m = M.segments message.now in
        (steps : List Step) → S.gives path steps → IfOk result (λ o. IfSome o (λ v.
        let place = kept_place v in
        PathFinds m steps (view_kind v) place.segment place.start place.words)) }
    ensures message { IfOk result (λ o. IfSome o (λ v. view_message v ≡ message.now)) }
    ensures err { let m = M.segments message.now in
        (steps : List Step) → S.gives path steps →
        IfErr result (IsPathFault demands m (words_of limits) (depth_of limits) steps) }
    // The other direction.
    ensures accepts { let m = M.segments message.now in
        (steps : List Step) → S.gives path steps →
        MeetsOnPath demands m (words_of limits) (depth_of limits) steps → IsOk result }
    ensures refuses { let m = M.segments message.now in
        (steps : List Step) (r : StrictRefusal) → S.gives path steps →
        IsPathFault demands m (words_of limits) (depth_of limits) steps r → result ≡ Err r }
{
    let limits = limits_under(message, limits, demands);
    given_within(message, limits.words(), limits.depth(), demands, path)
}

// The same within limits under the demands. What looks alone find is given apart, since it then
// stays in registers.
#[inline(always)]
fn given_within<'m, M: Segments, S: StepSource + Copy>(
    message: &'m M,
    words: u64,
    depth: u32,
    demands: Demands,
    path: S,
) -> Result<Option<View<'m, M>>, StrictRefusal>
    ensures given { let m = M.segments message.now in
        (most deepest : ℕ) (steps : List Step) → S.gives path steps →
        words ≡ words_under demands m most → depth ≡ deepest →
        IsGiven demands m most deepest steps result }
    ensures message { IfOk result (λ o. IfSome o (λ v. view_message v ≡ message.now)) }
{
    match follow_near(message, words, depth, path) {
        Some(at) => given(message, demands, PathEnd::To(at)),
        None => given(message, demands, follow_any(message, words, depth, path)),
    }
}

/// What is given under demands for a path with this end.
#[inline(always)]
pub(crate) fn given<'m, M: Segments>(
    message: &'m M,
    demands: Demands,
    end: PathEnd,
) -> Result<Option<View<'m, M>>, StrictRefusal>
    requires found { HasFound (M.segments message.now) end }
    ensures given { let m = M.segments message.now in
        (words depth : ℕ) (path : List Step) →
        IsPathEnd m (words_under demands m words) depth path end →
        IsGiven demands m words depth path result }
    ensures message { IfOk result (λ o. IfSome o (λ v. view_message v ≡ message.now)) }
{
    match end {
        PathEnd::To(at) => match strict_fault(message, demands, at.lax) {
            Some(fault) => Err(fault),
            None => Ok(Some(View {
                message,
                found: at.found,
            })),
        },
        PathEnd::Early(at) => match strict_fault(message, demands, at.lax) {
            Some(fault) => Err(fault),
            None => Ok(None),
        },
        PathEnd::Refused(refusal) => Err(StrictRefusal::Refused(refusal)),
    }
}

/// Follows a path from the root as far as it leads.
#[inline(always)]
pub(crate) fn follow_path<M: Segments, S: StepSource + Copy>(
    message: &M,
    words: u64,
    depth: u32,
    path: S,
) -> PathEnd
    ensures end { (steps : List Step) → S.gives path steps →
        IsPathEnd (M.segments message.now) words depth steps result }
    ensures leads { IsSomePathEnd (M.segments message.now) words depth result }
{
    // Such looks alone follow most paths, and they need no memory.
    match follow_near(message, words, depth, path) {
        Some(at) => PathEnd::To(at),
        None => follow_any(message, words, depth, path),
    }
}

// Follows a path from the root, if a look at each pointer on it shows where that leads.
#[inline(always)]
fn follow_near<M: Segments, S: StepSource + Copy>(
    message: &M,
    words: u64,
    depth: u32,
    path: S,
) -> Option<Arrival>
    ensures end { (steps : List Step) → S.gives path steps →
        IfSome result (λ at. IsPathEnd (M.segments message.now) words depth steps (PathEnd.To at)) }
    ensures leads { IfSome result (SomeArrives (M.segments message.now) words depth) }
{
    let mut at = at_root_near(message, words, depth)?;
    let mut left = path;
    while let Some(step) = left.next_step() {
        match at.step_near(message, words, depth, step) {
            Some(next) => at = next,
            None => return None,
        }
    }
    Some(Arrival { lax: None, ..at })
}

// Follows any path from the root as far as it leads.
#[inline(never)]
fn follow_any<M: Segments, S: StepSource + Copy>(
    message: &M,
    words: u64,
    depth: u32,
    path: S,
) -> PathEnd
    ensures end { (steps : List Step) → S.gives path steps →
        IsPathEnd (M.segments message.now) words depth steps result }
    ensures leads { IsSomePathEnd (M.segments message.now) words depth result }
{
    match at_root(message, words, depth) {
        Ok(root) => along(message, words, depth, root, path),
        Err(refusal) => PathEnd::Refused(refusal),
    }
}

/// Goes on along a path from where its first steps arrived, as far as it leads.
#[inline(always)]
pub(crate) fn along<M: Segments, S: StepSource + Copy>(
    message: &M,
    words: u64,
    depth: u32,
    from: Arrival,
    rest: S,
) -> PathEnd
    requires arrived { SomeArrives (M.segments message.now) words depth from }
    ensures end { let m = M.segments message.now in
        (first steps : List Step) (a : Where) → Arrives m words depth first a from →
        S.gives rest steps → IsPathEnd m words depth (first ++ steps) result }
    ensures leads { IsSomePathEnd (M.segments message.now) words depth result }
{
    let mut left = rest;
    let mut at = from;
    while let Some(step) = left.next_step() {
        match at.step(message, words, depth, step) {
            Ok(Some(next)) => at = next,
            Ok(None) => return PathEnd::Early(at),
            Err(refusal) => return PathEnd::Refused(refusal),
        }
    }
    PathEnd::To(at)
}
