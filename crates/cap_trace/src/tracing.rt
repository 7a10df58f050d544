//! The path of a pointer word, written to a buffer.

ghost use Rattle.cap_spec.specs.Accepting.{IsWithin};
ghost use Rattle.cap_spec.specs.Faults.{IsFirstFault};
ghost use Rattle.cap_spec.specs.Occupying.{IsFirstOverlap};
ghost use Rattle.cap_spec.specs.Strict.{IsFirstLax};
ghost use Rattle.cap_spec.specs.declared.Lax.{Lax};
ghost use Rattle.cap_spec.specs.declared.Refusal.{Refusal};
ghost use Rattle.cap_spec.specs.declared.Step.{Step};
ghost use Rattle.cap_trace.specs.Branches.{AreBranches, path_of};
ghost use Rattle.cap_trace.specs.PointerNumbers.{IsTraceable};
ghost use Rattle.cap_trace.specs.Traces.{GivesPath, IsPut, ReportsPath};
ghost use Rattle.cap_walk.specs.Limits.{depth_of};
ghost use Rattle.std.specs.Prelude.{◌≡◌, ◌≤◌, IfSome, List, length, ℕ};

use crate::branch::Branch;
use crate::seeking::{BranchStack, seek};
use crate::slot::StepSlot;
use cap_frame::Segments;
use cap_walk::Limits;

/// Writes the path to the pointer word of this number in preorder, where the root word is number 1,
/// and returns how many steps it has. These are at most as many as the depth limit has levels.
/// `number` may be the `pointers` of a refusal, of a strict refusal or of an overlap: it is then the
/// path to the pointer that is named. If it has more steps than the buffer, the buffer is unchanged.
///
/// `None` if the message has no such word, or if a pointer before it can't be followed or leads past
/// the depth limit. The buffer is then unchanged. The word limit has no effect. Allocates nothing.
pub fn path_of_pointer<M: Segments, S: StepSlot>(
    message: &M,
    limits: Limits,
    number: u64,
    steps: &mut [S],
) -> Option<usize>
    ensures reports { let m = M.segments message.now in
        ReportsPath S.slot m (depth_of limits) number steps.old result steps.new }
    ensures few { IfSome result (λ count. count ≤ depth_of limits) }

    // The other direction: the path of this number is written.
    ensures gives { let m = M.segments message.now in (path : List Step) →
        IsTraceable m (depth_of limits) number path → GivesPath S.slot path steps.old result steps.new }

    // So is that of a refusal, of a pointer that common readers reject, and of an overlap.
    ensures fault { let m = M.segments message.now in (words : ℕ) (r : Refusal) →
        (f : IsFirstFault m words (depth_of limits) r) → r.pointers ≡ number →
        GivesPath S.slot f.path steps.old result steps.new }
    ensures lax { let m = M.segments message.now in (words s w : ℕ) (what : Lax) →
        IsWithin m words (depth_of limits) → (f : IsFirstLax m s w what number) →
        GivesPath S.slot f.path steps.old result steps.new }
    ensures overlap { let m = M.segments message.now in (words s w : ℕ) →
        IsWithin m words (depth_of limits) → (f : IsFirstOverlap m s w number) →
        GivesPath S.slot f.path steps.old result steps.new }
{
    traced(message, limits.depth(), number, steps)
}

// The same by the depth limit alone. Its stack of branches is no part of a caller's frame.
#[inline(never)]
fn traced<M: Segments, S: StepSlot>(
    message: &M,
    depth: u32,
    number: u64,
    steps: &mut [S],
) -> Option<usize>
    requires { depth ≤ 256 }
    ensures reports { ReportsPath S.slot (M.segments message.now) depth number steps.old result steps.new }
    ensures few { IfSome result (λ count. count ≤ depth) }
{
    let mut branches = BranchStack::new();
    match seek(message, depth, number, &mut branches) {
        Some(_) => Some(write_path(branches.as_slice(), steps)),
        None => None,
    }
}

// Writes the path over these branches to the start of the buffer, if it fits. Gives how many steps it has.
fn write_path<S: StepSlot>(branches: &[Branch], steps: &mut [S]) -> usize
    requires { (m : List (List ℕ)) × (depth : ℕ) × AreBranches m depth 1 branches.now }
    ensures count { result ≡ length (path_of branches.now) }
    ensures steps { IsPut S.slot (path_of branches.now) steps.old steps.new }
{
    let count = branches.len();
    if count > steps.len() {
        return count;
    }
    'steps: for at in 0..count {
        steps[at] = S::of(branches[at].step());
    }
    count
}
