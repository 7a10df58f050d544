//! Where a path comes back to a pointer word that it has reached before.

ghost use Rattle.cap_spec.specs.Faults.{IsFirstFault};
ghost use Rattle.cap_spec.specs.Messages.{IsMessage};
ghost use Rattle.cap_spec.specs.Paths.{word};
ghost use Rattle.cap_spec.specs.declared.Refusal.{Refusal};
ghost use Rattle.cap_spec.specs.declared.Step.{Step};
ghost use Rattle.cap_trace.specs.Branches.{AreBranches, last_spot, path_of};
ghost use Rattle.cap_trace.specs.PointerNumbers.{IsTraceable};
ghost use Rattle.cap_trace.specs.Returns.{EndsOnCycle, IsDown, IsLastCycle, IsReturn, ReportsCycle};
ghost use Rattle.cap_walk.specs.Limits.{depth_of};
ghost use Rattle.std.specs.Prelude.{◌≡◌, ◌<◌, ◌≤◌, ◌↔◌, IsTrue, List, length, take, ℕ};

use crate::branch::{Branch, Form, WordPlace};
use crate::seeking::{BranchStack, ROOT, seek};
use cap_frame::Segments;
use cap_walk::Limits;

/// A pointer word that a path reaches again. The pointers from the one time to the other are a cycle.
///
/// What the root word leads to has level 1, and each step adds one.
#[derive(Clone, Copy, Debug, PartialEq, Eq, Drop)]
pub struct Cycle {
    /// The segment of the pointer word.
    pub segment: u32,
    /// The pointer word, counted in its segment.
    pub word: u32,
    /// The level of what the word leads to, where the path has reached it before for the last time.
    pub from_level: u32,
    /// The same, where the path reaches it again.
    pub to_level: u32,
}

/// The last cycle on the path to the pointer word of this number. It ends with the last pointer word
/// of the path that the path has reached before. It begins where the path was there the last time.
///
/// `None` if the path reaches each pointer word once. `None` also where [`crate::path_of_pointer`] finds
/// no path. The word limit has no effect. Looks at the pointer words before that one. Allocates nothing.
pub fn last_cycle<M: Segments>(message: &M, limits: Limits, number: u64) -> Option<Cycle>
    ensures reports { ReportsCycle (M.segments message.now) (depth_of limits) number result }
    // The other direction, and so it is of a refusal.
    ensures gives { let m = M.segments message.now in (path : List Step) →
        (a : IsTraceable m (depth_of limits) number path) → IsLastCycle m path result }
    ensures fault { let m = M.segments message.now in (words : ℕ) (r : Refusal) →
        (f : IsFirstFault m words (depth_of limits) r) → r.pointers ≡ number →
        IsLastCycle m f.path result }
{
    sought(message, limits.depth(), number)
}

// The same by the depth limit alone. Its stack of branches is no part of a caller's frame.
#[inline(never)]
fn sought<M: Segments>(message: &M, depth: u32, number: u64) -> Option<Cycle>
    requires { depth ≤ 256 }
    ensures { ReportsCycle (M.segments message.now) depth number result }
{
    let mut branches = BranchStack::new();
    match seek(message, depth, number, &mut branches) {
        Some(_) => last_of(branches.as_slice()),
        None => None,
    }
}

// The last cycle on the path over these branches.
fn last_of(branches: &[Branch]) -> Option<Cycle>
    requires few { length branches.now ≤ 256 }
    requires message { (m : List (List ℕ)) × (depth : ℕ) × IsMessage m × AreBranches m depth 1 branches.now }
    ensures { (m : List (List ℕ)) → IsDown m branches.now → IsLastCycle m (path_of branches.now) result }
{
    let mut steps = branches.len();
    'shorter: loop {
        if steps == 0 {
            return None;
        }
        match cycle_at(branches, steps) {
            Some(cycle) => return Some(cycle),
            None => steps -= 1,
        }
    }
}

// The cycle that ends with the path over the first branches, if there is one.
fn cycle_at(branches: &[Branch], steps: usize) -> Option<Cycle>
    requires some { 0 < steps }
    requires few { (steps ≤ length branches.now) × (length branches.now ≤ 256) }
    requires message { (m : List (List ℕ)) × (depth : ℕ) × IsMessage m × AreBranches m depth 1 branches.now }
    ensures { (m : List (List ℕ)) → IsDown m branches.now →
        EndsOnCycle m (path_of (take steps branches.now)) result }
{
    let last = branches[steps - 1];
    match last.form {
        Form::Structs => None,
        _ => {
            let here = last.place();
            match last_before(branches, steps, &here) {
                Some(level) => {
                    Some(Cycle {
                        segment: here.segment,
                        word: here.at,
                        from_level: level,
                        to_level: steps as u32 + 1,
                    })
                }
                None => None,
            }
        }
    }
}

// The level of the longest path over fewer than `all` of these branches that reaches this word.
fn last_before(branches: &[Branch], all: usize, here: &WordPlace) -> Option<u32>
    requires few { (all ≤ length branches.now) × (length branches.now ≤ 256) }
    requires message { (m : List (List ℕ)) × (depth : ℕ) × IsMessage m × AreBranches m depth 1 branches.now }
    ensures { (m : List (List ℕ)) → IsDown m branches.now →
        IsReturn m (path_of (take all branches.now)) here.now.segment here.now.at result }
{
    let mut steps = all;
    'shorter: loop {
        if steps == 0 {
            return None;
        }
        steps -= 1;
        if comes_to(branches, steps, here) {
            return Some(steps as u32 + 1);
        }
    }
}

// Whether the path over the first branches reaches this word.
fn comes_to(branches: &[Branch], steps: usize, here: &WordPlace) -> bool
    requires few { steps ≤ length branches.now }
    requires message { (m : List (List ℕ)) × (depth : ℕ) × IsMessage m × AreBranches m depth 1 branches.now }
    ensures { IsTrue result
        ↔ (last_spot (word 0 0) (take steps branches.now) ≡ word here.now.segment here.now.at) }
{
    if steps == 0 {
        return is_same(&ROOT, here);
    }
    let last = branches[steps - 1];
    match last.form {
        Form::Structs => false,
        _ => is_same(&last.place(), here),
    }
}

// Whether two places are the same.
fn is_same(place: &WordPlace, other: &WordPlace) -> bool
    ensures { IsTrue result
        ↔ (word place.now.segment place.now.at ≡ word other.now.segment other.now.at) }
{
    place.segment == other.segment && place.at == other.at
}
