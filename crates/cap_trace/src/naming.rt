//! The path to the pointer that a refusal or an overlap names, with a buffer for its steps.

ghost use Rattle.cap_trace.specs.NamedPaths.{pointer_number};
ghost use Rattle.std.specs.Prelude.{◌≡◌};

use crate::earlier::{EarlierPointer, earlier_pointer};
use crate::seeking::STEPS;
use crate::tracing::path_of_pointer;
use cap_frame::Segments;
use cap_spec::{Step, StrictRefusal};
use cap_walk::Limits;
use std::marker::Model;

/// The path to the pointer that a refusal or an overlap names, if it names one. A caller may keep
/// one for many messages.
#[derive(Drop)]
pub struct NamedPath {
    steps: [Step; STEPS],
    count: Option<usize>,
}

impl Model for NamedPath {
    ghost use Rattle.cap_spec.specs.declared.Step.{Step};
    ghost use Rattle.std.specs.Option.{ForSome, option_map};
    ghost use Rattle.std.specs.Prelude.{◌≤◌, List, Option, take};

    ghost Value = { Option (List Step) };

    ghost view = { λ p. option_map (λ n. take n p.steps) p.count };

    ghost invariant = { λ p. ForSome p.count (λ n. n ≤ 256) };
}

impl NamedPath {
    ghost use Rattle.cap_spec.specs.Accepting.{IsWithin};
    ghost use Rattle.cap_spec.specs.Faults.{IsFirstFault};
    ghost use Rattle.cap_spec.specs.Occupying.{IsFirstOverlap};
    ghost use Rattle.cap_spec.specs.Strict.{IsFirstLax};
    ghost use Rattle.cap_spec.specs.declared.Lax.{Lax};
    ghost use Rattle.cap_spec.specs.declared.Refusal.{Refusal};
    ghost use Rattle.cap_spec.specs.declared.Step.{Step};
    ghost use Rattle.cap_trace.specs.EarlierPointers.{FindsEarlier};
    ghost use Rattle.cap_trace.specs.NamedPaths.{IsTraced, fault_path};
    ghost use Rattle.cap_trace.specs.PointerNumbers.{IsTraceable};
    ghost use Rattle.cap_trace.specs.Traces.{IsMissing};
    ghost use Rattle.cap_walk.specs.Demands.{IsDemandFault};
    ghost use Rattle.cap_walk.specs.Limits.{depth_of};
    ghost use Rattle.cap_walk.specs.declared.demands.Demands.{Demands};
    ghost use Rattle.std.specs.Option.{option_map};
    ghost use Rattle.std.specs.Prelude.{◌≡◌, List, None, Some, ℕ};

    /// No path. Allocates nothing.
    #[inline(always)]
    pub fn new() -> Self
        ensures { result ≡ None }
    {
        NamedPath {
            steps: [Step::Ptr(0); STEPS],
            count: None,
        }
    }

    /// Its steps, if there is a path.
    pub fn steps(&self) -> Option<&[Step]>
        ensures { option_map (λ steps. steps.now) result ≡ self.now }
    {
        match self.count {
            Some(count) => Some(&self.steps[..count]),
            None => None,
        }
    }

    /// Finds the path to the pointer word of this number in preorder, as [`path_of_pointer`] does.
    pub fn find<M: Segments>(&mut self, message: &M, limits: Limits, number: u64)
        ensures traced { IsTraced (M.segments message.now) (depth_of limits) number self.new }
        ensures fault { let m = M.segments message.now in (words : ℕ) (r : Refusal) →
            (f : IsFirstFault m words (depth_of limits) r) → r.pointers ≡ number →
            self.new ≡ Some f.path }
        ensures lax { let m = M.segments message.now in (words s w : ℕ) (what : Lax) →
            IsWithin m words (depth_of limits) → (f : IsFirstLax m s w what number) →
            self.new ≡ Some f.path }
        ensures overlap { let m = M.segments message.now in (words s w : ℕ) →
            IsWithin m words (depth_of limits) → (f : IsFirstOverlap m s w number) →
            self.new ≡ Some f.path }
    {
        let count = path_of_pointer(message, limits, number, &mut self.steps);
        self.count = count;
    }

    /// Finds the first pointer that uses a word which the pointer word of this number uses too, as
    /// [`earlier_pointer`] does, and the path to it. There is no path if there is no such pointer.
    pub fn find_earlier<M: Segments>(
        &mut self,
        message: &M,
        limits: Limits,
        number: u64,
    ) -> Option<EarlierPointer>
        ensures reports { let m = M.segments message.now in (path : List Step) →
            IsTraceable m (depth_of limits) number path → FindsEarlier m path result self.new }
        ensures missing { let m = M.segments message.now in
            IsMissing m (depth_of limits) number → (result ≡ None) × (self.new ≡ None) }
        ensures overlap { let m = M.segments message.now in (words s w : ℕ) →
            IsWithin m words (depth_of limits) → (f : IsFirstOverlap m s w number) →
            FindsEarlier m f.path result self.new }
    {
        match earlier_pointer(message, limits, number) {
            Some(earlier) => {
                self.find(message, limits, earlier.pointers);
                Some(earlier)
            }
            None => {
                self.count = None;
                None
            }
        }
    }

    /// Finds the path to the pointer that the refusal of a message within these limits names. The word
    /// limit has no effect.
    pub fn find_refused<M: Segments>(
        &mut self,
        message: &M,
        limits: Limits,
        refusal: &StrictRefusal,
    )
        ensures { let m = M.segments message.now in (demands : Demands) (words : ℕ) →
            (h : IsDemandFault demands m words (depth_of limits) refusal.now) →
            self.new ≡ fault_path demands m words (depth_of limits) refusal.now h }
    {
        self.find(message, limits, number_of(refusal));
    }
}

// The number of the pointer that is named, and 0 if none is.
fn number_of(refusal: &StrictRefusal) -> u64
    ensures { result ≡ pointer_number refusal.now }
{
    match refusal {
        StrictRefusal::Refused(refusal) => refusal.pointers,
        StrictRefusal::ManySegments => 0,
        StrictRefusal::Pointer { pointers, .. } => *pointers,
    }
}
