//! The turn of a walk that marks words, and looks for the first pointer that uses one twice.

ghost use Rattle.cap_ptr.specs.UsedPlaces.{UsesPlace};
ghost use Rattle.cap_spec.specs.declared.Step.{Step};
ghost use Rattle.cap_vet.specs.NullMarks.{null_known_marks};
ghost use Rattle.cap_vet.specs.OverlapSteps.{KnowsMarks};
ghost use Rattle.cap_vet.specs.Overlapping.{OverlapsFirst};
ghost use Rattle.cap_vet.specs.StrictNulls.{null_known};
ghost use Rattle.cap_vet.specs.Stricts.{KnowsLax};
ghost use Rattle.cap_walk.specs.Trails.{Ahead};
ghost use Rattle.cap_walk.specs.Walking.{IsLookedAt};
ghost use Rattle.std.specs.Prelude.{◌∷◌, ◌≡◌, List, ℕ};

use crate::exclusiveness::marks::Marks;
use crate::strictness::strict_turn::LaxSearch;
use cap_frame::Segments;
use cap_ptr::Place;
use cap_walk::Turn;

/// The first pointer in preorder that uses a word which is used already.
#[derive(Clone, Copy, Drop)]
pub(crate) struct Overlap {
    pub(crate) segment: u32,
    pub(crate) word: u32,
    /// How many pointer words were looked at, that one included.
    pub(crate) pointers: u64,
}

/// A walk that remembers the first pointer which overlaps. It goes on without marks, and stops at a
/// pointer past number `most`. It remembers the first pointer which common readers reject, too.
#[derive(Drop)]
pub(crate) struct OverlapSearch<'a> {
    pub(crate) marks: Marks<'a>,
    pub(crate) first: Option<Overlap>,
    pub(crate) most: u64,
    pub(crate) strictness: LaxSearch,
}

impl OverlapSearch<'_> {
    // Marks what a pointer uses, unless one overlapped before. Answers whether the walk stops.
    #[inline(always)]
    fn mark<M: Segments>(
        &mut self,
        message: &M,
        s: u32,
        w: u32,
        object: Place,
        pointers: u64,
    ) -> bool
        requires object { UsesPlace (M.segments message.now) s w object }
        requires known { let m = M.segments message.now in (seen : List (List Step)) × (a : Ahead)
            × (cost : ℕ) × IsLookedAt m seen a s w pointers cost
            × KnowsMarks m seen self.old.marks self.old.first }
        ensures known { let m = M.segments message.now in (seen : List (List Step)) (a : Ahead)
            (cost : ℕ) → IsLookedAt m seen a s w pointers cost →
            KnowsMarks m seen self.old.marks self.old.first →
            KnowsMarks m (a.path ∷ seen) self.new.marks self.new.first }
        ensures strictness { self.new.strictness ≡ self.old.strictness }
    {
        if self.first.is_some() {
            return pointers > self.most;
        }
        if self.marks.mark_pointer(message, s, w, object) {
            return false;
        }
        self.first = Some(Overlap {
            segment: s,
            word: w,
            pointers,
        });
        pointers > self.most
    }
}

impl Turn for OverlapSearch<'_> {
    type Stop = Overlap;

    ghost knows = { λ search m seen.
        KnowsMarks m seen search.marks search.first × KnowsLax m seen search.strictness.first };

    ghost stops = { OverlapsFirst };

    #[inline(always)]
    fn after<M: Segments>(
        &mut self,
        message: &M,
        s: u32,
        w: u32,
        object: Place,
        may_be_lax: bool,
        pointers: u64,
        cost: u64,
    ) -> Result<(), Overlap> {
        if self.mark(message, s, w, object, pointers) {
            if let Some(first) = self.first {
                return Err(first);
            }
        }
        match self
            .strictness
            .after(message, s, w, object, may_be_lax, pointers, cost)
        {
            Ok(()) => Ok(()),
            Err(never) => match never {},
        }
    }

    ghost passes = { λ search m seen p level s w reached null known. (
      null_known_marks m seen p level s w search.marks search.first reached null known.0,
      null_known m seen p level s w search.strictness.first reached null known.1,
    ) };
}
