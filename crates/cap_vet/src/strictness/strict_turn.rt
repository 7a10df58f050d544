//! The turn of a walk that looks for pointers which common readers reject.

ghost use Rattle.cap_spec.specs.declared.Step.{Step};
ghost use Rattle.cap_vet.specs.StrictNulls.{null_known};
ghost use Rattle.cap_vet.specs.Stricts.{KnowsLax};
ghost use Rattle.cap_walk.specs.Trails.{Ahead};
ghost use Rattle.cap_walk.specs.Walking.{IsLookedAt};
ghost use Rattle.std.specs.Prelude.{◌∷◌, List, ℕ};

use crate::strictness::lax::lax_form;
use cap_frame::Segments;
use cap_ptr::Place;
use cap_spec::Lax;
use cap_walk::Turn;
use std::convert::Infallible;

/// The first pointer that common readers reject.
#[derive(Clone, Copy, Drop)]
pub(crate) struct LaxPointer {
    /// Its form.
    pub(crate) what: Lax,
    pub(crate) segment: u32,
    pub(crate) word: u32,
    /// How many pointer words were looked at, that one included.
    pub(crate) pointers: u64,
}

/// A walk that remembers the first pointer which common readers reject, and goes on.
#[derive(Drop)]
pub(crate) struct LaxSearch {
    pub(crate) first: Option<LaxPointer>,
}

impl LaxSearch {
    // Looks at a pointer that may be the first. Few pointers are far, so this and `lax_form` stay out
    // of the loop of the walk.
    #[cold]
    #[inline(never)]
    fn look_at<M: Segments>(&mut self, message: &M, s: u32, w: u32, pointers: u64)
        requires { let m = M.segments message.now in (seen : List (List Step)) × (a : Ahead)
            × (cost : ℕ) × IsLookedAt m seen a s w pointers cost × KnowsLax m seen self.old.first }
        ensures { let m = M.segments message.now in (seen : List (List Step)) (a : Ahead) (cost : ℕ) →
            IsLookedAt m seen a s w pointers cost → KnowsLax m seen self.old.first →
            KnowsLax m (a.path ∷ seen) self.new.first }
    {
        if self.first.is_some() {
            return;
        }
        if let Some(what) = lax_form(message, s, w) {
            self.first = Some(LaxPointer {
                what,
                segment: s,
                word: w,
                pointers,
            });
        }
    }
}

impl Turn for LaxSearch {
    type Stop = Infallible;

    ghost knows = { λ search m seen. KnowsLax m seen search.first };

    ghost stops = { λ _ _. ⊥ };

    #[inline(always)]
    fn after<M: Segments>(
        &mut self,
        message: &M,
        s: u32,
        w: u32,
        _object: Place,
        may_be_lax: bool,
        pointers: u64,
        _cost: u64,
    ) -> Result<(), Infallible> {
        if may_be_lax {
            self.look_at(message, s, w, pointers);
        }
        Ok(())
    }

    ghost passes = { λ search m seen p level s w reached null known.
        null_known m seen p level s w search.first reached null known };
}
