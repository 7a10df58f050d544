//! Where a path arrives by looks at its pointers alone.

ghost use Rattle.cap_spec.specs.Paths.{Spot as Where, word};
ghost use Rattle.cap_spec.specs.declared.Step.{Step};
ghost use Rattle.cap_vet.specs.Charging.{Arrives};
ghost use Rattle.cap_vet.specs.PathEnds.{SomeArrives};
ghost use Rattle.std.specs.Prelude.{[], ◌∷◌, ◌++◌, ◌<◌, ◌≡◌, ◌^◌, IfSome, List, None};

use crate::nodes::charged::Arrival;
use crate::nodes::near_found::found_near;
use crate::nodes::spot::Spot;
use cap_frame::Segments;
use cap_spec::Step;

// Arrives at the root, if a look at its pointer shows where that leads.
#[inline(always)]
pub(crate) fn at_root_near<M: Segments>(message: &M, words: u64, depth: u32) -> Option<Arrival>
    ensures at { IfSome result (Arrives (M.segments message.now) words depth [] (word 0 0)) }
    ensures strict { IfSome result (λ at. at.lax ≡ None) }
{
    if message.len(0) == 0 {
        return None;
    }
    let (found, consumed) = found_near(message, words, depth, 0, 0, 1)?;
    Some(Arrival {
        found,
        level: 1,
        consumed,
        pointers: 1,
        lax: None,
    })
}

impl Arrival {
    // Takes one step, if a look at the step's pointer shows where it leads, or to an element. Common
    // readers reject no such pointer, and none before it. So `lax` needs no register in a loop.
    #[inline(always)]
    pub(crate) fn step_near<M: Segments>(
        &self,
        message: &M,
        words: u64,
        depth: u32,
        step: Step,
    ) -> Option<Arrival>
        requires arrived { SomeArrives (M.segments message.now) words depth self.now }
        requires levels { self.now.level < 2 ^ 61 }
        requires few { self.now.pointers < 2 ^ 61 }
        requires strict { self.now.lax ≡ None }
        ensures on { let m = M.segments message.now in
            (path : List Step) (a : Where) → Arrives m words depth path a self.now →
            IfSome result (λ next. (b : Where) × Arrives m words depth (path ++ step ∷ []) b next) }
        ensures strict { IfSome result (λ next. next.lax ≡ None) }
    {
        match self.found.step(step) {
            None => None,
            Some(Spot::Word { segment, word }) => {
                let left = words - self.consumed;
                let level = self.level + 1;
                let (found, charge) = found_near(message, left, depth, segment, word, level)?;
                Some(Arrival {
                    found,
                    level,
                    consumed: self.consumed + charge,
                    pointers: self.pointers + 1,
                    lax: None,
                })
            }
            Some(
                Spot::Element {
                    segment,
                    start,
                    data_words,
                    pointers,
                },
            ) => Some(Arrival {
                lax: None,
                ..self.at_element(segment, start, data_words, pointers)
            }),
        }
    }
}
