//! Getters of messages that weren't vetted.

ghost use Rattle.cap_spec.specs.Arriving.{PathFinds};
ghost use Rattle.cap_spec.specs.Getting.{AreOnPath, AreShallow, Charges, IsFaultOnPath, IsRefusedOnPath};
ghost use Rattle.cap_spec.specs.Paths.{StepsTo, Spot as Where, word};
ghost use Rattle.cap_spec.specs.Verdicts.{CostOf};
ghost use Rattle.cap_spec.specs.declared.Kind.{Kind};
ghost use Rattle.cap_spec.specs.declared.Step.{Step};
ghost use Rattle.cap_vet.specs.Budgets.{left_of};
ghost use Rattle.cap_vet.specs.Charging.{Arrives};
ghost use Rattle.cap_vet.specs.Finding.{element_of};
ghost use Rattle.cap_vet.specs.Views.{kept_place, view_kind, view_message};
ghost use Rattle.cap_vet.specs.PathEnds.{SomeArrives};
ghost use Rattle.std.specs.Prelude.{[], ◌∷◌, ◌++◌, ◌+◌, ◌-◌, ◌<◌, ◌≡◌, ◌≤◌, ◌^◌, IfErr, IfNone, IfOk, IfSome, IsOk, List, OnErr, OnOk, length, ℕ};

use crate::nodes::budget::Budget;
use crate::nodes::found::{Found, element, found_of};
use crate::nodes::spot::Spot;
use crate::nodes::view::View;
use crate::strictness::path_strictness::first_lax;
use crate::strictness::strict_turn::LaxPointer;
use cap_frame::Segments;
use cap_ptr::levels_of_elements;
use cap_spec::{Reason, Refusal, Step};
use cap_walk::follow_within;

/// Where the steps of a path have arrived so far.
#[derive(Clone, Copy)]
pub(crate) struct Arrival {
    // What the path arrived at.
    pub(crate) found: Found,
    // The level of it, 1 for the root.
    pub(crate) level: u64,
    // What following the pointers on the way cost, in words.
    pub(crate) consumed: u64,
    // How many pointers that were.
    pub(crate) pointers: u64,
    // The first of them that common readers reject.
    pub(crate) lax: Option<LaxPointer>,
}

// Arrives at the root.
#[inline(always)]
pub(crate) fn at_root<M: Segments>(message: &M, words: u64, depth: u32) -> Result<Arrival, Refusal>
    ensures ok { IfOk result (Arrives (M.segments message.now) words depth [] (word 0 0)) }
    ensures level { IfOk result (λ at. at.level ≡ 1) }
    ensures pointers { IfOk result (λ at. at.pointers ≡ 1) }
    ensures err { (path : List Step) →
        IfErr result (IsRefusedOnPath (M.segments message.now) words depth path) }
{
    if message.len(0) == 0 {
        return Err(Refusal {
            segment: 0,
            word: 0,
            reason: Reason::NoRoot,
            pointers: 0,
        });
    }
    match follow_within(message, words, depth, 0, 0, 1) {
        Ok(followed) => Ok(Arrival {
            found: found_of(followed),
            level: 1,
            consumed: followed.charge(),
            pointers: 1,
            lax: first_lax(message, None, 0, 0, 1),
        }),
        Err(reason) => Err(Refusal {
            segment: 0,
            word: 0,
            reason,
            pointers: 1,
        }),
    }
}

impl Arrival {
    // Takes one step, to what the step's pointer leads to or to an element. `None` if the step
    // leads to nothing.
    #[inline(always)]
    pub(crate) fn step<M: Segments>(
        &self,
        message: &M,
        words: u64,
        depth: u32,
        step: Step,
    ) -> Result<Option<Arrival>, Refusal>
        requires arrived { SomeArrives (M.segments message.now) words depth self.now }
        requires levels { self.now.level < 2 ^ 61 }
        requires few { self.now.pointers < 2 ^ 61 }
        ensures some { let m = M.segments message.now in
            (path : List Step) (a : Where) → Arrives m words depth path a self.now →
            IfOk result (λ o. IfSome o (λ next.
            (b : Where) × Arrives m words depth (path ++ step ∷ []) b next)) }
        ensures level { IfOk result (λ o. IfSome o (λ next. next.level ≤ self.now.level + 1)) }
        ensures pointers { IfOk result (λ o.
            IfSome o (λ next. next.pointers ≤ self.now.pointers + 1)) }
        ensures none { let m = M.segments message.now in
            (path : List Step) (a : Where) → Arrives m words depth path a self.now →
            IfOk result (λ o. IfNone o ((b : Where) → ¬ StepsTo m a step b)) }
        ensures err { let m = M.segments message.now in
            (path : List Step) (a : Where) → Arrives m words depth path a self.now →
            IfErr result (IsFaultOnPath m words depth (path ++ step ∷ [])) }
    {
        match self.found.step(step) {
            None => Ok(None),
            Some(Spot::Word { segment, word }) => {
                let left = words - self.consumed;
                let level = self.level + 1;
                let pointers = self.pointers + 1;
                match follow_within(message, left, depth, segment, word, level) {
                    Ok(followed) => Ok(Some(Arrival {
                        found: found_of(followed),
                        level,
                        consumed: self.consumed + followed.charge(),
                        pointers,
                        lax: first_lax(message, self.lax, segment, word, pointers),
                    })),
                    Err(reason) => Err(Refusal {
                        segment,
                        word,
                        reason,
                        pointers,
                    }),
                }
            }
            Some(
                Spot::Element {
                    segment,
                    start,
                    data_words,
                    pointers,
                },
            ) => Ok(Some(self.at_element(segment, start, data_words, pointers))),
        }
    }

    // What a step to this element arrives at.
    #[inline(always)]
    pub(crate) fn at_element(
        &self,
        segment: u32,
        start: u32,
        data_words: u16,
        pointers: u16,
    ) -> Arrival
        requires { self.now.level < 2 ^ 61 }
        ensures { result ≡ record self.now {
          found = element_of segment start data_words pointers;
          level = self.now.level + 1;
        } }
    {
        Arrival {
            found: element(segment, start, data_words, pointers),
            level: self.level + u64::from(levels_of_elements(1)),
            ..*self
        }
    }
}

/// Follows a path in a message that needn't be vetted, and gives what it arrives at (encoding:
/// Security Considerations). Each pointer on the path, the root's among them, is charged to the
/// budget, in words. A word that two steps lead to is charged twice. Allocates nothing.
///
/// `None` if the path arrives at nothing: the pointers up to there are charged all the same.
///
/// # Errors
///
/// The error names the first pointer on the path at which anything is wrong, with the first reason
/// that applies there. `pointers` counts the pointers on the path up to that one, itself included.
/// After an error the budget is as it was.
///
/// - [`Reason::NoRoot`]: segment 0 has no words. `pointers` is 0 then.
/// - `Reserved` to `CompositeOverrun`: the pointer can't be followed, see [`Reason`].
/// - [`Reason::DepthLimit`]: its target is past `depth` levels, or the target's structs are.
/// - [`Reason::WordLimit`]: the charges up to it, its own included, are more words than the budget
///   has.
pub fn get_charged<'m, M: Segments>(
    message: &'m M,
    budget: &mut Budget,
    depth: u32,
    path: &[Step],
) -> Result<Option<View<'m, M>>, Refusal>
    ensures ok { let m = M.segments message.now in
        OnOk result (Charges m (left_of budget.old) depth path.now (left_of budget.new)) }
    ensures none { let m = M.segments message.now in IfOk result (λ o. IfNone o (
        (k : Kind) (t b n : ℕ) → ¬ PathFinds m path.now k t b n)) }
    ensures some { let m = M.segments message.now in IfOk result (λ o. IfSome o (λ v.
        let place = kept_place v in
        PathFinds m path.now (view_kind v) place.segment place.start place.words)) }
    ensures message { IfOk result (λ o. IfSome o (λ v. view_message v ≡ message.now)) }
    ensures err { let m = M.segments message.now in
        IfErr result (IsRefusedOnPath m (left_of budget.old) depth path.now) }
    ensures unchanged { OnErr result (budget.new ≡ budget.old) }
    // The other direction.
    ensures accepts { let m = M.segments message.now in (ways : List (List Step)) (cost : ℕ) →
        AreOnPath m path.now ways → 0 < length ways → CostOf m ways cost → AreShallow m depth ways →
        cost ≤ left_of budget.old → IsOk result }
    ensures refuses { let m = M.segments message.now in (refusal : Refusal) →
        IsRefusedOnPath m (left_of budget.old) depth path.now refusal → result ≡ Err refusal }
{
    let words = budget.words;
    let mut at = match at_root(message, words, depth) {
        Ok(root) => root,
        Err(refusal) => return Err(refusal),
    };
    for step in path {
        match at.step(message, words, depth, *step) {
            Ok(Some(next)) => at = next,
            Ok(None) => {
                budget.words = words - at.consumed;
                return Ok(None);
            }
            Err(fault) => return Err(fault),
        }
    }
    budget.words = words - at.consumed;
    let view = View {
        message,
        found: at.found,
    };
    Ok(Some(view))
}
