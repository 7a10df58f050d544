//! The charge of a message up to the pointer at which it passes the word limit.

ghost use Rattle.cap_walk.specs.ChargeSteps.{HasCost, SumsBefore};
ghost use Rattle.cap_walk.specs.ChargeUpTo.{IsChargeUpTo};
ghost use Rattle.cap_walk.specs.Limits.{depth_of, words_of};
ghost use Rattle.cap_walk.specs.NullCosts.{null_costs};
ghost use Rattle.std.specs.Prelude.{◌≡◌, ◌≢◌, IfNone, IfSome, IsFalse, IsTrue, ℕ};

use crate::limits::Limits;
use crate::report::Report;
use crate::turn::{Stopped, Turn};
use crate::walking::walk;
use cap_frame::Segments;
use cap_ptr::{Place, follow};
use cap_spec::{Reason, Refusal};
use std::convert::Infallible;

/// A walk that sums what following its pointer words costs.
#[derive(Drop)]
struct ChargeSum {
    charge: u128,
}

impl Turn for ChargeSum {
    type Stop = Infallible;

    ghost knows = { λ sum m seen. HasCost m seen sum.charge };

    ghost stops = { λ _ _. ⊥ };

    #[inline(always)]
    fn after<M: Segments>(
        &mut self,
        _message: &M,
        _s: u32,
        _w: u32,
        _object: Place,
        _may_be_lax: bool,
        _pointers: u64,
        cost: u64,
    ) -> Result<(), Infallible> {
        self.charge += u128::from(cost);
        Ok(())
    }

    ghost passes = { λ sum m seen p level s w reached null known.
        null_costs m seen p level s w sum.charge reached null known };
}

// A message is refused at the word limit.
fn is_past_limit(reason: Reason) -> bool
    ensures yes { IsTrue result → reason ≡ Reason.WordLimit }
    ensures no { IsFalse result → reason ≢ Reason.WordLimit }
{
    match reason {
        Reason::WordLimit => true,
        _ => false,
    }
}

// The charge of the pointers before the one that a refusal names, and what that one costs.
fn with_pointer<M: Segments>(
    message: &M,
    limits: &Limits,
    charge: u128,
    refusal: &Refusal,
) -> Option<u64>
    requires before { SumsBefore (M.segments message.now) (words_of limits.now) (depth_of limits.now)
        refusal.now charge }
    ensures some { IfSome result
        (IsChargeUpTo (M.segments message.now) (words_of limits.now) (depth_of limits.now)) }
    ensures none { IfNone result ((n : ℕ) →
        ¬ IsChargeUpTo (M.segments message.now) (words_of limits.now) (depth_of limits.now) n) }
{
    if is_past_limit(refusal.reason) {
        match follow(message, refusal.segment, refusal.word) {
            Ok(followed) => Some(charge as u64 + followed.charge()),
            Err(_) => None,
        }
    } else {
        None
    }
}

/// The charge up to the pointer at which the message passes the word limit, with that pointer and
/// its target. `None` if the message is accepted within the limits, or is refused for another
/// reason. Walks once. Allocates nothing.
pub fn charge_up_to<M: Segments>(message: &M, limits: Limits) -> Option<u64>
    ensures some { IfSome result
        (IsChargeUpTo (M.segments message.now) (words_of limits) (depth_of limits)) }
    ensures none { IfNone result ((charge : ℕ) →
        ¬ IsChargeUpTo (M.segments message.now) (words_of limits) (depth_of limits) charge) }
{
    let mut sum = ChargeSum { charge: 0 };
    let mut report = Report::default();
    match walk(message, &limits, &mut sum, &mut report) {
        Ok(()) => None,
        Err(Stopped::Refused(refusal)) => with_pointer(message, &limits, sum.charge, &refusal),
        Err(Stopped::ByTurn(never)) => match never {},
    }
}
