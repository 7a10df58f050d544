//! Why a pointer isn't as a canonical copy has it.

ghost use Rattle.cap_canon.specs.InOrder.{Differs, IsAsInCopy, MayStartAt};
ghost use Rattle.cap_difference.specs.Differences.{HasWordsBelow};
ghost use Rattle.cap_difference.specs.Reasons.{IsFirstSuchReason, PointerDiffers};
ghost use Rattle.cap_difference.specs.declared.reason.DifferenceReason.{DifferenceReason};
ghost use Rattle.cap_spec.specs.Messages.{segment_of};
ghost use Rattle.cap_spec.specs.Paths.{Costs};
ghost use Rattle.std.specs.Prelude.{◌+◌, ◌<◌, ◌≡◌, IfErr, IfOk, length, ℕ};

use crate::objects::object_reason;
use crate::reading::read_list;
use crate::reason::DifferenceReason;
use cap_frame::Segments;
use cap_ptr::{Followed, follow, kind};

/// Where a copy has the next object, if it has pointer word `w` of segment `s` as it is here, with its
/// object from word `end` on.
///
/// # Errors
///
/// The first reason why it hasn't.
#[inline(always)]
pub(crate) fn next_end<M: Segments>(
    message: &M,
    s: u32,
    w: u32,
    end: u64,
) -> Result<u64, DifferenceReason>
    requires exists { s < length (M.segments message.now) }
    requires inside { w < length (segment_of (M.segments message.now) s) }
    requires costs { (cost : ℕ) × Costs (M.segments message.now) s w cost }
    ensures ends { let m = M.segments message.now in
        IfOk result (λ now. (n : ℕ) × HasWordsBelow m s w n × (now ≡ end + n)) }
    ensures same { let m = M.segments message.now in
        IfOk result (λ _. (reason : DifferenceReason) → ¬ PointerDiffers m s w end reason) }
    ensures differs { IfErr result (IsFirstSuchReason (PointerDiffers (M.segments message.now) s w end)) }

    // The same of a copy's words, in segment 0.
    ensures copied { let m = M.segments message.now in
        IfOk result (λ now. s ≡ 0 → MayStartAt m w end → IsAsInCopy m w end now) }
    ensures not_copied { IfErr result (λ _. s ≡ 0 → Differs (M.segments message.now) w end) }
{
    let word = message.word(s, w);
    if kind(word) == 2 {
        return Err(DifferenceReason::Far);
    }
    match follow(message, s, w) {
        Ok(Followed::Null { .. }) => Ok(end),
        Ok(Followed::Cap { .. }) => Err(DifferenceReason::Capability),
        Ok(Followed::Target(target)) => match object_reason(message, word, target, end) {
            Some(reason) => Err(reason),
            None if target.words == 0 => Ok(end),
            None => {
                read_list(message, target);
                Ok(u64::from(target.start) + u64::from(target.words))
            }
        },
        // The pointer can be followed.
        Err(_) => unreachable!(),
    }
}
