//! The first pointer on a path that common readers reject.

ghost use Rattle.cap_spec.specs.Messages.{segment_of};
ghost use Rattle.cap_spec.specs.Paths.{Costs};
ghost use Rattle.cap_vet.specs.PathStrictness.{AddsPointer, HasNoFaultBy, IsFaultBy};
ghost use Rattle.std.specs.Prelude.{◌<◌, IfNone, IfSome, length, ℕ};

use crate::strictness::lax::lax_form;
use crate::strictness::strict_turn::LaxPointer;
use cap_frame::Segments;
use cap_spec::StrictRefusal;
use cap_walk::Demands;

/// The most segments that common readers take.
const MOST_SEGMENTS: u32 = 511;

/// The first such pointer on a path that goes on to the pointer at word `w` of segment `s`, if it
/// was `before` up to there. The pointer can be followed, and is the one of this number.
#[inline(always)]
pub(crate) fn first_lax<M: Segments>(
    message: &M,
    before: Option<LaxPointer>,
    s: u32,
    w: u32,
    pointers: u64,
) -> Option<LaxPointer>
    requires exists { s < length (M.segments message.now) }
    requires inside { w < length (segment_of (M.segments message.now) s) }
    requires followed { (cost : ℕ) × Costs (M.segments message.now) s w cost }
    ensures { AddsPointer (M.segments message.now) s w pointers before result }
{
    match before {
        Some(first) => Some(first),
        None => match lax_form(message, s, w) {
            Some(what) => Some(LaxPointer {
                what,
                segment: s,
                word: w,
                pointers,
            }),
            None => None,
        },
    }
}

/// Why a message isn't strict, if that is demanded and this is the first such pointer, on a path or of
/// all.
#[inline(always)]
pub(crate) fn strict_fault<M: Segments>(
    message: &M,
    demands: Demands,
    first: Option<LaxPointer>,
) -> Option<StrictRefusal>
    ensures some { IfSome result (IsFaultBy demands (length (M.segments message.now)) first) }
    ensures none { IfNone result (HasNoFaultBy demands (length (M.segments message.now)) first) }
{
    if !demands.strict {
        return None;
    }
    if message.count() > MOST_SEGMENTS {
        return Some(StrictRefusal::ManySegments);
    }
    match first {
        Some(first) => Some(StrictRefusal::Pointer {
            what: first.what,
            segment: first.segment,
            word: first.word,
            pointers: first.pointers,
        }),
        None => None,
    }
}
