//! The frame at the start of bytes.

ghost use Rattle.cap_calls.specs.CallFrames.{AreLimits, HasNoFrame};
ghost use Rattle.cap_frame.specs.Framed.{frame_bytes, framed_segments};
ghost use Rattle.cap_frame.specs.Fronts.{IsFront};
ghost use Rattle.cap_frame.specs.Limit.{limit_of};
ghost use Rattle.cap_walk.specs.Limits.{depth_of, words_of};
ghost use Rattle.std.specs.Prelude.{◌≡◌, ◌↔◌, IfErr, IfOk, IfSome, IsSome};

use crate::limits::CallLimits;
use cap_frame::{Framed, FrontFault, SizeLimit, front_of};
use cap_vet::Limits;

/// Why there is no frame to report.
#[derive(Clone, Copy, Debug, PartialEq, Eq, Drop)]
pub enum NoFrame {
    /// A limit is above its maximum, a flag or the form is unknown, or a reserved field isn't 0.
    BadLimits,
    /// There are no bytes.
    NoMessage,
    /// The bytes start with no message within the limit.
    Fault(FrontFault),
}

// The frame at the start of bytes, with the limits of a walk through its message.
pub(crate) fn front<'b>(
    bytes: &'b [u8],
    limits: &CallLimits,
) -> Result<(Framed<'b>, Limits), NoFrame>
    ensures limits { IfOk result (λ f. AreLimits limits.now
        × (words_of f.1 ≡ limits.now.charge) × (depth_of f.1 ≡ limits.now.depth)) }
    ensures front { IfOk result (λ f.
        IsFront limits.now.message_words bytes.now (framed_segments f.0) (frame_bytes f.0)) }
    ensures none { IfErr result (HasNoFrame limits.now bytes.now) }
{
    let Some((size, walk)) = checked(limits) else {
        return Err(NoFrame::BadLimits);
    };
    match front_of(bytes, size) {
        Ok(Some(framed)) => Ok((framed, walk)),
        Ok(None) => Err(NoFrame::NoMessage),
        Err(fault) => Err(NoFrame::Fault(fault)),
    }
}

// The limit of the size and those of a walk, or `None` if they aren't limits of a frame.
#[inline(always)]
pub(crate) fn checked(limits: &CallLimits) -> Option<(SizeLimit, Limits)>
    ensures some { IsSome result ↔ AreLimits limits.now }
    ensures size { IfSome result (λ c. limit_of c.0 ≡ limits.now.message_words) }
    ensures walk { IfSome result (λ c.
        (words_of c.1 ≡ limits.now.charge) × (depth_of c.1 ≡ limits.now.depth)) }
{
    if !limits.has_known_flags() {
        return None;
    }
    let Some(size) = SizeLimit::new(limits.message_words) else {
        return None;
    };
    let Some(walk) = Limits::new(limits.charge, limits.depth) else {
        return None;
    };
    Some((size, walk))
}
