//! What may be demanded of a message beside the limits.

ghost use Rattle.cap_spec.specs.Frames.{sizes_of};
ghost use Rattle.cap_spec.specs.Unamplified.{slack};
ghost use Rattle.cap_walk.specs.Demands.{words_under};
ghost use Rattle.cap_walk.specs.Limits.{depth_of, words_of};
ghost use Rattle.std.specs.Prelude.{◌+◌, ◌≡◌, sum};

use crate::limits::Limits;
use cap_frame::{Segments, message_words};

/// How many words more than the segments of an unamplified message have may be charged.
const SLACK: u64 = 4096;

/// What is demanded of a message beside the limits. By default nothing.
#[derive(Clone, Copy, Debug, Default, PartialEq, Eq)]
pub struct Demands {
    /// It has to be strict, as for `vet_strict`.
    pub strict: bool,
    /// It has to be unamplified: its charge is at most the words of its segments and 4,096 more.
    pub unamplified: bool,
}

/// The limits within which a message has to be accepted under the demands.
pub fn limits_under<M: Segments>(message: &M, limits: Limits, demands: Demands) -> Limits
    ensures words { let m = M.segments message.now in
        words_of result ≡ words_under demands m (words_of limits) }
    ensures depth { depth_of result ≡ depth_of limits }
{
    if demands.unamplified {
        return limits.lowered(unamplified_words(message));
    }
    limits
}

/// The highest charge of an unamplified message.
pub fn unamplified_words<M: Segments>(message: &M) -> u64
    ensures { result ≡ sum (sizes_of (M.segments message.now)) + slack }
{
    message_words(message) + SLACK
}
