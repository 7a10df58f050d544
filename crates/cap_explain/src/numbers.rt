//! The numbers that an explanation names beside those of the message.

ghost use Rattle.cap_explain.specs.Charges.{ChargeOf};
ghost use Rattle.cap_walk.specs.Limits.{depth_of, words_of};
ghost use Rattle.std.specs.Prelude.{◌≡◌};

use crate::charge::refusal_charge;
use cap_frame::Segments;
use cap_spec::StrictRefusal;
use cap_trace::Cycle;
use cap_walk::Limits;

/// Where in an input a message begins.
#[derive(Clone, Copy, Debug, PartialEq, Eq, Drop)]
pub struct MessageStart {
    /// Its first byte. The bytes of a packed input are counted unpacked.
    pub byte: u64,
    /// Whether the input is packed.
    pub packed: bool,
}

/// What an explanation says beside the message. It has the limits, the charge up to the refused
/// pointer, and the last cycle of the path to it. It also has where the message begins.
#[derive(Clone, Copy, Debug, PartialEq, Eq, Drop)]
pub struct Numbers {
    /// The limit of the charge, in words.
    pub words: u64,
    /// The limit of levels.
    pub depth: u32,
    /// The charge up to the pointer that is named, with its target, if the word limit is passed there.
    pub charge: Option<u64>,
    /// The last cycle on the path to the refused pointer. `None` if there is none, or if the reason is
    /// no limit.
    pub cycle: Option<Cycle>,
    /// Whether the message has a segment table, which comes before its segments.
    pub has_table: bool,
    /// Where the message begins, if it is one of a stream.
    pub start: Option<MessageStart>,
}

/// The numbers of a message that is refused within limits, with this cycle. Walks
/// only for the word limit. Allocates nothing.
// The walk keeps its runs on the stack: a caller's frame isn't to have them while it writes.
#[inline(never)]
pub fn numbers_of<M: Segments>(
    message: &M,
    refusal: &StrictRefusal,
    cycle: Option<Cycle>,
    limits: Limits,
    has_table: bool,
    start: Option<MessageStart>,
) -> Numbers
    ensures words { result.words ≡ words_of limits }
    ensures depth { result.depth ≡ depth_of limits }
    ensures charge { ChargeOf (M.segments message.now) (words_of limits) (depth_of limits) refusal.now
        result.charge }
    ensures cycle { result.cycle ≡ cycle }
    ensures table { result.has_table ≡ has_table }
    ensures start { result.start ≡ start }
{
    Numbers {
        words: limits.words(),
        depth: limits.depth(),
        charge: refusal_charge(message, refusal, limits),
        cycle,
        has_table,
        start,
    }
}
