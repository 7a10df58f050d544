//! Reading the words of lists that a search needn't look at.

ghost use Rattle.cap_difference.specs.ReadWords.{AreRead, HasWords};
ghost use Rattle.cap_spec.specs.Messages.{segment_of};
ghost use Rattle.std.specs.Prelude.{◌+◌, ◌<◌, ◌≢◌, ◌≤◌, length};

use cap_frame::Segments;
use cap_ptr::{Shape, Target};

/// Reads the values of a list, and the tag of a list of structs. So they are known to be words, each
/// below 2^64. This does nothing to words that the message has as bytes.
#[inline(always)]
pub(crate) fn read_list<M: Segments>(message: &M, target: Target)
    requires exists { target.segment < length (M.segments message.now) }
    requires inside { target.start + target.words
        ≤ length (segment_of (M.segments message.now) target.segment) }
    requires some { target.words ≢ 0 }
    ensures { AreRead (M.segments message.now)
        target.segment target.start target.words target.shape }
{
    match target.shape {
        Shape::Scalars { .. } => {
            read_range(message, target.segment, target.start, target.words);
        }
        Shape::Structs { .. } => {
            let _tag = message.word(target.segment, target.start);
        }
        Shape::Struct { .. } => {}
        Shape::Pointers { .. } => {}
    }
}

// The words of a range are words. Those that aren't there as bytes are known to be so only once they
// are read, so each is read.
#[inline(always)]
fn read_range<M: Segments>(message: &M, segment: u32, start: u32, count: u32)
    requires exists { segment < length (M.segments message.now) }
    requires inside { start + count ≤ length (segment_of (M.segments message.now) segment) }
    ensures { HasWords (M.segments message.now) segment start count }
{
    match message.bytes_at(segment, start, count) {
        Some(_) => {}
        None => read_each(message, segment, start, count),
    }
}

// The same, word by word.
#[inline(always)]
fn read_each<M: Segments>(message: &M, segment: u32, start: u32, count: u32)
    requires exists { segment < length (M.segments message.now) }
    requires inside { start + count ≤ length (segment_of (M.segments message.now) segment) }
    ensures { HasWords (M.segments message.now) segment start count }
{
    'words: for k in 0..count {
        let _word = message.word(segment, start + k);
    }
}
