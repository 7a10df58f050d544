//! How many words a message has.

ghost use Rattle.cap_spec.specs.Frames.{sizes_of};
ghost use Rattle.cap_frame.specs.SegmentStarts.{start_of};
ghost use Rattle.std.specs.Prelude.{◌≡◌, ◌≤◌, ◌*◌, ◌^◌, length, sum};

use crate::segments::Segments;

/// The words of all segments of a message together.
pub fn message_words<M: Segments>(message: &M) -> u64
    ensures exact { result ≡ sum (sizes_of (M.segments message.now)) }
    ensures few { result ≤ 512 * 2 ^ 32 }
{
    words_before(message, message.count())
}

/// The words of the first `segments` segments of a message together.
pub fn words_before<M: Segments>(message: &M, segments: u32) -> u64
    requires { segments ≤ length (M.segments message.now) }
    ensures exact { result ≡ start_of (M.segments message.now) segments }
    ensures few { result ≤ 512 * 2 ^ 32 }
{
    let mut words = 0u64;
    for s in 0..segments {
        words += u64::from(message.len(s));
    }
    words
}
