//! Messages whose segments are separate slices.

ghost use Rattle.cap_frame.specs.Limit.{limit_of};
ghost use Rattle.cap_calls.specs.Slices.{AreSegments, AreWhole, IsBadSegment, ReportsNoSegments, bytes_of, segments_in, words_of_slices};
ghost use Rattle.cap_spec.specs.Frames.{sizes_of};
ghost use Rattle.cap_spec.specs.Messages.{IsMessage};
ghost use Rattle.cap_spec.specs.Plain.{capped};
ghost use Rattle.std.proofs.Props.{props};
ghost use Rattle.std.specs.Prelude.{◌≡◌, ◌≤◌, IfErr, IfOk, length, sum};

use byteorder::{ByteOrder, LittleEndian};
use cap_frame::{Segments, SizeLimit};

/// Why separate slices are no message.
#[derive(Clone, Copy, Debug, PartialEq, Eq, Drop)]
pub(crate) enum SlicesFault {
    /// There are none.
    NoSegments,
    /// There are `count` slices, more than 512.
    TooManySegments { count: u64 },
    /// Slice `segment`, counted from 0, ends inside a word, and none before it does.
    BadSegment { segment: u32 },
    /// The slices have `words` words together, more than the limit. The number stops at 2^64 - 1.
    TooLarge { words: u64 },
}

/// A message whose segments are slices of bytes, each wherever it is, with each word in eight of
/// them, the lowest first (encoding: Messages, 64-bit Words). Nothing is copied or allocated.
#[derive(Clone, Copy, Drop)]
pub(crate) struct SliceMessage<'b> {
    slices: &'b [&'b [u8]],
    // how many words they have together
    words: u64,
    ghost total: { words ≡ words_of_slices (bytes_of slices.now) },
    ghost is_message: { IsMessage (segments_in (bytes_of slices.now)) } by { Prim.hlevel props },
}

impl<'b> SliceMessage<'b> {
    /// The message whose segments are these slices.
    ///
    /// # Errors
    ///
    /// In the order in which they are looked for:
    ///
    /// - [`SlicesFault::NoSegments`]: there is no slice.
    /// - [`SlicesFault::TooManySegments`]: there are more than 512.
    /// - [`SlicesFault::BadSegment`]: the length of a slice is no multiple of 8.
    /// - [`SlicesFault::TooLarge`]: they have more words together than the limit.
    pub(crate) fn new(
        slices: &'b [&'b [u8]],
        limit: SizeLimit,
    ) -> Result<SliceMessage<'b>, SlicesFault>
        ensures whole { IfOk result (λ _. AreSegments (limit_of limit) (bytes_of slices.now)) }
        ensures segments { let of = ⟦<SliceMessage<'b> as Segments>⟧.segments in
            IfOk result (λ m. of m ≡ segments_in (bytes_of slices.now)) }
        ensures err { IfErr result (ReportsNoSegments (limit_of limit) (bytes_of slices.now)) }
    {
        if slices.is_empty() {
            return Err(SlicesFault::NoSegments);
        }
        if slices.len() > 512 {
            return Err(SlicesFault::TooManySegments {
                count: slices.len() as u64,
            });
        }
        let words = match total(slices) {
            Ok(words) => words,
            Err(segment) => return Err(SlicesFault::BadSegment { segment }),
        };
        if words > limit.words() {
            return Err(SlicesFault::TooLarge { words });
        }
        Ok(SliceMessage { slices, words })
    }

    /// How many words the segments have together.
    #[inline]
    pub(crate) fn words(&self) -> u64
        ensures { let of = ⟦<SliceMessage<'b> as Segments>⟧.segments in
            result ≡ sum (sizes_of (of self.now)) }
    {
        self.words
    }
}

impl<'b> Segments for SliceMessage<'b> {
    ghost segments = { λ m. segments_in (bytes_of m.slices.now) };

    #[inline]
    fn count(&self) -> u32 {
        self.slices.len() as u32
    }

    #[inline]
    fn len(&self, s: u32) -> u32 {
        (self.slices[s as usize].len() / 8) as u32
    }

    #[inline]
    fn word(&self, s: u32, w: u32) -> u64 {
        let at = 8 * w as usize;
        // A range with an end: rustc then compares the place once with the length of the bytes.
        LittleEndian::read_u64(&self.slices[s as usize][at..at + 8])
    }

    ghost is_message = { λ m. m.is_message };
}

// How many words the slices have together, at most 2^64 - 1. Or the first slice that ends inside a
// word.
fn total(slices: &[&[u8]]) -> Result<u64, u32>
    requires { length slices.now ≤ 512 }
    ensures whole { IfOk result (λ _. AreWhole (bytes_of slices.now)) }
    ensures words { IfOk result (λ n. n ≡ capped (words_of_slices (bytes_of slices.now))) }
    ensures cut { IfErr result (IsBadSegment (bytes_of slices.now)) }
{
    let mut words = 0u64;
    'slices: for (s, slice) in slices.iter().enumerate() {
        if slice.len() % 8 != 0 {
            return Err(s as u32);
        }
        words = words.saturating_add((slice.len() / 8) as u64);
    }
    Ok(words)
}
