//! Sizes that suffice for the buffers of the calls, for callers without the macros of C.

ghost use Rattle.cap_calls.specs.CallBounds.{canonical_bound, frame_bound, marks_bound, pack_bound};
ghost use Rattle.std.specs.Prelude.{◌≡◌, min};

use cap_frame::MOST_WORDS;

/// The most bytes of a frame whose segments have `message_words` words. Above the maximum of the
/// limit, it is that of the maximum.
pub fn frame_size(message_words: u64) -> usize
    ensures { result ≡ frame_bound (min message_words 268435456) }
{
    message_words.min(MOST_WORDS) as usize * 8 + 2056
}

/// The numbers that suffice for the marks of an input of `length` bytes.
pub fn marks_size(length: usize) -> usize
    ensures { result ≡ marks_bound length }
{
    length / 512 + 1
}

/// The most bytes of the canonical copy of an input of `length` bytes that is unamplified; the
/// greatest `usize`, if it is less.
pub fn canonical_size(length: usize) -> usize
    ensures { result ≡ min (canonical_bound length) 18446744073709551615 }
{
    length.saturating_add(8 * (4096 + 1))
}

/// The most bytes that packing `length` bytes gives; the greatest `usize`, if it is less.
pub fn pack_size(length: usize) -> usize
    ensures { result ≡ min (pack_bound length) 18446744073709551615 }
{
    (length / 8).saturating_mul(10)
}
