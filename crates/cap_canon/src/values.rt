//! Whether a list of values is as a copy has it.

ghost use Rattle.cap_spec.specs.Denoting.{values_of};
ghost use Rattle.cap_spec.specs.Messages.{HasWord, segment_of};
ghost use Rattle.cap_spec.specs.Placing.{HasWordsAt};
ghost use Rattle.cap_spec.specs.Pointers.{list_words};
ghost use Rattle.cap_spec.specs.Scalars.{scalar_words};
ghost use Rattle.cap_spec.specs.Words.{IsWord};
ghost use Rattle.std.specs.Prelude.{◌+◌, ◌<◌, ◌↔◌, ◌≡◌, ◌≤◌, IsTrue, length, ℕ};

use crate::words::{last_word, rest_bits};
use cap_frame::Segments;

/// Whether the words of a list of values have no bits set after the last value.
#[inline(always)]
pub(crate) fn ends_with_values<M: Segments>(
    message: &M,
    start: u32,
    code: u8,
    count: u32,
    words: u32,
) -> bool
    requires exists { 0 < length (M.segments message.now) }
    requires inside { start + words ≤ length (segment_of (M.segments message.now) 0) }
    requires code { code < 6 }
    requires words { words ≡ list_words code count }
    ensures { IsTrue result ↔ HasWordsAt (segment_of (M.segments message.now) 0) start
        (scalar_words code (values_of (M.segments message.now) 0 start code count)) }
{
    read_range(message, 0, start, words);
    if rest_bits(code, count) == 0 {
        return true;
    }
    let last = message.word(0, start + (words - 1));
    last == last_word(code, count, last)
}

// The words of a range are words, each below 2^64. This does nothing to words that the message has as
// bytes. Others are known to be below 2^64 only once they are read, so each is read.
#[inline(always)]
fn read_range<M: Segments>(message: &M, segment: u32, start: u32, count: u32)
    requires exists { segment < length (M.segments message.now) }
    requires inside { start + count ≤ length (segment_of (M.segments message.now) segment) }
    ensures { let m = M.segments message.now in
        (k : ℕ) → k < count → (x : ℕ) × HasWord m segment (start + k) x × IsWord x }
{
    match message.bytes_at(segment, start, count) {
        Some(_) => {}
        None => read_each(message, segment, start, count),
    }
}

// The same, word by word.
#[inline(always)]
fn read_each<M: Segments>(message: &M, segment: u32, start: u32, count: u32)
    requires exists { segment < length (M.segments message.now) }
    requires inside { start + count ≤ length (segment_of (M.segments message.now) segment) }
    ensures { let m = M.segments message.now in
        (k : ℕ) → k < count → (x : ℕ) × HasWord m segment (start + k) x × IsWord x }
{
    'words: for k in 0..count {
        let _word = message.word(segment, start + k);
    }
}
