//! Null words in a row.

ghost use Rattle.cap_spec.specs.Messages.{HasWord, segment_of};
ghost use Rattle.cap_spec.specs.Plain.{plain_words};
ghost use Rattle.std.specs.Prelude.{◌*◌, ◌+◌, ◌<◌, ◌^◌, ◌≡◌, ◌≤◌, Some, length, slice_get, ℕ};

use byteorder::{ByteOrder, LittleEndian};
use cap_frame::Segments;

/// How many of the `most` words from `at` on come before the first that isn't null. The caller makes
/// sure that these words exist. Allocates nothing.
#[inline(always)]
pub fn nulls<M: Segments>(message: &M, segment: u32, at: u32, most: u32) -> u32
    requires exists { segment < length (M.segments message.now) }
    requires inside { at + most ≤ length (segment_of (M.segments message.now) segment) }
    ensures few { result ≤ most }
    ensures null { (k : ℕ) → k < result → HasWord (M.segments message.now) segment (at + k) 0 }
{
    match message.bytes_at(segment, at, most) {
        Some(row) => nulls_in(row),
        None => nulls_by_word(message, segment, at, most),
    }
}

// The same of words by their bytes. The rest of them is a slice, so rustc checks nothing more than the
// loop does.
#[inline(always)]
fn nulls_in(row: &[u8]) -> u32
    requires { length row.now < 2 ^ 35 }
    ensures few { 8 * result ≤ length row.now }
    ensures null { (k : ℕ) → k < result → slice_get (plain_words row.now) k ≡ Some 0 }
{
    let mut rest = row;
    'words: while rest.len() >= 8 && LittleEndian::read_u64(rest) == 0 {
        rest = &rest[8..];
    }
    ((row.len() - rest.len()) / 8) as u32
}

// The same of a message that doesn't have its words as bytes.
#[inline(always)]
fn nulls_by_word<M: Segments>(message: &M, segment: u32, at: u32, most: u32) -> u32
    requires exists { segment < length (M.segments message.now) }
    requires inside { at + most ≤ length (segment_of (M.segments message.now) segment) }
    ensures few { result ≤ most }
    ensures null { (k : ℕ) → k < result → HasWord (M.segments message.now) segment (at + k) 0 }
{
    let mut passed = 0;
    'nulls: while passed < most && message.word(segment, at + passed) == 0 {
        passed += 1;
    }
    passed
}
