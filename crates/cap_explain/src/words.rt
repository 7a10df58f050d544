//! The words of a message by their places, and their bytes.

ghost use Rattle.cap_explain.specs.Leading.{first_byte_of, frame_words, message_table_words, word_of};
ghost use Rattle.std.specs.Prelude.{◌<◌, ◌≡◌, ◌≤◌, length};

use cap_frame::{Segments, message_words, words_before};

/// Word `w` of segment `s`, if there is one.
pub(crate) fn word_of<M: Segments>(message: &M, s: u32, w: u64) -> Option<u64>
    ensures { result ≡ word_of (M.segments message.now) s w }
{
    if s >= message.count() || w >= u64::from(message.len(s)) {
        return None;
    }
    Some(message.word(s, w as u32))
}

/// The words of the segment table of a message, or none if the message has no table.
fn message_table_words<M: Segments>(message: &M, has_table: bool) -> u64
    ensures value { result ≡ message_table_words has_table (M.segments message.now) }
    ensures few { result ≤ 257 }
{
    if has_table {
        u64::from(message.count() / 2 + 1)
    } else {
        0
    }
}

/// The first byte of word `w` of segment `s` in the message, its segment table included if it has
/// one.
pub(crate) fn first_byte_of<M: Segments>(message: &M, has_table: bool, s: u32, w: u32) -> u64
    requires { s < length (M.segments message.now) }
    ensures { result ≡ first_byte_of has_table (M.segments message.now) s w }
{
    8 * (message_table_words(message, has_table) + words_before(message, s) + u64::from(w))
}

/// How many words the frame of a message has: its segment table, and the words of its segments
/// (encoding: Serialization Over a Stream).
pub fn frame_words<M: Segments>(message: &M) -> u64
    ensures { result ≡ frame_words (M.segments message.now) }
{
    u64::from(message.count() / 2 + 1) + message_words(message)
}
