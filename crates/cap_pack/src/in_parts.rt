//! Packing words that are all in memory, one part of the text after the other.

ghost use Rattle.cap_spec.specs.Packing.{pack_text};
ghost use Rattle.cap_spec.specs.Plain.{plain_words};
ghost use Rattle.std.specs.Prelude.{◌++◌, ◌<◌, ◌≡◌, ◌≤◌, drop, length, take};

use super::buffers::{front_group, write_group};
use super::encoding::BUFFER_BYTES;
use super::pieces::{PIECE_WORDS, encode_groups, read_words};

/// How many bytes the buffer for a part of a packed text has.
pub const PART_BYTES: usize = BUFFER_BYTES;

/// How much of some bytes was packed.
#[derive(Clone, Copy, Debug, PartialEq, Eq, Drop)]
pub struct PackedPart {
    /// How many bytes the packed words have.
    pub taken: usize,
    /// How many bytes their packed text has.
    pub length: usize,
}

/// Writes the start of the packed text of some words to the start of `text` (encoding: Packing).
/// The words are those that `bytes` begin with, eight bytes each, the lowest first. The text of the
/// words that it doesn't take is the rest of the packed text, so calls one after the other give the
/// text of all. It takes at least one word if there is one. The bytes of `text` after its part may be
/// overwritten.
///
/// There are no errors. Allocates nothing.
pub fn pack_part(bytes: &[u8], text: &mut [u8; PART_BYTES]) -> PackedPart
    ensures taken { result.taken ≤ length bytes.now }
    ensures length { result.length ≤ 2690 }
    ensures some { 8 ≤ length bytes.now → 0 < result.taken }
    ensures text { pack_text (plain_words bytes.now) ≡ take result.length text.new
        ++ pack_text (plain_words (drop result.taken bytes.now)) }
{
    if bytes.len() < 8 {
        return PackedPart {
            taken: 0,
            length: 0,
        };
    }
    let mut words = [0; PIECE_WORDS];
    let count = read_words(bytes, &mut words);
    let piece = encode_groups(&words[..count], text, 0);
    if piece.words > 0 {
        return PackedPart {
            taken: 8 * piece.words,
            length: piece.bytes,
        };
    }
    // The words of the piece are one run, and words after the piece may go on with it.
    let (taken, length) = front_group(bytes);
    write_group(&bytes[..taken], &mut text[..length]);
    PackedPart { taken, length }
}
