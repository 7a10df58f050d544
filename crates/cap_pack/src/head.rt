//! The head of a group: its tag, and the bytes after the tag that give the group's first word and
//! what comes after that one (encoding: Packing).

ghost use Rattle.cap_pack.specs.Course.{first_word, head_rest, plain_of, zeros_of};
ghost use Rattle.std.specs.Prelude.{◌<◌, ◌≡◌, ◌≤◌, IfNone, IfSome, drop, length, slice_index, take};

use super::lanes::scatter;
use byteorder::{ByteOrder, LittleEndian};

/// The most bytes that a head has, with its tag.
pub(crate) const LONGEST_HEAD: usize = 10;

/// What the head of a group says.
#[derive(Clone, Copy)]
pub struct Head {
    /// The first word.
    pub word: u64,
    /// How many zero words come after it.
    pub zeros: u8,
    /// How many literal words come after it, each by its own eight bytes.
    pub plain: u8,
}

/// How many bytes of a head follow the tag.
#[inline(always)]
pub fn head_len(tag: u8) -> usize
    ensures rest { result ≡ head_rest tag }
    ensures some { 0 < result }
    ensures few { result ≤ 9 }
{
    match tag {
        0 => 1,
        0xff => 9,
        _ => tag.count_ones() as usize,
    }
}

/// What a head says, by its tag and the bytes after the tag. Bytes after the head change nothing.
#[inline(always)]
pub(crate) fn head_of(tag: u8, buffer: &[u8; 9]) -> Head
    ensures word { result.word ≡ first_word tag buffer.now }
    ensures zeros { result.zeros ≡ zeros_of tag buffer.now }
    ensures plain { result.plain ≡ plain_of tag buffer.now }
{
    match tag {
        0 => Head {
            word: 0,
            zeros: buffer[0],
            plain: 0,
        },
        0xff => Head {
            word: LittleEndian::read_u64(buffer),
            zeros: 0,
            plain: buffer[8],
        },
        _ => {
            let mut present = [0; 8];
            present.copy_from_slice(&buffer[..8]);
            Head {
                word: scatter(tag, &present),
                zeros: 0,
                plain: 0,
            }
        }
    }
}

/// What the head of the first group says, or `None` if the bytes end before it does.
#[inline(always)]
pub fn front_head(bytes: &[u8]) -> Option<Head>
    ensures word { IfSome result (λ h.
        h.word ≡ first_word (slice_index bytes.now 0) (drop 1 bytes.now)) }
    ensures zeros { IfSome result (λ h.
        h.zeros ≡ zeros_of (slice_index bytes.now 0) (drop 1 bytes.now)) }
    ensures plain { IfSome result (λ h.
        h.plain ≡ plain_of (slice_index bytes.now 0) (drop 1 bytes.now)) }
    ensures whole { IfSome result (λ _. head_rest (slice_index bytes.now 0) < length bytes.now) }
    ensures none { IfNone result (length bytes.now ≤ head_rest (slice_index bytes.now 0)) }
{
    if bytes.is_empty() {
        return None;
    }
    let tag = bytes[0];
    let len = head_len(tag);
    if bytes.len() <= len {
        return None;
    }
    Some(head_of(tag, &after_tag(bytes, len)))
}

// The nine bytes after a tag, or as many as its head has and then zeros.
#[inline(always)]
fn after_tag(bytes: &[u8], len: usize) -> [u8; 9]
    requires { (len ≤ 9) × (len < length bytes.now) }
    ensures { take len result ≡ take len (drop 1 bytes.now) }
{
    let mut buffer = [0; 9];
    if bytes.len() > 9 {
        buffer.copy_from_slice(&bytes[1..10]);
        return buffer;
    }
    buffer[..len].copy_from_slice(&bytes[1..1 + len]);
    buffer
}
