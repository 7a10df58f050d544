//! The call that unpacks between buffers.

ghost use Rattle.cap_calls.specs.PackCalls.{ReportsUnpack};
ghost use Rattle.cap_calls.specs.declared.answer.Answer.{Answer};
ghost use Rattle.cap_spec.specs.Plain.{plain_text};
ghost use Rattle.cap_spec.specs.Unpacking.{group_length, group_words, packed_is_cut, unpacked};
ghost use Rattle.std.specs.Prelude.{◌*◌, ◌+◌, ◌<◌, ◌^◌, ◌≡◌, ◌≤◌, IfNone, IfSome, List, false, length, true, ℕ};

use crate::answer::Answer;
use cap_pack::Unpacker;
use cap_words::{SliceIn, WordSource};

/// The longest packed text that is unpacked, in bytes.
const MOST_PACKED: u64 = 9007199254740992;

/// Unpacks all the bytes to the start of `out`, eight bytes a word, the lowest first (encoding:
/// Packing, 64-bit Words). It looks at no framing. Allocates nothing.
///
/// The first of these that applies is returned:
/// - [`Answer::TooLarge`], if there are more than 2^53 bytes; `required` is 0;
/// - [`Answer::Truncated`], if they end inside a group; `required` is 0;
/// - [`Answer::BufferTooSmall`], if `out` is too small; `required` is then how many bytes the words
///   take;
/// - [`Answer::Good`], and `required` is how many bytes were written.
///
/// Without [`Answer::Good`], `out` is unchanged; with it, the bytes after the words are.
pub fn unpack(bytes: &[u8], out: &mut [u8], required: &mut usize) -> Answer
    ensures reports { ReportsUnpack bytes.now out.old result required.new out.new }
    // The bytes and the capacity allow no other result.
    ensures only { (a : Answer) (n : ℕ) (new : List ℕ) → ReportsUnpack bytes.now out.old a n new →
        (result ≡ a) × (required.new ≡ n) × (out.new ≡ new) }
{
    unpack_all(bytes, out, required)
}

// The same, without the clause `only`.
fn unpack_all(bytes: &[u8], out: &mut [u8], required: &mut usize) -> Answer
    ensures { ReportsUnpack bytes.now out.old result required.new out.new }
{
    *required = 0;
    if bytes.len() as u64 > MOST_PACKED {
        return Answer::TooLarge;
    }
    let Some(words) = unpacked_words(bytes) else {
        return Answer::Truncated;
    };
    let Ok(count) = usize::try_from(8 * words) else {
        return Answer::TooLarge;
    };
    *required = count;
    if out.len() < count {
        return Answer::BufferTooSmall;
    }
    write_unpacked(bytes, &mut out[..count]);
    Answer::Good
}

// How many words packed bytes encode, or `None` if they end inside a group. Only the heads of
// groups are read.
fn unpacked_words(bytes: &[u8]) -> Option<u64>
    requires { length bytes.now ≤ 2 ^ 53 }
    ensures words { IfSome result (λ n. (n ≡ length (unpacked bytes.now)) × (n ≤ 2 ^ 60)) }
    ensures whole { IfSome result (λ _. packed_is_cut bytes.now ≡ false) }
    ensures cut { IfNone result (packed_is_cut bytes.now ≡ true) }
{
    let mut at = 0;
    let mut words = 0u64;
    'groups: while at < bytes.len() {
        let (len, count) = front_group(&bytes[at..])?;
        at += len;
        words += count;
    }
    Some(words)
}

// How many bytes the first group has, and how many words it encodes, or `None` if the bytes end
// inside it.
fn front_group(bytes: &[u8]) -> Option<(usize, u64)>
    requires { 0 < length bytes.now }
    ensures bytes { IfSome result (λ g. (g.0 ≡ group_length bytes.now) × (0 < g.0)
        × (g.0 ≤ length bytes.now)) }
    ensures words { IfSome result (λ g. (g.1 ≡ length (group_words bytes.now)) × (g.1 ≤ 128 * g.0)) }
    ensures cut { IfNone result (length bytes.now < group_length bytes.now) }
{
    match bytes[0] {
        0 => {
            if bytes.len() < 2 {
                return None;
            }
            Some((2, 1 + u64::from(bytes[1])))
        }
        0xff => {
            if bytes.len() < 10 {
                return None;
            }
            let len = 10 + 8 * usize::from(bytes[9]);
            if bytes.len() < len {
                return None;
            }
            Some((len, 1 + u64::from(bytes[9])))
        }
        tag => {
            let len = 1 + tag.count_ones() as usize;
            if bytes.len() < len {
                return None;
            }
            Some((len, 1))
        }
    }
}

// Writes the words that the bytes encode, which fill the buffer.
fn write_unpacked(bytes: &[u8], out: &mut [u8])
    requires whole { packed_is_cut bytes.now ≡ false }
    requires size { length out.old ≡ 8 * length (unpacked bytes.now) }
    ensures { out.new ≡ plain_text (unpacked bytes.now) }
{
    let mut source = Unpacker::new(SliceIn::new(bytes));
    match source.fill(out) {
        Ok(true) => {}
        _ => unreachable!(),
    }
}
