//! Words out of a packed stream, of which some bytes are there.

ghost use Rattle.cap_calls.specs.PackedStreams.{WritesWords, IsRunRest, words_to_come};
ghost use Rattle.cap_calls.specs.UnpackingMessages.{bytes_needed};
ghost use Rattle.std.specs.Prelude.{◌+◌, ◌<◌, ◌≡◌, ◌≢◌, ◌≤◌, [], drop, false, length, true};

use cap_pack::{front_head, head_len};
use cap_words::bytes_of;

/// What some bytes gave.
#[derive(Clone, Copy)]
pub(crate) struct Given {
    /// how many bytes were taken
    pub(crate) taken: usize,
    /// how many bytes of the buffer hold words
    pub(crate) written: usize,
    /// how many zero words of the run are still to come
    pub(crate) zeros: u32,
    /// how many literal words of the run are still to come
    pub(crate) literal: u32,
}

// Zero words of a run, as many as there are and the buffer has space for.
fn give_zeros(bytes: &[u8], out: &mut [u8], zeros: u32) -> Given
    requires { zeros ≤ 255 }
    ensures gives { WritesWords 0 zeros 0 bytes.now out.old out.new result }
    ensures some { 0 < zeros → 8 ≤ length out.old → 0 < result.written }
{
    let words = (zeros as usize).min(out.len() / 8);
    out[..8 * words].fill(0);
    Given {
        taken: 0,
        written: 8 * words,
        zeros: zeros - words as u32,
        literal: 0,
    }
}

// Literal words of a run, as many as there are, the bytes have whole and the buffer has space for.
fn copy_literal(bytes: &[u8], out: &mut [u8], literal: u32) -> Given
    requires { literal ≤ 255 }
    ensures gives { WritesWords 0 0 literal bytes.now out.old out.new result }
    ensures none { 0 < literal → 8 ≤ length out.old → result.written ≡ 0 →
        words_to_come 0 literal bytes.now ≡ [] }
{
    let words = (literal as usize).min(out.len() / 8).min(bytes.len() / 8);
    out[..8 * words].copy_from_slice(&bytes[..8 * words]);
    Given {
        taken: 8 * words,
        written: 8 * words,
        zeros: 0,
        literal: literal - words as u32,
    }
}

// The first word of the next group.
fn give_first(bytes: &[u8], out: &mut [u8]) -> Given
    requires { 8 ≤ length out.old }
    ensures gives { WritesWords 0 0 0 bytes.now out.old out.new result }
    ensures none { result.written ≡ 0 →
        words_to_come result.zeros result.literal (drop result.taken bytes.now) ≡ [] }
{
    match front_head(bytes) {
        Some(head) => {
            out[..8].copy_from_slice(&bytes_of(head.word));
            Given {
                taken: 1 + head_len(bytes[0]),
                written: 8,
                zeros: u32::from(head.zeros),
                literal: u32::from(head.plain),
            }
        }
        None => Given {
            taken: 0,
            written: 0,
            zeros: 0,
            literal: 0,
        },
    }
}

// The next words: those of the run, or the first one of the next group.
fn give_some(bytes: &[u8], out: &mut [u8], zeros: u32, literal: u32) -> Given
    requires rest { IsRunRest zeros literal }
    requires space { 8 ≤ length out.old }
    ensures gives { WritesWords 0 zeros literal bytes.now out.old out.new result }
    ensures none { result.written ≡ 0 →
        words_to_come result.zeros result.literal (drop result.taken bytes.now) ≡ [] }
{
    if zeros > 0 {
        give_zeros(bytes, out, zeros)
    } else if literal > 0 {
        copy_literal(bytes, out, literal)
    } else {
        give_first(bytes, out)
    }
}

/// Writes the next words of a stream at the start of a buffer, while it has space and the bytes
/// have the next word whole. Before these bytes `zeros` zero words and `literal` literal
/// words of a run are still to come.
pub(crate) fn give(bytes: &[u8], out: &mut [u8], zeros: u32, literal: u32) -> Given
    requires { IsRunRest zeros literal }
    ensures gives { WritesWords 0 zeros literal bytes.now out.old out.new result }
    ensures ends { result.written + 8 ≤ length out.old →
        words_to_come result.zeros result.literal (drop result.taken bytes.now) ≡ [] }
{
    let mut done = Given {
        taken: 0,
        written: 0,
        zeros,
        literal,
    };
    'words: while out.len() - done.written >= 8 {
        let next = give_some(
            &bytes[done.taken..],
            &mut out[done.written..],
            done.zeros,
            done.literal,
        );
        done = Given {
            taken: done.taken + next.taken,
            written: done.written + next.written,
            ..next
        };
        if next.written == 0 {
            return done;
        }
    }
    done
}

/// Whether a word comes next, of the run or whole in the bytes.
pub(crate) fn has_word(bytes: &[u8], zeros: u32, literal: u32) -> bool
    ensures some { result ≡ true → words_to_come zeros literal bytes.now ≢ [] }
    ensures none { result ≡ false → words_to_come zeros literal bytes.now ≡ [] }
{
    if zeros > 0 {
        return true;
    }
    if literal > 0 {
        return bytes.len() >= 8;
    }
    match front_head(bytes) {
        Some(_) => true,
        None => false,
    }
}

/// How many bytes the next word needs at least, or the tag before it.
pub(crate) fn bytes_required(bytes: &[u8], literal: u32) -> u64
    ensures { result ≡ bytes_needed literal bytes.now }
{
    if literal > 0 {
        return 8;
    }
    if bytes.is_empty() {
        return 1;
    }
    1 + head_len(bytes[0]) as u64
}
