//! The call that packs between buffers.

ghost use Rattle.cap_calls.specs.CallBounds.{pack_bound};
ghost use Rattle.cap_calls.specs.PackCalls.{ReportsPack};
ghost use Rattle.cap_calls.specs.declared.answer.Answer.{Answer};
ghost use Rattle.std.specs.Prelude.{◌≡◌, ◌≤◌, List, length, ℕ};

use crate::answer::Answer;
use cap_pack::pack_into;

/// Packs the words that all the bytes are, eight bytes a word, the lowest first, to the start of
/// `out` (encoding: Packing, 64-bit Words). It looks at no framing. Allocates nothing.
///
/// The first of these that applies is returned:
/// - [`Answer::Truncated`], if the bytes end inside a word; `required` is 0;
/// - [`Answer::BufferTooSmall`], if `out` is too small; `required` is then how many bytes the
///   packed text has;
/// - [`Answer::Good`], and `required` is how many bytes were written.
///
/// Without [`Answer::Good`], `out` is unchanged; with it, the bytes after the text are.
pub fn pack(bytes: &[u8], out: &mut [u8], required: &mut usize) -> Answer
    ensures reports { ReportsPack bytes.now out.old result required.new out.new }
    // The bytes and the capacity allow no other result.
    ensures only { (a : Answer) (n : ℕ) (new : List ℕ) → ReportsPack bytes.now out.old a n new →
        (result ≡ a) × (required.new ≡ n) × (out.new ≡ new) }
    // This capacity is always enough.
    ensures bound { required.new ≤ pack_bound (length bytes.now) }
{
    pack_all(bytes, out, required)
}

// The same, without the clause `only`.
fn pack_all(bytes: &[u8], out: &mut [u8], required: &mut usize) -> Answer
    ensures reports { ReportsPack bytes.now out.old result required.new out.new }
    ensures bound { required.new ≤ pack_bound (length bytes.now) }
{
    *required = 0;
    if bytes.len() % 8 != 0 {
        return Answer::Truncated;
    }
    let size = out.len();
    let count = pack_into(bytes, out);
    *required = count;
    if size < count {
        return Answer::BufferTooSmall;
    }
    Answer::Good
}
