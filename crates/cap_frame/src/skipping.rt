//! Reading words of a message without keeping them.

ghost use Rattle.cap_frame.specs.Taking.{IsUsable, ReadsInput, Stops, Takes};
ghost use Rattle.cap_spec.specs.Frames.{joined, sizes_of};
ghost use Rattle.cap_spec.specs.Messages.{root_of};
ghost use Rattle.std.specs.Prelude.{◌*◌, ◌≡◌, ◌≤◌, IfErr, IfOk, List, OnOk, false, length, sum, ℕ};

use crate::table::{next_word, total};
use cap_words::{SourceFault, WordSource};

// How many bytes of words are skipped at once.
const AT_ONCE: usize = 512;

// Takes the buffered words, as many as `buffer` holds, or the next word if none is buffered. Returns
// how many.
#[inline(always)]
fn skip_some<S: WordSource>(source: &mut S, buffer: &mut [u8]) -> Result<u64, SourceFault>
    requires usable { S.broken source.old ≡ false }
    requires fits { 8 ≤ length buffer.old }
    ensures some { IfOk result (λ n. (1 ≤ n) × (8 * n ≤ length buffer.old)) }
    ensures ok { IfOk result (λ n. (own : List ℕ)
        × Takes S.WordSource source.old source.new own × (length own ≡ n)) }
    ensures works { OnOk result (IsUsable S.WordSource source.old source.new) }
    ensures reads { ReadsInput S.WordSource source.old source.new }
    ensures err { IfErr result (Stops S.WordSource 1 source.old source.new) }
{
    let count = source.ready(buffer);
    if count > 0 {
        return Ok(count as u64 / 8);
    }
    match next_word(source) {
        Ok(_) => Ok(1),
        Err(fault) => Err(fault),
    }
}

/// Reads `many` words, and keeps none.
pub(crate) fn skip_words<S: WordSource>(source: &mut S, many: u64) -> Result<(), SourceFault>
    requires usable { S.broken source.old ≡ false }
    ensures ok { OnOk result ((own : List ℕ)
        × Takes S.WordSource source.old source.new own × (length own ≡ many)) }
    ensures works { OnOk result (IsUsable S.WordSource source.old source.new) }
    ensures reads { ReadsInput S.WordSource source.old source.new }
    ensures err { IfErr result (Stops S.WordSource many source.old source.new) }
{
    let mut buffer = [0; AT_ONCE];
    let mut done = 0;
    'words: while done < many {
        let most = (many - done).min(AT_ONCE as u64 / 8) as usize;
        match skip_some(source, &mut buffer[..8 * most]) {
            Ok(count) => done += count,
            Err(fault) => return Err(fault),
        }
    }
    Ok(())
}

/// Reads the words of segments of these sizes, and keeps the root word alone.
#[inline(always)]
pub(crate) fn skip_contents<S: WordSource>(
    source: &mut S,
    sizes: &[u32],
) -> Result<Option<u64>, SourceFault>
    requires usable { S.broken source.old ≡ false }
    requires some { 1 ≤ length sizes.now }
    requires few { length sizes.now ≤ 512 }
    ensures ok { IfOk result (λ root. (m : List (List ℕ))
        × Takes S.WordSource source.old source.new (joined m) × (sizes_of m ≡ sizes.now)
        × (root_of m ≡ root)) }
    ensures works { OnOk result (IsUsable S.WordSource source.old source.new) }
    ensures reads { ReadsInput S.WordSource source.old source.new }
    ensures err { IfErr result (Stops S.WordSource (sum sizes.now) source.old source.new) }
{
    let words = total(sizes);
    if sizes[0] == 0 {
        skip_words(source, words)?;
        return Ok(None);
    }
    let root = next_word(source)?;
    skip_words(source, words - 1)?;
    Ok(Some(root))
}
