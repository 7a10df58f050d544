//! The words of a canonical copy as bytes, over bytes that are there already.

ghost use Rattle.cap_canon.specs.FirstWords.{first_words};
ghost use Rattle.cap_canon.specs.Roots.{ForTrimmed, HasTree};
ghost use Rattle.cap_canon.specs.Zeros.{zeros_put};
ghost use Rattle.cap_spec.specs.Canonical.{layout};
ghost use Rattle.cap_spec.specs.Plain.{plain_text, plain_words};
ghost use Rattle.cap_spec.specs.Words.{IsWord};
ghost use Rattle.std.specs.List.{AllByRecursion};
ghost use Rattle.std.specs.Prelude.{◌*◌, ◌+◌, ◌++◌, ◌/◌, ◌<◌, ◌≡◌, ◌≤◌, [], List, drop, length, slice_set, take, ℕ};

use crate::copying::copy_into;
use crate::output::CopyOutput;
use cap_frame::Segments;
use cap_words::bytes_of;

/// Writes the layout of a message of this depth, trimmed, over the start of bytes that are long
/// enough for it, and returns how many words it has.
pub(crate) fn fill_front<M: Segments>(message: &M, depth: u32, out: &mut [u8]) -> usize
    requires tree { HasTree (M.segments message.now) depth }
    requires length { let m = M.segments message.now in
        ForTrimmed m (λ u. 8 * length (layout u) ≤ length out.old) }
    ensures count { let m = M.segments message.now in
        ForTrimmed m (λ u. result ≡ length (layout u)) }
    ensures words { let m = M.segments message.now in
        ForTrimmed m (λ u. first_words (length (layout u)) out.new ≡ layout u) }
    ensures text { let m = M.segments message.now in
        ForTrimmed m (λ u. take (8 * length (layout u)) out.new ≡ plain_text (layout u)) }
    ensures after { let m = M.segments message.now in ForTrimmed m (λ u.
        let n = 8 * length (layout u) in drop n out.new ≡ drop n out.old) }
{
    write_words(message, depth, out)
}

// The same, as the words that the bytes begin with.
fn write_words<M: Segments>(message: &M, depth: u32, out: &mut [u8]) -> usize
    requires tree { HasTree (M.segments message.now) depth }
    requires length { let m = M.segments message.now in
        ForTrimmed m (λ u. 8 * length (layout u) ≤ length out.old) }
    ensures count { let m = M.segments message.now in
        ForTrimmed m (λ u. result ≡ length (layout u)) }
    ensures words { let m = M.segments message.now in
        ForTrimmed m (λ u. first_words (length (layout u)) out.new ≡ layout u) }
    ensures after { let m = M.segments message.now in ForTrimmed m (λ u.
        let n = 8 * length (layout u) in drop n out.new ≡ drop n out.old) }
{
    let mut copy = WordBytes::over(out);
    copy_into(message, depth, &mut copy);
    copy.count
}

// Words as their bytes, over bytes that are borrowed for them.
#[derive(Drop)]
struct WordBytes<'b> {
    bytes: &'b mut [u8],
    // how many words are there
    count: usize,
    ghost inside: { 8 * count ≤ length bytes.now },
}

impl<'b> WordBytes<'b> {
    // None is written yet.
    fn over(bytes: &'b mut [u8]) -> WordBytes<'b>
        ensures words { ⟦<WordBytes<'b> as CopyOutput>⟧.words result ≡ [] }
        ensures capacity { ⟦<WordBytes<'b> as CopyOutput>⟧.capacity result
            ≡ length bytes.old / 8 }
        ensures borrow { ⟦<WordBytes<'b> as CopyOutput>⟧.borrow result
            ≡ bytes.entry.ghost_name }
        ensures after { (n : ℕ) → ⟦<WordBytes<'b> as CopyOutput>⟧.after result n
            ≡ drop (8 * n) bytes.old }
    {
        WordBytes { bytes, count: 0 }
    }
}

impl CopyOutput for WordBytes<'_> {
    ghost words = { λ s. first_words s.count s.bytes.now };

    ghost capacity = { λ s. length s.bytes.now / 8 };

    ghost borrow = { λ s. s.bytes.ghost_name };

    ghost after = { λ s n. drop (8 * n) s.bytes.now };

    fn push(&mut self, word: u64) {
        write_word(self.bytes, self.count, word);
        self.count += 1;
    }

    fn set(&mut self, place: u32, word: u64) {
        write_word(self.bytes, place as usize, word);
    }

    // Inlined, since a walk calls it for a few words at a time.
    #[inline(always)]
    fn set_zeros(&mut self, place: u32, count: u32) {
        write_zeros(self.bytes, place as usize, count as usize);
    }

    fn append_from<M: Segments>(&mut self, message: &M, segment: u32, start: u32, count: u32) {
        match message.bytes_at(segment, start, count) {
            Some(row) => {
                write_row(self.bytes, self.count, row);
                self.count += count as usize;
            }
            None => self.append_each(message, segment, start, count),
        }
    }
}

/// Writes a word in place of the one with this number.
#[inline(always)]
pub(crate) fn write_word(bytes: &mut [u8], number: usize, word: u64)
    requires { 8 * number + 8 ≤ length bytes.old }
    ensures len { length bytes.new ≡ length bytes.old }
    ensures words { plain_words bytes.new ≡ slice_set (plain_words bytes.old) number word }
    ensures after { (n : ℕ) → number < n → drop (8 * n) bytes.new ≡ drop (8 * n) bytes.old }
{
    bytes[8 * number..8 * number + 8].copy_from_slice(&bytes_of(word));
}

/// Writes zeros in place of `count` words in a row, from the one with this number on.
#[inline(always)]
pub(crate) fn write_zeros(bytes: &mut [u8], number: usize, count: usize)
    requires { 8 * (number + count) ≤ length bytes.old }
    ensures len { length bytes.new ≡ length bytes.old }
    ensures words { plain_words bytes.new ≡ zeros_put number count (plain_words bytes.old) }
    ensures after { (n : ℕ) → number + count ≤ n →
        drop (8 * n) bytes.new ≡ drop (8 * n) bytes.old }
{
    bytes[8 * number..8 * (number + count)].fill(0);
}

// Writes the bytes of words in a row in place of those of as many words, from the one with this
// number on.
#[inline(always)]
fn write_row(bytes: &mut [u8], number: usize, row: &[u8])
    requires capacity { 8 * number + length row.now ≤ length bytes.old }
    ensures len { length bytes.new ≡ length bytes.old }
    ensures words { (words : List ℕ) → AllByRecursion IsWord words → row.now ≡ plain_text words
        → first_words (number + length words) bytes.new
        ≡ first_words number bytes.old ++ words }
    ensures after { (n : ℕ) → 8 * number + length row.now ≤ 8 * n →
        drop (8 * n) bytes.new ≡ drop (8 * n) bytes.old }
{
    bytes[8 * number..8 * number + row.len()].copy_from_slice(row);
}
