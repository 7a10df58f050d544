//! Whether an object needs all its words when it is trimmed, where its pointers needn't be followed.

ghost use Rattle.cap_canon.specs.Trimming.{AreElementsAt, EndsFar, ListNeedsAll, ListNeedsLess, NeedFewerPointers, NeedPointers, NeedsAll, NeedsLess, NeedsLessOfRow, NeedsRow, OneEndsFar, most_data};
ghost use Rattle.cap_spec.specs.Canonical.{data_needed};
ghost use Rattle.cap_spec.specs.Denoting.{words_from};
ghost use Rattle.cap_spec.specs.Messages.{HasWord, segment_of};
ghost use Rattle.cap_spec.specs.Pointers.{kind};
ghost use Rattle.std.specs.Prelude.{◌+◌, ◌*◌, ◌<◌, ◌^◌, ◌≡◌, ◌≢◌, ◌≤◌, ◌↔◌, ◌⊎◌, IsFalse, IsTrue, length, ℕ};

use cap_frame::Segments;
use cap_ptr::kind;

/// Whether a struct needs all of these data words and pointers, and its last pointer isn't far. Its
/// first word is `start`, in segment `s`.
#[inline(always)]
pub(crate) fn needs_all<M: Segments>(
    message: &M,
    s: u32,
    start: u32,
    data_words: u32,
    pointers: u32,
) -> bool
    requires exists { s < length (M.segments message.now) }
    requires inside { start + data_words + pointers
        ≤ length (segment_of (M.segments message.now) s) }
    ensures yes { IsTrue result → NeedsAll (M.segments message.now) s start data_words pointers }
    ensures no { IsFalse result → NeedsLess (M.segments message.now) s start data_words pointers }
{
    if !needs_data(message, s, start, data_words) {
        return false;
    }
    needs_row(message, s, start + data_words, pointers)
}

// Whether it needs all these data words: it has none, or the last isn't zero.
#[inline(always)]
fn needs_data<M: Segments>(message: &M, s: u32, start: u32, data_words: u32) -> bool
    requires exists { s < length (M.segments message.now) }
    requires inside { start + data_words ≤ length (segment_of (M.segments message.now) s) }
    ensures { let m = M.segments message.now in
        IsTrue result ↔ (data_words ≡ data_needed (words_from m s start data_words)) }
{
    if data_words == 0 {
        return true;
    }
    if message.word(s, start + (data_words - 1)) == 0 {
        return false;
    }
    true
}

// Whether it needs all these pointers, and the last isn't far.
#[inline(always)]
fn needs_row<M: Segments>(message: &M, s: u32, start: u32, pointers: u32) -> bool
    requires exists { s < length (M.segments message.now) }
    requires inside { start + pointers ≤ length (segment_of (M.segments message.now) s) }
    ensures yes { IsTrue result → NeedsRow (M.segments message.now) s start pointers }
    ensures no { let m = M.segments message.now in IsFalse result →
        NeedsLessOfRow m s start pointers ⊎ EndsFar m s start pointers }
{
    if pointers == 0 {
        return true;
    }
    is_needed(message.word(s, start + (pointers - 1)))
}

// Whether a last pointer word is one of a copy: not if it is zero, and not if it is far.
#[inline(always)]
fn is_needed(word: u64) -> bool
    ensures yes { IsTrue result → (word ≢ 0) × (kind word ≢ 2) }
    ensures no { IsFalse result → (word ≡ 0) ⊎ (kind word ≡ 2) }
{
    word != 0 && kind(word) != 2
}

/// Whether the structs of a list need these data words and pointers, so that a copy has as many of
/// each, and the first last pointer that isn't zero isn't far. Their first word is `start`, in
/// segment `s`.
#[inline(always)]
pub(crate) fn list_needs_all<M: Segments>(
    message: &M,
    s: u32,
    start: u32,
    count: u32,
    data_words: u32,
    pointers: u32,
) -> bool
    requires elements { AreElementsAt (M.segments message.now) s start count data_words pointers }
    ensures yes { let m = M.segments message.now in
        IsTrue result → ListNeedsAll m s start data_words pointers count }
    ensures no { let m = M.segments message.now in
        IsFalse result → ListNeedsLess m s start data_words pointers count }
{
    if !list_needs_data(message, s, start, count, data_words, pointers) {
        return false;
    }
    list_needs_pointers(message, s, start, count, data_words, pointers)
}

// Whether one of them needs all data words: it has none, or its last isn't zero.
#[inline(always)]
fn list_needs_data<M: Segments>(
    message: &M,
    s: u32,
    start: u32,
    count: u32,
    data_words: u32,
    pointers: u32,
) -> bool
    requires elements { AreElementsAt (M.segments message.now) s start count data_words pointers }
    ensures { let m = M.segments message.now in
        IsTrue result ↔ (data_words ≡ most_data m s start data_words pointers count) }
{
    if data_words == 0 {
        return true;
    }
    if first_set(
        message,
        s,
        start + (data_words - 1),
        data_words + pointers,
        count,
    ) == 0
    {
        return false;
    }
    true
}

// Whether one of them needs all pointers, and the last pointer of the first such isn't far.
#[inline(always)]
fn list_needs_pointers<M: Segments>(
    message: &M,
    s: u32,
    start: u32,
    count: u32,
    data_words: u32,
    pointers: u32,
) -> bool
    requires elements { AreElementsAt (M.segments message.now) s start count data_words pointers }
    ensures yes { let m = M.segments message.now in
        IsTrue result → NeedPointers m s start data_words pointers count }
    ensures no { let m = M.segments message.now in
        IsFalse result → NeedFewerPointers m s start data_words pointers count
        ⊎ OneEndsFar m s start data_words pointers count }
{
    if pointers == 0 {
        return true;
    }
    let last = data_words + (pointers - 1);
    is_needed(first_set(message, s, start + last, data_words + pointers, count))
}

// The first of `count` words of segment `s` that isn't zero, or 0 if each is. They are word `at`
// and those that come `each` words after one another.
#[inline(always)]
fn first_set<M: Segments>(message: &M, s: u32, at: u32, each: u32, count: u32) -> u64
    requires exists { s < length (M.segments message.now) }
    requires inside { (k : ℕ) → k < count →
        at + k * each < length (segment_of (M.segments message.now) s) }
    requires fits { at + count * each < 2 ^ 32 }
    ensures some { let m = M.segments message.now in result ≢ 0 →
        ((k : ℕ) × (k < count) × HasWord m s (at + k * each) result
        × ((j : ℕ) → j < k → HasWord m s (at + j * each) 0)) }
    ensures none { let m = M.segments message.now in
        result ≡ 0 → (k : ℕ) → k < count → HasWord m s (at + k * each) 0 }
{
    let mut place = at;
    'elements: for _ in 0..count {
        let word = message.word(s, place);
        if word != 0 {
            return word;
        }
        place += each;
    }
    0
}
