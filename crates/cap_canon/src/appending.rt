//! The own words of what is left of an object, appended to a copy.

ghost use Rattle.cap_canon.specs.Filling.{OwnAppended, part_words, parts_words};
ghost use Rattle.cap_canon.specs.Laying.{own_size};
ghost use Rattle.cap_canon.specs.Objects.{IsFewer, IsObject, IsStructsObject};
ghost use Rattle.cap_spec.specs.Denoting.{values_of, words_from};
ghost use Rattle.cap_spec.specs.Messages.{segment_of};
ghost use Rattle.cap_spec.specs.Pointers.{list_words};
ghost use Rattle.cap_spec.specs.Scalars.{scalar_words};
ghost use Rattle.cap_spec.specs.Tree.{Tree};
ghost use Rattle.cap_spec.specs.Words.{IsWord};
ghost use Rattle.std.specs.List.{AllByRecursion};
ghost use Rattle.std.specs.Prelude.{◌+◌, ◌++◌, ◌*◌, ◌<◌, ◌≡◌, ◌≤◌, ◌^◌, length, ℕ};

use crate::objects::{Object, Part};
use crate::output::CopyOutput;
use crate::words::{last_word, tag_word};
use cap_frame::Segments;

/// Appends the own words of what is left of an object: its data words, values, tag and pointer
/// words, of which the last hold anything until their turn.
#[inline(always)]
pub(crate) fn append_own<M: Segments, T: CopyOutput>(message: &M, object: &Object, copy: &mut T)
    requires { let m = M.segments message.now in
        (d s w : ℕ) × (tree : Tree) × IsObject m d s w tree object.now
        × (length (T.words copy.old) + own_size tree ≤ T.capacity copy.old) }
    ensures own { let m = M.segments message.now in
        (d s w : ℕ) (tree : Tree) → IsObject m d s w tree object.now
        → OwnAppended (T.words copy.old) (T.words copy.new) tree }
    ensures capacity { T.capacity copy.new ≡ T.capacity copy.old }
    ensures borrow { T.borrow copy.new ≡ T.borrow copy.old }
    ensures after { (n : ℕ) → length (T.words copy.new) ≤ n →
        T.after copy.new n ≡ T.after copy.old n }
{
    match *object {
        Object::Null | Object::Cap { .. } => {}
        Object::Struct(part) => append_struct(message, &part, copy),
        Object::Scalars {
            segment,
            start,
            code,
            count,
            words,
        } => append_values(message, segment, start, code, count, words, copy),
        Object::Pointers {
            segment,
            start,
            count,
        } => copy.append_from(message, segment, start, count),
        Object::Structs { count, part } => append_tagged(message, &part, count, copy),
    }
}

// Appends the tag of a list of `count` structs, and what is left of each.
#[inline(never)]
fn append_tagged<M: Segments, T: CopyOutput>(message: &M, part: &Part, count: u32, copy: &mut T)
    requires { let m = M.segments message.now in (d s w : ℕ) × (tree : Tree)
        × IsStructsObject m d s w tree count part.now
        × (length (T.words copy.old) + own_size tree ≤ T.capacity copy.old) }
    ensures own { let m = M.segments message.now in (d s w : ℕ) (tree : Tree)
        → IsStructsObject m d s w tree count part.now
        → OwnAppended (T.words copy.old) (T.words copy.new) tree }
    ensures capacity { T.capacity copy.new ≡ T.capacity copy.old }
    ensures borrow { T.borrow copy.new ≡ T.borrow copy.old }
    ensures after { (n : ℕ) → length (T.words copy.new) ≤ n →
        T.after copy.new n ≡ T.after copy.old n }
{
    copy.push(tag_word(count, part.data_left, part.pointers_left));
    append_structs(message, part, count, copy);
}

// Appends what is left of one struct.
#[inline(always)]
fn append_struct<M: Segments, T: CopyOutput>(message: &M, part: &Part, copy: &mut T)
    requires exists { part.now.segment < length (M.segments message.now) }
    requires inside { part.now.start + part.now.data_words + part.now.pointers
        ≤ length (segment_of (M.segments message.now) part.now.segment) }
    requires small { length (segment_of (M.segments message.now) part.now.segment) < 2 ^ 32 }
    requires fewer { IsFewer part.now }
    requires capacity { length (T.words copy.old) + (part.now.data_left + part.now.pointers_left)
        ≤ T.capacity copy.old }
    ensures words { let m = M.segments message.now in
        T.words copy.new ≡ T.words copy.old ++ part_words m part.now }
    ensures capacity { T.capacity copy.new ≡ T.capacity copy.old }
    ensures borrow { T.borrow copy.new ≡ T.borrow copy.old }
    ensures after { (n : ℕ) → length (T.words copy.new) ≤ n →
        T.after copy.new n ≡ T.after copy.old n }
{
    if part.data_left == part.data_words {
        let count = part.data_left + part.pointers_left;
        append_row(message, part.segment, part.start, count, copy);
        return;
    }
    let pointers = part.start + part.data_words;
    append_row(message, part.segment, part.start, part.data_left, copy);
    append_row(message, part.segment, pointers, part.pointers_left, copy);
}

// Appends words in a row. One or two words are pushed, since a call that copies rows takes longer.
#[inline(always)]
fn append_row<M: Segments, T: CopyOutput>(
    message: &M,
    segment: u32,
    start: u32,
    count: u32,
    copy: &mut T,
)
    requires exists { segment < length (M.segments message.now) }
    requires inside { start + count ≤ length (segment_of (M.segments message.now) segment) }
    requires capacity { length (T.words copy.old) + count ≤ T.capacity copy.old }
    ensures words { T.words copy.new
        ≡ T.words copy.old ++ words_from (M.segments message.now) segment start count }
    ensures capacity { T.capacity copy.new ≡ T.capacity copy.old }
    ensures borrow { T.borrow copy.new ≡ T.borrow copy.old }
    ensures after { (n : ℕ) → length (T.words copy.new) ≤ n →
        T.after copy.new n ≡ T.after copy.old n }
    ensures are_words { let m = M.segments message.now in
        AllByRecursion IsWord (words_from m segment start count) }
{
    if count == 0 {
        return;
    }
    if count == 1 {
        copy.push(message.word(segment, start));
        return;
    }
    if count == 2 {
        append_two(message, segment, start, copy);
        return;
    }
    copy.append_from(message, segment, start, count);
}

// Appends two words in a row.
#[inline(always)]
fn append_two<M: Segments, T: CopyOutput>(message: &M, segment: u32, start: u32, copy: &mut T)
    requires exists { segment < length (M.segments message.now) }
    requires inside { start + 2 ≤ length (segment_of (M.segments message.now) segment) }
    requires capacity { length (T.words copy.old) + 2 ≤ T.capacity copy.old }
    ensures words { T.words copy.new
        ≡ T.words copy.old ++ words_from (M.segments message.now) segment start 2 }
    ensures capacity { T.capacity copy.new ≡ T.capacity copy.old }
    ensures borrow { T.borrow copy.new ≡ T.borrow copy.old }
    ensures after { (n : ℕ) → length (T.words copy.new) ≤ n →
        T.after copy.new n ≡ T.after copy.old n }
    ensures are_words { let m = M.segments message.now in
        AllByRecursion IsWord (words_from m segment start 2) }
{
    let first = message.word(segment, start);
    let second = message.word(segment, start + 1);
    copy.push(first);
    copy.push(second);
}

// Appends what is left of each of `count` structs in a row.
fn append_structs<M: Segments, T: CopyOutput>(message: &M, part: &Part, count: u32, copy: &mut T)
    requires exists { part.now.segment < length (M.segments message.now) }
    requires inside { part.now.start + count * (part.now.data_words + part.now.pointers)
        ≤ length (segment_of (M.segments message.now) part.now.segment) }
    requires small { length (segment_of (M.segments message.now) part.now.segment) < 2 ^ 32 }
    requires sizes { (part.now.data_words < 2 ^ 16) × (part.now.pointers < 2 ^ 16) }
    requires fewer { IsFewer part.now }
    requires capacity { length (T.words copy.old)
        + count * (part.now.data_left + part.now.pointers_left) ≤ T.capacity copy.old }
    ensures words { T.words copy.new
        ≡ T.words copy.old ++ parts_words (M.segments message.now) part.now count }
    ensures capacity { T.capacity copy.new ≡ T.capacity copy.old }
    ensures borrow { T.borrow copy.new ≡ T.borrow copy.old }
    ensures after { (n : ℕ) → length (T.words copy.new) ≤ n →
        T.after copy.new n ≡ T.after copy.old n }
{
    let left = part.data_left + part.pointers_left;
    if left == part.data_words + part.pointers {
        copy.append_from(message, part.segment, part.start, count * left);
        return;
    }
    let mut start = part.start;
    'elements: for _ in 0..count {
        append_struct(message, &Part { start, ..*part }, copy);
        start += part.data_words + part.pointers;
    }
}

// Appends the words of values, the last one without the bits after the last value.
#[inline(always)]
fn append_values<M: Segments, T: CopyOutput>(
    message: &M,
    segment: u32,
    start: u32,
    code: u8,
    count: u32,
    words: u32,
    copy: &mut T,
)
    requires exists { segment < length (M.segments message.now) }
    requires inside { start + words ≤ length (segment_of (M.segments message.now) segment) }
    requires code { code < 6 }
    requires words { words ≡ list_words code count }
    requires capacity { length (T.words copy.old) + words ≤ T.capacity copy.old }
    ensures words { let m = M.segments message.now in T.words copy.new
        ≡ T.words copy.old ++ scalar_words code (values_of m segment start code count) }
    ensures capacity { T.capacity copy.new ≡ T.capacity copy.old }
    ensures borrow { T.borrow copy.new ≡ T.borrow copy.old }
    ensures after { (n : ℕ) → length (T.words copy.new) ≤ n →
        T.after copy.new n ≡ T.after copy.old n }
{
    if words == 0 {
        return;
    }
    let before = words - 1;
    let last = message.word(segment, start + before);
    let kept = last_word(code, count, last);
    if kept == last {
        append_row(message, segment, start, words, copy);
        return;
    }
    append_row(message, segment, start, before, copy);
    copy.push(kept);
}
