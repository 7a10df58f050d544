//! The line of what a canonical copy has at the first difference.

ghost use Rattle.cap_explain.specs.CopyWords.{copied_text, copy_lines, differing_lines, pointed_lines, segments_line, word_line, words_line};
ghost use Rattle.cap_explain.specs.Leading.{word_of};
ghost use Rattle.std.specs.Prelude.{◌+◌, ◌++◌, ◌≡◌, ◌≤◌, length};

use crate::copied::{Copied, DifferingWord, differing_word};
use crate::explanation::{CAPACITY, Explanation};
use crate::landing::landing_of;
use crate::lines::PLAIN;
use crate::target::target_of;
use crate::words::word_of;
use cap_difference::{Difference, DifferenceReason};
use cap_frame::Segments;

/// Appends what a copy has in the place of a word.
fn push_copied(text: &mut Explanation, copied: Copied)
    requires { length text.old + 32 ≤ CAPACITY }
    ensures items { text.new ≡ text.old ++ copied_text copied }
    ensures few { length text.new ≤ length text.old + 32 }
{
    match copied {
        Copied::Word(word) => {
            text.push_text(b", the copy has ");
            text.push_hex(word);
        }
        Copied::Nothing => text.push_text(b", the copy has none"),
        Copied::NoCopy => text.push_text(b", there is no copy"),
    }
}

/// Appends the line of a word, with what a copy has in its place.
fn push_word_line(text: &mut Explanation, differing: DifferingWord, value: u64)
    requires { length text.old + PLAIN ≤ CAPACITY }
    ensures { text.new ≡ text.old ++ word_line differing value }
{
    text.push_text(b"  word ");
    text.push_place(differing.segment, differing.word);
    text.push_text(b" ");
    text.push_hex(value);
    push_copied(text, differing.copied);
    text.push_text(b"\n");
}

/// Appends the same of a word that the message has, if there is one.
fn push_differing_line<M: Segments>(
    text: &mut Explanation,
    message: &M,
    differing: Option<DifferingWord>,
)
    requires { length text.old + PLAIN ≤ CAPACITY }
    ensures { text.new ≡ text.old ++ differing_lines (M.segments message.now) differing }
{
    if let Some(differing) = differing {
        if let Some(value) = word_of(message, differing.segment, differing.word) {
            push_word_line(text, differing, value);
        }
    }
}

/// Appends how many segments the message has, and how many a copy has.
fn push_segments_line<M: Segments>(text: &mut Explanation, message: &M)
    requires { length text.old + PLAIN ≤ CAPACITY }
    ensures { text.new ≡ text.old ++ segments_line (M.segments message.now) }
{
    text.push_named(b"  segments ", u64::from(message.count()));
    text.push_text(b", the copy has 1");
    text.push_text(b"\n");
}

/// Appends how many words segment 0 has, and how many a copy has.
fn push_words_line<M: Segments>(text: &mut Explanation, message: &M, end: u64)
    requires { length text.old + PLAIN ≤ CAPACITY }
    ensures { text.new ≡ text.old ++ words_line (M.segments message.now) end }
{
    text.push_named(b"  words ", u64::from(message.len(0)));
    text.push_named(b", the copy has ", end);
    text.push_text(b"\n");
}

/// Appends the line of the word that differs, at the pointer word that is named or in its object.
fn push_pointed_line<M: Segments>(text: &mut Explanation, message: &M, difference: &Difference)
    requires { length text.old + PLAIN ≤ CAPACITY }
    ensures { let m = M.segments message.now in let d = difference.now in
        text.new ≡ text.old ++ pointed_lines m d (word_of m d.segment d.word) }
{
    if let Some(word) = word_of(message, difference.segment, u64::from(difference.word)) {
        let landing = landing_of(message, word);
        let target = target_of(difference.segment, difference.word, word, landing);
        let differing = differing_word(message, difference, word, &target);
        push_differing_line(text, message, differing);
    }
}

/// Appends the line of what the message has at its first difference, and what a copy has there: a word
/// of each, or the counts of segments or of words.
pub(crate) fn push_copy_lines<M: Segments>(
    text: &mut Explanation,
    message: &M,
    difference: &Difference,
)
    requires { length text.old + PLAIN ≤ CAPACITY }
    ensures { text.new ≡ text.old
        ++ copy_lines (M.segments message.now) difference.now difference.now.reason }
{
    match difference.reason {
        DifferenceReason::Segments => push_segments_line(text, message),
        DifferenceReason::Trailing => push_words_line(text, message, difference.end),
        _ => push_pointed_line(text, message, difference),
    }
}
