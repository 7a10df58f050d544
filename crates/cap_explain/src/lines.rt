//! The lines of an explanation.

ghost use Rattle.cap_explain.specs.Explaining.{byte_line, charge_line, cycle_line, cycle_lines, elements_line, excess_line, of_unpacked_input, input_text, target_line, target_lines, target_place, target_range, landing_lines, level_line, overrun_line, pad_line, pointer_line, reason_line, segment_line, segment_state, tag_line, tag_note, tag_word, word_text};
ghost use Rattle.std.specs.Prelude.{◌+◌, ◌*◌, ◌++◌, ◌^◌, ◌<◌, ◌≡◌, ◌≤◌, IfSome, None, Some, length};

use crate::explanation::{CAPACITY, Explanation};
use crate::forms::{FORM, TAG, push_difference, push_form, push_tag};
use crate::landing::Landing;
use crate::numbers::{MessageStart, Numbers};
use crate::sentences::{Fault, SENTENCE, sentence};
use crate::target::{Target, list_tag};
use crate::words::first_byte_of;
use cap_buffer::DIGITS;
use cap_frame::Segments;
use cap_ptr::{extent, far_segment, is_structs, list_size, pad, words_of_elements};
use cap_spec::Reason;
use cap_trace::Cycle;

/// The space for one line without the form of a word.
pub(crate) const PLAIN: usize = 140;

/// The space for one line.
pub(crate) const LINE: usize = PLAIN + FORM;

/// The most bytes of the name of a line.
const NAME: usize = 16;

/// The name of the input in which bytes are counted.
fn of_unpacked_input(packed: bool) -> &'static [u8]
    ensures text { result.now ≡ of_unpacked_input packed }
    ensures short { length result.now ≤ 22 }
{
    if packed {
        b" of the unpacked input"
    } else {
        b" of the input"
    }
}

/// Appends which byte of the input a byte of the message is, if the message is one of a stream.
fn push_input_place(text: &mut Explanation, start: Option<MessageStart>, byte: u64)
    requires { length text.old + 60 ≤ CAPACITY }
    ensures items { text.new ≡ text.old ++ input_text start byte }
    ensures few { length text.new ≤ length text.old + 60 }
{
    if let Some(start) = start {
        text.push_named(b", byte ", start.byte.saturating_add(byte));
        text.push_text(of_unpacked_input(start.packed));
    }
}

/// Appends where a pointer word is.
pub(crate) fn push_byte_line<M: Segments>(
    text: &mut Explanation,
    message: &M,
    numbers: Numbers,
    segment: u32,
    word: u32,
)
    requires exists { segment < length (M.segments message.now) }
    requires fits { length text.old + LINE ≤ CAPACITY }
    ensures items { text.new ≡ text.old ++ byte_line (M.segments message.now) numbers segment word }
    ensures few { length text.new ≤ length text.old + LINE }
{
    let byte = first_byte_of(message, numbers.has_table, segment, word);
    text.push_named(b"  byte ", byte);
    text.push_text(b" of the message");
    push_input_place(text, numbers.start, byte);
    text.push_text(b"\n");
}

/// Appends a word and its form, and ends the line.
fn push_word(text: &mut Explanation, word: u64)
    requires { length text.old + FORM + 18 ≤ CAPACITY }
    ensures items { text.new ≡ text.old ++ word_text word }
    ensures few { length text.new ≤ length text.old + FORM + 18 }
{
    text.push_hex(word);
    text.push_text(b" ");
    push_form(text, word);
    text.push_text(b"\n");
}

/// Appends the line of the pointer word.
pub(crate) fn push_pointer_line(text: &mut Explanation, word: u64)
    requires { length text.old + LINE ≤ CAPACITY }
    ensures items { text.new ≡ text.old ++ pointer_line word }
    ensures few { length text.new ≤ length text.old + LINE }
{
    text.push_text(b"  pointer ");
    push_word(text, word);
}

/// Appends the line of a word of a landing pad.
fn push_pad_line(text: &mut Explanation, segment: u32, place: u32, word: u64)
    requires { length text.old + LINE ≤ CAPACITY }
    ensures items { text.new ≡ text.old ++ pad_line segment place word }
    ensures few { length text.new ≤ length text.old + LINE }
{
    text.push_text(b"  pad ");
    text.push_place(segment, place as u64);
    text.push_text(b" ");
    push_word(text, word);
}

/// Appends the lines of the landing pad of the pointer `word`.
pub(crate) fn push_landing_lines(text: &mut Explanation, word: u64, landing: Landing)
    requires { length text.old + 2 * LINE ≤ CAPACITY }
    ensures items { text.new ≡ text.old ++ landing_lines word landing }
    ensures few { length text.new ≤ length text.old + 2 * LINE }
{
    match landing {
        Landing::Near => {}
        Landing::Missing => {}
        Landing::Outside => {}
        Landing::One { word: only } => push_pad_line(text, far_segment(word), pad(word), only),
        Landing::Two { far, tag } => {
            push_pad_line(text, far_segment(word), pad(word), far);
            push_pad_line(text, far_segment(word), pad(word) + 1, tag);
        }
    }
}

/// Appends the place of a word of the target.
fn push_target_place(text: &mut Explanation, target: &Target, word: u64)
    requires { length text.old + 2 * DIGITS + 2 ≤ CAPACITY }
    ensures items { text.new ≡ text.old ++ target_place target.now word }
    ensures few { length text.new ≤ length text.old + 2 * DIGITS + 2 }
{
    text.push_number(u64::from(target.segment));
    text.push_text(b":");
    push_difference(text, word, u64::from(target.excess));
}

/// Appends the first and the last word of the target.
fn push_target_range(text: &mut Explanation, target: &Target)
    requires near { target.now.start < 2 ^ 34 }
    requires fits { length text.old + 4 * DIGITS + 8 ≤ CAPACITY }
    ensures items { text.new ≡ text.old ++ target_range target.now }
    ensures few { length text.new ≤ length text.old + 4 * DIGITS + 8 }
{
    push_target_place(text, target, target.start);
    let words = u64::from(extent(target.word));
    if words > 0 {
        text.push_text(b" to ");
        push_target_place(text, target, target.start + words - 1);
    }
}

/// The words of a list of structs include its tag.
fn tag_note(word: u64) -> &'static [u8]
    ensures note { result.now ≡ tag_note word }
    ensures short { length result.now ≤ NAME }
{
    if is_structs(word) {
        b" with the tag"
    } else {
        b""
    }
}

/// Appends the line of the target.
fn push_target_line(text: &mut Explanation, target: &Target)
    requires near { target.now.start < 2 ^ 34 }
    requires fits { length text.old + PLAIN ≤ CAPACITY }
    ensures items { text.new ≡ text.old ++ target_line target.now }
    ensures few { length text.new ≤ length text.old + PLAIN }
{
    text.push_text(b"  target ");
    push_target_range(text, target);
    text.push_named(b", words ", u64::from(extent(target.word)));
    text.push_text(tag_note(target.word));
    text.push_text(b"\n");
}

/// Appends the tag of a list of structs and its fields, and ends the line.
fn push_tag_word(text: &mut Explanation, tag: u64)
    requires { length text.old + TAG + 18 ≤ CAPACITY }
    ensures items { text.new ≡ text.old ++ tag_word tag }
    ensures few { length text.new ≤ length text.old + TAG + 18 }
{
    text.push_hex(tag);
    text.push_text(b" ");
    push_tag(text, tag);
    text.push_text(b"\n");
}

/// Appends the line of the tag of a list of structs, if there is one.
fn push_tag_line(text: &mut Explanation, target: &Target, tag: Option<u64>)
    requires { length text.old + LINE ≤ CAPACITY }
    ensures items { text.new ≡ text.old ++ tag_line target.now tag }
    ensures few { length text.new ≤ length text.old + LINE }
{
    if let Some(tag) = tag {
        text.push_text(b"  tag ");
        push_target_place(text, target, target.start);
        text.push_text(b" ");
        push_tag_word(text, tag);
    }
}

/// Appends the lines of the target, if the words of the pointer say where it is.
pub(crate) fn push_target_lines<M: Segments>(
    text: &mut Explanation,
    message: &M,
    target: &Option<Target>,
)
    requires near { IfSome target.now (λ t. t.start < 2 ^ 34) }
    requires fits { length text.old + PLAIN + LINE ≤ CAPACITY }
    ensures items { text.new ≡ text.old
        ++ target_lines (M.segments message.now) target.now }
    ensures few { length text.new ≤ length text.old + PLAIN + LINE }
{
    if let Some(target) = target {
        push_target_line(text, target);
        push_tag_line(text, target, list_tag(message, target));
    }
}

/// Appends how many words a segment has, or that it doesn't exist, and which do.
fn push_segment_state<M: Segments>(text: &mut Explanation, message: &M, segment: u32)
    requires { length text.old + 60 ≤ CAPACITY }
    ensures items { text.new ≡ text.old ++ segment_state (M.segments message.now) segment }
    ensures few { length text.new ≤ length text.old + 60 }
{
    if segment < message.count() {
        text.push_named(b", words ", u64::from(message.len(segment)));
    } else {
        let last = message.count() - 1;
        text.push_named(b", which does not exist, segments 0 to ", u64::from(last));
    }
}

/// Appends the line of the segment that a pointer leads into. A word that leads to nothing, such as
/// a reserved one, gets the line of its own segment.
pub(crate) fn push_segment_line<M: Segments>(text: &mut Explanation, message: &M, segment: u32)
    requires { length text.old + PLAIN ≤ CAPACITY }
    ensures items { text.new ≡ text.old ++ segment_line (M.segments message.now) segment }
    ensures few { length text.new ≤ length text.old + PLAIN }
{
    text.push_named(b"  leads into segment ", u64::from(segment));
    push_segment_state(text, message, segment);
    text.push_text(b"\n");
}

/// Appends the first level that is deeper than the limit, and the limit.
fn push_level_line(text: &mut Explanation, depth: u32)
    requires { length text.old + PLAIN ≤ CAPACITY }
    ensures items { text.new ≡ text.old ++ level_line depth }
    ensures few { length text.new ≤ length text.old + PLAIN }
{
    text.push_named(b"  level ", u64::from(depth) + 1);
    text.push_named(b", limit ", u64::from(depth));
    text.push_text(b"\n");
}

/// Appends the charge up to the pointer, if it is known, and its limit.
fn push_charge_line(text: &mut Explanation, charge: Option<u64>, words: u64)
    requires { length text.old + PLAIN ≤ CAPACITY }
    ensures items { text.new ≡ text.old ++ charge_line charge words }
    ensures few { length text.new ≤ length text.old + PLAIN }
{
    match charge {
        Some(charge) => push_charge_up_to_line(text, charge, words),
        None => push_words_line(text, words),
    }
}

/// Appends this charge, and its limit.
fn push_charge_up_to_line(text: &mut Explanation, charge: u64, words: u64)
    requires { length text.old + PLAIN ≤ CAPACITY }
    ensures items { text.new ≡ text.old ++ charge_line (Some charge) words }
    ensures few { length text.new ≤ length text.old + PLAIN }
{
    text.push_named(b"  charge up to here ", charge);
    text.push_named(b" words, limit ", words);
    text.push_text(b" words\n");
}

/// Appends the limit of the charge alone.
fn push_words_line(text: &mut Explanation, words: u64)
    requires { length text.old + PLAIN ≤ CAPACITY }
    ensures items { text.new ≡ text.old ++ charge_line None words }
    ensures few { length text.new ≤ length text.old + PLAIN }
{
    text.push_named(b"  charge, limit ", words);
    text.push_text(b" words\n");
}

/// Appends the words that the elements of the list of structs `word` need by its tag, and those that
/// it has.
fn push_elements_line(text: &mut Explanation, word: u64, tag: u64)
    requires { length text.old + PLAIN ≤ CAPACITY }
    ensures items { text.new ≡ text.old ++ elements_line word tag }
    ensures few { length text.new ≤ length text.old + PLAIN }
{
    text.push_named(b"  elements need words ", words_of_elements(tag));
    text.push_named(b", list has words ", u64::from(list_size(word)));
    text.push_text(b"\n");
}

/// Appends the same of the list at a target, if there is one.
fn push_overrun_line<M: Segments>(text: &mut Explanation, message: &M, target: &Option<Target>)
    requires { length text.old + PLAIN ≤ CAPACITY }
    ensures items { text.new ≡ text.old ++ overrun_line (M.segments message.now) target.now }
    ensures few { length text.new ≤ length text.old + PLAIN }
{
    if let Some(target) = target {
        if let Some(tag) = list_tag(message, target) {
            push_elements_line(text, target.word, tag);
        }
    }
}

/// Appends the line of what is exceeded, if something is: a limit, or the words of a list of structs.
pub(crate) fn push_excess_line<M: Segments>(
    text: &mut Explanation,
    message: &M,
    fault: Fault,
    target: &Option<Target>,
    numbers: Numbers,
)
    requires { length text.old + PLAIN ≤ CAPACITY }
    ensures items { text.new ≡ text.old
        ++ excess_line (M.segments message.now) fault target.now numbers }
    ensures few { length text.new ≤ length text.old + PLAIN }
{
    match fault {
        Fault::Refused(Reason::CompositeOverrun) => push_overrun_line(text, message, target),
        Fault::Refused(Reason::DepthLimit) => push_level_line(text, numbers.depth),
        Fault::Refused(Reason::WordLimit) => push_charge_line(text, numbers.charge, numbers.words),
        _ => {}
    }
}

/// Appends where the path reaches a pointer word, and where it returns to it.
fn push_cycle_line(text: &mut Explanation, cycle: Cycle)
    requires { length text.old + LINE ≤ CAPACITY }
    ensures items { text.new ≡ text.old ++ cycle_line cycle }
    ensures few { length text.new ≤ length text.old + LINE }
{
    text.push_text(b"  cycle: the path reaches pointer word ");
    text.push_place(cycle.segment, u64::from(cycle.word));
    text.push_named(b" at level ", u64::from(cycle.from_level));
    text.push_named(b", and returns to it at level ", u64::from(cycle.to_level));
    text.push_text(b"\n");
}

/// Appends the same, if there is a cycle.
pub(crate) fn push_cycle_lines(text: &mut Explanation, cycle: Option<Cycle>)
    requires { length text.old + LINE ≤ CAPACITY }
    ensures items { text.new ≡ text.old ++ cycle_lines cycle }
    ensures few { length text.new ≤ length text.old + LINE }
{
    if let Some(cycle) = cycle {
        push_cycle_line(text, cycle);
    }
}

/// Appends the line of the reason.
pub(crate) fn push_reason_line(
    text: &mut Explanation,
    fault: Fault,
    landing: Landing,
    target: &Option<Target>,
)
    requires { length text.old + PLAIN ≤ CAPACITY }
    ensures items { text.new ≡ text.old ++ reason_line fault landing target.now }
    ensures few { length text.new ≤ length text.old + PLAIN }
{
    text.push_text(b"  reason ");
    text.push_text(sentence(fault, landing, target));
    text.push_text(b"\n");
}
