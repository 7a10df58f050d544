//! The explanation of a refusal.

ghost use Rattle.cap_explain.specs.Explaining.{difference_explanation, explanation, lines_of, lines_over, overlap_explanation, overlap_lines, pointer_lines};
ghost use Rattle.std.specs.Option.{option_map};
ghost use Rattle.std.specs.Prelude.{◌+◌, ◌*◌, ◌++◌, ◌^◌, ◌<◌, ◌≡◌, ◌≤◌, IfSome, None, length};

use crate::copy_lines::push_copy_lines;
use crate::explanation::{CAPACITY, Explanation};
use crate::landing::{Landing, landing_of};
use crate::lines::{
    LINE, PLAIN, push_byte_line, push_cycle_lines, push_excess_line, push_landing_lines,
    push_pointer_line, push_reason_line, push_segment_line, push_target_lines,
};
use crate::numbers::{MessageStart, Numbers};
use crate::path::push_path_lines;
use crate::sentences::{Fault, names_pointer};
use crate::target::{Target, segment_after, target_of};
use crate::words::word_of;
use cap_difference::Difference;
use cap_frame::Segments;
use cap_spec::{Step, StrictRefusal};

/// The space for the lines on a pointer.
const POINTER: usize = 5 * LINE + 2 * PLAIN;

/// A pointer word, and where it leads.
#[derive(Clone, Copy, Drop)]
struct Pointer {
    segment: u32,
    word: u32,
    value: u64,
    landing: Landing,
}

/// Appends the lines on a pointer.
fn push_pointer_lines<M: Segments>(
    text: &mut Explanation,
    message: &M,
    numbers: Numbers,
    pointer: Pointer,
    target: &Option<Target>,
)
    requires exists { pointer.segment < length (M.segments message.now) }
    requires near { IfSome target.now (λ t. t.start < 2 ^ 34) }
    requires fits { length text.old + POINTER ≤ CAPACITY }
    ensures items { let p = pointer in text.new ≡ text.old ++ pointer_lines
        (M.segments message.now) numbers p.segment p.word p.value p.landing target.now }
    ensures few { length text.new ≤ length text.old + POINTER }
{
    push_byte_line(text, message, numbers, pointer.segment, pointer.word);
    push_pointer_line(text, pointer.value);
    push_landing_lines(text, pointer.value, pointer.landing);
    push_target_lines(text, message, target);
    let last = segment_after(pointer.segment, pointer.value, pointer.landing);
    push_segment_line(text, message, last);
}

/// Appends the lines if the word that is named exists.
fn push_lines<M: Segments>(
    text: &mut Explanation,
    message: &M,
    fault: Fault,
    pointer: Pointer,
    target: &Option<Target>,
    numbers: Numbers,
)
    requires exists { pointer.segment < length (M.segments message.now) }
    requires near { IfSome target.now (λ t. t.start < 2 ^ 34) }
    requires fits { length text.old + POINTER + 2 * PLAIN + LINE ≤ CAPACITY }
    ensures items { let p = pointer in text.new ≡ text.old ++ lines_over
        (M.segments message.now) fault p.segment p.word numbers p.value p.landing target.now }
    ensures few { length text.new ≤ length text.old + POINTER + 2 * PLAIN + LINE }
{
    if names_pointer(fault) {
        push_pointer_lines(text, message, numbers, pointer, target);
    }
    push_excess_line(text, message, fault, target, numbers);
    push_cycle_lines(text, numbers.cycle);
    push_reason_line(text, fault, pointer.landing, target);
}

/// The space for all lines on a fault but that of the path.
const LINES: usize = POINTER + 2 * PLAIN + LINE;

/// Appends the lines of a fault that names a word.
fn push_fault<M: Segments>(
    text: &mut Explanation,
    message: &M,
    fault: Fault,
    segment: u32,
    word: u32,
    numbers: Numbers,
)
    requires { length text.old + LINES ≤ CAPACITY }
    ensures items { text.new ≡ text.old
        ++ lines_of (M.segments message.now) fault segment word numbers }
    ensures few { length text.new ≤ length text.old + LINES }
{
    match word_of(message, segment, u64::from(word)) {
        Some(value) => {
            let landing = landing_of(message, value);
            let target = target_of(segment, word, value, landing);
            let pointer = Pointer {
                segment,
                word,
                value,
                landing,
            };
            push_lines(text, message, fault, pointer, &target, numbers);
        }
        None => push_reason_line(text, fault, Landing::Near, &None),
    }
}

/// Writes the lines that explain why a message is refused (docs/output.md, explain). They give the
/// path to the pointer, where it is, and the pointer word with its fields. Then come where it leads,
/// what is exceeded, the last cycle of the path, and the reason as a sentence. A
/// path of more than 24 steps is shortened. What the text held before is removed. Allocates nothing.
///
/// A refusal that names no word of the message has only the line of the reason, and that of a path
/// if one is given. A path of more than 257 steps has no line: no path to a pointer of a refusal has
/// as many.
pub fn explain<M: Segments>(
    text: &mut Explanation,
    message: &M,
    refusal: &StrictRefusal,
    numbers: Numbers,
    path: Option<&[Step]>,
)
    ensures { text.new ≡ explanation (option_map (λ steps. steps.now) path.entry)
        (M.segments message.now) refusal.now numbers }
{
    let (fault, segment, word) = match refusal {
        StrictRefusal::Refused(refusal) => {
            (
                Fault::Refused(refusal.reason),
                refusal.segment,
                refusal.word,
            )
        }
        StrictRefusal::ManySegments => (Fault::ManySegments, 0, 0),
        StrictRefusal::Pointer {
            what,
            segment,
            word,
            ..
        } => (Fault::NotStrict(*what), *segment, *word),
    };
    text.clear();
    push_path_lines(text, path);
    push_fault(text, message, fault, segment, word, numbers);
}

/// Writes the lines of an overlap, of a message that has a segment table or not.
fn push_overlap<M: Segments>(
    text: &mut Explanation,
    message: &M,
    has_table: bool,
    start: Option<MessageStart>,
    segment: u32,
    word: u32,
    path: Option<&[Step]>,
)
    ensures { text.new ≡ overlap_lines has_table (option_map (λ steps. steps.now) path.entry)
        (M.segments message.now) start segment word }
{
    text.clear();
    push_path_lines(text, path);
    let numbers = Numbers {
        words: 0,
        depth: 0,
        charge: None,
        cycle: None,
        has_table,
        start,
    };
    push_fault(text, message, Fault::Overlap, segment, word, numbers);
}

/// Writes the lines that explain that the pointer at word `word` of segment `segment` overlaps. The
/// message begins at `start`, if it is one of a stream. See [`explain`].
pub fn explain_overlap<M: Segments>(
    text: &mut Explanation,
    message: &M,
    start: Option<MessageStart>,
    segment: u32,
    word: u32,
    path: Option<&[Step]>,
)
    ensures { text.new ≡ overlap_explanation (option_map (λ steps. steps.now) path.entry)
        (M.segments message.now) start segment word }
{
    push_overlap(text, message, true, start, segment, word, path);
}

/// The same of a message that isn't one of a stream, and has a segment table or not.
pub fn explain_overlap_alone<M: Segments>(
    text: &mut Explanation,
    message: &M,
    has_table: bool,
    segment: u32,
    word: u32,
    path: Option<&[Step]>,
)
    ensures { text.new ≡ overlap_lines has_table (option_map (λ steps. steps.now) path.entry)
        (M.segments message.now) None segment word }
{
    push_overlap(text, message, has_table, None, segment, word, path);
}

/// Writes the lines that explain the first difference of an accepted message from its canonical
/// copy (docs/output.md, explain): those of a refusal, with the reason of the difference. The last
/// line has what differs, a word or a count, beside what the copy has there. The message begins at
/// `start`, if it is one of a stream. `path` is that to the pointer that is named. With `Segments`
/// and `Trailing` no pointer is, so there are only the last two lines. See [`explain`].
pub fn explain_difference<M: Segments>(
    text: &mut Explanation,
    message: &M,
    start: Option<MessageStart>,
    difference: &Difference,
    path: Option<&[Step]>,
)
    ensures { text.new ≡ difference_explanation (option_map (λ steps. steps.now) path.entry)
        (M.segments message.now) start difference.now }
{
    text.clear();
    push_path_lines(text, path);
    let numbers = Numbers {
        words: 0,
        depth: 0,
        charge: None,
        cycle: None,
        has_table: true,
        start,
    };
    let fault = Fault::Differs(difference.reason);
    push_fault(
        text,
        message,
        fault,
        difference.segment,
        difference.word,
        numbers,
    );
    push_copy_lines(text, message, difference);
}
