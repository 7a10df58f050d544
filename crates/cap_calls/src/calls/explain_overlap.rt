//! The call that explains an overlap.

ghost use Rattle.cap_calls.specs.OverlapCalls.{FindsFewOverlapLines, ReportsOverlapCall, both_lines};
ghost use Rattle.cap_calls.specs.PackCalls.{ReportsText};
ghost use Rattle.cap_calls.specs.PointerCalls.{steps_found};
ghost use Rattle.cap_calls.specs.declared.answer.Answer.{Answer};
ghost use Rattle.cap_calls.specs.declared.report.CallReport.{CallReport};
ghost use Rattle.cap_explain.specs.Explaining.{overlap_lines};
ghost use Rattle.cap_explain.specs.ExplainedFaults.{earlier_lines};
ghost use Rattle.cap_trace.specs.EarlierPointers.{IsEarlierOf};
ghost use Rattle.cap_trace.specs.PointerNumbers.{IsTraceable};
ghost use Rattle.cap_trace.specs.declared.earlier.EarlierPointer.{EarlierPointer};
ghost use Rattle.cap_walk.specs.Limits.{depth_of, words_of};
ghost use Rattle.std.specs.Prelude.{◌++◌, ◌≡◌, ◌≤◌, List, None, Option, Some, ℕ};

use crate::answer::Answer;
use crate::calls::get::path_answer;
use crate::calls::pointer_path::found_of_steps;
use crate::found::Found;
use crate::input::over_input;
use crate::limits::CallLimits;
use crate::one_slice::OneSlice;
use crate::over::Call;
use crate::report::CallReport;
use cap_explain::{Explanation, explain_earlier, explain_overlap_alone};
use cap_frame::{ByteView, Segments};
use cap_spec::Step;
use cap_trace::{EarlierPointer, NamedPath};
use cap_vet::{Demands, Limits};

/// The pointer of an overlap, as [`crate::vet_exclusive`] reports it.
#[derive(Clone, Copy, Drop)]
pub struct OverlapPointer {
    /// The segment of its pointer word, counted from 0.
    pub segment: u32,
    /// The word in that segment, counted from 0.
    pub word: u32,
    /// Its number in preorder, which is the `pointers` of the report.
    pub number: u64,
}

/// Writes the lines that explain an overlap to the start of `text` (docs/output.md, explain). They are
/// the lines that `capvet explain --exclusive` writes after the line of the verdict, without the byte
/// in the input. `pointer` is the pointer that [`crate::vet_exclusive`] reports of the same message. The
/// last line names the first pointer that uses such a word, if there is one. Whether the pointer
/// overlaps isn't looked at. The pointers before it are followed, and the depth limit applies to them.
/// Allocates nothing.
///
/// The first of these that applies is returned:
/// - why there is no frame, or [`Answer::Trailing`], as for [`crate::vet`]; `required` is 0;
/// - [`Answer::NoNode`]: there is no path to the pointer of this number: see [`crate::pointer_path`];
///   `required` is 0;
/// - [`Answer::BufferTooSmall`], if `text` has fewer than `required` bytes;
/// - [`Answer::Good`]; the lines are the first `required` bytes, and the others are unchanged.
///
/// Without [`Answer::Good`] all bytes are unchanged. The report is written whole.
pub fn explain_overlap(
    bytes: &[u8],
    limits: &CallLimits,
    pointer: OverlapPointer,
    text: &mut [u8],
    required: &mut usize,
    report: &mut CallReport,
) -> Answer
    ensures reports { ReportsOverlapCall limits.now bytes.now pointer text.old result required.new text.new
        report.new }
    // The bytes, the pointer and the capacity allow no other result.
    ensures only { (a : Answer) (n : ℕ) (new : List ℕ) (r : CallReport) →
        ReportsOverlapCall limits.now bytes.now pointer text.old a n new r →
        (result ≡ a) × (required.new ≡ n) × (text.new ≡ new) × (report.new ≡ r) }
    // This capacity is always enough.
    ensures few { required.new ≤ 12288 }
{
    let whole = !limits.allows_trailing();
    let call = Overlapping {
        has_table: !limits.has_no_table(),
        pointer,
    };
    let (answer, count) = over_input(&call, whole, bytes, limits, text, report);
    *required = count;
    answer
}

// The call on a message, which has a segment table or not.
#[derive(Clone, Copy, Drop)]
struct Overlapping {
    has_table: bool,
    pointer: OverlapPointer,
}

impl Call for Overlapping {
    type Item = u8;

    ghost finds = { λ call _ m words depth old f new.
        FindsFewOverlapLines call.has_table call.pointer old new m words depth f };

    #[inline(never)]
    fn on<'b>(
        &self,
        view: &ByteView<'b>,
        _words: u64,
        limits: Limits,
        _demands: Demands,
        out: &mut [u8],
    ) -> Found {
        overlap_found(view, limits, self.has_table, self.pointer, out)
    }

    // A search of its own, which looks up neither starts nor sizes of segments.
    #[inline(never)]
    fn on_one<'b>(
        &self,
        view: &ByteView<'b>,
        _words: u64,
        limits: Limits,
        _demands: Demands,
        out: &mut [u8],
    ) -> Found {
        overlap_found(
            &OneSlice::of(view),
            limits,
            self.has_table,
            self.pointer,
            out,
        )
    }
}

// What is found of a message, for this pointer.
#[inline(always)]
fn overlap_found<M: Segments>(
    message: &M,
    limits: Limits,
    has_table: bool,
    pointer: OverlapPointer,
    out: &mut [u8],
) -> Found
    ensures { let m = M.segments message.now in
        FindsFewOverlapLines has_table pointer out.old out.new m (words_of limits) (depth_of limits) result }
{
    let number = pointer.number;
    // A message of few words may have a pointer of any number.
    if number > limits.words() + 1 {
        return path_answer(Answer::NoNode);
    }
    let mut path = NamedPath::new();
    path.find(message, limits, number);
    match path.steps() {
        Some(steps) => explained(message, limits, has_table, pointer, steps, out),
        None => path_answer(Answer::NoNode),
    }
}

// The same of a pointer with this path.
#[inline(never)]
fn explained<M: Segments>(
    message: &M,
    limits: Limits,
    has_table: bool,
    pointer: OverlapPointer,
    steps: &[Step],
    out: &mut [u8],
) -> Found
    ensures lines { let m = M.segments message.now in
        IsTraceable m (depth_of limits) pointer.number steps.now →
        (e : Option EarlierPointer) × (h : IsEarlierOf m steps.now e) × ReportsText
        (both_lines has_table pointer m steps.now e h) out.old result.answer result.count out.new }
    ensures found { result ≡ steps_found result.answer result.count }
    ensures few { result.count ≤ 12288 }
{
    let mut earlier_path = NamedPath::new();
    let earlier = earlier_path.find_earlier(message, limits, pointer.number);
    put_lines(
        message,
        has_table,
        pointer,
        steps,
        earlier,
        &earlier_path,
        out,
    )
}

// Puts the lines to the start of a buffer, if they fit. They have one buffer of their own, which takes
// no stack before the earlier pointer is found. So the last line is written to it twice.
#[inline(never)]
fn put_lines<M: Segments>(
    message: &M,
    has_table: bool,
    pointer: OverlapPointer,
    steps: &[Step],
    earlier: Option<EarlierPointer>,
    earlier_path: &NamedPath,
    out: &mut [u8],
) -> Found
    ensures puts { let m = M.segments message.now in
        ReportsText (overlap_lines has_table (Some steps.now) m None pointer.segment pointer.word
        ++ earlier_lines earlier_path.now earlier) out.old result.answer result.count out.new }
    ensures found { result ≡ steps_found result.answer result.count }
    ensures few { result.count ≤ 12288 }
{
    let mut text = Explanation::new();
    write_earlier(&mut text, earlier, earlier_path);
    let more = text.text().len();
    explain_overlap_alone(
        &mut text,
        message,
        has_table,
        pointer.segment,
        pointer.word,
        Some(steps),
    );
    let start = text.text().len();
    let count = start + more;
    if count > out.len() {
        return found_of_steps(Answer::BufferTooSmall, count);
    }
    out[..start].copy_from_slice(text.text());
    write_earlier(&mut text, earlier, earlier_path);
    out[start..count].copy_from_slice(text.text());
    found_of_steps(Answer::Good, count)
}

// Writes the line of the earlier pointer, to which this is the path. What the text held before is
// removed.
fn write_earlier(text: &mut Explanation, earlier: Option<EarlierPointer>, path: &NamedPath)
    ensures { text.new ≡ earlier_lines path.now earlier }
{
    match earlier {
        Some(earlier) => explain_earlier(text, earlier.segment, earlier.word, path.steps()),
        None => explain_earlier(text, 0, 0, None),
    }
}
