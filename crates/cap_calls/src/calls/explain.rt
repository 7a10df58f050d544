//! The call that vets a message, and explains a refusal.

ghost use Rattle.cap_calls.specs.CallFindings.{refused_found};
ghost use Rattle.cap_calls.specs.Calls.{ReportsVet};
ghost use Rattle.cap_calls.specs.ExplainCalls.{FindsFewLines, PutsText, ReportsExplanation, frame_line};
ghost use Rattle.cap_calls.specs.declared.answer.Answer.{Answer};
ghost use Rattle.cap_calls.specs.declared.report.CallReport.{CallReport};
ghost use Rattle.cap_explain.specs.Cycles.{IsFaultCycle};
ghost use Rattle.cap_explain.specs.Explaining.{explanation};
ghost use Rattle.cap_explain.specs.ExplainedFaults.{fault_lines};
ghost use Rattle.cap_trace.specs.declared.returning.Cycle.{Cycle};
ghost use Rattle.cap_walk.specs.Demands.{IsDemandFault};
ghost use Rattle.cap_walk.specs.Limits.{depth_of, words_of};
ghost use Rattle.std.specs.Prelude.{◌≡◌, ◌≢◌, ◌≤◌, ◌⊎◌, [], List, None, Option, length, ℕ};

use crate::answer::Answer;
use crate::found::Found;
use crate::input::over_input;
use crate::limits::CallLimits;
use crate::one_slice::OneSlice;
use crate::over::Call;
use crate::report::CallReport;
use cap_explain::{Explanation, Numbers, explain as explain_refusal, fault_cycle, numbers_of};
use cap_frame::{ByteView, Segments};
use cap_spec::StrictRefusal;
use cap_trace::NamedPath;
use cap_vet::{Demands, Limits, limits_under, vet_with};

/// Vets the message that bytes are, as [`crate::vet`] does, and writes the lines that explain why it is
/// refused to the start of `text` (docs/output.md, explain). They are the lines that `capvet explain`
/// writes after the line of the verdict, without the byte in the input. If there is no message, or
/// bytes follow it, there is one line, which has the reason as a sentence. Allocates nothing.
///
/// It always returns and reports what [`crate::vet`] does. `required` is the length of the lines in
/// bytes: 0 if the message is accepted, or a limit is bad. They are written if `text` has as many
/// bytes, and those after them are unchanged. Else `text` is unchanged.
pub fn explain(
    bytes: &[u8],
    limits: &CallLimits,
    text: &mut [u8],
    required: &mut usize,
    report: &mut CallReport,
) -> Answer
    // It is the verdict of [`crate::vet`].
    ensures vets { ReportsVet limits.now bytes.now result report.new }
    ensures reports { ReportsExplanation limits.now bytes.now text.old result required.new text.new
        report.new }
    // The bytes and the capacity allow no other result.
    ensures only { (a : Answer) (n : ℕ) (new : List ℕ) (r : CallReport) →
        ReportsExplanation limits.now bytes.now text.old a n new r →
        (result ≡ a) × (required.new ≡ n) × (text.new ≡ new) × (report.new ≡ r) }
    // This capacity is always enough.
    ensures few { required.new ≤ 6144 }
{
    let whole = !limits.allows_trailing();
    let call = Explaining {
        has_table: !limits.has_no_table(),
    };
    let (answer, count) = over_input(&call, whole, bytes, limits, text, report);
    *required = put_frame_line(answer, count, text);
    answer
}

// The line for an input that is no message and nothing else, by the answer. None for other answers.
fn frame_line(answer: Answer) -> &'static [u8]
    ensures line { result.now ≡ frame_line answer }
    ensures short { length result.now ≤ 100 }
{
    match answer {
        Answer::NoMessage => b"  reason the input is empty\n",
        Answer::TooManySegments => {
            b"  reason the first word of the message says more segments than a message may have\n"
        }
        Answer::TooLarge => {
            b"  reason the segments together have more words than the limit allows\n"
        }
        Answer::Truncated => b"  reason the input ends inside the message\n",
        Answer::Trailing => b"  reason bytes follow the message\n",
        _ => b"",
    }
}

// Puts that line to the start of a buffer, if there is one and it fits. Gives its length then, and the
// length of the lines that were put there before otherwise.
fn put_frame_line(answer: Answer, count: usize, text: &mut [u8]) -> usize
    ensures puts { ((frame_line answer ≡ []) × (result ≡ count) × (text.new ≡ text.old))
        ⊎ ((frame_line answer ≢ []) × PutsText (frame_line answer) text.old result text.new) }
    ensures few { count ≤ 6144 → result ≤ 6144 }
{
    let line = frame_line(answer);
    if line.is_empty() {
        return count;
    }
    put_text(line, text)
}

// The call on a message, which has a segment table or not.
#[derive(Clone, Copy, Drop)]
struct Explaining {
    has_table: bool,
}

impl Call for Explaining {
    type Item = u8;

    ghost finds = { λ e demands m words depth old f new.
        FindsFewLines e.has_table old new demands m words depth f };

    #[inline(never)]
    fn on<'b>(
        &self,
        view: &ByteView<'b>,
        _words: u64,
        limits: Limits,
        demands: Demands,
        out: &mut [u8],
    ) -> Found {
        match vet_with(view, limits, demands) {
            Ok(vetted) => Found::accepted(Answer::Good, 0, vetted.report()),
            Err(refusal) => explained(view, refusal, limits, demands, self.has_table, out),
        }
    }

    // A walk of its own, as that of [`crate::vet`], for a message that is accepted.
    #[inline(always)]
    fn on_one<'b>(
        &self,
        view: &ByteView<'b>,
        _words: u64,
        limits: Limits,
        demands: Demands,
        out: &mut [u8],
    ) -> Found {
        match vet_with(&OneSlice::of(view), limits, demands) {
            Ok(vetted) => Found::accepted(Answer::Good, 0, vetted.report()),
            Err(refusal) => explained(view, refusal, limits, demands, self.has_table, out),
        }
    }
}

// What is found of a message that doesn't meet the demands within limits, for this reason.
#[inline(never)]
fn explained<'b>(
    view: &ByteView<'b>,
    refusal: StrictRefusal,
    limits: Limits,
    demands: Demands,
    has_table: bool,
    out: &mut [u8],
) -> Found
    ensures lines { let m = ⟦<ByteView<'b> as Segments>⟧.segments view.now in
        (h : IsDemandFault demands m (words_of limits) (depth_of limits) refusal) →
        (cycle : Option Cycle)
        × IsFaultCycle demands m (words_of limits) (depth_of limits) refusal h cycle
        × PutsText (fault_lines has_table demands m (words_of limits) (depth_of limits) refusal h
        cycle None) out.old result.count out.new }
    ensures few { result.count ≤ 6144 }
    ensures refused { result ≡ record (refused_found refusal) { count = result.count } }
{
    let mut path = NamedPath::new();
    path.find_refused(view, limits, &refusal);
    let within = limits_under(view, limits, demands);
    let cycle = fault_cycle(view, &refusal, limits);
    let numbers = numbers_of(view, &refusal, cycle, within, has_table, None);
    let count = put_lines(view, &refusal, numbers, &path, out);
    Found {
        count,
        ..Found::refused(refusal)
    }
}

// Puts the lines to the start of a buffer, if they fit. They have a buffer of their own first, which
// takes no stack before the path is found.
#[inline(never)]
fn put_lines<'b>(
    view: &ByteView<'b>,
    refusal: &StrictRefusal,
    numbers: Numbers,
    path: &NamedPath,
    out: &mut [u8],
) -> usize
    ensures puts { let m = ⟦<ByteView<'b> as Segments>⟧.segments view.now in
        PutsText (explanation path.now m refusal.now numbers) out.old result out.new }
    ensures few { result ≤ 6144 }
{
    let mut lines = Explanation::new();
    explain_refusal(&mut lines, view, refusal, numbers, path.steps());
    put_text(lines.text(), out)
}

// Puts a text to the start of a buffer, if it fits. Gives its length.
fn put_text(text: &[u8], out: &mut [u8]) -> usize
    ensures puts { PutsText text.now out.old result out.new }
    ensures count { result ≡ length text.now }
{
    let count = text.len();
    if count > out.len() {
        return count;
    }
    out[..count].copy_from_slice(text);
    count
}
