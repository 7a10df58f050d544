//! The call for the path to a pointer word.

ghost use Rattle.cap_calls.specs.PointerCalls.{FindsFew, ReportsPointer, steps_found};
ghost use Rattle.cap_calls.specs.declared.answer.Answer.{Answer};
ghost use Rattle.cap_calls.specs.declared.report.CallReport.{CallReport};
ghost use Rattle.cap_calls.specs.declared.step.CallStep.{CallStep};
ghost use Rattle.cap_walk.specs.Limits.{depth_of, words_of};
ghost use Rattle.std.specs.Prelude.{◌≡◌, ◌≤◌, List, ℕ};

use crate::answer::Answer;
use crate::calls::get::path_answer;
use crate::found::Found;
use crate::input::over_input;
use crate::limits::CallLimits;
use crate::one_slice::OneSlice;
use crate::over::Call;
use crate::report::CallReport;
use crate::step::CallStep;
use cap_frame::{ByteView, Segments};
use cap_trace::path_of_pointer;
use cap_vet::{Demands, Limits};

/// Finds the path to a pointer word of the message that bytes are: the word of this number in
/// preorder, where that of the root has number 1. The number that a report has as `pointers` is
/// that of the pointer that it names. `required` is how many steps the path has, and 0 without a
/// path. The pointers before the word in preorder are followed, and the depth limit applies to them.
/// Allocates nothing.
///
/// The first of these that applies is returned:
/// - why there is no frame, or [`Answer::Trailing`], as for [`crate::vet`];
/// - [`Answer::NoNode`]: the message has no such word. Or a pointer before it can't be followed, or
///   leads past the depth limit. Or the number is above the limit of the charge and 1, since no
///   verdict counts as many;
/// - [`Answer::BufferTooSmall`], if `steps` has fewer than `required` steps;
/// - [`Answer::Good`]; the path is the first `required` steps, and the others are unchanged.
///
/// Without [`Answer::Good`] all steps are unchanged. The report is written whole.
pub fn pointer_path(
    bytes: &[u8],
    limits: &CallLimits,
    number: u64,
    steps: &mut [CallStep],
    required: &mut usize,
    report: &mut CallReport,
) -> Answer
    ensures reports { ReportsPointer limits.now bytes.now number steps.old result required.new steps.new
        report.new }
    // The bytes, the number and the capacity allow no other result.
    ensures only { (a : Answer) (n : ℕ) (new : List CallStep) (r : CallReport) →
        ReportsPointer limits.now bytes.now number steps.old a n new r →
        (result ≡ a) × (required.new ≡ n) × (steps.new ≡ new) × (report.new ≡ r) }
    // This capacity is always enough.
    ensures few { required.new ≤ 256 }
{
    let whole = !limits.allows_trailing();
    let (answer, count) = over_input(&Tracing { number }, whole, bytes, limits, steps, report);
    *required = count;
    answer
}

// The call on a message, for the word of this number.
#[derive(Clone, Copy, Drop)]
struct Tracing {
    number: u64,
}

impl Call for Tracing {
    type Item = CallStep;

    ghost finds = { λ call demands m words depth old f new. FindsFew call.number old new m words depth f };

    #[inline(never)]
    fn on<'b>(
        &self,
        view: &ByteView<'b>,
        _words: u64,
        limits: Limits,
        _demands: Demands,
        out: &mut [CallStep],
    ) -> Found {
        traced(view, limits, self.number, out)
    }

    // A search of its own, which looks up neither starts nor sizes of segments.
    #[inline(never)]
    fn on_one<'b>(
        &self,
        view: &ByteView<'b>,
        _words: u64,
        limits: Limits,
        _demands: Demands,
        out: &mut [CallStep],
    ) -> Found {
        traced(&OneSlice::of(view), limits, self.number, out)
    }
}

// What is found of a message, for the word of this number.
#[inline(always)]
fn traced<M: Segments>(message: &M, limits: Limits, number: u64, out: &mut [CallStep]) -> Found
    ensures { let m = M.segments message.now in
        FindsFew number out.old out.new m (words_of limits) (depth_of limits) result }
{
    // A message of few words may have a pointer of any number.
    if number > limits.words() + 1 {
        return path_answer(Answer::NoNode);
    }
    let Some(count) = path_of_pointer(message, limits, number, out) else {
        return path_answer(Answer::NoNode);
    };
    if count > out.len() {
        return found_of_steps(Answer::BufferTooSmall, count);
    }
    found_of_steps(Answer::Good, count)
}

// What is found of a path of this many steps.
pub(crate) fn found_of_steps(answer: Answer, count: usize) -> Found
    ensures { result ≡ steps_found answer count }
{
    Found {
        answer,
        count,
        report: CallReport::none(),
    }
}
