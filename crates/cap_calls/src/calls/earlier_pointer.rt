//! The call for the earlier pointer of an overlap.

ghost use Rattle.cap_calls.specs.EarlierCalls.{FindsEarlierCall, ReportsEarlierCall};
ghost use Rattle.cap_calls.specs.declared.answer.Answer.{Answer};
ghost use Rattle.cap_calls.specs.declared.report.CallReport.{CallReport};
ghost use Rattle.cap_walk.specs.Limits.{depth_of, words_of};
ghost use Rattle.std.specs.Prelude.{◌≡◌};

use crate::answer::Answer;
use crate::calls::get::path_answer;
use crate::found::Found;
use crate::input::over_input;
use crate::limits::CallLimits;
use crate::one_slice::OneSlice;
use crate::over::Call;
use crate::report::CallReport;
use cap_frame::{ByteView, Segments};
use cap_trace::earlier_pointer as earlier_of;
use cap_vet::{Demands, Limits};

/// Finds the first pointer in preorder that uses a word which pointer `number` uses too, in the message
/// that bytes are. The `pointers` that [`crate::vet_exclusive`] reports of an overlap is the number of
/// the pointer that overlaps. A pointer uses its landing pads and the words of its object. The pointers
/// before that one are followed, and the depth limit applies to them. Allocates nothing.
///
/// The first of these that applies is returned:
/// - why there is no frame, or [`Answer::Trailing`], as for [`crate::vet`];
/// - [`Answer::NoNode`]: no pointer before that one uses such a word. Or there is no path to that one:
///   see [`crate::pointer_path`];
/// - [`Answer::Good`]; the report has the segment, the word and the number of the earlier pointer.
///
/// The report is written whole.
pub fn earlier_pointer(
    bytes: &[u8],
    limits: &CallLimits,
    number: u64,
    report: &mut CallReport,
) -> Answer
    ensures reports { ReportsEarlierCall limits.now bytes.now number result report.new }
    // The bytes and the number allow no other result.
    ensures only { (a : Answer) (r : CallReport) → ReportsEarlierCall limits.now bytes.now number a r →
        (result ≡ a) × (report.new ≡ r) }
{
    let whole = !limits.allows_trailing();
    over_input(&Sharing { number }, whole, bytes, limits, &mut [], report).0
}

// The call on a message, for the pointer of this number.
#[derive(Clone, Copy, Drop)]
struct Sharing {
    number: u64,
}

impl Call for Sharing {
    type Item = u8;

    ghost finds = { λ call _ m words depth _ f _. FindsEarlierCall call.number m words depth f };

    #[inline(never)]
    fn on<'b>(
        &self,
        view: &ByteView<'b>,
        _words: u64,
        limits: Limits,
        _demands: Demands,
        _out: &mut [u8],
    ) -> Found {
        earlier_found(view, limits, self.number)
    }

    // A search of its own, which looks up neither starts nor sizes of segments.
    #[inline(never)]
    fn on_one<'b>(
        &self,
        view: &ByteView<'b>,
        _words: u64,
        limits: Limits,
        _demands: Demands,
        _out: &mut [u8],
    ) -> Found {
        earlier_found(&OneSlice::of(view), limits, self.number)
    }
}

// What is found of a message, for the pointer of this number.
#[inline(always)]
fn earlier_found<M: Segments>(message: &M, limits: Limits, number: u64) -> Found
    ensures { FindsEarlierCall number (M.segments message.now) (words_of limits) (depth_of limits) result }
{
    // A message of few words may have a pointer of any number.
    if number > limits.words() + 1 {
        return path_answer(Answer::NoNode);
    }
    match earlier_of(message, limits, number) {
        Some(earlier) => Found {
            answer: Answer::Good,
            count: 0,
            report: CallReport::of_place(earlier.segment, earlier.word, earlier.pointers),
        },
        None => path_answer(Answer::NoNode),
    }
}
