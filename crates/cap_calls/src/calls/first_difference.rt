//! The call that says why a message isn't canonical.

ghost use Rattle.cap_calls.specs.CallFindings.{Judges};
ghost use Rattle.cap_calls.specs.DifferenceCalls.{IsDifferent, ReportsDifference, difference_found};
ghost use Rattle.cap_calls.specs.declared.answer.Answer.{Answer};
ghost use Rattle.cap_calls.specs.declared.report.CallReport.{CallReport};
ghost use Rattle.std.specs.Prelude.{◌≡◌, ⊤};

use crate::answer::Answer;
use crate::found::Found;
use crate::input::over_input;
use crate::limits::CallLimits;
use crate::over::Call;
use crate::report::CallReport;
use cap_canon::check_with;
use cap_difference::{Difference, first_difference as difference_of};
use cap_frame::ByteView;
use cap_vet::{Demands, Limits, Report};

/// Finds the first pointer in preorder at which the message that bytes are isn't as its canonical copy
/// has it, and the reason (encoding: Canonicalization). Allocates nothing, and makes no copy.
///
/// It returns what [`crate::check_canonical`] does, and reports the same but with
/// [`Answer::NotCanonical`]. Then the report has the segment, the word and the number of that pointer,
/// and in `detail` the number of the reason. For reasons that are about no pointer see [`Difference`]. The
/// charge, the capabilities and the depth are those of the message, as there. The report is written whole.
pub fn first_difference(bytes: &[u8], limits: &CallLimits, report: &mut CallReport) -> Answer
    ensures reports { ReportsDifference limits.now bytes.now result report.new }
    // The bytes allow no other result.
    ensures only { (a : Answer) (r : CallReport) → ReportsDifference limits.now bytes.now a r →
        (result ≡ a) × (report.new ≡ r) }
{
    over_input(&Comparing, true, bytes, limits, &mut [], report).0
}

// The call on a message.
struct Comparing;

impl Call for Comparing {
    type Item = u8;

    ghost finds = { λ _ demands m words depth _ f _. Judges demands ⊤ IsDifferent m words depth f };

    // Inlined: a small message pays for a call more than for the check.
    #[inline(always)]
    fn on<'b>(
        &self,
        view: &ByteView<'b>,
        _words: u64,
        limits: Limits,
        demands: Demands,
        _out: &mut [u8],
    ) -> Found {
        match check_with(view, limits, demands) {
            Ok((vetted, canonical)) => {
                let report = vetted.report();
                if canonical {
                    return Found::accepted(Answer::Good, 0, report);
                }
                match difference_of(&vetted) {
                    Some(difference) => found_of_difference(difference, report),
                    None => Found::accepted(Answer::Good, 0, report),
                }
            }
            Err(refusal) => Found::refused(refusal),
        }
    }
}

// What is found of an accepted message with this first difference.
fn found_of_difference(difference: Difference, report: Report) -> Found
    ensures { result ≡ difference_found difference report }
{
    Found {
        answer: Answer::NotCanonical,
        count: 0,
        report: CallReport::of_difference(difference, report),
    }
}
