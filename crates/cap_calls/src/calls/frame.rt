//! The call that reports the length of a frame.

ghost use Rattle.cap_calls.specs.Calls.{ReportsFrame, FindsFrame};
ghost use Rattle.cap_calls.specs.CallBounds.{frame_bound};
ghost use Rattle.cap_calls.specs.CallFindings.{ReportsCall};
ghost use Rattle.cap_calls.specs.declared.answer.Answer.{Answer};
ghost use Rattle.cap_calls.specs.declared.report.CallReport.{CallReport};
ghost use Rattle.std.specs.Prelude.{◌≡◌, ◌≤◌, ⊤};

use crate::answer::Answer;
use crate::found::Found;
use crate::front::front;
use crate::limits::CallLimits;
use crate::report::CallReport;

/// Reports the length in bytes of the frame that bytes start with, and how many segments its
/// message has. Reads only the table (encoding: Serialization Over a Stream).
///
/// It returns [`Answer::Good`], or why there is no frame within the limits. The report is written
/// whole.
pub fn frame(bytes: &[u8], limits: &CallLimits, report: &mut CallReport) -> Answer
    ensures reports { ReportsFrame limits.now bytes.now result report.new }
    // The bytes allow no other result.
    ensures only { (a : Answer) (r : CallReport) → ReportsFrame limits.now bytes.now a r →
        (result ≡ a) × (report.new ≡ r) }
    // No more bytes are required than a frame within the limit has, and no frame has more.
    ensures input_required { report.new.input_required ≤ frame_bound limits.now.message_words }
    ensures whole { report.new.length ≤ frame_bound limits.now.message_words }
{
    let found = extent(bytes, limits);
    *report = found.report;
    found.answer
}

// What is found of the frame.
fn extent(bytes: &[u8], limits: &CallLimits) -> Found
    ensures { ReportsCall ⊤ FindsFrame limits.now bytes.now result }
{
    match front(bytes, limits) {
        Ok((framed, _)) => Found {
            answer: Answer::Good,
            count: 0,
            report: CallReport::none(),
        }
        .framed(&framed, limits),
        Err(cause) => Found::without(cause),
    }
}
