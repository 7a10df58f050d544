//! The call that vets a message whose segments are separate.

ghost use Rattle.cap_calls.specs.SegmentsCalls.{FindsSegments, ReportsSegmentsCall, no_segments_found};
ghost use Rattle.cap_calls.specs.declared.answer.Answer.{Answer};
ghost use Rattle.cap_calls.specs.declared.report.CallReport.{CallReport};
ghost use Rattle.cap_calls.specs.Slices.{bytes_of};
ghost use Rattle.std.specs.Prelude.{◌≡◌};

use crate::answer::Answer;
use crate::calls::vet::judged;
use crate::found::Found;
use crate::front::{NoFrame, checked};
use crate::limits::CallLimits;
use crate::report::CallReport;
use crate::slices::{SliceMessage, SlicesFault};
use cap_frame::Segments;

/// Vets the message whose segments are these slices, as [`crate::vet`] vets its frame. Nothing is
/// copied. Allocates nothing (encoding: Messages, Security Considerations).
///
/// Before the answers about pointers, the first of these that applies is returned:
/// - [`Answer::BadLimits`];
/// - [`Answer::NoMessage`], if there is no segment;
/// - [`Answer::TooManySegments`], if there are more than 512; the report has their number;
/// - [`Answer::BadSegment`], if the length of a segment is no multiple of 8; the report has the
///   number of the first;
/// - [`Answer::TooLarge`], if they have more words than the limit; the report has how many, at most
///   2^64 - 1.
///
/// The report is written whole, and its length is the bytes of all segments.
pub fn vet_segments(segments: &[&[u8]], limits: &CallLimits, report: &mut CallReport) -> Answer
    ensures reports { ReportsSegmentsCall limits.now (bytes_of segments.now) result report.new }
    // The bytes allow no other result.
    ensures only { (a : Answer) (r : CallReport) →
        ReportsSegmentsCall limits.now (bytes_of segments.now) a r → (result ≡ a) × (report.new ≡ r) }
{
    let found = found_of(segments, limits);
    *report = found.report;
    found.answer
}

// What is found of them.
fn found_of(segments: &[&[u8]], limits: &CallLimits) -> Found
    ensures { FindsSegments limits.now (bytes_of segments.now) result }
{
    let Some((size, walk)) = checked(limits) else {
        return Found::without(NoFrame::BadLimits);
    };
    match SliceMessage::new(segments, size) {
        Ok(message) => {
            let words = message.words();
            let limit = limits.charge_limit(words);
            judged(&message, walk, limits.demands()).extent(
                8 * words as usize,
                message.count(),
                words,
                limit,
            )
        }
        Err(fault) => without_message(fault),
    }
}

// Of segments that are no message.
fn without_message(fault: SlicesFault) -> Found
    ensures { result ≡ no_segments_found fault }
{
    let (answer, detail) = match fault {
        SlicesFault::NoSegments => (Answer::NoMessage, 0),
        SlicesFault::TooManySegments { count } => (Answer::TooManySegments, count),
        SlicesFault::BadSegment { segment } => (Answer::BadSegment, u64::from(segment)),
        SlicesFault::TooLarge { words } => (Answer::TooLarge, words),
    };
    Found {
        answer,
        count: 0,
        report: CallReport {
            detail,
            ..CallReport::none()
        },
    }
}
