//! What a call finds.

use crate::answer::Answer;
use crate::front::NoFrame;
use crate::limits::CallLimits;
use crate::report::CallReport;
use cap_frame::Framed;
use cap_spec::StrictRefusal;
use cap_vet::Report;

/// What a call finds: its answer, how many bytes or numbers its output takes, and what it
/// reports.
#[derive(Clone, Copy)]
pub(crate) struct Found {
    pub(crate) answer: Answer,
    pub(crate) count: usize,
    pub(crate) report: CallReport,
}

impl Found {
    ghost use Rattle.cap_calls.specs.CallFindings.{accepted_found, extent_found, framed_found, none_found, refused_found, trailing_found};
    ghost use Rattle.cap_frame.specs.Framed.{frame_bytes, framed_segments};
    ghost use Rattle.std.specs.Prelude.{◌≡◌};

    // Of bytes without a frame.
    pub(crate) fn without(cause: NoFrame) -> Found
        ensures { result ≡ none_found cause }
    {
        Found {
            answer: Answer::of_cause(cause),
            count: 0,
            report: CallReport::of_no_frame(cause),
        }
    }

    // Of a message that this many bytes follow.
    pub(crate) fn trailing(bytes: u64) -> Found
        ensures { result ≡ trailing_found bytes }
    {
        Found {
            answer: Answer::Trailing,
            count: 0,
            report: CallReport::of_trailing(bytes),
        }
    }

    // Of a message that is refused.
    pub(crate) fn refused(refusal: StrictRefusal) -> Found
        ensures { result ≡ refused_found refusal }
    {
        Found {
            answer: Answer::of_refusal(refusal),
            count: 0,
            report: CallReport::of_refused(refusal),
        }
    }

    // Of a message that is accepted, with this answer and number.
    pub(crate) fn accepted(answer: Answer, count: usize, report: Report) -> Found
        ensures { result ≡ accepted_found answer count report }
    {
        Found {
            answer,
            count,
            report: CallReport::of_accepted(report),
        }
    }

    // The same with the extent of the frame.
    #[inline]
    pub(crate) fn framed(self, framed: &Framed<'_>, limits: &CallLimits) -> Found
        ensures { result ≡ framed_found limits.now (frame_bytes framed.now)
            (framed_segments framed.now) self }
    {
        let words = framed.words();
        let limit = limits.charge_limit(words);
        self.extent(framed.length(), framed.count(), words, limit)
    }

    // The same with the length of the input in bytes, its segments and their words. A charge was above
    // this limit.
    #[inline(always)]
    pub(crate) fn extent(self, bytes: usize, segments: u32, words: u64, limit: u64) -> Found
        ensures { result ≡ extent_found bytes segments words limit self }
    {
        let detail = match self.answer {
            Answer::WordLimit => limit,
            _ => self.report.detail,
        };
        Found {
            report: CallReport {
                length: bytes as u64,
                detail,
                segments,
                words,
                ..self.report
            },
            ..self
        }
    }
}
