//! The call that vets a message.

ghost use Rattle.cap_calls.specs.CallFindings.{Judges};
ghost use Rattle.cap_calls.specs.Calls.{IsGood, ReportsVet};
ghost use Rattle.cap_calls.specs.declared.answer.Answer.{Answer};
ghost use Rattle.cap_calls.specs.declared.report.CallReport.{CallReport};
ghost use Rattle.cap_walk.specs.Limits.{depth_of, words_of};
ghost use Rattle.std.specs.Prelude.{◌≡◌, ⊤};

use crate::answer::Answer;
use crate::found::Found;
use crate::input::over_input;
use crate::limits::CallLimits;
use crate::one_slice::OneSlice;
use crate::over::Call;
use crate::report::CallReport;
use cap_frame::{ByteView, Segments};
use cap_vet::{Demands, Limits, vet_with};

/// Vets the message that bytes are, within limits. By their form the bytes may start with it, and
/// those after it are never looked at. Or they are the words of its one segment.
/// Allocates nothing (encoding: Security Considerations).
///
/// It returns [`Answer::Good`] if the message is accepted: its root denotes a finite tree within
/// the limits. It is also strict, or flag 1 is set. Its charge is at most 4096 words above the
/// words of its segments, or flag 2 is set.
///
/// Otherwise it returns the first of these that applies: why there is no frame,
/// [`Answer::Trailing`], the reason of a refusal, [`Answer::ManySegments`], the form of the first
/// pointer that isn't strict. The report is written whole.
pub fn vet(bytes: &[u8], limits: &CallLimits, report: &mut CallReport) -> Answer
    ensures reports { ReportsVet limits.now bytes.now result report.new }
    // The bytes allow no other result.
    ensures only { (a : Answer) (r : CallReport) → ReportsVet limits.now bytes.now a r →
        (result ≡ a) × (report.new ≡ r) }
{
    let whole = !limits.allows_trailing();
    over_input(&Vetting, whole, bytes, limits, &mut [], report).0
}

// The call on a message.
struct Vetting;

impl Call for Vetting {
    type Item = u8;

    ghost finds = { λ _ demands m words depth _ f _. Judges demands ⊤ IsGood m words depth f };

    #[inline(never)]
    fn on<'b>(
        &self,
        view: &ByteView<'b>,
        _words: u64,
        limits: Limits,
        demands: Demands,
        _out: &mut [u8],
    ) -> Found {
        judged(view, limits, demands)
    }

    // A walk of its own, which is inlined. Its numbers stay in registers up to the report, and a
    // small message doesn't pay for copies of them.
    #[inline(always)]
    fn on_one<'b>(
        &self,
        view: &ByteView<'b>,
        _words: u64,
        limits: Limits,
        demands: Demands,
        _out: &mut [u8],
    ) -> Found {
        judged(&OneSlice::of(view), limits, demands)
    }
}

/// What is found of a message.
#[inline(always)]
pub(crate) fn judged<M: Segments>(message: &M, limits: Limits, demands: Demands) -> Found
    ensures { let m = M.segments message.now in
        Judges demands ⊤ IsGood m (words_of limits) (depth_of limits) result }
{
    match vet_with(message, limits, demands) {
        Ok(vetted) => Found::accepted(Answer::Good, 0, vetted.report()),
        Err(refusal) => Found::refused(refusal),
    }
}
