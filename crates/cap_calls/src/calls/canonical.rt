//! The call that writes a canonical copy between buffers.

ghost use Rattle.cap_calls.specs.CallBounds.{canonical_bound};
ghost use Rattle.cap_calls.specs.CanonicalCalls.{Copies, ReportsCopy, size_found};
ghost use Rattle.cap_calls.specs.CallFlags.{allows_amplified};
ghost use Rattle.cap_calls.specs.declared.answer.Answer.{Answer};
ghost use Rattle.cap_calls.specs.declared.report.CallReport.{CallReport};
ghost use Rattle.std.specs.Prelude.{◌*◌, ◌+◌, ◌≡◌, ◌≤◌, IsFalse, List, length, ℕ};

use crate::answer::Answer;
use crate::found::Found;
use crate::input::over_input;
use crate::limits::CallLimits;
use crate::one_slice::OneSlice;
use crate::over::Call;
use crate::report::CallReport;
use cap_canon::{BufferFault, canonical_from, canonical_into};
use cap_frame::ByteView;
use cap_vet::{Demands, Limits, Report, vet_with};

/// Writes the canonical copy of the message that bytes are to the start of `out`, as the bytes of
/// its words alone, without a table (encoding: Canonicalization, 64-bit Words). The form
/// is as for [`crate::vet`]. Allocates nothing.
///
/// The first of these that applies is returned:
/// - the answers of [`crate::vet`], if the message isn't accepted; `required` is 0;
/// - [`Answer::HasCapability`], if a capability is reached, so that there is no copy; the report
///   names the first one; `required` is 0;
/// - [`Answer::BufferTooSmall`], if `out` is too small; `required` is the length of the copy in
///   bytes;
/// - [`Answer::Good`], and `required` is how many bytes were written.
///
/// Without [`Answer::Good`], `out` is unchanged; with it, the bytes after the copy are. The report
/// is written whole.
pub fn canonical(
    bytes: &[u8],
    limits: &CallLimits,
    out: &mut [u8],
    required: &mut usize,
    report: &mut CallReport,
) -> Answer
    ensures reports { ReportsCopy limits.now bytes.now out.old result required.new out.new report.new }
    // The bytes and the capacity allow no other result.
    ensures only { (a : Answer) (n : ℕ) (new : List ℕ) (r : CallReport) →
        ReportsCopy limits.now bytes.now out.old a n new r →
        (result ≡ a) × (required.new ≡ n) × (out.new ≡ new) × (report.new ≡ r) }
    // These capacities are always enough.
    ensures few { required.new ≤ 8 * (report.new.charge + 1) }
    ensures short { IsFalse (allows_amplified limits.now) →
        required.new ≤ report.new.length + 8 * 4097 }
    ensures bound { IsFalse (allows_amplified limits.now) →
        required.new ≤ canonical_bound (length bytes.now) }
{
    let whole = !limits.allows_trailing();
    let (answer, count) = over_input(&Copying, whole, bytes, limits, out, report);
    *required = count;
    answer
}

// The call on a message.
struct Copying;

impl Call for Copying {
    type Item = u8;

    ghost finds = { λ _ demands m words depth old f new. Copies old new demands m words depth f };

    // Inlined: a small message doesn't pay for copies of its report.
    #[inline(always)]
    fn on<'b>(
        &self,
        view: &ByteView<'b>,
        _words: u64,
        limits: Limits,
        demands: Demands,
        out: &mut [u8],
    ) -> Found {
        match vet_with(view, limits, demands) {
            Ok(vetted) => found_of_size(canonical_into(&vetted, out), vetted.report()),
            Err(refusal) => Found::refused(refusal),
        }
    }

    // The copy is made from the slice: it then looks up neither the start nor the size of a segment.
    // The view is vetted, by the walk that other calls have too.
    #[inline(always)]
    fn on_one<'b>(
        &self,
        view: &ByteView<'b>,
        _words: u64,
        limits: Limits,
        demands: Demands,
        out: &mut [u8],
    ) -> Found {
        match vet_with(view, limits, demands) {
            Ok(vetted) => {
                let slice = OneSlice::of(view);
                found_of_size(canonical_from(&vetted, &slice, out), vetted.report())
            }
            Err(fault) => Found::refused(fault),
        }
    }
}

// What is found of an accepted message, by the result of its copy.
fn found_of_size(written: Result<usize, BufferFault>, report: Report) -> Found
    ensures { result ≡ size_found written report }
{
    match written {
        Ok(count) => Found::accepted(Answer::Good, count, report),
        Err(BufferFault::BufferTooSmall { needed }) => {
            Found::accepted(Answer::BufferTooSmall, needed, report)
        }
        Err(BufferFault::HasCapability { .. }) => Found::accepted(Answer::HasCapability, 0, report),
    }
}
