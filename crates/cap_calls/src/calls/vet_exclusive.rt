//! The call that vets a message of which no word may be used twice.

ghost use Rattle.cap_calls.specs.CallBounds.{marks_bound};
ghost use Rattle.cap_calls.specs.ExclusiveCalls.{MarksIn, ReportsExclusive, fault_found};
ghost use Rattle.cap_calls.specs.declared.answer.Answer.{Answer};
ghost use Rattle.cap_calls.specs.declared.answer.Answer.TheVariants.{Good, Overlap};
ghost use Rattle.cap_calls.specs.declared.report.CallReport.{CallReport};
ghost use Rattle.cap_spec.specs.declared.Refusal.{Refusal};
ghost use Rattle.cap_vet.specs.declared.exclusiveness.exclusive_buffer.ExclusiveFault.TheVariants.{Refused};
ghost use Rattle.std.specs.Prelude.{◌+◌, ◌/◌, ◌≡◌, ◌≤◌, ◌⊎◌, drop, length, ℕ};

use crate::answer::Answer;
use crate::found::Found;
use crate::input::over_input;
use crate::limits::CallLimits;
use crate::over::Call;
use crate::report::CallReport;
use cap_frame::ByteView;
use cap_vet::{Demands, ExclusiveFault, Limits, marks_for, vet_with};

/// Vets the message that bytes are as [`crate::vet`] does, and also refuses one that uses a word
/// twice: by two pointers that paths reach, by one pointer, or by the root (profile). It marks a
/// bit for each word in `marks`, which may hold anything before. Allocates nothing.
///
/// The first of these that applies is returned:
/// - the answers of [`crate::vet`], if the message isn't accepted; `required` is 0;
/// - [`Answer::BufferTooSmall`], if `marks` has fewer than `required` numbers; the report is that
///   of [`crate::vet`];
/// - [`Answer::Overlap`], if a word is used twice; the report names the first pointer in preorder
///   that uses one, and how many were checked;
/// - [`Answer::Good`]; the report is that of [`crate::vet`].
///
/// After the last two, the contents of the first `required` numbers are unspecified, and the others
/// are unchanged. After any other answer all are unchanged. The report is written whole.
pub fn vet_exclusive(
    bytes: &[u8],
    limits: &CallLimits,
    marks: &mut [u64],
    required: &mut usize,
    report: &mut CallReport,
) -> Answer
    ensures reports { ReportsExclusive limits.now bytes.now (length marks.old) result required.new
        report.new }
    // The bytes and the capacity allow no other result.
    ensures only { (a : Answer) (n : ℕ) (r : CallReport) →
        ReportsExclusive limits.now bytes.now (length marks.old) a n r →
        (result ≡ a) × (required.new ≡ n) × (report.new ≡ r) }
    // These capacities are always enough.
    ensures few { required.new ≤ report.new.length / 512 + 1 }
    ensures bound { required.new ≤ marks_bound (length bytes.now) }
    ensures rest { drop required.new marks.new ≡ drop required.new marks.old }
    ensures kept { (result ≡ Good) ⊎ ((result ≡ Overlap) ⊎ (marks.new ≡ marks.old)) }
{
    let whole = !limits.allows_trailing();
    let (answer, count) = over_input(&Marking, whole, bytes, limits, marks, report);
    *required = count;
    answer
}

// The call on a message.
struct Marking;

impl Call for Marking {
    type Item = u64;

    ghost finds = { λ _ demands m words depth old f new. MarksIn old new demands m words depth f };

    #[inline(never)]
    fn on<'b>(
        &self,
        view: &ByteView<'b>,
        words: u64,
        limits: Limits,
        demands: Demands,
        marks: &mut [u64],
    ) -> Found {
        let vetted = match vet_with(view, limits, demands) {
            Ok(vetted) => vetted,
            Err(refusal) => return Found::refused(refusal),
        };
        let report = vetted.report();
        let numbers = marks_for(words);
        match vetted.into_exclusive_in(marks) {
            Ok(_) => Found::accepted(Answer::Good, numbers, report),
            Err(fault) => found_of_fault(fault, numbers),
        }
    }
}

// What is found of an accepted message that isn't exclusive, if its marks take `numbers`.
fn found_of_fault(fault: ExclusiveFault, numbers: usize) -> Found
    requires { (r : Refusal) → ¬ (fault ≡ Refused r) }
    ensures { result ≡ fault_found numbers fault }
{
    match fault {
        ExclusiveFault::Refused(_) => unreachable!(),
        ExclusiveFault::BufferTooSmall { report, .. } => {
            Found::accepted(Answer::BufferTooSmall, numbers, report)
        }
        ExclusiveFault::Overlap {
            segment,
            word,
            pointers,
        } => Found {
            answer: Answer::Overlap,
            count: numbers,
            report: CallReport::of_place(segment, word, pointers),
        },
    }
}
