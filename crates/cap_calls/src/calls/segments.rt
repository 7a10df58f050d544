//! The call that reports where the segments of a frame are.

ghost use Rattle.cap_calls.specs.ExtentCalls.{AreSegmentWords, FindsExtents, HasExtents, ReportsExtents, extents_found};
ghost use Rattle.cap_calls.specs.declared.answer.Answer.{Answer};
ghost use Rattle.cap_calls.specs.declared.answer.Answer.TheVariants.{Good};
ghost use Rattle.cap_calls.specs.declared.extent.CallExtent.{CallExtent};
ghost use Rattle.cap_calls.specs.declared.report.CallReport.{CallReport};
ghost use Rattle.std.specs.Prelude.{◌≡◌, ◌≤◌, List, length, ℕ};

use crate::answer::Answer;
use crate::extent::CallExtent;
use crate::found::Found;
use crate::limits::CallLimits;
use crate::over::{Call, over};
use crate::report::CallReport;
use cap_frame::{ByteView, Segments};
use cap_vet::{Demands, Limits};

/// Reports where the segments of the frame that bytes start with are, in order. Each has an extent in
/// `extents`: where its words start, in bytes from the first byte on, and how many bytes they are. Reads
/// only the table, once (encoding: Serialization Over a Stream). Allocates nothing.
///
/// Bytes may follow the frame, whatever the form is. Only `message_words` has an effect, though all
/// limits are checked. The first of these that applies is returned:
/// - why there is no frame; `required` is 0;
/// - [`Answer::BufferTooSmall`], if `extents` has fewer than `required` elements;
/// - [`Answer::Good`]; the first `required` elements are those of the segments, and the others are
///   unchanged.
///
/// With the last two, `required` is how many segments there are, and the report has the extent of the
/// frame. Without [`Answer::Good`], `extents` is unchanged. The report is written whole.
pub fn segments(
    bytes: &[u8],
    limits: &CallLimits,
    extents: &mut [CallExtent],
    required: &mut usize,
    report: &mut CallReport,
) -> Answer
    ensures reports { ReportsExtents limits.now bytes.now extents.old result required.new extents.new
        report.new }
    // The bytes and the capacity allow no other result.
    ensures only { (a : Answer) (n : ℕ) (new : List CallExtent) (r : CallReport) →
        ReportsExtents limits.now bytes.now extents.old a n new r →
        (result ≡ a) × (required.new ≡ n) × (extents.new ≡ new) × (report.new ≡ r) }
    // The words of each segment are the bytes there.
    ensures words { result ≡ Good →
        AreSegmentWords limits.now.message_words bytes.now extents.new }
    // This capacity is always enough.
    ensures few { required.new ≤ 512 }
{
    let found = over(&Placing, false, bytes, limits, extents);
    *required = found.count;
    *report = found.report;
    found.answer
}

// The call on a message.
struct Placing;

impl Call for Placing {
    type Item = CallExtent;

    ghost finds = { λ _ _ m _ _ old f new. FindsExtents old new m f };

    #[inline(never)]
    fn on<'b>(
        &self,
        view: &ByteView<'b>,
        _words: u64,
        _limits: Limits,
        _demands: Demands,
        out: &mut [CallExtent],
    ) -> Found {
        let count = view.count() as usize;
        if count > out.len() {
            return found_of_extents(Answer::BufferTooSmall, count);
        }
        write_extents(view, out);
        found_of_extents(Answer::Good, count)
    }
}

// Writes where the segments of a message are in its frame.
fn write_extents<'b>(view: &ByteView<'b>, extents: &mut [CallExtent])
    requires { length (⟦<ByteView<'b> as Segments>⟧.segments view.now) ≤ length extents.old }
    ensures { let m = ⟦<ByteView<'b> as Segments>⟧.segments view.now in
        HasExtents m (length m) extents.old extents.new }
{
    let count = view.count();
    let mut offset = 8 * (u64::from(count) / 2 + 1);
    'segments: for s in 0..count {
        let length = 8 * u64::from(view.len(s));
        extents[s as usize] = CallExtent { offset, length };
        offset += length;
    }
}

// What is found of a message of this many segments.
fn found_of_extents(answer: Answer, count: usize) -> Found
    ensures { result ≡ extents_found answer count }
{
    Found {
        answer,
        count,
        report: CallReport::none(),
    }
}
