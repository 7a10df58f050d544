//! The call that packs one message.

ghost use Rattle.cap_calls.specs.CallBounds.{pack_bound};
ghost use Rattle.cap_calls.specs.PackedMessages.{Packs, PacksShort, ReportsPackMessage};
ghost use Rattle.cap_calls.specs.declared.answer.Answer.{Answer};
ghost use Rattle.cap_calls.specs.declared.report.CallReport.{CallReport};
ghost use Rattle.cap_spec.specs.Frames.{sizes_of};
ghost use Rattle.cap_spec.specs.PackedFrames.{packed_frame, table_of};
ghost use Rattle.cap_spec.specs.Packing.{pack_text};
ghost use Rattle.cap_spec.specs.Plain.{plain_words};
ghost use Rattle.std.specs.List.{flat_map};
ghost use Rattle.std.specs.Prelude.{◌*◌, ◌+◌, ◌/◌, ◌≡◌, ◌≤◌, List, length, sum, ℕ};

use crate::answer::Answer;
use crate::found::Found;
use crate::limits::CallLimits;
use crate::over::{Call, over};
use crate::report::CallReport;
use cap_frame::{ByteView, Segments, TABLE_BYTES, table_into};
use cap_pack::pack_into;
use cap_vet::{Demands, Limits};

/// Packs the message that bytes are to the start of `out`: its table and each of its segments by
/// itself, with zero padding (encoding: Packing, Serialization Over a Stream). By their form the
/// bytes may start with the message. It checks no pointer. Allocates nothing.
///
/// The first of these that applies is returned:
/// - why there is no frame within the limits, or [`Answer::Trailing`]; `required` is 0;
/// - [`Answer::BufferTooSmall`], if `out` is too small; `required` is then how many bytes the
///   packed text has;
/// - [`Answer::Good`], and `required` is how many bytes were written.
///
/// Without [`Answer::Good`], `out` is unchanged; with it, the bytes after the text are. The report
/// is written whole: the length of the frame and how many segments it has, or why there is none.
pub fn pack_message(
    bytes: &[u8],
    limits: &CallLimits,
    out: &mut [u8],
    required: &mut usize,
    report: &mut CallReport,
) -> Answer
    ensures reports { ReportsPackMessage limits.now bytes.now out.old result required.new out.new
        report.new }
    // The bytes and the capacity allow no other result.
    ensures only { (a : Answer) (n : ℕ) (new : List ℕ) (r : CallReport) →
        ReportsPackMessage limits.now bytes.now out.old a n new r →
        (result ≡ a) × (required.new ≡ n) × (out.new ≡ new) × (report.new ≡ r) }
    // These capacities are always enough.
    ensures few { required.new ≤ report.new.length / 8 * 10 }
    ensures bound { required.new ≤ pack_bound (length bytes.now) }
{
    let whole = !limits.allows_trailing();
    let found = over(&Packing, whole, bytes, limits, out);
    *required = found.count;
    *report = found.report;
    found.answer
}

// The call on a message.
struct Packing;

impl Call for Packing {
    type Item = u8;

    ghost finds = { λ _ _ m words depth old f new. PacksShort old new m words depth f };

    #[inline(never)]
    fn on<'b>(
        &self,
        view: &ByteView<'b>,
        _words: u64,
        _limits: Limits,
        _demands: Demands,
        out: &mut [u8],
    ) -> Found {
        let mut table = [0; TABLE_BYTES];
        let length = table_into(view, &mut table);
        packed(&table[..length], view, out)
    }
}

// What is found of a message and the bytes of its table.
fn packed<'b>(table: &[u8], message: &ByteView<'b>, out: &mut [u8]) -> Found
    requires short { length table.now ≤ 2056 }
    requires table { let m = ⟦<ByteView<'b> as Segments>⟧.segments message.now in
        plain_words table.now ≡ table_of m }
    ensures reports { let m = ⟦<ByteView<'b> as Segments>⟧.segments message.now in
        (words depth : ℕ) → Packs out.old out.new m words depth result }
    ensures few { let m = ⟦<ByteView<'b> as Segments>⟧.segments message.now in
        4 * result.count ≤ 5 * (length table.now + 8 * sum (sizes_of m)) }
{
    let count = pack_into(table, &mut []) + segments_length(message);
    if out.len() < count {
        return Found {
            answer: Answer::BufferTooSmall,
            count,
            report: CallReport::none(),
        };
    }
    write_parts(table, message, &mut out[..count]);
    Found {
        answer: Answer::Good,
        count,
        report: CallReport::none(),
    }
}

// How many bytes the packed texts of all segments have.
fn segments_length<'b>(message: &ByteView<'b>) -> usize
    ensures text { let m = ⟦<ByteView<'b> as Segments>⟧.segments message.now in
        result ≡ length (flat_map pack_text m) }
    ensures few { let m = ⟦<ByteView<'b> as Segments>⟧.segments message.now in
        result ≤ 10 * sum (sizes_of m) }
{
    let mut total = 0;
    'segments: for s in 0..message.count() {
        let Some(bytes) = message.segment(s) else {
            // The segment exists.
            unreachable!()
        };
        total += pack_into(bytes, &mut []);
    }
    total
}

// Writes the packed texts of a table and of each segment into a buffer of just their length.
fn write_parts<'b>(table: &[u8], message: &ByteView<'b>, text: &mut [u8])
    requires short { length table.now ≤ 2056 }
    requires table { let m = ⟦<ByteView<'b> as Segments>⟧.segments message.now in
        plain_words table.now ≡ table_of m }
    requires length { let m = ⟦<ByteView<'b> as Segments>⟧.segments message.now in
        length text.old ≡ length (packed_frame m) }
    ensures { let m = ⟦<ByteView<'b> as Segments>⟧.segments message.now in
        text.new ≡ packed_frame m }
{
    let mut at = pack_into(table, text);
    'segments: for s in 0..message.count() {
        let Some(bytes) = message.segment(s) else {
            // The segment exists.
            unreachable!()
        };
        at += pack_into(bytes, &mut text[at..]);
    }
}
