//! The calls that C makes, under their names in `include/capvet.h`.
#![tactic(auto)]

ghost use Rattle.cap_calls.specs.Calls.{ReportsCheck, ReportsCheckWords, ReportsFrame, ReportsVet};
ghost use Rattle.cap_calls.specs.AnswerNumbers.{answer_number};
ghost use Rattle.cap_calls.specs.CallBounds.{canonical_bound, frame_bound, marks_bound, pack_bound};
ghost use Rattle.cap_calls.specs.CallFlags.{allows_amplified, default_limits};
ghost use Rattle.cap_calls.specs.CanonicalCalls.{ReportsCopy};
ghost use Rattle.cap_calls.specs.DifferenceCalls.{ReportsDifference};
ghost use Rattle.cap_calls.specs.EarlierCalls.{ReportsEarlierCall};
ghost use Rattle.cap_calls.specs.ExclusiveCalls.{ReportsExclusive};
ghost use Rattle.cap_calls.specs.ExplainCalls.{ReportsExplanation};
ghost use Rattle.cap_calls.specs.ExtentCalls.{AreSegmentWords, ReportsExtents};
ghost use Rattle.cap_calls.specs.NodeCalls.{ReportsGet};
ghost use Rattle.cap_calls.specs.OverlapCalls.{ReportsOverlapCall};
ghost use Rattle.cap_calls.specs.RangeCalls.{ReportsRange};
ghost use Rattle.cap_calls.specs.PackCalls.{ReportsPack, ReportsUnpack};
ghost use Rattle.cap_calls.specs.PointerCalls.{ReportsPointer};
ghost use Rattle.cap_calls.specs.SegmentsCalls.{ReportsSegmentsCall};
ghost use Rattle.cap_calls.specs.PackedMessages.{ReportsPackMessage};
ghost use Rattle.cap_calls.specs.UnpackingMessages.{Leaves, ReportsUnpackMessage, Unpacked, UnpacksTo};
ghost use Rattle.cap_calls.specs.declared.answer.Answer.{Answer};
ghost use Rattle.cap_calls.specs.declared.answer.Answer.TheVariants.{Good, Overlap};
ghost use Rattle.cap_calls.specs.declared.extent.CallExtent.{CallExtent};
ghost use Rattle.cap_calls.specs.declared.node.CallNode.{CallNode};
ghost use Rattle.cap_calls.specs.declared.report.CallReport.{CallReport};
ghost use Rattle.cap_calls.specs.declared.step.CallStep.{CallStep};
ghost use Rattle.cap_calls.specs.Slices.{bytes_of};
ghost use Rattle.std.specs.Prelude.{◌*◌, ◌+◌, ◌/◌, ◌≡◌, ◌≤◌, ◌⊎◌, IsFalse, List, drop, length, max, min, ℕ};

use cap_calls::{
    CallExtent, CallLimits, CallNode, CallReport, CallStep, OverlapPointer, Unpacking, canonical,
    canonical_size, check_canonical, check_canonical_words, earlier_pointer, explain,
    explain_overlap, first_difference, frame, frame_size, get, get_range, marks_size, pack,
    pack_message, pack_size, pointer_path, reader_nesting, reader_words, segments, unpack,
    unpack_message, version, vet, vet_exclusive, vet_segments,
};

/// Returns the version of the library: 65536 times its major number, 256 times its minor number,
/// and the number of its patch.
#[unsafe(no_mangle)]
pub extern "C" fn capvet_version() -> u32
    ensures { result ≡ 131072 }
{
    version()
}

/// Does nothing. Only a library of major version 2 has it, so a reference to it fails at link time
/// in any other.
#[unsafe(no_mangle)]
pub extern "C" fn capvet_abi_2() {}

/// The most bytes of a frame whose segments have `message_words` words: `CAPVET_FRAME_BOUND`.
/// Above `CAPVET_MAX_MESSAGE_WORDS` it is the bound of that maximum.
#[unsafe(no_mangle)]
pub extern "C" fn capvet_frame_bound(message_words: u64) -> usize
    ensures { result ≡ frame_bound (min message_words 268435456) }
{
    frame_size(message_words)
}

/// The numbers that suffice for the marks of an input of `length` bytes: `CAPVET_MARKS_BOUND`.
#[unsafe(no_mangle)]
pub extern "C" fn capvet_marks_bound(length: usize) -> usize
    ensures { result ≡ marks_bound length }
{
    marks_size(length)
}

/// The most bytes of the canonical copy of an input of `length` bytes that is unamplified:
/// `CAPVET_CANONICAL_BOUND`, or the greatest `usize`, if it is less.
#[unsafe(no_mangle)]
pub extern "C" fn capvet_canonical_bound(length: usize) -> usize
    ensures { result ≡ min (canonical_bound length) 18446744073709551615 }
{
    canonical_size(length)
}

/// The most bytes that packing `length` bytes gives: `CAPVET_PACK_BOUND`, or the greatest `usize`,
/// if it is less.
#[unsafe(no_mangle)]
pub extern "C" fn capvet_pack_bound(length: usize) -> usize
    ensures { result ≡ min (pack_bound length) 18446744073709551615 }
{
    pack_size(length)
}

/// The traversal limit that a reader needs for so many readings of the message with this report, in
/// words: the larger of three times its charge and 2 more, and the words of its segments, for each.
/// The greatest `u64`, if that is less.
#[unsafe(no_mangle)]
pub extern "C" fn capvet_reader_words(report: &CallReport, readings: u32) -> u64
    ensures { result ≡ min (readings * max (3 * report.now.charge + 2) report.now.words)
        18446744073709551615 }
{
    reader_words(report, readings)
}

/// The nesting limit that it needs: twice the depth and 1 more. The greatest `u32`, if that is less.
#[unsafe(no_mangle)]
pub extern "C" fn capvet_reader_nesting(report: &CallReport) -> u32
    ensures { result ≡ min (2 * report.now.depth + 1) 4294967295 }
{
    reader_nesting(report)
}

/// Sets the limits to those of `CAPVET_LIMITS_INIT`.
#[unsafe(no_mangle)]
pub extern "C" fn capvet_limits_default(limits: &mut CallLimits)
    ensures { limits.new ≡ default_limits }
{
    *limits = CallLimits::default_limits();
}

/// Returns in `report.length` the length in bytes of the frame that `bytes` start with. Reads only
/// the table, and checks no pointer. Bytes may follow the frame, whatever the form is. Only
/// `message_words` has an effect, though all limits are checked.
///
/// If the result is `CAPVET_NO_MESSAGE` or `CAPVET_TRUNCATED`, `report.input_required` is how many
/// bytes the next call needs at least. The result is the number of what [`frame`] returns. The report
/// is written whole. Allocates nothing.
#[unsafe(no_mangle)]
pub extern "C" fn capvet_frame(bytes: &[u8], limits: &CallLimits, report: &mut CallReport) -> u32
    ensures reports { (a : Answer) × ReportsFrame limits.now bytes.now a report.new
        × (result ≡ answer_number a) }
    // The bytes allow no other result.
    ensures only { (a : Answer) (r : CallReport) → ReportsFrame limits.now bytes.now a r →
        (result ≡ answer_number a) × (report.new ≡ r) }
    // No more bytes are required than a frame within the limit has, and no frame has more.
    ensures input_required { report.new.input_required ≤ frame_bound limits.now.message_words }
    ensures whole { report.new.length ≤ frame_bound limits.now.message_words }
{
    frame(bytes, limits, report).number()
}

/// Reports where the segments of the frame that `bytes` start with are, in order: the words of each start
/// `offset` bytes after the first byte, and are `length` bytes. Reads only the table, once. Bytes may
/// follow the frame, whatever the form is. Only `message_words` has an effect, though all limits are
/// checked.
///
/// With `CAPVET_OK`, the first `required` of `extents` are those of the segments, and the others are
/// unchanged. With `CAPVET_BUFFER_TOO_SMALL`, `required` is how many segments there are, and with any
/// other result 0. Without `CAPVET_OK`, `extents` is unchanged. The result is the number of what
/// [`segments`] returns. The report is written whole. Allocates nothing.
#[unsafe(no_mangle)]
pub extern "C" fn capvet_segments(
    bytes: &[u8],
    limits: &CallLimits,
    extents: &mut [CallExtent],
    required: &mut usize,
    report: &mut CallReport,
) -> u32
    ensures reports { (a : Answer)
        × ReportsExtents limits.now bytes.now extents.old a required.new extents.new report.new
        × (result ≡ answer_number a) }
    // The bytes and the capacity allow no other result.
    ensures only { (a : Answer) (n : ℕ) (new : List CallExtent) (r : CallReport) →
        ReportsExtents limits.now bytes.now extents.old a n new r →
        (result ≡ answer_number a) × (required.new ≡ n) × (extents.new ≡ new) × (report.new ≡ r) }
    // The words of each segment are the bytes there.
    ensures words { result ≡ answer_number Good →
        AreSegmentWords limits.now.message_words bytes.now extents.new }
    // This capacity is always enough.
    ensures few { required.new ≤ 512 }
{
    segments(bytes, limits, extents, required, report).number()
}

/// Vets the message that `bytes` are. `CAPVET_OK`: its root denotes a finite tree that is inside
/// its segments and within the limits. It is also strict, unamplified and the whole of `bytes`,
/// each unless a flag or the form allows more. Every such message is accepted. The result is the
/// number of what [`vet`] returns. The report is written whole. Allocates nothing.
#[unsafe(no_mangle)]
pub extern "C" fn capvet_vet(bytes: &[u8], limits: &CallLimits, report: &mut CallReport) -> u32
    ensures reports { (a : Answer) × ReportsVet limits.now bytes.now a report.new
        × (result ≡ answer_number a) }
    // The bytes allow no other result.
    ensures only { (a : Answer) (r : CallReport) → ReportsVet limits.now bytes.now a r →
        (result ≡ answer_number a) × (report.new ≡ r) }
{
    vet(bytes, limits, report).number()
}

/// Vets the message whose segments are these buffers, as [`capvet_vet`] vets its frame.
/// `report.length` is the bytes of all segments. `CAPVET_NO_MESSAGE`: there is no segment.
/// `CAPVET_BAD_SEGMENT`: the length of one is no multiple of 8. The result is the number of what
/// [`vet_segments`] returns. The report is written whole. Nothing is copied or allocated.
#[unsafe(no_mangle)]
pub extern "C" fn capvet_vet_segments(
    segments: &[&[u8]],
    limits: &CallLimits,
    report: &mut CallReport,
) -> u32
    ensures reports { (a : Answer) × ReportsSegmentsCall limits.now (bytes_of segments.now) a report.new
        × (result ≡ answer_number a) }
    // The bytes allow no other result.
    ensures only { (a : Answer) (r : CallReport) →
        ReportsSegmentsCall limits.now (bytes_of segments.now) a r →
        (result ≡ answer_number a) × (report.new ≡ r) }
{
    vet_segments(segments, limits, report).number()
}

/// Vets the message as [`capvet_vet`] does, and also refuses one that uses a word twice. `marks` is
/// a buffer of numbers, not bytes, and may hold anything before. For an accepted message `required`
/// is how many numbers the call needs, whatever the buffer has. For any other message it is 0.
///
/// After `CAPVET_OK` and `CAPVET_OVERLAP` the contents of the first `required` numbers are
/// unspecified, and the others are unchanged. After any other result all are unchanged. The result is
/// the number of what [`vet_exclusive`] returns. The report is written whole. Allocates nothing.
#[unsafe(no_mangle)]
pub extern "C" fn capvet_vet_exclusive(
    bytes: &[u8],
    limits: &CallLimits,
    marks: &mut [u64],
    required: &mut usize,
    report: &mut CallReport,
) -> u32
    ensures reports { (a : Answer)
        × ReportsExclusive limits.now bytes.now (length marks.old) a required.new report.new
        × (result ≡ answer_number a) }
    // The bytes and the capacity allow no other result.
    ensures only { (a : Answer) (n : ℕ) (r : CallReport) →
        ReportsExclusive limits.now bytes.now (length marks.old) a n r →
        (result ≡ answer_number a) × (required.new ≡ n) × (report.new ≡ r) }
    // These capacities are always enough.
    ensures few { required.new ≤ report.new.length / 512 + 1 }
    ensures bound { required.new ≤ marks_bound (length bytes.now) }
    ensures rest { drop required.new marks.new ≡ drop required.new marks.old }
    ensures kept { (result ≡ answer_number Good)
        ⊎ ((result ≡ answer_number Overlap) ⊎ (marks.new ≡ marks.old)) }
{
    vet_exclusive(bytes, limits, marks, required, report).number()
}

/// Writes the canonical copy of the message to the start of `out`: the bytes of its words, without
/// a table. `CAPVET_HAS_CAPABILITY`: a capability is reached; it comes before
/// `CAPVET_BUFFER_TOO_SMALL`.
///
/// With `CAPVET_OK`, `required` is the length of the copy in bytes, and the bytes after it are
/// unchanged. With `CAPVET_BUFFER_TOO_SMALL` it is that length too, and with any other result 0.
/// Without `CAPVET_OK`, `out` is unchanged. The result is the number of what [`canonical`] returns.
/// The report is written whole. Allocates nothing.
#[unsafe(no_mangle)]
pub extern "C" fn capvet_canonical(
    bytes: &[u8],
    limits: &CallLimits,
    out: &mut [u8],
    required: &mut usize,
    report: &mut CallReport,
) -> u32
    ensures reports { (a : Answer)
        × ReportsCopy limits.now bytes.now out.old a required.new out.new report.new
        × (result ≡ answer_number a) }
    // The bytes and the capacity allow no other result.
    ensures only { (a : Answer) (n : ℕ) (new : List ℕ) (r : CallReport) →
        ReportsCopy limits.now bytes.now out.old a n new r →
        (result ≡ answer_number a) × (required.new ≡ n) × (out.new ≡ new) × (report.new ≡ r) }
    // These capacities are always enough.
    ensures few { required.new ≤ 8 * (report.new.charge + 1) }
    ensures short { IsFalse (allows_amplified limits.now) →
        required.new ≤ report.new.length + 8 * 4097 }
    ensures bound { IsFalse (allows_amplified limits.now) →
        required.new ≤ canonical_bound (length bytes.now) }
{
    canonical(bytes, limits, out, required, report).number()
}

/// Checks that the message is canonical: it has one segment, and is its own canonical copy.
/// `CAPVET_OK` if it is, and `CAPVET_NOT_CANONICAL` if it is accepted and is not, for example if it
/// has a capability. Otherwise the result is the reason why it is not accepted. Bytes after the
/// message give `CAPVET_TRAILING`, whatever the form is. It is the number of
/// what [`check_canonical`] returns. The report is written whole. Allocates nothing.
#[unsafe(no_mangle)]
pub extern "C" fn capvet_check_canonical(
    bytes: &[u8],
    limits: &CallLimits,
    report: &mut CallReport,
) -> u32
    ensures reports { (a : Answer) × ReportsCheck limits.now bytes.now a report.new
        × (result ≡ answer_number a) }
    // The bytes allow no other result.
    ensures only { (a : Answer) (r : CallReport) → ReportsCheck limits.now bytes.now a r →
        (result ≡ answer_number a) × (report.new ≡ r) }
{
    check_canonical(bytes, limits, report).number()
}

/// Checks words of one segment, without a table, as [`capvet_canonical`] writes them: they are
/// canonical. Whatever the form and the flags are, nothing may follow them, and they may be
/// amplified. The limits of words, charge and depth hold. It is the number of what
/// [`check_canonical_words`] returns. The report is written whole. Allocates nothing.
#[unsafe(no_mangle)]
pub extern "C" fn capvet_check_canonical_words(
    words: &[u8],
    limits: &CallLimits,
    report: &mut CallReport,
) -> u32
    ensures reports { (a : Answer) × ReportsCheckWords limits.now words.now a report.new
        × (result ≡ answer_number a) }
    // The bytes allow no other result.
    ensures only { (a : Answer) (r : CallReport) → ReportsCheckWords limits.now words.now a r →
        (result ≡ answer_number a) × (report.new ≡ r) }
{
    check_canonical_words(words, limits, report).number()
}

/// Finds the first pointer in preorder at which the message isn't as its canonical form has it, and the
/// reason. The result is that of [`capvet_check_canonical`] for the same arguments, and but for
/// `CAPVET_NOT_CANONICAL` the report is too. With that result `report.segment` and `report.word` are the
/// place of the pointer, `report.pointers` is its number, and `report.detail` is that of the reason. The
/// result is the number of what [`first_difference`] returns. The report is written whole. Allocates
/// nothing.
#[unsafe(no_mangle)]
pub extern "C" fn capvet_first_difference(
    bytes: &[u8],
    limits: &CallLimits,
    report: &mut CallReport,
) -> u32
    ensures reports { (a : Answer) × ReportsDifference limits.now bytes.now a report.new
        × (result ≡ answer_number a) }
    // The bytes allow no other result.
    ensures only { (a : Answer) (r : CallReport) → ReportsDifference limits.now bytes.now a r →
        (result ≡ answer_number a) × (report.new ≡ r) }
{
    first_difference(bytes, limits, report).number()
}

/// Follows `path` in the message, and reports the node there. Only the pointers on the path are
/// checked, so the message needn't be vetted. `CAPVET_BAD_PATH`: `path` isn't a path, from byte
/// `report.detail` on; it comes after `CAPVET_BAD_LIMITS` and before all others. `CAPVET_NO_NODE`:
/// nothing is at the path; it comes last.
///
/// With `CAPVET_OK`, `node` is the node, and its bytes are `node.length` bytes from `node.offset`
/// on. With any other result it is all 0. The result is the number of what [`get`] returns. The
/// report is written whole. Allocates nothing.
#[unsafe(no_mangle)]
pub extern "C" fn capvet_get(
    bytes: &[u8],
    limits: &CallLimits,
    path: &[u8],
    node: &mut CallNode,
    report: &mut CallReport,
) -> u32
    ensures reports { (a : Answer) × ReportsGet limits.now bytes.now path.now a node.new report.new
        × (result ≡ answer_number a) }
    // The bytes and the path allow no other result.
    ensures only { (a : Answer) (n : CallNode) (r : CallReport) →
        ReportsGet limits.now bytes.now path.now a n r →
        (result ≡ answer_number a) × (node.new ≡ n) × (report.new ≡ r) }
{
    get(bytes, limits, path, node, report).number()
}

/// Follows paths of which step `varying` varies in the message, and reports the node at each: node
/// k is at the path whose varying step has its number and k more. Each node is what [`capvet_get`]
/// reports for its path. `CAPVET_BAD_PATH`: the kind of step `report.detail` is unknown, or there
/// is no step `varying`.
///
/// `found` is how many nodes were reported, and those after them are unchanged. A result about the
/// limits, the steps or the frame comes before any path is followed. Any other result but
/// `CAPVET_OK` is about the first path without a node, and so is the report. The result is the
/// number of what [`get_range`] returns. The report is written whole. Allocates nothing.
#[unsafe(no_mangle)]
pub extern "C" fn capvet_get_range(
    bytes: &[u8],
    limits: &CallLimits,
    steps: &[CallStep],
    varying: usize,
    nodes: &mut [CallNode],
    found: &mut usize,
    report: &mut CallReport,
) -> u32
    ensures reports { (a : Answer) × ReportsRange limits.now bytes.now steps.now varying nodes.old a
        found.new nodes.new report.new × (result ≡ answer_number a) }
    // The bytes and the steps allow no other result.
    ensures only { (a : Answer) (n : ℕ) (new : List CallNode) (r : CallReport) →
        ReportsRange limits.now bytes.now steps.now varying nodes.old a n new r →
        (result ≡ answer_number a) × (found.new ≡ n) × (nodes.new ≡ new) × (report.new ≡ r) }
{
    get_range(bytes, limits, steps, varying, nodes, found, report).number()
}

/// Finds the path to the pointer word of this number in the message, in preorder: that of the root
/// has number 1. `report.pointers` of another call is the number of the pointer that it names. The
/// pointers before that one are followed, and the limit `depth` applies to them. `CAPVET_NO_NODE`:
/// there is no such pointer, one before it can't be followed or leads past that limit, or the number
/// is above the limit `charge` and 1.
///
/// With `CAPVET_OK`, the first `required` of `steps` are the path, and the others are unchanged.
/// With `CAPVET_BUFFER_TOO_SMALL`, `required` is how many steps it has, and with any other result 0.
/// Without `CAPVET_OK`, `steps` is unchanged. The result is the number of what [`pointer_path`]
/// returns. The report is written whole. Allocates nothing.
#[unsafe(no_mangle)]
pub extern "C" fn capvet_pointer_path(
    bytes: &[u8],
    limits: &CallLimits,
    number: u64,
    steps: &mut [CallStep],
    required: &mut usize,
    report: &mut CallReport,
) -> u32
    ensures reports { (a : Answer)
        × ReportsPointer limits.now bytes.now number steps.old a required.new steps.new report.new
        × (result ≡ answer_number a) }
    // The bytes, the number and the capacity allow no other result.
    ensures only { (a : Answer) (n : ℕ) (new : List CallStep) (r : CallReport) →
        ReportsPointer limits.now bytes.now number steps.old a n new r →
        (result ≡ answer_number a) × (required.new ≡ n) × (steps.new ≡ new) × (report.new ≡ r) }
    // This capacity is always enough.
    ensures few { required.new ≤ 256 }
{
    pointer_path(bytes, limits, number, steps, required, report).number()
}

/// Finds the first pointer in preorder that uses a word which pointer `number` uses too. The
/// `report.pointers` of `CAPVET_OVERLAP` is the number of the pointer that overlaps. The pointers
/// before that one are followed, and the limit `depth` applies to them.
///
/// With `CAPVET_OK`, `report` has the segment, the word and the number of the earlier pointer.
/// `CAPVET_NO_NODE`: no pointer before that one uses such a word, or [`capvet_pointer_path`] finds no
/// path to that one. The result is the number of what [`earlier_pointer`] returns. The report is
/// written whole. Allocates nothing.
#[unsafe(no_mangle)]
pub extern "C" fn capvet_earlier_pointer(
    bytes: &[u8],
    limits: &CallLimits,
    number: u64,
    report: &mut CallReport,
) -> u32
    ensures reports { (a : Answer) × ReportsEarlierCall limits.now bytes.now number a report.new
        × (result ≡ answer_number a) }
    // The bytes and the number allow no other result.
    ensures only { (a : Answer) (r : CallReport) → ReportsEarlierCall limits.now bytes.now number a r →
        (result ≡ answer_number a) × (report.new ≡ r) }
{
    earlier_pointer(bytes, limits, number, report).number()
}

/// Vets the message as [`capvet_vet`] does, with the same result and report, and writes the lines that
/// explain why it is refused, to the start of `text`. They are the lines that the program's command
/// `explain` writes after the line of the verdict. If there is no message, or bytes follow it, there is
/// one line, which has the reason as a sentence.
///
/// `required` is the length of the lines in bytes: 0 if the message is accepted, or a limit is bad. They
/// are written if `text` has as many bytes, and the bytes after them are unchanged. Else `text` is
/// unchanged. The result is the number of what [`explain`] returns. The report is written whole.
/// Allocates nothing.
#[unsafe(no_mangle)]
pub extern "C" fn capvet_explain(
    bytes: &[u8],
    limits: &CallLimits,
    text: &mut [u8],
    required: &mut usize,
    report: &mut CallReport,
) -> u32
    // It is the result and the report of [`capvet_vet`].
    ensures vets { (a : Answer) × ReportsVet limits.now bytes.now a report.new
        × (result ≡ answer_number a) }
    ensures reports { (a : Answer)
        × ReportsExplanation limits.now bytes.now text.old a required.new text.new report.new
        × (result ≡ answer_number a) }
    // The bytes and the capacity allow no other result.
    ensures only { (a : Answer) (n : ℕ) (new : List ℕ) (r : CallReport) →
        ReportsExplanation limits.now bytes.now text.old a n new r →
        (result ≡ answer_number a) × (required.new ≡ n) × (text.new ≡ new) × (report.new ≡ r) }
    // This capacity is always enough.
    ensures few { required.new ≤ 6144 }
{
    explain(bytes, limits, text, required, report).number()
}

/// Writes the lines that explain an overlap to the start of `text`, by what [`capvet_vet_exclusive`]
/// reports of it: the segment and the word of the pointer, and `pointers` as its number. They are the
/// lines that the program's command `explain --exclusive` writes after the line of the verdict.
///
/// With `CAPVET_OK`, the lines are the first `required` bytes, and the others are unchanged. With
/// `CAPVET_BUFFER_TOO_SMALL`, `required` is how many bytes they have, and with any other result 0.
/// `CAPVET_NO_NODE`: [`capvet_pointer_path`] finds no path to that pointer. Without `CAPVET_OK`, `text` is
/// unchanged. The result is the number of what [`explain_overlap`] returns. The report is written whole.
/// Allocates nothing.
#[unsafe(no_mangle)]
pub extern "C" fn capvet_explain_overlap(
    bytes: &[u8],
    limits: &CallLimits,
    segment: u32,
    word: u32,
    number: u64,
    text: &mut [u8],
    required: &mut usize,
    report: &mut CallReport,
) -> u32
    ensures reports { (a : Answer) × ReportsOverlapCall limits.now bytes.now
        (record { segment = segment; word = word; number = number }) text.old a required.new
        text.new report.new × (result ≡ answer_number a) }
    // The bytes, the pointer and the capacity allow no other result.
    ensures only { (a : Answer) (n : ℕ) (new : List ℕ) (r : CallReport) →
        ReportsOverlapCall limits.now bytes.now
        (record { segment = segment; word = word; number = number }) text.old a n new r →
        (result ≡ answer_number a) × (required.new ≡ n) × (text.new ≡ new) × (report.new ≡ r) }
    // This capacity is always enough.
    ensures few { required.new ≤ 12288 }
{
    let pointer = OverlapPointer {
        segment,
        word,
        number,
    };
    explain_overlap(bytes, limits, pointer, text, required, report).number()
}

/// Packs the words of `bytes`, all of them, to the start of `out`; they need be no message.
/// `CAPVET_TRUNCATED`: they are no whole words; it comes before `CAPVET_BUFFER_TOO_SMALL`.
///
/// With `CAPVET_OK`, `required` is the length in bytes, and the bytes after it are unchanged. With
/// `CAPVET_BUFFER_TOO_SMALL` it is that length too, and with any other result 0. Without
/// `CAPVET_OK`, `out` is unchanged. The result is the number of what [`pack`] returns. Allocates
/// nothing.
#[unsafe(no_mangle)]
pub extern "C" fn capvet_pack_words(bytes: &[u8], out: &mut [u8], required: &mut usize) -> u32
    ensures reports { (a : Answer) × ReportsPack bytes.now out.old a required.new out.new
        × (result ≡ answer_number a) }
    // The bytes and the capacity allow no other result.
    ensures only { (a : Answer) (n : ℕ) (new : List ℕ) → ReportsPack bytes.now out.old a n new →
        (result ≡ answer_number a) × (required.new ≡ n) × (out.new ≡ new) }
    // This capacity is always enough.
    ensures bound { required.new ≤ pack_bound (length bytes.now) }
{
    pack(bytes, out, required).number()
}

/// Unpacks `bytes`, all of them, into words at the start of `out`; they need be no message.
/// `CAPVET_TOO_LARGE`: there are more than 2^53 bytes; it comes before all others.
/// `CAPVET_TRUNCATED`: they end inside a group; it comes before `CAPVET_BUFFER_TOO_SMALL`.
///
/// With `CAPVET_OK`, `required` is the length in bytes, and the bytes after it are unchanged. With
/// `CAPVET_BUFFER_TOO_SMALL` it is that length too, and with any other result 0. Without
/// `CAPVET_OK`, `out` is unchanged. The result is the number of what [`unpack`] returns. Allocates
/// nothing.
#[unsafe(no_mangle)]
pub extern "C" fn capvet_unpack_words(bytes: &[u8], out: &mut [u8], required: &mut usize) -> u32
    ensures reports { (a : Answer) × ReportsUnpack bytes.now out.old a required.new out.new
        × (result ≡ answer_number a) }
    // The bytes and the capacity allow no other result.
    ensures only { (a : Answer) (n : ℕ) (new : List ℕ) → ReportsUnpack bytes.now out.old a n new →
        (result ≡ answer_number a) × (required.new ≡ n) × (out.new ≡ new) }
{
    unpack(bytes, out, required).number()
}

/// Packs the message that `bytes` are to the start of `out`. Its table, with zero padding, and each
/// of its segments are packed by themselves. So no run of words goes on from one into the next.
/// Only `message_words` and the form have an effect, though all limits are checked.
/// It checks no pointer.
///
/// With `CAPVET_OK`, `required` is the length in bytes, and the bytes after it are unchanged. With
/// `CAPVET_BUFFER_TOO_SMALL` it is that length too, and with any other result 0. Without
/// `CAPVET_OK`, `out` is unchanged. The result is the number of what [`pack_message`] returns. The
/// report is written whole. Allocates nothing.
#[unsafe(no_mangle)]
pub extern "C" fn capvet_pack_message(
    bytes: &[u8],
    limits: &CallLimits,
    out: &mut [u8],
    required: &mut usize,
    report: &mut CallReport,
) -> u32
    ensures reports { (a : Answer)
        × ReportsPackMessage limits.now bytes.now out.old a required.new out.new report.new
        × (result ≡ answer_number a) }
    // The bytes and the capacity allow no other result.
    ensures only { (a : Answer) (n : ℕ) (new : List ℕ) (r : CallReport) →
        ReportsPackMessage limits.now bytes.now out.old a n new r →
        (result ≡ answer_number a) × (required.new ≡ n) × (out.new ≡ new) × (report.new ≡ r) }
    // These capacities are always enough.
    ensures few { required.new ≤ report.new.length / 8 * 10 }
    ensures bound { required.new ≤ pack_bound (length bytes.now) }
{
    pack_message(bytes, limits, out, required, report).number()
}

/// Unpacks one message of a packed stream, a piece at a time. `bytes` are the packed bytes that
/// were received and not consumed. Words are appended to `out`, after those that earlier calls
/// wrote, up to the end of the frame and never further. Only `message_words` has an effect, though
/// all limits are checked. It checks no pointer.
///
/// `consumed` is how many of `bytes` are done with. With `CAPVET_OK`, `out` starts with the frame,
/// of `required` bytes. With `CAPVET_BUFFER_TOO_SMALL`, `out` needs `required` bytes. With
/// `CAPVET_TRUNCATED` and `CAPVET_NO_MESSAGE`, the next call needs `report.input_required` bytes at
/// least. With `CAPVET_BAD_LIMITS`, `state` and `out` are unchanged. The result is the number of
/// what [`unpack_message`] returns. The report is written whole. Allocates nothing.
#[unsafe(no_mangle)]
pub extern "C" fn capvet_unpack_message(
    bytes: &[u8],
    limits: &CallLimits,
    out: &mut [u8],
    state: &mut Unpacking,
    consumed: &mut usize,
    required: &mut usize,
    report: &mut CallReport,
) -> u32
    ensures reports { (a : Answer) × ReportsUnpackMessage limits.now bytes.now out.old state.old a
        consumed.new required.new out.new state.new report.new × (result ≡ answer_number a) }
    // The bytes, the state and the contents of the buffer allow no other result.
    ensures only { (u : Unpacked) → UnpacksTo limits.now bytes.now out.old state.old u →
        (result ≡ answer_number u.answer)
        × Leaves u consumed.new required.new out.new state.new report.new }
    // This capacity is always enough.
    ensures bound { required.new ≤ frame_bound limits.now.message_words }
{
    unpack_message(bytes, limits, out, state, consumed, required, report).number()
}
