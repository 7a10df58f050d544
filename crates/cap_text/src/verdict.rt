//! The line of a verdict.

ghost use Rattle.cap_spec.specs.Texts.{check_text, lax_name, reason_name, refused, strict_verdict, then_number, vet_text};
ghost use Rattle.cap_text.specs.FaultLines.{place_text};
ghost use Rattle.cap_text.specs.Lines.{accepted_text, filter_line};
ghost use Rattle.cap_text.specs.Writing.{Writes};
ghost use Rattle.std.specs.Prelude.{◌+◌, ◌++◌, ◌≡◌, ◌≤◌, codes, length};

use crate::page::{CAPACITY, Page, begin_message, message_line, write_bytes};
use cap_spec::{Lax, StrictRefusal};
use cap_vet::{Reason, Report};
use cap_words::{ByteOut, OutFault};

/// The space for the numbers of an accepted message: four names of 39 bytes in all, each with a
/// number.
const REPORT: usize = 119;

/// The most bytes of a reason's name.
pub(crate) const NAME: usize = 16;

/// The space for the place of a pointer.
const PLACE: usize = 45;

/// The space for the text of one fault, such as a reason and a place.
pub(crate) const FAULT: usize = 70;

/// Begins the page with the line of a message that is accepted, with the numbers of its tree.
pub(crate) fn accepted_line(page: &mut Page, number: u32, report: &Report)
    ensures { page.new ≡ accepted_text number report.now }
{
    begin_message(page, number);
    push_report(page, report);
    page.push_text(b"\n");
}

/// Appends the text for an accepted message: the numbers of its tree.
fn push_report(page: &mut Page, report: &Report)
    requires { length page.old + REPORT ≤ CAPACITY }
    ensures items { let r = report.now in page.new ≡ page.old
        ++ (codes "accepted charge" ++ then_number r.charge ++ codes " depth" ++ then_number r.depth
        ++ codes " pointers" ++ then_number r.pointers ++ codes " caps" ++ then_number r.caps) }
    ensures few { length page.new ≤ length page.old + REPORT }
{
    page.push_named(b"accepted charge ", report.charge);
    page.push_named(b" depth ", u64::from(report.depth));
    page.push_named(b" pointers ", report.pointers);
    page.push_named(b" caps ", report.caps);
}

/// Writes the line of message `number`, which is accepted, with the numbers of its tree
/// (docs/output.md, vet). What the page held before isn't written.
///
/// # Errors
///
/// The error of the output, which took a prefix of the line.
pub fn write_accepted<O: ByteOut>(
    page: &mut Page,
    out: &mut O,
    number: u32,
    report: &Report,
) -> Result<(), OutFault>
    ensures { Writes O.ByteOut out.old out.new result (accepted_text number report.now) }
{
    accepted_line(page, number, report);
    write_bytes(out, page.text())
}

/// What is written about a message that is refused.
#[derive(Clone, Copy)]
pub(crate) struct Refused {
    /// The name of the reason.
    pub(crate) name: &'static [u8],
    /// The segment of the pointer that is named.
    pub(crate) segment: u32,
    /// Its word in that segment.
    pub(crate) word: u32,
    /// How many pointers were looked at.
    pub(crate) pointers: u64,
}

/// What is written about a message that is refused for this reason.
pub(crate) fn refused_for(refusal: &StrictRefusal) -> Refused
    ensures verdict { let r = result in
        strict_verdict refusal.now ≡ refused r.name.now r.segment r.word r.pointers }
    ensures short { length result.name.now ≤ NAME }
{
    match refusal {
        StrictRefusal::Refused(refusal) => Refused {
            name: name_of(refusal.reason),
            segment: refusal.segment,
            word: refusal.word,
            pointers: refusal.pointers,
        },
        StrictRefusal::ManySegments => Refused {
            name: b"ManySegments",
            segment: 0,
            word: 0,
            pointers: 0,
        },
        StrictRefusal::Pointer {
            what,
            segment,
            word,
            pointers,
        } => Refused {
            name: lax_name_of(*what),
            segment: *segment,
            word: *word,
            pointers: *pointers,
        },
    }
}

/// Writes the line of message `number`, which is refused, with the reason and the place
/// (docs/output.md, vet). What the page held before isn't written.
///
/// # Errors
///
/// The error of the output, which took a prefix of the line.
// It is inlined, since a call needs the refusal in memory. `check` would copy the unused bytes of
// one for each accepted message too.
#[inline(always)]
pub fn write_refused<O: ByteOut>(
    page: &mut Page,
    out: &mut O,
    number: u32,
    refusal: &StrictRefusal,
) -> Result<(), OutFault>
    ensures { Writes O.ByteOut out.old out.new result
        (vet_text number (strict_verdict refusal.now)) }
{
    let refused = refused_for(refusal);
    refused_line(
        page,
        number,
        refused.name,
        refused.segment,
        refused.word,
        refused.pointers,
    );
    write_bytes(out, page.text())
}

/// Writes the line of message `number`, which uses a word twice, with the first pointer that
/// overlaps (docs/output.md, vet). What the page held before isn't written.
///
/// # Errors
///
/// The error of the output, which took a prefix of the line.
pub fn write_overlap<O: ByteOut>(
    page: &mut Page,
    out: &mut O,
    number: u32,
    segment: u32,
    word: u32,
    pointers: u64,
) -> Result<(), OutFault>
    ensures { Writes O.ByteOut out.old out.new result
        (vet_text number (refused (codes "Overlap") segment word pointers)) }
{
    refused_line(page, number, b"Overlap", segment, word, pointers);
    write_bytes(out, page.text())
}

/// Writes the line that `filter`, the guard and the libraries refuse a message, with the reason and
/// the place (docs/output.md, explain). It comes after the line of a message that is accepted. What
/// the page held before isn't written.
///
/// # Errors
///
/// The error of the output, which took a prefix of the line.
pub fn write_filtered<O: ByteOut>(
    page: &mut Page,
    out: &mut O,
    refusal: &StrictRefusal,
) -> Result<(), OutFault>
    ensures { Writes O.ByteOut out.old out.new result (filter_line (strict_verdict refusal.now)) }
{
    let why = refused_for(refusal);
    filtered_line(page, why.name, why.segment, why.word, why.pointers);
    write_bytes(out, page.text())
}

/// Begins the page with the line of a message that `filter`, the guard and the libraries refuse, with
/// the name of the reason and the place.
fn filtered_line(page: &mut Page, name: &[u8], segment: u32, word: u32, pointers: u64)
    requires short { length name.now ≤ NAME }
    ensures { page.new ≡ filter_line (refused name.now segment word pointers) }
{
    page.clear();
    page.push_text(b"  filter, the guard and the libraries refuse it: ");
    page.push_text(name);
    push_place(page, segment, word);
    page.push_named(b" pointers ", pointers);
    page.push_text(b"\n");
}

/// Begins the page with the line of a message that is refused, with the name of the reason and the
/// place.
fn refused_line(page: &mut Page, number: u32, name: &[u8], segment: u32, word: u32, pointers: u64)
    requires short { length name.now ≤ NAME }
    ensures { page.new ≡ vet_text number (refused name.now segment word pointers) }
{
    begin_message(page, number);
    push_refused(page, name, segment, word);
    page.push_named(b" pointers ", pointers);
    page.push_text(b"\n");
}

/// Appends the name of the reason for which a message is refused, and the place.
pub(crate) fn push_refused(page: &mut Page, name: &[u8], segment: u32, word: u32)
    requires short { length name.now ≤ NAME }
    requires fits { length page.old + FAULT ≤ CAPACITY }
    ensures items { page.new ≡ page.old
        ++ (codes "refused " ++ name.now ++ place_text segment word) }
    ensures few { length page.new ≤ length page.old + FAULT }
{
    page.push_text(b"refused ");
    page.push_text(name);
    push_place(page, segment, word);
}

/// Appends the place of a pointer word.
pub(crate) fn push_place(page: &mut Page, segment: u32, word: u32)
    requires { length page.old + PLACE ≤ CAPACITY }
    ensures items { page.new ≡ page.old ++ place_text segment word }
    ensures few { length page.new ≤ length page.old + PLACE }
{
    page.push_named(b" at ", u64::from(segment));
    page.push_named(b":", u64::from(word));
}

/// Begins the page with the line of an accepted message: whether it is canonical.
fn check_line(page: &mut Page, number: u32, canonical: bool)
    ensures { page.new ≡ check_text number canonical }
{
    if canonical {
        message_line(page, number, b"canonical");
    } else {
        message_line(page, number, b"not canonical");
    }
}

/// Writes the line of message `number`, which is accepted: whether it is canonical (docs/output.md,
/// check). What the page held before isn't written.
///
/// # Errors
///
/// The error of the output, which took a prefix of the line.
pub fn write_check<O: ByteOut>(
    page: &mut Page,
    out: &mut O,
    number: u32,
    canonical: bool,
) -> Result<(), OutFault>
    ensures { Writes O.ByteOut out.old out.new result (check_text number canonical) }
{
    check_line(page, number, canonical);
    write_bytes(out, page.text())
}

/// The name of a reason.
pub(crate) fn name_of(reason: Reason) -> &'static [u8]
    ensures name { result.now ≡ reason_name reason }
    ensures short { length result.now ≤ NAME }
{
    match reason {
        Reason::NoRoot => b"NoRoot",
        Reason::Reserved => b"Reserved",
        Reason::SegmentMissing => b"SegmentMissing",
        Reason::PadOutside => b"PadOutside",
        Reason::PadIsFar => b"PadIsFar",
        Reason::PadNotFar => b"PadNotFar",
        Reason::TagKind => b"TagKind",
        Reason::TagOffset => b"TagOffset",
        Reason::OutOfSegment => b"OutOfSegment",
        Reason::CompositeTag => b"CompositeTag",
        Reason::CompositeOverrun => b"CompositeOverrun",
        Reason::DepthLimit => b"DepthLimit",
        Reason::WordLimit => b"WordLimit",
    }
}

/// The name of a form that common readers reject.
fn lax_name_of(what: Lax) -> &'static [u8]
    ensures name { result.now ≡ lax_name what }
    ensures short { length result.now ≤ NAME }
{
    match what {
        Lax::NullPad => b"NullPad",
        Lax::EmptySegment => b"EmptySegment",
        Lax::CapabilityPad => b"CapabilityPad",
    }
}
