//! The JSON objects that explain why a message is refused, one a line (RFC 8259).

ghost use Rattle.cap_spec.specs.Texts.{refused, strict_verdict};
ghost use Rattle.cap_text.specs.JsonLines.{accepted_json, cycle_member, cycle_members, explained_json, filter_member, path_member, reason_member, reason_members, sentence_member, steps_member};
ghost use Rattle.cap_text.specs.Writing.{Writes};
ghost use Rattle.std.specs.Option.{option_map};
ghost use Rattle.std.specs.Prelude.{◌*◌, ◌+◌, ◌++◌, ◌≡◌, ◌≤◌, codes, length};

use crate::json::{MEMBER, push_member, push_numbers, push_place_members, start_object};
use crate::page::{CAPACITY, Page, write_bytes};
use crate::verdict::{NAME, Refused, refused_for};
use cap_buffer::{DIGITS, STEP, STEPS};
use cap_spec::{Step, StrictRefusal};
use cap_trace::Cycle;
use cap_vet::Report;
use cap_words::{ByteOut, OutFault};

/// The space for a path, with its member.
const PATH: usize = 11 + STEP * STEPS;

/// The most bytes of a sentence.
pub(crate) const SENTENCE: usize = 120;

/// The space for the members of a refusal.
pub(crate) const REFUSAL: usize = NAME + 3 * MEMBER + PATH + SENTENCE + 40;

/// Appends the member of a path.
fn push_steps_member(page: &mut Page, steps: &[Step])
    requires few { length steps.now ≤ STEPS }
    requires fits { length page.old + PATH + DIGITS ≤ CAPACITY }
    ensures items { page.new ≡ page.old ++ steps_member steps.now }
    ensures few { length page.new ≤ length page.old + PATH }
{
    page.push_text(b",\"path\":\"");
    page.push_path(steps);
    page.push_text(b"\"");
}

/// Appends the member of a path, if there is a path of at most 257 steps.
fn push_path_member(page: &mut Page, path: Option<&[Step]>)
    requires { length page.old + PATH + DIGITS ≤ CAPACITY }
    ensures items { page.new ≡ page.old ++ path_member (option_map (λ steps. steps.now) path.entry) }
    ensures few { length page.new ≤ length page.old + PATH }
{
    if let Some(steps) = path {
        if steps.len() <= STEPS {
            push_steps_member(page, steps);
        }
    }
}

/// Appends the member of a reason as a sentence.
fn push_sentence(page: &mut Page, sentence: &[u8])
    requires short { length sentence.now ≤ SENTENCE }
    requires fits { length page.old + SENTENCE + 14 ≤ CAPACITY }
    ensures items { page.new ≡ page.old ++ sentence_member sentence.now }
    ensures few { length page.new ≤ length page.old + SENTENCE + 14 }
{
    page.push_text(b",\"sentence\":\"");
    page.push_text(sentence);
    page.push_text(b"\"");
}

/// Appends the member of a reason's name, the first of its object.
fn push_reason(page: &mut Page, name: &[u8])
    requires short { length name.now ≤ NAME }
    requires fits { length page.old + NAME + 11 ≤ CAPACITY }
    ensures items { page.new ≡ page.old ++ reason_member name.now }
    ensures few { length page.new ≤ length page.old + NAME + 11 }
{
    page.push_text(b"\"reason\":\"");
    page.push_text(name);
    page.push_text(b"\"");
}

/// Appends the members of a refusal.
pub(crate) fn push_refusal(page: &mut Page, why: Refused, path: Option<&[Step]>, sentence: &[u8])
    requires name { length why.name.now ≤ NAME }
    requires short { length sentence.now ≤ SENTENCE }
    requires fits { length page.old + REFUSAL ≤ CAPACITY }
    ensures items { let w = why in page.new ≡ page.old
        ++ reason_members w.name.now w.segment w.word w.pointers
        (option_map (λ steps. steps.now) path.entry) sentence.now }
    ensures few { length page.new ≤ length page.old + REFUSAL }
{
    push_reason(page, why.name);
    push_place_members(page, why.segment, why.word, why.pointers);
    push_path_member(page, path);
    push_sentence(page, sentence);
}

/// Appends the members of a cycle.
fn push_cycle_members(page: &mut Page, cycle: Cycle)
    requires fits { length page.old + 4 * MEMBER ≤ CAPACITY }
    ensures items { page.new ≡ page.old ++ cycle_members cycle }
    ensures few { length page.new ≤ length page.old + 4 * MEMBER }
{
    page.push_named(b"\"segment\":", u64::from(cycle.segment));
    push_member(page, b"word", u64::from(cycle.word));
    push_member(page, b"from_level", u64::from(cycle.from_level));
    push_member(page, b"to_level", u64::from(cycle.to_level));
}

/// Appends the member of a cycle, if there is one.
fn push_cycle_member(page: &mut Page, cycle: Option<Cycle>)
    requires fits { length page.old + 5 * MEMBER ≤ CAPACITY }
    ensures items { page.new ≡ page.old ++ cycle_member cycle }
    ensures few { length page.new ≤ length page.old + 5 * MEMBER }
{
    if let Some(cycle) = cycle {
        page.push_text(b",\"cycle\":{");
        push_cycle_members(page, cycle);
        page.push_text(b"}");
    }
}

/// Begins the page with the object of a message that is refused.
fn refused_object(
    page: &mut Page,
    number: u32,
    why: Refused,
    path: Option<&[Step]>,
    sentence: &[u8],
    cycle: Option<Cycle>,
)
    requires name { length why.name.now ≤ NAME }
    requires short { length sentence.now ≤ SENTENCE }
    ensures { let w = why in page.new ≡ explained_json number
        (refused w.name.now w.segment w.word w.pointers)
        (option_map (λ steps. steps.now) path.entry) sentence.now cycle }
{
    start_object(page, number, b"refused");
    page.push_text(b",");
    push_refusal(page, why, path, sentence);
    push_cycle_member(page, cycle);
    page.push_text(b"}\n");
}

/// Begins the page with the object of a message that is accepted, and that `filter`, the guard and
/// the libraries refuse.
fn filtered_object(
    page: &mut Page,
    number: u32,
    report: &Report,
    why: Refused,
    path: Option<&[Step]>,
    sentence: &[u8],
)
    requires name { length why.name.now ≤ NAME }
    requires short { length sentence.now ≤ SENTENCE }
    ensures { let r = report.now in let w = why in
        page.new ≡ accepted_json number r.charge r.depth r.pointers r.caps
        (filter_member (refused w.name.now w.segment w.word w.pointers)
        (option_map (λ steps. steps.now) path.entry) sentence.now) }
{
    start_object(page, number, b"accepted");
    push_numbers(page, report);
    page.push_text(b",\"filter\":{");
    push_refusal(page, why, path, sentence);
    page.push_text(b"}");
    page.push_text(b"}\n");
}

/// Writes the JSON object of message `number`, which is refused: the reason, the place of the
/// pointer, the path to it, the reason as a sentence, and the last cycle of the path, if it has one
/// (docs/output.md, JSON). A path of more than 257 steps has no member: no path to a pointer of a
/// refusal has as many. What the page held before isn't written.
///
/// # Errors
///
/// The error of the output, which took a prefix of the line.
pub fn write_explained_json<O: ByteOut>(
    page: &mut Page,
    out: &mut O,
    number: u32,
    refusal: &StrictRefusal,
    path: Option<&[Step]>,
    sentence: &[u8],
    cycle: Option<Cycle>,
) -> Result<(), OutFault>
    requires { length sentence.now ≤ 120 }
    ensures { Writes O.ByteOut out.old out.new result
        (explained_json number (strict_verdict refusal.now)
        (option_map (λ steps. steps.now) path.entry) sentence.now cycle) }
{
    refused_object(page, number, refused_for(refusal), path, sentence, cycle);
    write_bytes(out, page.text())
}

/// Writes the JSON object of message `number`, which uses a word twice, as [`write_explained_json`]
/// does. The place is that of the first pointer that overlaps.
///
/// # Errors
///
/// The error of the output, which took a prefix of the line.
pub fn write_explained_overlap_json<O: ByteOut>(
    page: &mut Page,
    out: &mut O,
    number: u32,
    segment: u32,
    word: u32,
    pointers: u64,
    path: Option<&[Step]>,
    sentence: &[u8],
) -> Result<(), OutFault>
    requires { length sentence.now ≤ 120 }
    ensures { Writes O.ByteOut out.old out.new result
        (explained_json number (refused (codes "Overlap") segment word pointers)
        (option_map (λ steps. steps.now) path.entry) sentence.now None) }
{
    let overlap = Refused {
        name: b"Overlap",
        segment,
        word,
        pointers,
    };
    refused_object(page, number, overlap, path, sentence, None);
    write_bytes(out, page.text())
}

/// Writes the JSON object of message `number`, which is accepted, with the numbers of its tree, and
/// why `filter`, the guard and the libraries refuse it (docs/output.md, JSON). What the page held
/// before isn't written.
///
/// # Errors
///
/// The error of the output, which took a prefix of the line.
pub fn write_filtered_json<O: ByteOut>(
    page: &mut Page,
    out: &mut O,
    number: u32,
    report: &Report,
    refusal: &StrictRefusal,
    path: Option<&[Step]>,
    sentence: &[u8],
) -> Result<(), OutFault>
    requires { length sentence.now ≤ 120 }
    ensures { let r = report.now in Writes O.ByteOut out.old out.new result
        (accepted_json number r.charge r.depth r.pointers r.caps
        (filter_member (strict_verdict refusal.now)
        (option_map (λ steps. steps.now) path.entry) sentence.now)) }
{
    filtered_object(page, number, report, refused_for(refusal), path, sentence);
    write_bytes(out, page.text())
}
