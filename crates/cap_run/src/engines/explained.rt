//! The engines that write a JSON object about each message, which explains a refusal.

ghost use Rattle.cap_explain.specs.Cycles.{IsFaultCycle};
ghost use Rattle.cap_explain.specs.Explaining.{overlap_explanation};
ghost use Rattle.cap_explain.specs.Meanings.{HasTrueReason};
ghost use Rattle.cap_frame.specs.Limit.{limit_of};
ghost use Rattle.cap_run.specs.Breaking.{ExplainsStream};
ghost use Rattle.cap_run.specs.Demanding.{AllocatesIn};
ghost use Rattle.cap_run.specs.Explained.{filter_demands};
ghost use Rattle.cap_run.specs.ExplainedJson.{FaultReason, IsMember, OrFaultExplained, ReportsAcceptedObject, ReportsFaultExplained, ReportsExclusivenessExplained, ReportsOverlapExplained};
ghost use Rattle.cap_run.specs.Reporting.{AllocatesNone};
ghost use Rattle.cap_run.specs.Vetting.{AllocatesMarks};
ghost use Rattle.cap_spec.specs.Accepting.{IsWithin};
ghost use Rattle.cap_spec.specs.Occupying.{IsFirstOverlap};
ghost use Rattle.cap_spec.specs.Texts.{refused, strict_verdict};
ghost use Rattle.cap_text.specs.JsonLines.{accepted_json, explained_json, filter_member};
ghost use Rattle.cap_text.specs.Writing.{Writes};
ghost use Rattle.cap_trace.specs.NamedPaths.{fault_path};
ghost use Rattle.cap_trace.specs.declared.returning.Cycle.{Cycle};
ghost use Rattle.cap_walk.specs.Demands.{IsDemandFault};
ghost use Rattle.cap_walk.specs.Limits.{depth_of, words_of};
ghost use Rattle.cap_walk.specs.declared.demands.Demands.{Demands};
ghost use Rattle.std.specs.Prelude.{◌≡◌, List, None, Option, Some, codes, ℕ};

use crate::engines::canonical_object::print_canonical_object;
use crate::engines::explain::filter_refusal;
use crate::engines::sentence::{last_reason, reason_lines};
use crate::engines::stream::Counted;
use crate::engines::vetting::{
    AcceptedPrinter, ExclusiveVetting, RefusalPrinter, Vetting, after_text,
};
use crate::engines::whole::explain_messages;
use crate::settings::{ExplainSettings, Outcome};
use crate::waiting::Flushing;
use cap_explain::{Explanation, explain_overlap, fault_cycle};
use cap_frame::Segments;
use cap_spec::StrictRefusal;
use cap_text::{
    Cause, ExplainedFault, Page, write_accepted_json, write_explained_json,
    write_explained_overlap_json, write_filtered_json,
};
use cap_trace::NamedPath;
use cap_vet::{Demands, Limits, Report, Vetted};
use cap_words::{ByteOut, OutFault, WordSource};
use std::alloc::Global;

/// The lines that explain that a pointer uses a word twice, without a path. The last gives its
/// sentence.
fn overlap_lines<M: Segments>(message: &M, segment: u32, word: u32) -> Explanation
    ensures { result ≡ overlap_explanation None (M.segments message.now) None segment word }
{
    let mut lines = Explanation::new();
    explain_overlap(&mut lines, message, None, segment, word, None);
    lines
}

/// Writes the object of a message that doesn't meet demands within limits.
fn write_fault_object<M: Segments, O: ByteOut>(
    page: &mut Page,
    out: &mut O,
    number: u32,
    message: &M,
    refusal: &StrictRefusal,
    limits: Limits,
) -> Result<(), OutFault>
    requires { (demands : Demands) × (words : ℕ)
        × IsDemandFault demands (M.segments message.now) words (depth_of limits) refusal.now }
    ensures { let m = M.segments message.now in let depth = depth_of limits in
        (demands : Demands) (words : ℕ) → (h : IsDemandFault demands m words depth refusal.now) →
        (reason : FaultReason demands m words depth refusal.now) → (cycle : Option Cycle)
        × IsFaultCycle demands m words depth refusal.now h cycle
        × Writes O.ByteOut out.old out.new result (explained_json number (strict_verdict refusal.now)
        (fault_path demands m words depth refusal.now h) reason.sentence cycle) }
{
    let mut path = NamedPath::new();
    path.find_refused(message, limits, refusal);
    let lines = reason_lines(message, refusal);
    let sentence = last_reason(lines.text());
    let cycle = fault_cycle(message, refusal, limits);
    write_explained_json(page, out, number, refusal, path.steps(), sentence, cycle)
}

/// Writes the object of a message that is accepted, and that `filter`, the guard and the libraries
/// refuse.
fn write_filtered_object<M: Segments, O: ByteOut>(
    page: &mut Page,
    out: &mut O,
    number: u32,
    message: &M,
    report: &Report,
    refusal: &StrictRefusal,
    limits: Limits,
) -> Result<(), OutFault>
    requires { (words : ℕ)
        × IsDemandFault filter_demands (M.segments message.now) words (depth_of limits) refusal.now }
    ensures { let r = report.now in let m = M.segments message.now in let depth = depth_of limits in
        (words : ℕ) → (h : IsDemandFault filter_demands m words depth refusal.now) →
        (reason : FaultReason filter_demands m words depth refusal.now) →
        Writes O.ByteOut out.old out.new result (accepted_json number r.charge r.depth r.pointers r.caps
        (filter_member (strict_verdict refusal.now)
        (fault_path filter_demands m words depth refusal.now h) reason.sentence)) }
{
    let mut path = NamedPath::new();
    path.find_refused(message, limits, refusal);
    let lines = reason_lines(message, refusal);
    let sentence = last_reason(lines.text());
    write_filtered_json(page, out, number, report, refusal, path.steps(), sentence)
}

/// Writes the object of a message that is accepted. Its last member says why `filter`, the guard and
/// the libraries refuse the message within these limits, if they do.
fn write_accepted_object<M: Segments, O: ByteOut>(
    page: &mut Page,
    out: &mut O,
    number: u32,
    message: &M,
    report: &Report,
    limits: Limits,
) -> Result<(), OutFault>
    ensures { let r = report.now in (member : List ℕ)
        × IsMember (words_of limits) (depth_of limits) (M.segments message.now) member
        × Writes O.ByteOut out.old out.new result
        (accepted_json number r.charge r.depth r.pointers r.caps member) }
{
    match filter_refusal(message, limits) {
        Some(refusal) => {
            write_filtered_object(page, out, number, message, report, &refusal, limits)
        }
        None => write_accepted_json(page, out, number, report),
    }
}

/// Writes the object of a message that is accepted.
#[derive(Clone, Copy)]
struct ObjectPrinter {
    /// Whether the object says whether the message is canonical, and why not.
    canonical: bool,
}

impl AcceptedPrinter for ObjectPrinter {
    ghost reports = { λ p _. ReportsAcceptedObject p.canonical };

    ghost allocates = { λ _ _ _. AllocatesNone };

    fn print_accepted<M: Segments, O: ByteOut>(
        &self,
        page: &mut Page,
        out: &mut O,
        _before: u64,
        number: u32,
        vetted: &Vetted<'_, M>,
        limits: Limits,
    ) -> Result<Counted, Cause> {
        if self.canonical {
            return print_canonical_object(page, out, number, vetted, limits);
        }
        let report = vetted.report();
        let written = write_accepted_object(page, out, number, vetted.message(), &report, limits);
        after_text(written, Counted::Accepted)
    }
}

/// Writes the object of a message within limits that uses a word twice, with the first pointer that
/// overlaps.
fn write_overlap_object<M: Segments, O: ByteOut>(
    page: &mut Page,
    out: &mut O,
    number: u32,
    message: &M,
    limits: Limits,
    segment: u32,
    word: u32,
    pointers: u64,
) -> Result<(), OutFault>
    requires { IsFirstOverlap (M.segments message.now) segment word pointers }
    ensures { let m = M.segments message.now in let depth = depth_of limits in
        (words : ℕ) → IsWithin m words depth → (f : IsFirstOverlap m segment word pointers) →
        (reason : HasTrueReason m words depth segment word
        (overlap_explanation None m None segment word)) → Writes O.ByteOut out.old out.new result
        (explained_json number (refused (codes "Overlap") segment word pointers) (Some f.path)
        reason.sentence None) }
{
    let mut path = NamedPath::new();
    path.find(message, limits, pointers);
    let lines = overlap_lines(message, segment, word);
    let sentence = last_reason(lines.text());
    write_explained_overlap_json(
        page,
        out,
        number,
        segment,
        word,
        pointers,
        path.steps(),
        sentence,
    )
}

/// Writes the object of a message that is refused, which explains why.
#[derive(Clone, Copy)]
struct ExplainedRefusals;

impl RefusalPrinter for ExplainedRefusals {
    ghost refuses = { λ _. ReportsFaultExplained };

    ghost overlaps = { λ _. ReportsOverlapExplained };

    fn write_refused<M: Segments, O: ByteOut>(
        &self,
        page: &mut Page,
        out: &mut O,
        number: u32,
        message: &M,
        refusal: &StrictRefusal,
        limits: Limits,
    ) -> Result<(), OutFault> {
        write_fault_object(page, out, number, message, refusal, limits)
    }

    fn write_overlap<M: Segments, O: ByteOut>(
        &self,
        page: &mut Page,
        out: &mut O,
        number: u32,
        message: &M,
        segment: u32,
        word: u32,
        pointers: u64,
        limits: Limits,
    ) -> Result<(), OutFault> {
        write_overlap_object(page, out, number, message, limits, segment, word, pointers)
    }
}

/// Does what [`run_explain`](crate::run_explain) does, and writes a JSON object for each message in the
/// place of its lines. That of a refused message has the path to the pointer and the reason as a
/// sentence. It has the last cycle of the path, if a limit is passed and there is one. That of an
/// accepted message says why `filter`, the guard and the libraries refuse it,
/// if they do (docs/output.md, JSON).
///
/// # Errors
///
/// Those of [`run_explain`](crate::run_explain).
pub fn run_explain_json<S: WordSource, O: ByteOut, F: Flushing<S>>(
    alloc: Global,
    source: &mut S,
    out: &mut O,
    settings: &ExplainSettings,
    demands: Demands,
    flushing: &F,
) -> Result<Outcome, ExplainedFault>
    ensures { let s = settings.now in ExplainsStream S.WordSource O.ByteOut
        (OrFaultExplained demands (ReportsAcceptedObject s.canonical) s.limits) AllocatesNone
        s.packed (limit_of s.size) s.messages source.old source.new out.old out.new result }
{
    let vetting = Vetting {
        limits: settings.limits,
        demands,
        accepted: ObjectPrinter {
            canonical: settings.canonical,
        },
        refused: ExplainedRefusals,
    };
    explain_messages(alloc, source, out, settings, vetting, flushing)
}

/// Does what [`run_explain_exclusive`](crate::run_explain_exclusive) does, and writes a JSON object for
/// each message as [`run_explain_json`] does.
///
/// # Errors
///
/// Those of [`run_explain_exclusive`](crate::run_explain_exclusive).
pub fn run_explain_exclusive_json<S: WordSource, O: ByteOut, F: Flushing<S>>(
    alloc: Global,
    source: &mut S,
    out: &mut O,
    settings: &ExplainSettings,
    demands: Demands,
    flushing: &F,
) -> Result<Outcome, ExplainedFault>
    ensures { let s = settings.now in ExplainsStream S.WordSource O.ByteOut
        (OrFaultExplained demands (ReportsExclusivenessExplained s.canonical) s.limits)
        (AllocatesIn demands AllocatesMarks s.limits)
        s.packed (limit_of s.size) s.messages source.old source.new out.old out.new result }
{
    let vetting = ExclusiveVetting {
        alloc,
        limits: settings.limits,
        demands,
        accepted: ObjectPrinter {
            canonical: settings.canonical,
        },
        refused: ExplainedRefusals,
    };
    explain_messages(alloc, source, out, settings, vetting, flushing)
}
