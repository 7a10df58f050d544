//! The JSON object of an accepted message that says whether it is canonical, and why not.

ghost use Rattle.cap_difference.specs.declared.difference.Difference.{Difference};
ghost use Rattle.cap_run.specs.Differing.{IsDifference, counted_by, difference_members};
ghost use Rattle.cap_run.specs.Explained.{RefusedByFilter, filter_demands};
ghost use Rattle.cap_run.specs.ExplainedJson.{FaultReason, IsMember};
ghost use Rattle.cap_run.specs.Running.{counted_after};
ghost use Rattle.cap_spec.specs.Accepting.{IsWithin};
ghost use Rattle.cap_spec.specs.GreatestLimits.{most_depth};
ghost use Rattle.cap_spec.specs.Texts.{strict_verdict};
ghost use Rattle.cap_text.specs.DifferenceLines.{canonical_start};
ghost use Rattle.cap_text.specs.JsonLines.{accepted_json, filter_member};
ghost use Rattle.cap_text.specs.Writing.{Writes};
ghost use Rattle.cap_trace.specs.NamedPaths.{fault_path};
ghost use Rattle.cap_vet.specs.Vettings.{message_of, report_of};
ghost use Rattle.cap_walk.specs.Demands.{IsDemandFault};
ghost use Rattle.cap_walk.specs.Limits.{depth_of, words_of};
ghost use Rattle.std.specs.Prelude.{◌++◌, ◌≡◌, List, Option, Result, codes, ℕ};

use crate::engines::differing::{counted_by, find_difference};
use crate::engines::explain::filter_refusal;
use crate::engines::sentence::{last_reason, reason_lines};
use crate::engines::stream::Counted;
use crate::engines::vetting::after_text;
use cap_difference::{Difference, first_difference};
use cap_explain::difference_sentence;
use cap_frame::Segments;
use cap_spec::StrictRefusal;
use cap_text::{Cause, Page, write_canonical_json, write_filtered_end, write_object_end};
use cap_trace::NamedPath;
use cap_vet::{Limits, Report, Vetted};
use cap_words::{ByteOut, OutFault};

/// Writes the object of an accepted message up to the members on whether it is canonical.
fn write_start<M: Segments, O: ByteOut>(
    page: &mut Page,
    out: &mut O,
    number: u32,
    message: &M,
    report: &Report,
    difference: &Option<Difference>,
) -> Result<(), OutFault>
    ensures { let m = M.segments message.now in let r = report.now in
        (words : ℕ) → IsWithin m words most_depth → (h : IsDifference m difference.now) →
        Writes O.ByteOut out.old out.new result (canonical_start number r.charge r.depth r.pointers
        r.caps (difference_members m difference.now h)) }
{
    let mut path = NamedPath::new();
    match difference {
        Some(found) => {
            find_difference(&mut path, message, found);
            let sentence = difference_sentence(found.reason);
            write_canonical_json(
                page,
                out,
                number,
                report,
                difference,
                path.steps(),
                sentence,
            )
        }
        None => write_canonical_json(page, out, number, report, difference, None, b""),
    }
}

/// Writes the end of the object of an accepted message that `filter`, the guard and the libraries
/// refuse, with the member that says why.
fn write_refused_end<M: Segments, O: ByteOut>(
    page: &mut Page,
    out: &mut O,
    message: &M,
    refusal: &StrictRefusal,
    limits: Limits,
) -> Result<(), OutFault>
    requires { (words : ℕ)
        × IsDemandFault filter_demands (M.segments message.now) words (depth_of limits) refusal.now }
    ensures { let m = M.segments message.now in let depth = depth_of limits in
        (words : ℕ) → (h : IsDemandFault filter_demands m words depth refusal.now) →
        (reason : FaultReason filter_demands m words depth refusal.now) →
        Writes O.ByteOut out.old out.new result (filter_member (strict_verdict refusal.now)
        (fault_path filter_demands m words depth refusal.now h) reason.sentence ++ codes "}\n") }
{
    let mut path = NamedPath::new();
    path.find_refused(message, limits, refusal);
    let lines = reason_lines(message, refusal);
    let sentence = last_reason(lines.text());
    write_filtered_end(page, out, refusal, path.steps(), sentence)
}

/// Writes the end of the object of an accepted message, with the member that says why `filter`, the
/// guard and the libraries refuse the message within these limits, if they do.
fn write_end<M: Segments, O: ByteOut>(
    page: &mut Page,
    out: &mut O,
    message: &M,
    refusal: &Option<StrictRefusal>,
    limits: Limits,
) -> Result<(), OutFault>
    requires { RefusedByFilter (M.segments message.now) (words_of limits) (depth_of limits)
        refusal.now }
    ensures { (member : List ℕ)
        × IsMember (words_of limits) (depth_of limits) (M.segments message.now) member
        × Writes O.ByteOut out.old out.new result (member ++ codes "}\n") }
{
    match refusal {
        Some(refusal) => write_refused_end(page, out, message, refusal, limits),
        None => write_object_end(page, out),
    }
}

/// Writes the object of an accepted message by its first difference.
fn write_object<M: Segments, O: ByteOut>(
    page: &mut Page,
    out: &mut O,
    number: u32,
    message: &M,
    report: &Report,
    difference: &Option<Difference>,
    limits: Limits,
) -> Result<(), OutFault>
    ensures { let m = M.segments message.now in let r = report.now in
        (words : ℕ) → IsWithin m words most_depth → (h : IsDifference m difference.now) →
        (member : List ℕ) × IsMember (words_of limits) (depth_of limits) m member
        × Writes O.ByteOut out.old out.new result (accepted_json number r.charge r.depth r.pointers
        r.caps (difference_members m difference.now h ++ member)) }
{
    let refusal = filter_refusal(message, limits);
    match write_start(page, out, number, message, report, difference) {
        Ok(()) => write_end(page, out, message, &refusal, limits),
        Err(fault) => Err(fault),
    }
}

/// Writes the object of an accepted message that says whether it is canonical, and why not. Its
/// last member says why `filter`, the guard and the libraries refuse the message within these
/// limits, if they do.
pub(crate) fn print_canonical_object<M: Segments, O: ByteOut>(
    page: &mut Page,
    out: &mut O,
    number: u32,
    vetted: &Vetted<'_, M>,
    limits: Limits,
) -> Result<Counted, Cause>
    ensures { let m = M.segments (message_of vetted.now) in let r = report_of vetted.now in
        (found : Option Difference) × (h : IsDifference m found) × (member : List ℕ)
        × IsMember (words_of limits) (depth_of limits) m member
        × (written : Result (Unit {0}) OutFault) × Writes O.ByteOut out.old out.new written
        (accepted_json number r.charge r.depth r.pointers r.caps
        (difference_members m found h ++ member))
        × (result ≡ counted_after written (counted_by found)) }
{
    let difference = first_difference(vetted);
    let message = vetted.message();
    let report = vetted.report();
    let written = write_object(page, out, number, message, &report, &difference, limits);
    after_text(written, counted_by(&difference))
}
