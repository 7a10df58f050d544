//! The engines that write a JSON object about each message, one a line.

ghost use Rattle.cap_frame.specs.Limit.{limit_of};
ghost use Rattle.cap_run.specs.Demanding.{AllocatesIn};
ghost use Rattle.cap_run.specs.Engines.{ReportsStream};
ghost use Rattle.cap_run.specs.Hashing.{AllocatesCopy};
ghost use Rattle.cap_run.specs.JsonReports.{OrFaultJson, ReportsAcceptedJson, ReportsCheckedJson, ReportsFaultJson, ReportsHashedJson, ReportsExclusivenessJson, ReportsOverlapJson};
ghost use Rattle.cap_run.specs.Reporting.{AllocatesNone};
ghost use Rattle.cap_run.specs.Vetting.{AllocatesMarks};

use crate::engines::check::count_of;
use crate::engines::hash::digest_of;
use crate::engines::stream::Counted;
use crate::engines::vetting::{
    AcceptedPrinter, ExclusiveVetting, RefusalPrinter, Vetting, after_text,
};
use crate::engines::whole::{MessagePrinter, print_messages};
use crate::settings::{Outcome, Settings};
use crate::waiting::Flushing;
use cap_canon::{CanonFault, check_with};
use cap_frame::Segments;
use cap_spec::StrictRefusal;
use cap_text::{
    Cause, Page, RunFault, write_accepted_json, write_check_json, write_hash_json,
    write_no_form_json, write_overlap_json, write_refused_json,
};
use cap_vet::{Demands, Limits, Vetted};
use cap_words::{ByteOut, OutFault, WordSource};
use std::alloc::Global;

/// Writes the numbers of a message's tree.
#[derive(Clone, Copy)]
struct NumbersPrinter;

impl AcceptedPrinter for NumbersPrinter {
    ghost reports = { λ _ _ _. ReportsAcceptedJson };

    ghost allocates = { λ _ _ _. AllocatesNone };

    fn print_accepted<M: Segments, O: ByteOut>(
        &self,
        page: &mut Page,
        out: &mut O,
        _before: u64,
        number: u32,
        vetted: &Vetted<'_, M>,
        _limits: Limits,
    ) -> Result<Counted, Cause> {
        let written = write_accepted_json(page, out, number, &vetted.report());
        after_text(written, Counted::Accepted)
    }
}

/// Writes the hash of a message's canonical words.
#[derive(Clone, Copy)]
struct HashPrinter {
    alloc: Global,
}

impl AcceptedPrinter for HashPrinter {
    ghost reports = { λ _ _ _. ReportsHashedJson };

    ghost allocates = { λ _. AllocatesCopy };

    fn print_accepted<M: Segments, O: ByteOut>(
        &self,
        page: &mut Page,
        out: &mut O,
        _before: u64,
        number: u32,
        vetted: &Vetted<'_, M>,
        _limits: Limits,
    ) -> Result<Counted, Cause> {
        match digest_of(self.alloc, vetted) {
            Ok(digest) => {
                let written = write_hash_json(page, out, number, &digest);
                after_text(written, Counted::Accepted)
            }
            Err(CanonFault::HasCapability { segment, word }) => {
                let written = write_no_form_json(page, out, number, segment, word);
                after_text(written, Counted::NotCanonical)
            }
            Err(CanonFault::Memory) => Err(Cause::Memory),
        }
    }
}

/// Writes the object of a message that is refused.
#[derive(Clone, Copy)]
struct RefusalObjects;

impl RefusalPrinter for RefusalObjects {
    ghost refuses = { λ _. ReportsFaultJson };

    ghost overlaps = { λ _. ReportsOverlapJson };

    fn write_refused<M: Segments, O: ByteOut>(
        &self,
        page: &mut Page,
        out: &mut O,
        number: u32,
        _message: &M,
        refusal: &StrictRefusal,
        _limits: Limits,
    ) -> Result<(), OutFault> {
        write_refused_json(page, out, number, refusal)
    }

    fn write_overlap<M: Segments, O: ByteOut>(
        &self,
        page: &mut Page,
        out: &mut O,
        number: u32,
        _message: &M,
        segment: u32,
        word: u32,
        pointers: u64,
        _limits: Limits,
    ) -> Result<(), OutFault> {
        write_overlap_json(page, out, number, segment, word, pointers)
    }
}

/// Vets a message under demands, and writes the object that says whether it is canonical, or why it is
/// refused.
#[derive(Clone, Copy)]
struct Checking {
    limits: Limits,
    demands: Demands,
}

impl MessagePrinter for Checking {
    ghost reports = { λ c _. OrFaultJson c.demands ReportsCheckedJson c.limits };

    ghost allocates = { λ _. AllocatesNone };

    fn print_message<M: Segments, O: ByteOut>(
        &self,
        page: &mut Page,
        out: &mut O,
        _before: u64,
        number: u32,
        message: &M,
    ) -> Result<Counted, Cause> {
        match check_with(message, self.limits, self.demands) {
            Ok((_, canonical)) => {
                let written = write_check_json(page, out, number, canonical);
                after_text(written, count_of(canonical))
            }
            Err(refusal) => {
                let written = write_refused_json(page, out, number, &refusal);
                after_text(written, Counted::Refused)
            }
        }
    }
}

/// Does what [`run_vet_with`](crate::run_vet_with) does, and writes a JSON object for each message in
/// the place of its line (docs/output.md, JSON).
///
/// # Errors
///
/// Those of [`run_vet_with`](crate::run_vet_with).
pub fn run_vet_json<S: WordSource, O: ByteOut, F: Flushing<S>>(
    alloc: Global,
    source: &mut S,
    out: &mut O,
    settings: &Settings,
    demands: Demands,
    flushing: &F,
) -> Result<Outcome, RunFault>
    ensures { let s = settings.now in ReportsStream S.WordSource O.ByteOut
        (OrFaultJson demands ReportsAcceptedJson s.limits) AllocatesNone
        (limit_of s.size) s.messages source.old source.new out.old out.new result }
{
    let vetting = Vetting {
        limits: settings.limits,
        demands,
        accepted: NumbersPrinter,
        refused: RefusalObjects,
    };
    print_messages(alloc, source, out, settings, vetting, flushing)
}

/// Does what [`run_vet_exclusive_with`](crate::run_vet_exclusive_with) does, and writes a JSON object
/// for each message in the place of its line (docs/output.md, JSON).
///
/// # Errors
///
/// Those of [`run_vet_exclusive_with`](crate::run_vet_exclusive_with).
pub fn run_vet_exclusive_json<S: WordSource, O: ByteOut, F: Flushing<S>>(
    alloc: Global,
    source: &mut S,
    out: &mut O,
    settings: &Settings,
    demands: Demands,
    flushing: &F,
) -> Result<Outcome, RunFault>
    ensures { let s = settings.now in ReportsStream S.WordSource O.ByteOut
        (OrFaultJson demands ReportsExclusivenessJson s.limits) (AllocatesIn demands AllocatesMarks s.limits)
        (limit_of s.size) s.messages source.old source.new out.old out.new result }
{
    let vetting = ExclusiveVetting {
        alloc,
        limits: settings.limits,
        demands,
        accepted: NumbersPrinter,
        refused: RefusalObjects,
    };
    print_messages(alloc, source, out, settings, vetting, flushing)
}

/// Does what [`run_check_with`](crate::run_check_with) does, and writes a JSON object for each message
/// in the place of its line (docs/output.md, JSON).
///
/// # Errors
///
/// Those of [`run_check_with`](crate::run_check_with).
pub fn run_check_json<S: WordSource, O: ByteOut, F: Flushing<S>>(
    alloc: Global,
    source: &mut S,
    out: &mut O,
    settings: &Settings,
    demands: Demands,
    flushing: &F,
) -> Result<Outcome, RunFault>
    ensures { let s = settings.now in ReportsStream S.WordSource O.ByteOut
        (OrFaultJson demands ReportsCheckedJson s.limits) AllocatesNone
        (limit_of s.size) s.messages source.old source.new out.old out.new result }
{
    let checking = Checking {
        limits: settings.limits,
        demands,
    };
    print_messages(alloc, source, out, settings, checking, flushing)
}

/// Does what [`run_hash_with`](crate::run_hash_with) does, and writes a JSON object for each message in
/// the place of its line (docs/output.md, JSON).
///
/// # Errors
///
/// Those of [`run_hash_with`](crate::run_hash_with).
pub fn run_hash_json<S: WordSource, O: ByteOut, F: Flushing<S>>(
    alloc: Global,
    source: &mut S,
    out: &mut O,
    settings: &Settings,
    demands: Demands,
    flushing: &F,
) -> Result<Outcome, RunFault>
    ensures { let s = settings.now in ReportsStream S.WordSource O.ByteOut
        (OrFaultJson demands ReportsHashedJson s.limits) (AllocatesIn demands AllocatesCopy s.limits)
        (limit_of s.size) s.messages source.old source.new out.old out.new result }
{
    let vetting = Vetting {
        limits: settings.limits,
        demands,
        accepted: HashPrinter { alloc },
        refused: RefusalObjects,
    };
    print_messages(alloc, source, out, settings, vetting, flushing)
}
