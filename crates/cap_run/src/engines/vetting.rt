//! Vetting a message, and writing a text by what comes of it.

ghost use Rattle.cap_frame.specs.Limit.{limit_of};
ghost use Rattle.cap_run.specs.Demanding.{AllocatesIn, OrFaultIn, OrOverlap, OrRefused, ReportsFault};
ghost use Rattle.cap_run.specs.Engines.{ReportsStream};
ghost use Rattle.cap_run.specs.Running.{WritesOneOf, counted_after};
ghost use Rattle.cap_run.specs.Vetting.{AllocatesMarks, ReportsOverlap};
ghost use Rattle.cap_spec.specs.Occupying.{IsFirstOverlap};
ghost use Rattle.cap_spec.specs.Tree.{Tree};
ghost use Rattle.cap_text.specs.Writing.{Writes};
ghost use Rattle.cap_vet.specs.Vettings.{message_of, report_of};
ghost use Rattle.cap_walk.specs.Demands.{IsDemandFault};
ghost use Rattle.cap_walk.specs.Limits.{depth_of, words_of};
ghost use Rattle.cap_walk.specs.Reports.{IsAccepted, IsReport};
ghost use Rattle.cap_walk.specs.declared.report.Report.{Report};
ghost use Rattle.std.specs.Prelude.{◌<◌, ◌^◌, ◌≡◌, List, ℕ};

use crate::engines::stream::Counted;
use crate::engines::whole::{MessagePrinter, print_messages};
use crate::settings::{Outcome, Settings};
use crate::waiting::Flushing;
use cap_frame::Segments;
use cap_spec::StrictRefusal;
use cap_text::{Cause, Page, RunFault, write_overlap, write_refused};
use cap_vet::{Demands, ExclusiveRefusal, Limits, Vetted, vet_exclusive, vet_with};
use cap_words::{ByteOut, OutFault, WordSource};
use std::alloc::Global;

/// What an engine writes about an accepted message.
pub(crate) trait AcceptedPrinter {
    ghost use Rattle.cap_run.specs.declared.engines.stream.Counted.{Counted};

    // The texts that may be written of a message, by the words of the stream before it, the limit of
    // words of the run, the limits of words and of levels within which it is accepted, and its
    // number. Each comes with what is counted then.
    ghost reports: { Self → ℕ → ℕ → ℕ → ℕ → ℕ → List (List ℕ) → List ℕ → Counted → Type 0 };

    // The messages that need an allocation, of those that are accepted within these limits.
    ghost allocates: { Self → ℕ → ℕ → List (List ℕ) → Type 0 };

    /// Writes the text of a message that is accepted in a run of these limits. What the page held
    /// before isn't written.
    ///
    /// # Errors
    ///
    /// - [`Cause::Output`]: the output failed. It took a prefix of the text.
    /// - [`Cause::Memory`]: an allocation failed. The output took nothing.
    fn print_accepted<M: Segments, O: ByteOut>(
        &self,
        page: &mut Page,
        out: &mut O,
        before: u64,
        number: u32,
        vetted: &Vetted<'_, M>,
        limits: Limits,
    ) -> Result<Counted, Cause>
        requires { before < 2 ^ 61 }
        ensures { (w : ℕ) (t : Tree) → let m = M.segments (message_of vetted.now) in
            let d = depth_of limits in IsReport m w d (report_of vetted.now) t →
            WritesOneOf O.ByteOut (reports self.now before (words_of limits) w d number m)
            (allocates self.now w d m) out.old out.new result };
}

/// What an engine writes about a message that is refused.
pub(crate) trait RefusalPrinter {
    ghost use Rattle.cap_run.specs.declared.engines.stream.Counted.{Counted};
    ghost use Rattle.cap_walk.specs.declared.demands.Demands.{Demands};

    // The texts that may be written of a message that doesn't meet demands within limits of words and
    // levels, by its number. Each comes with what is counted then.
    ghost refuses: { Self → Demands → ℕ → ℕ → ℕ → List (List ℕ) → List ℕ → Counted → Type 0 };

    // The same of a message that is accepted within these limits, and uses a word twice.
    ghost overlaps: { Self → ℕ → ℕ → ℕ → List (List ℕ) → List ℕ → Counted → Type 0 };

    /// Writes the text of a message that doesn't meet demands. What the page held before isn't
    /// written.
    fn write_refused<M: Segments, O: ByteOut>(
        &self,
        page: &mut Page,
        out: &mut O,
        number: u32,
        message: &M,
        refusal: &StrictRefusal,
        limits: Limits,
    ) -> Result<(), OutFault>
        requires { (demands : Demands) × (words : ℕ)
            × IsDemandFault demands (M.segments message.now) words (depth_of limits) refusal.now }
        ensures { let m = M.segments message.now in let depth = depth_of limits in
            (demands : Demands) (words : ℕ) → IsDemandFault demands m words depth refusal.now →
            (text : List ℕ) × refuses self.now demands words depth number m text Counted.Refused
            × Writes O.ByteOut out.old out.new result text };

    /// Writes the text of an accepted message that uses a word twice, by the first pointer that
    /// overlaps. What the page held before isn't written.
    fn write_overlap<M: Segments, O: ByteOut>(
        &self,
        page: &mut Page,
        out: &mut O,
        number: u32,
        message: &M,
        segment: u32,
        word: u32,
        pointers: u64,
        limits: Limits,
    ) -> Result<(), OutFault>
        requires { IsFirstOverlap (M.segments message.now) segment word pointers }
        ensures { let m = M.segments message.now in let depth = depth_of limits in
            (words : ℕ) (report : Report) → IsAccepted m words depth report →
            (text : List ℕ) × overlaps self.now words depth number m text Counted.Refused
            × Writes O.ByteOut out.old out.new result text };
}

/// What is counted of a message whose text was written, or the fault of the output.
pub(crate) fn after_text(written: Result<(), OutFault>, counted: Counted) -> Result<Counted, Cause>
    ensures { result ≡ counted_after written counted }
{
    match written {
        Ok(()) => Ok(counted),
        Err(fault) => Err(Cause::Output(fault)),
    }
}

/// Writes the line of a message that is refused.
#[derive(Clone, Copy)]
pub(crate) struct RefusalLines;

impl RefusalPrinter for RefusalLines {
    ghost refuses = { λ _. ReportsFault };

    ghost overlaps = { λ _. ReportsOverlap };

    fn write_refused<M: Segments, O: ByteOut>(
        &self,
        page: &mut Page,
        out: &mut O,
        number: u32,
        _message: &M,
        refusal: &StrictRefusal,
        _limits: Limits,
    ) -> Result<(), OutFault> {
        write_refused(page, out, number, refusal)
    }

    fn write_overlap<M: Segments, O: ByteOut>(
        &self,
        page: &mut Page,
        out: &mut O,
        number: u32,
        _message: &M,
        segment: u32,
        word: u32,
        pointers: u64,
        _limits: Limits,
    ) -> Result<(), OutFault> {
        write_overlap(page, out, number, segment, word, pointers)
    }
}

/// Vets a message under demands, and writes its text if it meets them. Otherwise it writes the first
/// reason why not.
#[derive(Clone, Copy)]
pub(crate) struct Vetting<A, R> {
    pub(crate) limits: Limits,
    pub(crate) demands: Demands,
    pub(crate) accepted: A,
    pub(crate) refused: R,
}

impl<A: AcceptedPrinter, R: RefusalPrinter> MessagePrinter for Vetting<A, R> {
    ghost reports = { λ v before. OrRefused v.demands (R.refuses v.refused)
        (A.reports v.accepted before (words_of v.limits)) (words_of v.limits) (depth_of v.limits) };

    ghost allocates = { λ v. AllocatesIn v.demands (A.allocates v.accepted) v.limits };

    fn print_message<M: Segments, O: ByteOut>(
        &self,
        page: &mut Page,
        out: &mut O,
        before: u64,
        number: u32,
        message: &M,
    ) -> Result<Counted, Cause> {
        let limits = self.limits;
        match vet_with(message, limits, self.demands) {
            Ok(vetted) => {
                self.accepted
                    .print_accepted(page, out, before, number, &vetted, limits)
            }
            Err(refusal) => after_text(
                self.refused
                    .write_refused(page, out, number, message, &refusal, limits),
                Counted::Refused,
            ),
        }
    }
}

/// Vets a message under demands, and writes its text if it meets them and uses no word twice.
/// Otherwise it writes the first reason why not, or the first pointer that overlaps.
#[derive(Clone, Copy)]
pub(crate) struct ExclusiveVetting<A, R> {
    pub(crate) alloc: Global,
    pub(crate) limits: Limits,
    pub(crate) demands: Demands,
    pub(crate) accepted: A,
    pub(crate) refused: R,
}

impl<A: AcceptedPrinter, R: RefusalPrinter> MessagePrinter for ExclusiveVetting<A, R> {
    ghost reports = { λ v before. OrRefused v.demands (R.refuses v.refused)
        (OrOverlap (R.overlaps v.refused) (A.reports v.accepted before (words_of v.limits)))
        (words_of v.limits) (depth_of v.limits) };

    ghost allocates = { λ v. AllocatesIn v.demands AllocatesMarks v.limits };

    fn print_message<M: Segments, O: ByteOut>(
        &self,
        page: &mut Page,
        out: &mut O,
        before: u64,
        number: u32,
        message: &M,
    ) -> Result<Counted, Cause> {
        let limits = self.limits;
        match vet_exclusive(self.alloc, message, limits, self.demands) {
            Ok(exclusive) => {
                let vetted = exclusive.into_vetted();
                self.accepted
                    .print_accepted(page, out, before, number, &vetted, limits)
            }
            Err(ExclusiveRefusal::Refused(refusal)) => {
                let written = self
                    .refused
                    .write_refused(page, out, number, message, &refusal, limits);
                after_text(written, Counted::Refused)
            }
            Err(
                ExclusiveRefusal::Overlap {
                    segment,
                    word,
                    pointers,
                },
            ) => {
                let written = self.refused.write_overlap(
                    page, out, number, message, segment, word, pointers, limits,
                );
                after_text(written, Counted::Refused)
            }
            Err(ExclusiveRefusal::Memory) => Err(Cause::Memory),
        }
    }
}

/// Vets each message of a stream, and writes the text of a printer for each that meets the demands,
/// and the line of each that doesn't.
pub(crate) fn vet_all<S: WordSource, O: ByteOut, T: AcceptedPrinter + Drop, F: Flushing<S>>(
    alloc: Global,
    source: &mut S,
    out: &mut O,
    settings: &Settings,
    demands: Demands,
    printer: T,
    flushing: &F,
) -> Result<Outcome, RunFault>
    ensures { let s = settings.now in ReportsStream S.WordSource O.ByteOut
        (OrFaultIn demands (T.reports printer 0 (words_of s.limits)) s.limits)
        (AllocatesIn demands (T.allocates printer) s.limits)
        (limit_of s.size) s.messages source.old source.new out.old out.new result }
{
    let vetting = Vetting {
        limits: settings.limits,
        demands,
        accepted: printer,
        refused: RefusalLines,
    };
    print_messages(alloc, source, out, settings, vetting, flushing)
}
