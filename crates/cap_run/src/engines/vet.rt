//! The engine that writes for each message whether it is accepted.

ghost use Rattle.cap_frame.specs.Limit.{limit_of};
ghost use Rattle.cap_run.specs.Demanding.{ReportsVerdictUnder};
ghost use Rattle.cap_run.specs.Engines.{ReportsStream};
ghost use Rattle.cap_run.specs.Reporting.{AllocatesNone};
ghost use Rattle.cap_run.specs.Vetting.{ReportsAccepted};
ghost use Rattle.cap_walk.specs.Demands.{no_demands};
ghost use Rattle.cap_walk.specs.Limits.{depth_of, words_of};

use crate::engines::stream::Counted;
use crate::engines::vetting::{AcceptedPrinter, after_text, vet_all};
use crate::settings::{Outcome, Settings};
use crate::waiting::{FlushNever, Flushing};
use cap_frame::Segments;
use cap_text::{Cause, Page, RunFault, write_accepted};
use cap_vet::{Demands, Limits, Vetted};
use cap_words::{ByteOut, WordSource};
use std::alloc::Global;

/// Writes the numbers of a message's tree.
#[derive(Clone, Copy)]
pub(crate) struct VetPrinter;

impl AcceptedPrinter for VetPrinter {
    ghost reports = { λ _ _ _. ReportsAccepted };

    ghost allocates = { λ _ _ _. AllocatesNone };

    // A call would load the report from words that were just stored at other boundaries, and wait.
    #[inline(always)]
    fn print_accepted<M: Segments, O: ByteOut>(
        &self,
        page: &mut Page,
        out: &mut O,
        _before: u64,
        number: u32,
        vetted: &Vetted<'_, M>,
        _limits: Limits,
    ) -> Result<Counted, Cause> {
        let written = write_accepted(page, out, number, &vetted.report());
        after_text(written, Counted::Accepted)
    }
}

/// Does what [`run_vet_with`] does, without demands and without a flush: a message is accepted if
/// its root denotes a finite tree within `settings.limits`.
///
/// # Errors
///
/// Those of [`run_vet_with`].
pub fn run_vet<S: WordSource, O: ByteOut>(
    alloc: Global,
    source: &mut S,
    out: &mut O,
    settings: &Settings,
) -> Result<Outcome, RunFault>
    ensures { let s = settings.now in ReportsStream S.WordSource O.ByteOut
        (ReportsVerdictUnder no_demands (words_of s.limits) (depth_of s.limits)) AllocatesNone
        (limit_of s.size) s.messages source.old source.new out.old out.new result }
{
    run_vet_with(
        alloc,
        source,
        out,
        settings,
        Demands::default(),
        &FlushNever,
    )
}

/// Reads the messages of a stream to its end, and vets each under demands (encoding: Security
/// Considerations; the demands are the profile's). A message is accepted if its root denotes a
/// finite tree within `settings.limits`, and it meets `demands`. The line of a message that is
/// accepted has the numbers of its tree. The line of one that isn't has the first reason and the
/// place, see [`vet_with`](cap_vet::vet_with).
///
/// A refused message is counted, and doesn't end the run. The line of a message is written before
/// the next message is read, and flushed as `flushing` says.
///
/// Allocates only to hold a message that is larger than all before it: eight bytes for each word.
///
/// # Errors
///
/// The error names the message at which the run ended, counted from 0. The lines of all messages
/// before it were written, and no message after it was read.
///
/// - [`Cause::TooManyMessages`](crate::Cause::TooManyMessages): the stream has more than
///   `settings.messages` messages.
/// - [`Cause::Frame`](crate::Cause::Frame): the message can't be read within `settings.size`, see
///   [`FrameFault`](cap_frame::FrameFault).
/// - [`Cause::Output`](crate::Cause::Output): the output failed as the line was written or flushed.
///   It took a prefix of the line, or all of it.
pub fn run_vet_with<S: WordSource, O: ByteOut, F: Flushing<S>>(
    alloc: Global,
    source: &mut S,
    out: &mut O,
    settings: &Settings,
    demands: Demands,
    flushing: &F,
) -> Result<Outcome, RunFault>
    ensures { let s = settings.now in ReportsStream S.WordSource O.ByteOut
        (ReportsVerdictUnder demands (words_of s.limits) (depth_of s.limits)) AllocatesNone
        (limit_of s.size) s.messages source.old source.new out.old out.new result }
{
    vet_all(alloc, source, out, settings, demands, VetPrinter, flushing)
}
