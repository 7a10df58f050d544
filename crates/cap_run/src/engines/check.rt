//! The engine that writes for each message whether it is canonical.

ghost use Rattle.cap_frame.specs.Limit.{limit_of};
ghost use Rattle.cap_run.specs.Checking.{ReportsChecked};
ghost use Rattle.cap_run.specs.Demanding.{OrFaultIn, ReportsCheckUnder};
ghost use Rattle.cap_run.specs.Engines.{ReportsStream};
ghost use Rattle.cap_run.specs.Reporting.{AllocatesNone};
ghost use Rattle.cap_walk.specs.Demands.{no_demands};
ghost use Rattle.cap_walk.specs.Limits.{depth_of, words_of};
ghost use Rattle.std.specs.Prelude.{◌≡◌, if◌then◌else◌};

use crate::engines::stream::Counted;
use crate::engines::vetting::after_text;
use crate::engines::whole::{MessagePrinter, print_messages};
use crate::settings::{Outcome, Settings};
use crate::waiting::{FlushNever, Flushing};
use cap_canon::check_with;
use cap_frame::Segments;
use cap_text::{Cause, Page, RunFault, write_check, write_refused};
use cap_vet::{Demands, Limits};
use cap_words::{ByteOut, WordSource};
use std::alloc::Global;

/// Vets a message under demands, and writes whether it is canonical if it meets them. Otherwise it
/// writes the first reason why not, and the place.
#[derive(Clone, Copy)]
struct Checking {
    limits: Limits,
    demands: Demands,
}

impl MessagePrinter for Checking {
    ghost reports = { λ c _. OrFaultIn c.demands ReportsChecked c.limits };

    ghost allocates = { λ _. AllocatesNone };

    fn print_message<M: Segments, O: ByteOut>(
        &self,
        page: &mut Page,
        out: &mut O,
        _before: u64,
        number: u32,
        message: &M,
    ) -> Result<Counted, Cause> {
        match check_with(message, self.limits, self.demands) {
            Ok((_, canonical)) => {
                let written = write_check(page, out, number, canonical);
                after_text(written, count_of(canonical))
            }
            Err(refusal) => {
                let written = write_refused(page, out, number, &refusal);
                after_text(written, Counted::Refused)
            }
        }
    }
}

/// What is counted of an accepted message, by whether it is canonical.
pub(crate) fn count_of(canonical: bool) -> Counted
    ensures { result ≡ (if canonical then Counted.Accepted else Counted.NotCanonical) }
{
    if canonical {
        Counted::Accepted
    } else {
        Counted::NotCanonical
    }
}

/// Does what [`run_check_with`] does, without demands and without a flush.
///
/// # Errors
///
/// Those of [`run_check_with`].
pub fn run_check<S: WordSource, O: ByteOut>(
    alloc: Global,
    source: &mut S,
    out: &mut O,
    settings: &Settings,
) -> Result<Outcome, RunFault>
    ensures { let s = settings.now in ReportsStream S.WordSource O.ByteOut
        (ReportsCheckUnder no_demands (words_of s.limits) (depth_of s.limits)) AllocatesNone
        (limit_of s.size) s.messages source.old source.new out.old out.new result }
{
    run_check_with(
        alloc,
        source,
        out,
        settings,
        Demands::default(),
        &FlushNever,
    )
}

/// Reads the messages of a stream to its end, and writes for each whether it is canonical. A
/// message is canonical if it has one segment, whose words are its canonical copy (encoding:
/// Canonicalization). A message with a capability isn't.
///
/// For a message that isn't accepted within `settings.limits`, or doesn't meet the demands, it
/// writes the line of [`run_vet_with`](crate::run_vet_with). A message that is refused or isn't
/// canonical is counted, and doesn't end the run. The line of a message is written before the next
/// message is read, and flushed as `flushing` says.
///
/// Allocates only to hold a message that is larger than all before it: eight bytes for each word.
///
/// # Errors
///
/// The error names the message at which the run ended, counted from 0. The lines of all messages
/// before it were written, and no message after it was read.
///
/// - [`Cause::TooManyMessages`](crate::Cause::TooManyMessages): the stream has more than
///   `settings.messages` messages.
/// - [`Cause::Frame`](crate::Cause::Frame): the message can't be read within `settings.size`, see
///   [`FrameFault`](cap_frame::FrameFault).
/// - [`Cause::Output`](crate::Cause::Output): the output failed as the line was written or flushed.
///   It took a prefix of the line, or all of it.
pub fn run_check_with<S: WordSource, O: ByteOut, F: Flushing<S>>(
    alloc: Global,
    source: &mut S,
    out: &mut O,
    settings: &Settings,
    demands: Demands,
    flushing: &F,
) -> Result<Outcome, RunFault>
    ensures { let s = settings.now in ReportsStream S.WordSource O.ByteOut
        (ReportsCheckUnder demands (words_of s.limits) (depth_of s.limits)) AllocatesNone
        (limit_of s.size) s.messages source.old source.new out.old out.new result }
{
    let checking = Checking {
        limits: settings.limits,
        demands,
    };
    print_messages(alloc, source, out, settings, checking, flushing)
}
