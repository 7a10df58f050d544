//! The engine that writes for each message whether it is accepted and uses no word twice.

ghost use Rattle.cap_run.specs.Demanding.{OrFaultIn, ReportsExclusiveness, AllocatesIn};
ghost use Rattle.cap_run.specs.Engines.{ReportsStream};
ghost use Rattle.cap_run.specs.Vetting.{AllocatesMarks};
ghost use Rattle.cap_frame.specs.Limit.{limit_of};
ghost use Rattle.cap_walk.specs.Demands.{no_demands};

use crate::engines::vet::VetPrinter;
use crate::engines::vetting::{ExclusiveVetting, RefusalLines};
use crate::engines::whole::print_messages;
use crate::settings::{Outcome, Settings};
use crate::waiting::{FlushNever, Flushing};
use cap_text::{Cause, RunFault};
use cap_vet::Demands;
use cap_words::{ByteOut, WordSource};
use std::alloc::Global;

/// Does what [`run_vet_exclusive_with`] does, without demands and without a flush: a message is
/// accepted if its root denotes a finite tree within `settings.limits` and it uses no word twice.
///
/// # Errors
///
/// Those of [`run_vet_exclusive_with`].
pub fn run_vet_exclusive<S: WordSource, O: ByteOut>(
    alloc: Global,
    source: &mut S,
    out: &mut O,
    settings: &Settings,
) -> Result<Outcome, RunFault>
    ensures { let s = settings.now in ReportsStream S.WordSource O.ByteOut
        (OrFaultIn no_demands ReportsExclusiveness s.limits) (AllocatesIn no_demands AllocatesMarks s.limits)
        (limit_of s.size) s.messages source.old source.new out.old out.new result }
{
    run_vet_exclusive_with(
        alloc,
        source,
        out,
        settings,
        Demands::default(),
        &FlushNever,
    )
}

/// Reads the messages of a stream to its end, and vets each exclusively under demands (profile). A
/// message is accepted if its root denotes a finite tree within `settings.limits`, it meets
/// `demands`, and it uses no word twice.
///
/// For a message that [`run_vet_with`](crate::run_vet_with) refuses, the line is the same as there.
/// So a message that isn't strict is refused for that, also if a pointer overlaps. For a message
/// that only uses a word twice, the line has the first pointer in preorder that overlaps. A pointer
/// overlaps if it uses a word twice, the root word, or a word of an earlier pointer. The line of an
/// accepted message has the numbers of its tree.
///
/// A message that is refused, or in which a pointer overlaps, is counted as refused. It doesn't end
/// the run. The line of a message is written before the next message is read, and flushed as
/// `flushing` says.
///
/// Allocates to hold a message only if it is larger than all before it: eight bytes for each word.
/// For each message it allocates the marks: one bit for each word, and at most 64 bits more.
///
/// # Errors
///
/// The error names the message at which the run ended, counted from 0. The lines of all messages
/// before it were written, and no message after it was read.
///
/// - [`Cause::TooManyMessages`]: the stream has more than `settings.messages` messages.
/// - [`Cause::Frame`]: the message can't be read within `settings.size`, see
///   [`FrameFault`](cap_frame::FrameFault).
/// - [`Cause::Output`]: the output failed as the line was written or flushed. It took a prefix of
///   the line, or all of it.
/// - [`Cause::Memory`]: the message meets the demands within the limits, and the allocation of the
///   marks failed. Nothing was written for it.
pub fn run_vet_exclusive_with<S: WordSource, O: ByteOut, F: Flushing<S>>(
    alloc: Global,
    source: &mut S,
    out: &mut O,
    settings: &Settings,
    demands: Demands,
    flushing: &F,
) -> Result<Outcome, RunFault>
    ensures { let s = settings.now in ReportsStream S.WordSource O.ByteOut
        (OrFaultIn demands ReportsExclusiveness s.limits) (AllocatesIn demands AllocatesMarks s.limits)
        (limit_of s.size) s.messages source.old source.new out.old out.new result }
{
    let vetting = ExclusiveVetting {
        alloc,
        limits: settings.limits,
        demands,
        accepted: VetPrinter,
        refused: RefusalLines,
    };
    print_messages(alloc, source, out, settings, vetting, flushing)
}
