//! The engine that writes the node of each message at one path.

ghost use Rattle.cap_frame.specs.Limit.{limit_of};
ghost use Rattle.cap_run.specs.Demanding.{ReportsGetUnder};
ghost use Rattle.cap_run.specs.Engines.{ReportsStream};
ghost use Rattle.cap_run.specs.Reporting.{AllocatesNone};
ghost use Rattle.cap_run.specs.Vetting.{ReportsNode};
ghost use Rattle.cap_walk.specs.Demands.{no_demands};
ghost use Rattle.cap_walk.specs.Limits.{depth_of, words_of};

use crate::engines::stream::Counted;
use crate::engines::vetting::{AcceptedPrinter, after_text, vet_all};
use crate::settings::{Outcome, Settings};
use crate::waiting::{FlushNever, Flushing};
use cap_frame::Segments;
use cap_spec::Step;
use cap_text::{Cause, Page, RunFault, write_node};
use cap_vet::{Demands, Limits, Vetted};
use cap_words::{ByteOut, WordSource};
use std::alloc::Global;

/// Writes the node at this path of a message's tree.
#[derive(Clone, Copy)]
struct GetPrinter<'p> {
    path: &'p [Step],
}

impl<'p> AcceptedPrinter for GetPrinter<'p> {
    ghost reports = { λ t _ _ words depth. ReportsNode words depth t.path.now };

    ghost allocates = { λ _ _ _. AllocatesNone };

    fn print_accepted<M: Segments, O: ByteOut>(
        &self,
        page: &mut Page,
        out: &mut O,
        _before: u64,
        number: u32,
        vetted: &Vetted<'_, M>,
        _limits: Limits,
    ) -> Result<Counted, Cause> {
        let written = write_node(page, out, number, vetted.get(self.path));
        after_text(written, Counted::Accepted)
    }
}

/// Does what [`run_get_with`] does, without demands and without a flush.
///
/// # Errors
///
/// Those of [`run_get_with`].
pub fn run_get<S: WordSource, O: ByteOut>(
    alloc: Global,
    source: &mut S,
    out: &mut O,
    settings: &Settings,
    path: &[Step],
) -> Result<Outcome, RunFault>
    ensures { let s = settings.now in ReportsStream S.WordSource O.ByteOut
        (ReportsGetUnder no_demands (words_of s.limits) (depth_of s.limits) path.now) AllocatesNone
        (limit_of s.size) s.messages source.old source.new out.old out.new result }
{
    run_get_with(
        alloc,
        source,
        out,
        settings,
        Demands::default(),
        path,
        &FlushNever,
    )
}

/// Reads the messages of a stream to its end, and writes for each the node of its tree at the path,
/// without the node's children. If the tree has no node there, it writes `none`. For a message that
/// is refused or doesn't meet the demands it writes the line of
/// [`run_vet_with`](crate::run_vet_with).
///
/// A message without such a node isn't refused. A refused message is counted, and doesn't end the
/// run. The text of a message is written before the next message is read, and flushed as
/// `flushing` says.
///
/// Allocates only to hold a message that is larger than all before it: eight bytes for each word.
///
/// # Errors
///
/// The error names the message at which the run ended, counted from 0. The texts of all messages
/// before it were written, and no message after it was read.
///
/// - [`Cause::TooManyMessages`](crate::Cause::TooManyMessages): the stream has more than
///   `settings.messages` messages.
/// - [`Cause::Frame`](crate::Cause::Frame): the message can't be read within `settings.size`, see
///   [`FrameFault`](cap_frame::FrameFault).
/// - [`Cause::Output`](crate::Cause::Output): the output failed as the text was written or flushed.
///   It took a prefix of the text, or all of it.
pub fn run_get_with<S: WordSource, O: ByteOut, F: Flushing<S>>(
    alloc: Global,
    source: &mut S,
    out: &mut O,
    settings: &Settings,
    demands: Demands,
    path: &[Step],
    flushing: &F,
) -> Result<Outcome, RunFault>
    ensures { let s = settings.now in ReportsStream S.WordSource O.ByteOut
        (ReportsGetUnder demands (words_of s.limits) (depth_of s.limits) path.now) AllocatesNone
        (limit_of s.size) s.messages source.old source.new out.old out.new result }
{
    vet_all(
        alloc,
        source,
        out,
        settings,
        demands,
        GetPrinter { path },
        flushing,
    )
}
