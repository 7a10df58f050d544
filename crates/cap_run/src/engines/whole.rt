//! Reading each message of a stream whole, and writing its text.

ghost use Rattle.cap_frame.specs.Limit.{limit_of};
ghost use Rattle.cap_run.specs.Breaking.{ExplainsStream};
ghost use Rattle.cap_run.specs.Engines.{ReportsStream};
ghost use Rattle.cap_run.specs.Reporting.{place_if, words_if};
ghost use Rattle.cap_run.specs.Running.{WritesOneOf};
ghost use Rattle.std.specs.Prelude.{◌<◌, ◌^◌, ◌≡◌, List, false, true, ℕ};

use crate::engines::reading::{no_break, read_next};
use crate::engines::stream::{Counted, Engine, print_all};
use crate::settings::{ExplainSettings, Outcome, Settings};
use crate::waiting::Flushing;
use cap_explain::frame_words;
use cap_frame::{ByteMessage, Segments, SizeLimit};
use cap_text::{Cause, ExplainedFault, Page, RunFault, StreamBreak};
use cap_words::{ByteOut, WordSource};
use std::alloc::Global;

/// What an engine writes about a message that was read.
pub(crate) trait MessagePrinter {
    ghost use Rattle.cap_run.specs.declared.engines.stream.Counted.{Counted};

    // The texts that may be written of a message, by the words of the stream before it and by its
    // number. Each comes with what is counted then.
    ghost reports: { Self → ℕ → ℕ → List (List ℕ) → List ℕ → Counted → Type 0 };

    // The messages that need an allocation.
    ghost allocates: { Self → List (List ℕ) → Type 0 };

    /// Writes the text of a message. What the page held before isn't written.
    ///
    /// # Errors
    ///
    /// - [`Cause::Output`]: the output failed. It took a prefix of the text.
    /// - [`Cause::Memory`]: an allocation failed. The output took nothing.
    fn print_message<M: Segments, O: ByteOut>(
        &self,
        page: &mut Page,
        out: &mut O,
        before: u64,
        number: u32,
        message: &M,
    ) -> Result<Counted, Cause>
        requires { before < 2 ^ 61 }
        ensures { let m = M.segments message.now in WritesOneOf O.ByteOut
            (reports self.now before number m) (allocates self.now m) out.old out.new result };
}

/// The message that was read last, and the page for its text.
#[derive(Drop)]
pub(crate) struct MessageBuffers {
    message: ByteMessage,
    page: Page,
}

/// Reads each message whole, and writes its text.
#[derive(Clone, Copy)]
struct Whole<P> {
    alloc: Global,
    /// Whether the words before each message are counted. Otherwise 0 stands for them.
    counts: bool,
    printer: P,
}

impl<P: MessagePrinter> Engine for Whole<P> {
    ghost reports = { λ w before. P.reports w.printer (place_if w.counts before) };

    ghost counts = { λ w. w.counts };

    ghost allocates = { λ w. P.allocates w.printer };

    ghost takes_memory = { true };

    ghost notes = { true };

    type Buffers = MessageBuffers;

    fn buffers(&self) -> MessageBuffers {
        MessageBuffers {
            message: ByteMessage::blank(self.alloc),
            page: Page::new(),
        }
    }

    #[inline(always)]
    fn print_next<S: WordSource, O: ByteOut>(
        &self,
        buffers: &mut MessageBuffers,
        source: &mut S,
        out: &mut O,
        limit: SizeLimit,
        before: u64,
        number: u32,
        at: &mut StreamBreak,
    ) -> Result<Option<(Counted, u64)>, Cause> {
        match read_next(self.alloc, source, limit, &mut buffers.message, at) {
            Ok(true) => {
                let message = buffers.message.view();
                let (place, words) = place_of(self.counts, before, &message);
                match self
                    .printer
                    .print_message(&mut buffers.page, out, place, number, &message)
                {
                    Ok(counted) => Ok(Some((counted, words))),
                    Err(cause) => Err(cause),
                }
            }
            Ok(false) => Ok(None),
            Err(fault) => Err(Cause::Frame(fault)),
        }
    }
}

/// The words of the stream before a message, and those of its frame. Both are 0 if they aren't
/// counted.
fn place_of<M: Segments>(counts: bool, before: u64, message: &M) -> (u64, u64)
    ensures place { result.0 ≡ place_if counts before }
    ensures words { result.1 ≡ words_if counts (M.segments message.now) }
{
    if counts {
        return (before, frame_words(message));
    }
    (0, 0)
}

/// Reads each message of a stream whole, and writes the text that comes of it, wherever the message
/// begins.
pub(crate) fn print_messages<S: WordSource, O: ByteOut, P: MessagePrinter + Drop, F: Flushing<S>>(
    alloc: Global,
    source: &mut S,
    out: &mut O,
    settings: &Settings,
    printer: P,
    flushing: &F,
) -> Result<Outcome, RunFault>
    ensures { let s = settings.now in ReportsStream S.WordSource O.ByteOut (P.reports printer 0)
        (P.allocates printer) (limit_of s.size) s.messages source.old source.new out.old out.new result }
{
    let engine = Whole {
        alloc,
        counts: false,
        printer,
    };
    print_all(
        source,
        out,
        settings,
        &engine,
        &mut no_break(false),
        flushing,
    )
}

/// Reads each message of a stream whole, and writes the text that comes of it, by where in the input
/// the message begins. The error says what is known of a message that can't be read.
pub(crate) fn explain_messages<S: WordSource, O: ByteOut, P: MessagePrinter + Drop, F: Flushing<S>>(
    alloc: Global,
    source: &mut S,
    out: &mut O,
    settings: &ExplainSettings,
    printer: P,
    flushing: &F,
) -> Result<Outcome, ExplainedFault>
    ensures { let s = settings.now in ExplainsStream S.WordSource O.ByteOut (P.reports printer)
        (P.allocates printer) s.packed (limit_of s.size) s.messages
        source.old source.new out.old out.new result }
{
    let engine = Whole {
        alloc,
        counts: true,
        printer,
    };
    let run = Settings {
        limits: settings.limits,
        size: settings.size,
        messages: settings.messages,
    };
    let mut at = no_break(settings.packed);
    match print_all(source, out, &run, &engine, &mut at, flushing) {
        Ok(outcome) => Ok(outcome),
        Err(fault) => Err(ExplainedFault { fault, at }),
    }
}
