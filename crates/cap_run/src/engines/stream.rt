//! Reading the messages of a stream, and writing a text for each.

ghost use Rattle.cap_frame.specs.Limit.{limit_of};
ghost use Rattle.cap_run.specs.Breaking.{BreaksAfter, BreaksBy};
ghost use Rattle.cap_run.specs.Engines.{ReachesEnd, ReportsAll, StopsEarly};
ghost use Rattle.cap_run.specs.Running.{StepStops, StepReports};
ghost use Rattle.cap_run.specs.Streams.{EndsStream};
ghost use Rattle.cap_run.specs.Reporting.{one_noncanonical, one_refused};
ghost use Rattle.std.specs.Prelude.{◌+◌, ◌-◌, ◌<◌, ◌^◌, ◌≡◌, ◌≤◌, Bool, IfErr, IfOk, IfSome, List, true, ℕ};

use crate::engines::reading::end_stream;
use crate::settings::{Outcome, Settings};
use crate::waiting::{AHEAD, Flushing, flush_output};
use cap_frame::{FrameFault, SizeLimit};
use cap_text::{Cause, RunFault, StreamBreak};
use cap_words::{ByteOut, OutFault, WordSource};

/// What is counted of a message.
#[derive(Clone, Copy)]
pub(crate) enum Counted {
    /// It was accepted.
    Accepted,
    /// It was refused.
    Refused,
    /// It was accepted and isn't canonical, or has no canonical copy if a hash is asked for.
    NotCanonical,
}

/// What is done at each message of a stream.
pub(crate) trait Engine {
    ghost use Rattle.cap_run.specs.declared.engines.stream.Counted.{Counted};

    // The texts that may be written of a message, by the words of the stream before it and by its
    // number. Each comes with what is counted then.
    ghost reports: { Self → ℕ → ℕ → List (List ℕ) → List ℕ → Counted → Type 0 };

    // Whether it counts the words before each message. Otherwise 0 stands for them.
    ghost counts: { Self → Bool };

    // The messages at which an allocation may fail after they were read.
    ghost allocates: { Self → List (List ℕ) → Type 0 };

    // Whether it allocates to read a message.
    ghost takes_memory: { Bool };

    // Whether it keeps what is known of a message that can't be read.
    ghost notes: { Bool };

    /// The buffers that it fills again at each message, and keeps from one message to the next.
    type Buffers: Drop;

    /// The buffers as they are before the first message.
    fn buffers(&self) -> Self::Buffers;

    /// Reads the next message and writes its text. Returns what is counted of the message, and its
    /// words. `None` if the stream ends before it. The text doesn't depend on what the buffers held
    /// before. If the message can't be read, `at` is what is known of it.
    ///
    /// # Errors
    ///
    /// - [`Cause::Frame`]: the message can't be read. The output took nothing.
    /// - [`Cause::Output`]: the output failed. It took a prefix of the text.
    /// - [`Cause::Memory`]: the message was read, and an allocation failed then. The output took
    ///   nothing.
    fn print_next<S: WordSource, O: ByteOut>(
        &self,
        buffers: &mut Self::Buffers,
        source: &mut S,
        out: &mut O,
        limit: SizeLimit,
        before: u64,
        number: u32,
        at: &mut StreamBreak,
    ) -> Result<Option<(Counted, u64)>, Cause>
        requires { before < 2 ^ 61 }
        ensures some { IfOk result (λ r. IfSome r (λ step. StepReports S.WordSource O.ByteOut
            (counts self.now) (reports self.now before) (limit_of limit) number
            source.old source.new out.old out.new step.0 step.1)) }
        ensures none { result ≡ Ok None →
            EndsStream S.WordSource source.old source.new × (out.new ≡ out.old) }
        ensures err { IfErr result (λ cause. StepStops S.WordSource O.ByteOut
            (reports self.now before) (allocates self.now) (limit_of limit) number
            source.old source.new out.old out.new cause) }
        ensures memory { result ≡ Err (Cause.Frame FrameFault.Memory) → takes_memory ≡ true }
        ensures packed { at.new.packed ≡ at.old.packed }
        ensures at { notes ≡ true → IfErr result (λ cause.
            BreaksBy S.WordSource at.old.packed (limit_of limit) source.old cause at.new) };
}

/// The fault of an output at a message.
fn output_fault_at(message: u32, fault: OutFault) -> RunFault
    ensures { result ≡ record { message = message; cause = Cause.Output fault } }
{
    RunFault {
        message,
        cause: Cause::Output(fault),
    }
}

/// Counts one more message.
pub(crate) fn count(outcome: Outcome, counted: Counted) -> Outcome
    requires messages { outcome.messages < 2 ^ 32 - 1 }
    requires refused { outcome.refused ≤ outcome.messages }
    requires noncanonical { outcome.noncanonical ≤ outcome.messages }
    ensures { result ≡ record {
      messages = outcome.messages + 1;
      refused = outcome.refused + one_refused counted;
      noncanonical = outcome.noncanonical + one_noncanonical counted;
    } }
{
    let mut total = outcome;
    total.messages += 1;
    match counted {
        Counted::Accepted => {}
        Counted::Refused => total.refused += 1,
        Counted::NotCanonical => total.noncanonical += 1,
    }
    total
}

// Reads the messages of a stream to its end, and writes the text of each.
fn print_each<S: WordSource, O: ByteOut, E: Engine, F: Flushing<S>>(
    source: &mut S,
    out: &mut O,
    settings: &Settings,
    engine: &E,
    at: &mut StreamBreak,
    flushing: &F,
) -> Result<Outcome, RunFault>
    ensures ok { let s = settings.now in ReachesEnd S.WordSource O.ByteOut (E.counts engine.now)
        (E.reports engine.now) (limit_of s.size) s.messages
        source.old source.new out.old out.new result }
    ensures err { let s = settings.now in StopsEarly S.WordSource O.ByteOut (E.counts engine.now)
        (E.reports engine.now) (limit_of s.size) s.messages
        source.old source.new out.old out.new (E.allocates engine.now) result }
    ensures memory { (n : ℕ) →
        result ≡ Err (record { message = n; cause = Cause.Frame FrameFault.Memory }) →
        E.takes_memory ≡ true }
    ensures broken { E.notes ≡ true → let s = settings.now in IfErr result (λ fault.
        BreaksAfter S.WordSource at.old.packed (limit_of s.size) source.old fault at.new) }
{
    let mut outcome = Outcome {
        messages: 0,
        refused: 0,
        noncanonical: 0,
    };
    let mut buffers = engine.buffers();
    let mut ahead = [0; AHEAD];
    let mut before = 0;
    for number in 0..settings.messages {
        match engine.print_next(&mut buffers, source, out, settings.size, before, number, at) {
            Ok(Some((counted, words))) => {
                let waits = flushing.before_message(source, settings.size, &mut ahead);
                match flush_output(out, waits) {
                    Ok(()) => {
                        outcome = count(outcome, counted);
                        before += words;
                    }
                    Err(fault) => return Err(output_fault_at(number, fault)),
                }
            }
            Ok(None) => return Ok(outcome),
            Err(cause) => return Err(RunFault {
                message: number,
                cause,
            }),
        }
    }
    match end_stream(source, settings.size, at) {
        Ok(()) => Ok(outcome),
        Err(cause) => Err(RunFault {
            message: settings.messages,
            cause,
        }),
    }
}

/// Reads the messages of a stream to its end, and writes the text of each before it reads the next.
/// It flushes the text as `flushing` says. `at` says whether the input is packed. If a message can't
/// be read, it is then what is known of that message.
pub(crate) fn print_all<S: WordSource, O: ByteOut, E: Engine, F: Flushing<S>>(
    source: &mut S,
    out: &mut O,
    settings: &Settings,
    engine: &E,
    at: &mut StreamBreak,
    flushing: &F,
) -> Result<Outcome, RunFault>
    ensures reported { let s = settings.now in ReportsAll S.WordSource O.ByteOut
        (E.counts engine.now) (E.reports engine.now) (E.allocates engine.now)
        (limit_of s.size) s.messages source.old source.new out.old out.new result }
    ensures memory { (n : ℕ) →
        result ≡ Err (record { message = n; cause = Cause.Frame FrameFault.Memory }) →
        E.takes_memory ≡ true }
    ensures broken { E.notes ≡ true → let s = settings.now in IfErr result (λ fault.
        BreaksAfter S.WordSource at.old.packed (limit_of s.size) source.old fault at.new) }
{
    print_each(source, out, settings, engine, at, flushing)
}
