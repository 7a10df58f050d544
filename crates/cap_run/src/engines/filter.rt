//! The engine that lets the accepted messages of a stream through.

ghost use Rattle.cap_frame.specs.Limit.{limit_of};
ghost use Rattle.cap_run.specs.Filtering.{FiltersUnder};
ghost use Rattle.cap_run.specs.FilterSteps.{FilterReachesEnd, FilterReadsNext, FilterStops, FilterStopsEarly};
ghost use Rattle.cap_run.specs.Streams.{EndsStream};
ghost use Rattle.std.specs.Prelude.{◌≡◌, ◌≢◌, IfErr, IsFalse, IsTrue};

use crate::engines::reading::{end_stream, no_break};
use crate::engines::sifting::{FilterState, MessageFilter};
use crate::engines::stream::{Counted, count};
use crate::settings::{FilterForm, Outcome, Settings};
use crate::waiting::{AHEAD, Flushing};
use cap_frame::{ByteMessage, read_into};
use cap_text::{Cause, RunFault};
use cap_vet::Demands;
use cap_words::{ByteOut, WordSource};
use std::alloc::Global;

/// The message that was read last, and what else is kept from one message to the next.
#[derive(Drop)]
struct FilterBuffers {
    message: ByteMessage,
    /// A place for words that are looked at ahead.
    ahead: [u8; AHEAD],
    state: FilterState,
}

/// Reads the next message and sifts it. `None` if the stream ends before it. The frame of an
/// accepted message is flushed as `flushing` says.
fn sift_next<S: WordSource, O: ByteOut, E: ByteOut, F: Flushing<S>>(
    filter: &MessageFilter,
    buffers: &mut FilterBuffers,
    source: &mut S,
    out: &mut O,
    log: &mut E,
    settings: &Settings,
    flushing: &F,
    number: u32,
) -> Result<Option<Counted>, Cause>
    ensures some { (counted : Counted) → result ≡ Ok (Some counted) →
        FilterReadsNext S.WordSource O.ByteOut E.ByteOut filter.now (limit_of settings.now.size) number
        source.old source.new out.old out.new log.old log.new buffers.old buffers.new (Ok counted) }
    ensures none { result ≡ Ok None → EndsStream S.WordSource source.old source.new
        × (out.new ≡ out.old) × (log.new ≡ log.old)
        × (buffers.new.state.failed ≡ buffers.old.state.failed) }
    ensures err { IfErr result (FilterStops S.WordSource O.ByteOut E.ByteOut filter.now
        (limit_of settings.now.size) number source.old source.new out.old out.new log.old log.new
        buffers.old buffers.new) }
{
    match read_into(filter.alloc, source, settings.size, &mut buffers.message) {
        Ok(true) => {
            let wait = !flushing.before_message(source, settings.size, &mut buffers.ahead);
            let message = buffers.message.view();
            match filter.sift(&mut buffers.state, out, log, wait, number, &message) {
                Ok(counted) => Ok(Some(counted)),
                Err(cause) => Err(cause),
            }
        }
        Ok(false) => Ok(None),
        Err(fault) => Err(Cause::Frame(fault)),
    }
}

/// Whether the run ends after a message of which this is counted.
fn ends_after(counted: Counted, stop: bool) -> bool
    ensures yes { IsTrue result → IsTrue stop × (counted ≡ Counted.Refused) }
    ensures no { IsFalse result → IsTrue stop → counted ≢ Counted.Refused }
{
    match counted {
        Counted::Refused => stop,
        Counted::Accepted | Counted::NotCanonical => false,
    }
}

/// Sifts the messages of a stream to its end, or to the first refused one.
fn sift_each<S: WordSource, O: ByteOut, E: ByteOut, F: Flushing<S>>(
    filter: &MessageFilter,
    source: &mut S,
    out: &mut O,
    log: &mut E,
    settings: &Settings,
    flushing: &F,
) -> Result<Outcome, RunFault>
    ensures ok { FilterReachesEnd S.WordSource O.ByteOut E.ByteOut settings.now source.old source.new
        out.old out.new log.old log.new filter.now result }
    ensures err { FilterStopsEarly S.WordSource O.ByteOut E.ByteOut settings.now source.old source.new
        out.old out.new log.old log.new filter.now result }
{
    let mut outcome = Outcome {
        messages: 0,
        refused: 0,
        noncanonical: 0,
    };
    let mut buffers = FilterBuffers {
        message: ByteMessage::blank(filter.alloc),
        ahead: [0; AHEAD],
        state: FilterState::new(),
    };
    for number in 0..settings.messages {
        match sift_next(
            filter,
            &mut buffers,
            source,
            out,
            log,
            settings,
            flushing,
            number,
        ) {
            Ok(Some(counted)) => {
                outcome = count(outcome, counted);
                if ends_after(counted, filter.form.stop) {
                    return Ok(outcome);
                }
            }
            Ok(None) => return Ok(outcome),
            Err(cause) => return Err(RunFault {
                message: number,
                cause,
            }),
        }
    }
    match end_stream(source, settings.size, &mut no_break(false)) {
        Ok(()) => Ok(outcome),
        Err(cause) => Err(RunFault {
            message: settings.messages,
            cause,
        }),
    }
}

/// Reads the messages of a stream to its end, and vets each under demands (profile). Of an accepted
/// message the frame is written to `out`: its table with zero padding, and its segments as they
/// came (encoding: Serialization Over a Stream). Of a refused one nothing goes to `out`, and its
/// line is written to `log`.
///
/// The verdict and the line are those of [`run_vet_with`](crate::run_vet_with), or with
/// `form.exclusive` those of [`run_vet_exclusive_with`](crate::run_vet_exclusive_with). With
/// `form.pack` the frame is packed, the table and each segment by itself (encoding: Packing).
///
/// A refused message is counted. It ends the run only with `form.stop`: the source is then just
/// after it, and nothing more was read. No byte of a message is written before the whole message is
/// vetted. The frame of a message, or its line, is written before the next message is read. If `log`
/// fails, it isn't called again, and the run goes on.
///
/// Frames are flushed as `flushing` says. The frames that wait are flushed before a line is
/// written. They still wait if the run ends with [`Cause::TooManyMessages`], or as an allocation
/// fails.
///
/// Allocates to hold a message only if it is larger than all before it: eight bytes for each word.
/// With `form.exclusive` it allocates the marks for each message: one bit for each word, and at most
/// 64 bits more.
///
/// # Errors
///
/// The error names the message at which the run ended, counted from 0. The frames of all accepted
/// messages before it were written, and no message after it was read. With `form.stop` all messages
/// before it were accepted.
///
/// - [`Cause::TooManyMessages`]: the stream has more than `settings.messages` messages.
/// - [`Cause::Frame`]: the message can't be read within `settings.size`, see
///   [`FrameFault`](cap_frame::FrameFault).
/// - [`Cause::Output`]: `out` failed, and nothing was read after that. The message is accepted, and
///   `out` took a prefix of its frame, or all of it. Or it is refused and the message before it was
///   accepted, and a flush of the frames before it failed. Its line wasn't written.
/// - [`Cause::Memory`]: with `form.exclusive` alone. The message meets the demands, and the
///   allocation of the marks failed. Nothing was written for it.
pub fn run_filter<S: WordSource, O: ByteOut, E: ByteOut, F: Flushing<S>>(
    alloc: Global,
    source: &mut S,
    out: &mut O,
    log: &mut E,
    settings: &Settings,
    demands: Demands,
    form: FilterForm,
    flushing: &F,
) -> Result<Outcome, RunFault>
    ensures { FiltersUnder S.WordSource O.ByteOut E.ByteOut settings.now source.old source.new
        out.old out.new log.old log.new form demands result }
{
    let filter = MessageFilter {
        alloc,
        limits: settings.limits,
        demands,
        form,
    };
    sift_each(&filter, source, out, log, settings, flushing)
}
