//! The engine that puts the canonical copy of each message to a sink.

ghost use Rattle.cap_frame.specs.Limit.{limit_of};
ghost use Rattle.cap_frame.specs.Putting.{Halts};
ghost use Rattle.cap_run.specs.Canons.{IsCanonised, MakesCopies, MakesCopiesUnder};
ghost use Rattle.cap_run.specs.Making.{CopyStops, Made, Making, NextStops, PutsNext, is_unfinished, refused_cause};
ghost use Rattle.cap_run.specs.Streams.{EndsStream};
ghost use Rattle.cap_run.specs.Transcoding.{PutsWords};
ghost use Rattle.cap_spec.specs.Frames.{frame_text};
ghost use Rattle.cap_spec.specs.Plain.{plain_words};
ghost use Rattle.cap_walk.specs.Limits.{depth_of, words_of};
ghost use Rattle.std.specs.Prelude.{◌*◌, ◌<◌, ◌≡◌, ◌^◌, [], ◌∷◌, IfErr, List, OnOk, false, length, true, ℕ};

use crate::engines::reading::{end_stream, no_break};
use crate::fault::output_fault;
use crate::settings::{Outcome, Settings};
use crate::waiting::{AHEAD, FlushNever, Flushing, flush_sink};
use cap_canon::canonical_over;
use cap_frame::{ByteMessage, Segments, read_into};
use cap_spec::StrictRefusal;
use cap_text::{Cause, RunFault};
use cap_vet::{Demands, Limits, vet_with};
use cap_words::{SinkFault, WordSink, WordSource};
use std::alloc::Global;

/// The table of a message of one segment, which has `words` words: the number of segments less one
/// in the low half, and the size in the high half (encoding: Serialization Over a Stream).
fn table_of_one(words: u64) -> u64
    requires { words < 2 ^ 32 }
    ensures { result ≡ 2 ^ 32 * words }
{
    words * 0x1_0000_0000
}

/// Puts the words of these bytes as a framed message of one segment: the table, and then all words
/// in one call (encoding: Serialization Over a Stream).
fn put_framed<K: WordSink>(sink: &mut K, copy: &[u8]) -> Result<(), SinkFault>
    requires { length copy.now < 2 ^ 35 }
    ensures ok { let framed = frame_text (plain_words copy.now ∷ []) in
        OnOk result (PutsWords K.WordSink sink.old sink.new framed) }
    ensures err { let framed = frame_text (plain_words copy.now ∷ []) in
        IfErr result (Halts K.WordSink sink.old sink.new framed) }
{
    if let Err(fault) = sink.put(table_of_one(copy.len() as u64 / 8)) {
        return Err(fault);
    }
    if let Err(fault) = sink.put_bytes(copy) {
        return Err(fault);
    }
    Ok(())
}

/// The cause if a message doesn't meet the demands.
fn refused_by(refusal: StrictRefusal) -> Cause
    ensures { result ≡ refused_cause refusal }
{
    match refusal {
        StrictRefusal::Refused(refusal) => Cause::Refused(refusal),
        StrictRefusal::ManySegments | StrictRefusal::Pointer { .. } => Cause::NotStrict(refusal),
    }
}

/// Vets a message under demands, writes its canonical copy over the buffer of the last one, and puts
/// it to the sink. If the message doesn't meet them, or no copy can be made, nothing is put.
fn put_copy<K: WordSink, M: Segments>(
    alloc: Global,
    sink: &mut K,
    message: &M,
    copy: &mut Vec<u8>,
    limits: Limits,
    demands: Demands,
) -> Result<(), Cause>
    ensures ok { let m = M.segments message.now in OnOk result ((copy : List ℕ)
        × IsCanonised demands (words_of limits) (depth_of limits)
        (record { message = m; copy = copy })
        × PutsWords K.WordSink sink.old sink.new (frame_text (copy ∷ []))) }
    ensures err { let m = M.segments message.now in IfErr result (λ cause.
        CopyStops K.WordSink demands (words_of limits) (depth_of limits) m
        sink.old sink.new cause) }
{
    let vetted = match vet_with(message, limits, demands) {
        Ok(vetted) => vetted,
        Err(refusal) => return Err(refused_by(refusal)),
    };
    let count = match canonical_over(alloc, &vetted, copy) {
        Ok(count) => count,
        Err(fault) => return Err(Cause::Canon(fault)),
    };
    match put_framed(sink, &copy[..count]) {
        Ok(()) => Ok(()),
        Err(fault) => Err(Cause::Output(output_fault(fault))),
    }
}

/// The buffers of a run, which are filled again at each message.
#[derive(Drop)]
struct CanonBuffers {
    /// The message that was read last.
    message: ByteMessage,
    /// Its copy.
    copy: Vec<u8>,
    /// A place for words that are looked at ahead.
    ahead: [u8; AHEAD],
}

/// Reads the next message into the buffer of the last one, and puts its copy, for which there is a
/// buffer too. `false` if the stream ends before it.
fn put_next<S: WordSource, K: WordSink, F: Flushing<S>>(
    alloc: Global,
    buffers: &mut CanonBuffers,
    source: &mut S,
    sink: &mut K,
    settings: &Settings,
    demands: Demands,
    flushing: &F,
) -> Result<bool, Cause>
    ensures some { result ≡ Ok true → let s = settings.now in PutsNext S.WordSource K.WordSink
        demands (words_of s.limits) (depth_of s.limits) (limit_of s.size)
        source.old source.new sink.old sink.new }
    ensures none { result ≡ Ok false →
        EndsStream S.WordSource source.old source.new × (sink.new ≡ sink.old) }
    ensures err { let s = settings.now in IfErr result (λ cause. NextStops S.WordSource K.WordSink
        demands (words_of s.limits) (depth_of s.limits) (limit_of s.size)
        source.old source.new sink.old sink.new cause) }
{
    let (limits, size) = (settings.limits, settings.size);
    match read_into(alloc, source, size, &mut buffers.message) {
        Ok(true) => {
            let view = buffers.message.view();
            if let Err(cause) = put_copy(alloc, sink, &view, &mut buffers.copy, limits, demands) {
                return Err(cause);
            }
            let waits = flushing.before_message(source, size, &mut buffers.ahead);
            match flush_sink(sink, waits) {
                Ok(()) => Ok(true),
                Err(fault) => Err(Cause::Output(output_fault(fault))),
            }
        }
        Ok(false) => Ok(false),
        Err(fault) => Err(Cause::Frame(fault)),
    }
}

/// Puts the copies of the messages of a stream. Returns how many were put, and why there were no
/// more. The sink isn't finished yet.
fn put_copies<S: WordSource, K: WordSink, F: Flushing<S>>(
    alloc: Global,
    source: &mut S,
    sink: &mut K,
    settings: &Settings,
    demands: Demands,
    flushing: &F,
) -> (u32, Result<(), Cause>)
    ensures { let s = settings.now in Making S.WordSource K.WordSink
        demands (words_of s.limits) (depth_of s.limits) (limit_of s.size) s.messages
        source.old source.new sink.old sink.new result.0 result.1 }
{
    let mut buffers = CanonBuffers {
        message: ByteMessage::blank(alloc),
        copy: Vec::new(alloc),
        ahead: [0; AHEAD],
    };
    for number in 0..settings.messages {
        match put_next(
            alloc,
            &mut buffers,
            source,
            sink,
            settings,
            demands,
            flushing,
        ) {
            Ok(true) => {}
            Ok(false) => return (number, Ok(())),
            Err(cause) => return (number, Err(cause)),
        }
    }
    let end = end_stream(source, settings.size, &mut no_break(false));
    (settings.messages, end)
}

/// Whether the output didn't fail, so that the sink has still to be finished.
fn without_fault(end: &Result<(), Cause>) -> bool
    ensures { result ≡ is_unfinished end.now }
{
    match end {
        Err(Cause::Output(_)) => false,
        _ => true,
    }
}

/// Puts the copies of the messages of a stream, and finishes the sink unless the output failed.
fn make_copies<S: WordSource, K: WordSink, F: Flushing<S>>(
    alloc: Global,
    source: &mut S,
    sink: &mut K,
    settings: &Settings,
    demands: Demands,
    flushing: &F,
) -> (u32, Result<(), Cause>)
    ensures { let s = settings.now in Made S.WordSource K.WordSink
        demands (words_of s.limits) (depth_of s.limits) (limit_of s.size) s.messages
        source.old source.new sink.old sink.new result.0 result.1 }
{
    let (messages, end) = put_copies(alloc, source, sink, settings, demands, flushing);
    if without_fault(&end) {
        if let Err(fault) = sink.finish() {
            return (messages, Err(Cause::Output(output_fault(fault))));
        }
    }
    (messages, end)
}

/// Does what [`run_canon_with`] does, without demands and without a flush.
///
/// # Errors
///
/// Those of [`run_canon_with`], without [`Cause::NotStrict`].
pub fn run_canon<S: WordSource, K: WordSink>(
    alloc: Global,
    source: &mut S,
    sink: &mut K,
    settings: &Settings,
) -> Result<Outcome, RunFault>
    ensures { let s = settings.now in MakesCopies S.WordSource K.WordSink
        (words_of s.limits) (depth_of s.limits) (limit_of s.size) s.messages
        source.old source.new sink.old sink.new result }
{
    run_canon_with(
        alloc,
        source,
        sink,
        settings,
        Demands::default(),
        &FlushNever,
    )
}

/// Reads the messages of a stream to its end, and puts the canonical copy of each to a sink. Each
/// copy is put as a framed message of one segment (encoding: Canonicalization, Serialization Over a
/// Stream). The run ends at a message that isn't accepted, or doesn't meet the demands (profile).
///
/// The copy of a message is put before the next message is read, and flushed as `flushing` says.
/// The sink is finished at the end, and before an error is returned, unless the output failed. It is
/// closed after the call in any case.
///
/// Keeps a buffer for messages and one for copies, which [`canonical_over`](cap_canon::canonical_over)
/// fills, and allocates a new one only for what doesn't fit.
///
/// # Errors
///
/// The error names the message at which the run ended, counted from 0. The copies of all messages
/// before it were put, and no message after it was read.
///
/// - [`Cause::TooManyMessages`]: the stream has more than `settings.messages` messages.
/// - [`Cause::Frame`]: the message can't be read within `settings.size`, see
///   [`FrameFault`](cap_frame::FrameFault).
/// - [`Cause::Refused`]: the message isn't accepted within `settings.limits` and the word limit of
///   an unamplified message, if that is demanded. The refusal names the first bad pointer and the
///   reason.
/// - [`Cause::NotStrict`]: a strict message is demanded, and the message is accepted and isn't
///   strict, see [`vet_with`](cap_vet::vet_with). It may have a capability.
/// - [`Cause::Canon`]: the message has a capability, so that it has no copy, or the allocation of
///   the copy failed.
/// - [`Cause::Output`]: the output failed as a copy was put or flushed, or as the sink was
///   finished. It took a prefix of the text of the copies. If finishing the sink fails after
///   another error, `Output` is returned.
pub fn run_canon_with<S: WordSource, K: WordSink, F: Flushing<S>>(
    alloc: Global,
    source: &mut S,
    sink: &mut K,
    settings: &Settings,
    demands: Demands,
    flushing: &F,
) -> Result<Outcome, RunFault>
    ensures { let s = settings.now in MakesCopiesUnder S.WordSource K.WordSink
        demands (words_of s.limits) (depth_of s.limits) (limit_of s.size) s.messages
        source.old source.new sink.old sink.new result }
{
    let (messages, end) = make_copies(alloc, source, sink, settings, demands, flushing);
    match end {
        Ok(()) => Ok(Outcome {
            messages,
            refused: 0,
            noncanonical: 0,
        }),
        Err(cause) => Err(RunFault {
            message: messages,
            cause,
        }),
    }
}
