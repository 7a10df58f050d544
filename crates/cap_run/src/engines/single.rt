//! Reading an input that has to be exactly one message.

ghost use Rattle.cap_frame.specs.Limit.{limit_of};
ghost use Rattle.cap_run.specs.Single.{EndsSingle, ReadsSingle};
ghost use Rattle.cap_spec.specs.Frames.{frame_text};
ghost use Rattle.cap_spec.specs.Plain.{plain_text};
ghost use Rattle.std.specs.Prelude.{◌≡◌, IfSome, Some};

use crate::engines::passing::{FrameBuffers, write_frame};
use crate::engines::reading::{no_break, read_next};
use crate::settings::ExplainSettings;
use cap_frame::{ByteMessage, ByteView, FrameFault, Segments};
use cap_text::{Cause, ExplainedFault, RunFault, SingleFault, StreamBreak};
use cap_words::{ByteOut, SourceFault, VecOut, WordSource};
use std::alloc::Global;

/// The bytes of a message's frame, with zero padding. `None` if an allocation failed.
fn frame_of<'b>(alloc: Global, message: &ByteView<'b>) -> Option<VecOut>
    ensures { let m = ⟦<ByteView<'b> as Segments>⟧.segments message.now in
        IfSome result (λ frame. ⟦<VecOut as ByteOut>⟧.written frame ≡ Some (plain_text (frame_text m))) }
{
    let mut frame = VecOut::new(alloc);
    match write_frame(&mut frame, message, &mut FrameBuffers::new()) {
        Ok(()) => Some(frame),
        Err(_) => None,
    }
}

/// The fault at a message, and what is known of the message.
fn stopped_at(message: u32, cause: Cause, at: StreamBreak) -> ExplainedFault
    ensures { result ≡ record { fault = record { message = message; cause = cause }; at = at } }
{
    ExplainedFault {
        fault: RunFault { message, cause },
        at,
    }
}

/// Reads the first message of an input, and gives the bytes of its frame: its table with zero
/// padding, and its segments as they came (encoding: Serialization Over a Stream). The source is
/// then just after the message. `None` if the input ends before a message.
///
/// Allocates to hold the message, and then its frame: eight bytes for each word of both. The message
/// is freed before the return.
///
/// # Errors
///
/// The error names message 0, and has what is known of a message that can't be read.
///
/// - [`Cause::Frame`]: the message can't be read within `settings.size`, see
///   [`FrameFault`](cap_frame::FrameFault).
/// - [`Cause::Memory`]: the message was read, and the allocation of its frame failed.
pub fn read_single<S: WordSource>(
    alloc: Global,
    source: &mut S,
    settings: &ExplainSettings,
) -> Result<Option<VecOut>, ExplainedFault>
    ensures { let s = settings.now in
        ReadsSingle S.WordSource s.packed (limit_of s.size) source.old source.new result }
{
    let mut message = ByteMessage::blank(alloc);
    let mut at = no_break(settings.packed);
    match read_next(alloc, source, settings.size, &mut message, &mut at) {
        Ok(true) => match frame_of(alloc, &message.view()) {
            Some(frame) => Ok(Some(frame)),
            None => Err(stopped_at(0, Cause::Memory, at)),
        },
        Ok(false) => Ok(None),
        Err(fault) => Err(stopped_at(0, Cause::Frame(fault), at)),
    }
}

/// Checks that the input ends here, after its first message. It reads at most one word.
///
/// # Errors
///
/// - [`SingleFault::Trailing`]: there is at least one more byte. The error has the position before
///   the call.
/// - [`SingleFault::Run`]: reading failed, or an earlier error had closed the source. The error
///   names message 1.
pub fn end_single<S: WordSource>(source: &mut S) -> Result<(), SingleFault>
    ensures { EndsSingle S.WordSource source.old source.new result }
{
    let byte = source.position();
    match source.next() {
        Ok(None) => Ok(()),
        Ok(Some(_)) => Err(SingleFault::Trailing { byte }),
        Err(SourceFault::Truncated { byte: _ }) => Err(SingleFault::Trailing { byte }),
        Err(SourceFault::Device) => Err(SingleFault::Run(RunFault {
            message: 1,
            cause: Cause::Frame(FrameFault::Device),
        })),
        Err(SourceFault::Spent) => Err(SingleFault::Run(RunFault {
            message: 1,
            cause: Cause::Frame(FrameFault::Spent),
        })),
    }
}
