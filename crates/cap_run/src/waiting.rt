//! When an output is flushed, for all engines, and the sources that show what is buffered of their
//! input. What can be said of the bytes that have come is said before the program waits for more: with
//! [`FlushBeforeWaiting`] an engine flushes what it wrote, unless its source shows what is read next.
//! `tests/program/live.py` shows when it flushes, and no clause says it.

ghost use Rattle.cap_frame.specs.Limit.{limit_of};
ghost use Rattle.cap_frame.specs.Putting.{Halts};
ghost use Rattle.cap_run.specs.Peeking.{BeginsWithFrame, ShowsFrame};
ghost use Rattle.cap_run.specs.Transcoding.{PutsWords};
ghost use Rattle.cap_text.specs.Writing.{Writes, Wrote};
ghost use Rattle.std.specs.Prelude.{◌<◌, ◌≡◌, ◌↔◌, Bool, IfErr, IfSome, IsFalse, IsTrue, List, OnOk, false, length, true, ℕ};

use cap_frame::{FrontFault, SizeLimit, front_of};
use cap_pack::Unpacker;
use cap_words::{ByteIn, ByteOut, OutFault, PlainWords, SinkFault, WordSink, WordSource};

/// A source of words that shows what is buffered of its input. So a caller knows whether the source
/// may wait for more bytes.
pub trait Peek: WordSource {
    /// Whether buffered bytes hold the whole next message, within the limit. The source then gives
    /// this message without a call of the device. `buffer` is a place for words that are looked at.
    /// `false` doesn't say that the message isn't buffered.
    fn shows_message(&self, size: SizeLimit, buffer: &mut [u8]) -> bool
        ensures { IsTrue result → IfSome (Self.words self.now) (BeginsWithFrame (limit_of size)) };

    /// Whether buffered bytes hold the next word. The source then gives it without a call of the
    /// device. `false` doesn't say that it isn't buffered.
    fn shows_word(&self) -> bool
        ensures { IsTrue result → IfSome (Self.words self.now) (λ ws. 0 < length ws) };
}

/// Whether these bytes begin with a whole message within the limit.
fn is_whole(bytes: &[u8], size: SizeLimit) -> bool
    ensures { IsTrue result ↔ ShowsFrame (limit_of size) bytes.now }
{
    match front_of(bytes, size) {
        Ok(Some(_)) => true,
        Ok(None) => false,
        Err(_) => false,
    }
}

impl<I: ByteIn> Peek for PlainWords<I> {
    fn shows_message(&self, size: SizeLimit, _capacity: &mut [u8]) -> bool {
        is_whole(self.held(), size)
    }

    fn shows_word(&self) -> bool {
        self.held().len() >= 8
    }
}

// How many bytes there have to be to learn more of a message that begins with these bytes. `None` if
// they hold it whole, or no more bytes make it a message within the limit.
fn bytes_needed(bytes: &[u8], size: SizeLimit) -> Option<u64> {
    match front_of(bytes, size) {
        Err(FrontFault::Truncated { needed }) => Some(needed),
        _ => None,
    }
}

impl<I: ByteIn> Peek for Unpacker<I> {
    // Its first word is looked at, then its table, and then all of it. A message that `buffer` can't
    // hold isn't shown.
    fn shows_message(&self, size: SizeLimit, buffer: &mut [u8]) -> bool {
        let mut needed = 8;
        for _ in 0..3 {
            if needed > buffer.len() {
                return false;
            }
            let shown = self.peek(&mut buffer[..needed]);
            if is_whole(&buffer[..shown], size) {
                return true;
            }
            match bytes_needed(&buffer[..shown], size) {
                Some(more) if shown == needed && more <= buffer.len() as u64 => needed =
                    more as usize,
                _ => return false,
            }
        }
        false
    }

    fn shows_word(&self) -> bool {
        self.peek(&mut [0; 8]) == 8
    }
}

/// How many bytes of a packed message are looked at ahead. What is written of a larger message, or
/// before it, is flushed by itself.
pub(crate) const AHEAD: usize = 4096;

/// When an engine flushes what it wrote.
pub trait Flushing<S: WordSource> {
    // Whether the input may have to be waited for.
    ghost is_live: { Self → Bool };

    /// Whether to flush before the next message of the source is read. `ahead` is a place for words
    /// that are looked at.
    fn before_message(&self, source: &S, size: SizeLimit, ahead: &mut [u8]) -> bool
        ensures { IsFalse result → is_live self.now ≡ true →
            IfSome (S.words source.now) (BeginsWithFrame (limit_of size)) };

    /// Whether to flush before the next word of the source is read.
    fn before_word(&self, source: &S) -> bool
        ensures { IsFalse result → is_live self.now ≡ true →
            IfSome (S.words source.now) (λ ws. 0 < length ws) };
}

/// An engine flushes nothing: its caller does so after the run.
#[derive(Clone, Copy, Debug)]
pub struct FlushNever;

impl<S: WordSource> Flushing<S> for FlushNever {
    ghost is_live = { λ _. false };

    fn before_message(&self, _source: &S, _size: SizeLimit, _ahead: &mut [u8]) -> bool {
        false
    }

    fn before_word(&self, _source: &S) -> bool {
        false
    }
}

/// An engine flushes what it wrote before its input may have to be waited for: unless the source
/// shows the whole next message, or the next word.
#[derive(Clone, Copy, Debug)]
pub struct FlushBeforeWaiting {
    /// Whether the input may have to be waited for, as a pipe. If it is never waited for, as a
    /// regular file, nothing is flushed.
    pub live: bool,
}

impl<S: Peek> Flushing<S> for FlushBeforeWaiting {
    ghost is_live = { λ f. f.live };

    fn before_message(&self, source: &S, size: SizeLimit, ahead: &mut [u8]) -> bool {
        self.live && !source.shows_message(size, ahead)
    }

    fn before_word(&self, source: &S) -> bool {
        self.live && !source.shows_word()
    }
}

/// Flushes what was written, if that is asked. After an error the output has taken all that was
/// written.
pub(crate) fn flush_output<O: ByteOut>(out: &mut O, waits: bool) -> Result<(), OutFault>
    ensures { (before : O) (text : List ℕ) →
        Wrote O.ByteOut before out.old text → Writes O.ByteOut before out.new result text }
{
    if waits {
        return out.flush();
    }
    Ok(())
}

/// Flushes what was put, if that is asked.
pub(crate) fn flush_sink<K: WordSink>(sink: &mut K, waits: bool) -> Result<(), SinkFault>
    ensures ok { OnOk result ((before : K) (own : List ℕ) →
        PutsWords K.WordSink before sink.old own → PutsWords K.WordSink before sink.new own) }
    ensures err { IfErr result (λ fault. (before : K) (own : List ℕ) →
        PutsWords K.WordSink before sink.old own → Halts K.WordSink before sink.new own fault) }
{
    if waits {
        return sink.flush();
    }
    Ok(())
}
