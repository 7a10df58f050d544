//! Words to the plain encoding, eight bytes a word.

ghost use Rattle.cap_spec.specs.Plain.{plain_text};
ghost use Rattle.cap_words.specs.Inner.{output_of};
ghost use Rattle.cap_words.specs.Sinks.{begins_appended};
ghost use Rattle.cap_words.specs.declared.plain_sink.PlainSink.{PlainSink};
ghost use Rattle.std.specs.Io.KnownBytes.{append_known};
ghost use Rattle.std.specs.Prelude.{◌≡◌, ◌||◌, List, false, ℕ};

use crate::byte_io::ByteOut;
use crate::sinks::{SinkFault, WordSink};
use crate::transfer::write_all;
use crate::word::bytes_of;

/// Writes words of eight bytes, the lowest byte first (encoding: 64-bit Words). It holds nothing
/// back.
#[derive(Drop)]
pub struct PlainSink<O: ByteOut> {
    output: O,
    closed: bool,
}

impl<O: ByteOut> PlainSink<O> {
    /// A sink that writes to `output`, after what it took before.
    pub fn new(output: O) -> PlainSink<O>
        ensures output { output_of result ≡ output }
        ensures taken { ⟦<PlainSink<O> as WordSink>⟧.taken result ≡ O.written output }
        ensures closed { ⟦<PlainSink<O> as WordSink>⟧.closed result ≡ false }
        ensures failures { ⟦<PlainSink<O> as WordSink>⟧.failures result ≡ O.failures output }
        ensures broken { ⟦<PlainSink<O> as WordSink>⟧.broken result ≡ O.broken output }
        ensures holds_nothing { (s : PlainSink O) (ws : List ℕ) → ⟦<PlainSink<O> as WordSink>⟧.text s ws
            ≡ append_known (⟦<PlainSink<O> as WordSink>⟧.taken s) (plain_text ws) }
        ensures shows_taken { (s : PlainSink O) →
            ⟦<PlainSink<O> as WordSink>⟧.taken s ≡ O.written (output_of s) }
        ensures when_broken { (s : PlainSink O) →
            ⟦<PlainSink<O> as WordSink>⟧.broken s
            ≡ (⟦<PlainSink<O> as WordSink>⟧.closed s || O.broken (output_of s)) }
        ensures shows_failures { (s : PlainSink O) →
            ⟦<PlainSink<O> as WordSink>⟧.failures s ≡ O.failures (output_of s) }
    {
        PlainSink {
            output,
            closed: false,
        }
    }

    /// Gives the output back as it is. Nothing is written.
    pub fn into_inner(self) -> O
        ensures { result ≡ output_of self }
    {
        self.output
    }
}

impl<O: ByteOut> WordSink for PlainSink<O> {
    ghost taken = { λ s. O.written s.output };

    ghost text = { λ s ws. append_known (O.written s.output) (plain_text ws) };

    ghost failures = { λ s. O.failures s.output };

    ghost closed = { λ s. s.closed };

    ghost broken = { λ s. s.closed || O.broken s.output };

    fn put(&mut self, word: u64) -> Result<(), SinkFault> {
        if self.closed {
            return Err(SinkFault::Spent);
        }
        match write_all(&mut self.output, &bytes_of(word)) {
            Ok(()) => Ok(()),
            Err(fault) => {
                self.closed = true;
                Err(SinkFault::from(fault))
            }
        }
    }

    // All words at once: an output whose buffer has no space for them passes them on without a
    // copy.
    fn put_bytes(&mut self, bytes: &[u8]) -> Result<(), SinkFault> {
        let whole = bytes.len() / 8 * 8;
        if self.closed {
            return Err(SinkFault::Spent);
        }
        match write_all(&mut self.output, &bytes[..whole]) {
            Ok(()) => Ok(()),
            Err(fault) => {
                self.closed = true;
                Err(SinkFault::from(fault))
            }
        }
    }

    fn flush(&mut self) -> Result<(), SinkFault> {
        if self.closed {
            return Err(SinkFault::Spent);
        }
        match self.output.flush() {
            Ok(()) => Ok(()),
            Err(fault) => {
                self.closed = true;
                Err(SinkFault::from(fault))
            }
        }
    }

    fn finish(&mut self) -> Result<(), SinkFault> {
        if self.closed {
            return Err(SinkFault::Spent);
        }
        self.closed = true;
        Ok(())
    }

    ghost begins = { λ s ws. begins_appended (O.written s.output) (plain_text ws) };
}
