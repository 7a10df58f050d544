//! An output over std's writers.

ghost use Rattle.cap_words.specs.Inner.{writer_of};
ghost use Rattle.cap_words.specs.declared.from_write.FromWrite.{FromWrite};
ghost use Rattle.std.specs.Prelude.{◌≡◌, false, if◌then◌else◌};

use crate::byte_io::{ByteOut, OutFault};
use std::io::Write;

/// Writes to a std writer, and flushes it where `flush` asks for it. Each error of the writer, an
/// interruption too, is one failure, and so is a write that takes none of some bytes. The writer
/// isn't called again after it, and from then on `flush` answers `Spent` too.
#[derive(Drop)]
pub struct FromWrite<W: Write> {
    writer: W,
    failed: bool,
}

impl<W: Write> FromWrite<W> {
    /// An output that appends to what `writer` holds.
    pub fn new(writer: W) -> FromWrite<W>
        ensures writer { writer_of result ≡ writer }
        ensures written { ⟦<FromWrite<W> as ByteOut>⟧.written result ≡ W.contents writer }
        ensures broken { ⟦<FromWrite<W> as ByteOut>⟧.broken result ≡ false }
        ensures shows_written { (s : FromWrite W) →
            ⟦<FromWrite<W> as ByteOut>⟧.written s ≡ W.contents (writer_of s) }
        ensures fails_once { (s : FromWrite W) →
            (⟦<FromWrite<W> as ByteOut>⟧.failures s).device
            ≡ (if ⟦<FromWrite<W> as ByteOut>⟧.broken s then 1 else 0) }
        ensures no_allocations { (s : FromWrite W) → (⟦<FromWrite<W> as ByteOut>⟧.failures s).memory ≡ 0 }
    {
        FromWrite {
            writer,
            failed: false,
        }
    }

    /// Whether the writer has failed, so that it isn't called any more.
    pub fn has_failed(&self) -> bool
        ensures { result ≡ ⟦<FromWrite<W> as ByteOut>⟧.broken self.now }
    {
        self.failed
    }

    /// Gives the writer back as it is. Nothing is written or flushed.
    pub fn into_inner(self) -> W
        ensures { result ≡ writer_of self }
    {
        self.writer
    }
}

impl<W: Write> ByteOut for FromWrite<W> {
    ghost written = { λ s. W.contents s.writer };

    ghost failures = { λ s. record { device = if s.failed then 1 else 0; memory = 0 } };

    ghost broken = { λ s. s.failed };

    fn write(&mut self, buf: &[u8]) -> Result<usize, OutFault> {
        if buf.is_empty() {
            return Ok(0);
        }
        if self.failed {
            return Err(OutFault::Spent);
        }
        match self.writer.write(buf) {
            Ok(count) if count > 0 => Ok(count),
            _ => {
                self.failed = true;
                Err(OutFault::Device)
            }
        }
    }

    fn flush(&mut self) -> Result<(), OutFault> {
        if self.failed {
            return Err(OutFault::Spent);
        }
        let answer = self.writer.flush();
        self.failed = answer.is_err();
        answer.map_err(|_| OutFault::Device)
    }
}
