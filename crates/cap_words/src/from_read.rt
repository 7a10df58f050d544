//! An input over std's readers.

ghost use Rattle.cap_words.specs.Laws.{known_are_bytes};
ghost use Rattle.cap_words.specs.Inner.{reader_of};
ghost use Rattle.cap_words.specs.Known.{known_bytes};
ghost use Rattle.cap_words.specs.declared.from_read.FromRead.{FromRead};
ghost use Rattle.std.specs.Prelude.{◌≡◌, [], false, if◌then◌else◌};

use crate::byte_io::{ByteIn, InFault};
use std::io::Read;

/// Reads from a std reader. Each error of the reader, an interruption too, is one failure, and
/// the reader isn't called again after it.
#[derive(Drop)]
pub struct FromRead<R: Read> {
    reader: R,
    failed: bool,
}

impl<R: Read> FromRead<R> {
    /// An input with all that `reader` has still to come.
    pub fn new(reader: R) -> FromRead<R>
        ensures reader { reader_of result ≡ reader }
        ensures to_come { ⟦<FromRead<R> as ByteIn>⟧.to_come result ≡ known_bytes (R.remaining reader) }
        ensures broken { ⟦<FromRead<R> as ByteIn>⟧.broken result ≡ false }
        ensures shows_to_come { (s : FromRead R) →
            ⟦<FromRead<R> as ByteIn>⟧.to_come s ≡ known_bytes (R.remaining (reader_of s)) }
        ensures fails_once { (s : FromRead R) →
            ⟦<FromRead<R> as ByteIn>⟧.failures s
            ≡ (if ⟦<FromRead<R> as ByteIn>⟧.broken s then 1 else 0) }
    {
        FromRead {
            reader,
            failed: false,
        }
    }

    /// Gives the reader back as it is.
    pub fn into_inner(self) -> R
        ensures { result ≡ reader_of self }
    {
        self.reader
    }
}

impl<R: Read> ByteIn for FromRead<R> {
    ghost to_come = { λ s. known_bytes (R.remaining s.reader) };

    ghost failures = { λ s. if s.failed then 1 else 0 };

    ghost broken = { λ s. s.failed };

    ghost buffered = { λ _. [] };

    fn held(&self) -> &[u8] {
        &[]
    }

    fn skip(&mut self, _count: usize) {}

    fn read(&mut self, buf: &mut [u8]) -> Result<usize, InFault> {
        if buf.is_empty() {
            return Ok(0);
        }
        if self.failed {
            return Err(InFault::Spent);
        }
        match self.reader.read(buf) {
            Ok(count) => Ok(count),
            Err(_) => {
                self.failed = true;
                Err(InFault::Device)
            }
        }
    }

    ghost are_bytes = { λ s. known_are_bytes (R.remaining s.reader) };
}
