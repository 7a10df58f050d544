//! An input over bytes in memory.

ghost use Rattle.cap_words.specs.Laws.{each_byte};
ghost use Rattle.cap_words.specs.Known.{are_bytes};
ghost use Rattle.std.specs.Prelude.{◌≡◌, Some, false, true};

use crate::byte_io::{ByteIn, InFault};

/// Reads a byte slice. It never fails.
#[derive(Clone, Copy, Debug, Drop)]
pub struct SliceIn<'a> {
    // what is still to come
    rest: &'a [u8],
    ghost bytes: { are_bytes rest.now ≡ true },
}

impl<'a> SliceIn<'a> {
    ghost use Rattle.cap_words.specs.declared.slice_in.SliceIn.{SliceIn};

    /// An input with all of `bytes` still to come.
    pub fn new(bytes: &'a [u8]) -> SliceIn<'a>
        ensures to_come { ⟦<SliceIn<'a> as ByteIn>⟧.to_come result ≡ Some bytes.now }
        ensures never_broken { (s : SliceIn) → ⟦<SliceIn<'a> as ByteIn>⟧.broken s ≡ false }
        ensures never_fails { (s : SliceIn) → ⟦<SliceIn<'a> as ByteIn>⟧.failures s ≡ 0 }
    {
        SliceIn { rest: bytes }
    }
}

impl ByteIn for SliceIn<'_> {
    ghost to_come = { λ s. Some s.rest.now };

    ghost failures = { λ _. 0 };

    ghost broken = { λ _. false };

    ghost buffered = { λ s. s.rest.now };

    #[inline(always)]
    fn held(&self) -> &[u8] {
        self.rest
    }

    #[inline(always)]
    fn skip(&mut self, count: usize) {
        let count = count.min(self.rest.len());
        if count > 0 {
            self.rest = &self.rest[count..];
        }
    }

    fn read(&mut self, buf: &mut [u8]) -> Result<usize, InFault> {
        if buf.is_empty() {
            return Ok(0);
        }
        let count = buf.len().min(self.rest.len());
        let (given, rest) = self.rest.split_at(count);
        buf[..count].copy_from_slice(given);
        self.rest = rest;
        Ok(count)
    }

    ghost are_bytes = { λ s. each_byte s.rest.now s.bytes };
}
