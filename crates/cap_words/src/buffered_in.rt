//! An input over std's readers, with a buffer.

ghost use Rattle.cap_words.specs.Laws.{known_are_bytes};
ghost use Rattle.cap_words.specs.Known.{known_bytes};
ghost use Rattle.std.specs.Io.KnownBytes.{IsAtEnd, Keeps, ReadConsumes, prepend_known};
ghost use Rattle.std.specs.Prelude.{◌<◌, ◌≡◌, ◌≤◌, IfOk, IsErrOf, OnOk, false, if◌then◌else◌, length, slice_range, take, true, vec_len};

use crate::byte_io::{ByteIn, InFault};
use std::alloc::{AllocError, Global};
use std::io::Read;

// How many bytes are read at a time.
const BUFFER: usize = 65536;

/// Reads from a std reader 64 KiB at a time. Each error of the reader, an interruption too, is one
/// failure, and the reader isn't called again after it.
///
/// It does what `FromRead` over std's `BufReader` does, and is made for many reads of a few bytes:
/// those are given out of the buffer by a copy whose length the compiler knows. If nothing is
/// buffered, a read into a buffer of 64 KiB or more is one read of the reader, past its own buffer.
#[derive(Drop)]
pub struct BufferedIn<R: Read> {
    reader: R,
    // the bytes from `start` up to `end` were read and not yet given
    buffer: Vec<u8>,
    start: usize,
    end: usize,
    failed: bool,
    ghost fits: { 0 < vec_len buffer },
    ghost ordered: { start ≤ end },
    ghost inside: { end ≤ vec_len buffer },
    ghost none_held: { failed ≡ true → start ≡ end },
}

impl<R: Read> BufferedIn<R> {
    ghost use Rattle.cap_words.specs.declared.buffered_in.BufferedIn.{BufferedIn};

    /// An input with all that `reader` has still to come. Allocates once, for its buffer of 64 KiB.
    ///
    /// # Errors
    ///
    /// - [`AllocError`]: allocating the buffer failed.
    pub fn new(alloc: Global, reader: R) -> Result<BufferedIn<R>, AllocError>
    where
        R: Drop,
        ensures to_come { IfOk result (λ s.
            ⟦<BufferedIn<R> as ByteIn>⟧.to_come s ≡ known_bytes (R.remaining reader)) }
        ensures broken { IfOk result (λ s. ⟦<BufferedIn<R> as ByteIn>⟧.broken s ≡ false) }
        ensures fails_once { (s : BufferedIn R R.Read) →
            ⟦<BufferedIn<R> as ByteIn>⟧.failures s
            ≡ (if ⟦<BufferedIn<R> as ByteIn>⟧.broken s then 1 else 0) }
    {
        let mut buffer = Vec::with_capacity(alloc, BUFFER)?;
        buffer.resize(BUFFER, 0)?;
        Ok(BufferedIn {
            reader,
            buffer,
            start: 0,
            end: 0,
            failed: false,
        })
    }

    // Reads once, where all that was read has been given.
    #[cold]
    #[inline(never)]
    fn refill(&mut self) -> Result<(), InFault>
        requires { self.old.start ≡ self.old.end }
        ensures bytes { Keeps
            (prepend_known (⟦<BufferedIn<R> as ByteIn>⟧.buffered self.old) (R.remaining self.old.reader))
            (prepend_known (⟦<BufferedIn<R> as ByteIn>⟧.buffered self.new) (R.remaining self.new.reader)) }
        ensures end { OnOk result (self.new.start ≡ self.new.end →
            IsAtEnd (R.remaining self.new.reader)) }
        ensures ok { OnOk result ((self.old.failed ≡ false) × (self.new.failed ≡ false)) }
        ensures device { IsErrOf result InFault.Device →
            (self.old.failed ≡ false) × (self.new.failed ≡ true) }
        ensures was_broken { IsErrOf result InFault.Spent →
            (self.old.failed ≡ true) × (self.new ≡ self.old) }
    {
        if self.failed {
            return Err(InFault::Spent);
        }
        match self.reader.read(self.buffer.as_mut_slice()) {
            Ok(count) => {
                self.start = 0;
                self.end = count;
                Ok(())
            }
            Err(_) => {
                self.failed = true;
                Err(InFault::Device)
            }
        }
    }

    // Reads once, straight into a buffer of its own buffer's size or more, after all that was read
    // has been given: bytes that fill the buffer are copied no second time.
    #[inline(never)]
    fn read_past(&mut self, buf: &mut [u8]) -> Result<usize, InFault>
        requires { self.old.start ≡ self.old.end }
        ensures within { IfOk result (λ n. n ≤ length buf.new) }
        ensures bytes { ReadConsumes (R.remaining self.old.reader) (R.remaining self.new.reader)
            result buf.new }
        ensures held { (self.new.buffer ≡ self.old.buffer) × (self.new.start ≡ self.old.start)
            × (self.new.end ≡ self.old.end) }
        ensures ok { OnOk result ((self.old.failed ≡ false) × (self.new.failed ≡ false)) }
        ensures device { IsErrOf result InFault.Device →
            (self.old.failed ≡ false) × (self.new.failed ≡ true) }
        ensures was_broken { IsErrOf result InFault.Spent →
            (self.old.failed ≡ true) × (self.new ≡ self.old) }
    {
        if self.failed {
            return Err(InFault::Spent);
        }
        let answer = self.reader.read(buf);
        self.failed = answer.is_err();
        answer.map_err(|_| InFault::Device)
    }
}

impl<R: Read> ByteIn for BufferedIn<R> {
    ghost to_come = { λ s. known_bytes (prepend_known (slice_range s.buffer.items s.start s.end) (R.remaining s.reader)) };

    ghost failures = { λ s. if s.failed then 1 else 0 };

    ghost broken = { λ s. s.failed };

    ghost buffered = { λ s. slice_range s.buffer.items s.start s.end };

    #[inline(always)]
    fn held(&self) -> &[u8] {
        &self.buffer[self.start..self.end]
    }

    #[inline(always)]
    fn skip(&mut self, count: usize) {
        let count = count.min(self.end - self.start);
        if count > 0 {
            self.start += count;
        }
    }

    #[inline(always)]
    fn read(&mut self, buf: &mut [u8]) -> Result<usize, InFault> {
        if buf.is_empty() {
            return Ok(0);
        }
        if self.start == self.end {
            if buf.len() >= BUFFER {
                return self.read_past(buf);
            }
            if let Err(fault) = self.refill() {
                return Err(fault);
            }
        }
        let count = copy_front(&self.buffer[self.start..self.end], buf);
        self.start += count;
        Ok(count)
    }

    ghost are_bytes = { λ s. known_are_bytes (prepend_known (slice_range s.buffer.items s.start s.end) (R.remaining s.reader)) };
}

// Copies as many bytes as there are and as `to` has space for. A copy that fills `to` is a case of
// its own. Its length is known wherever that of `to` is: for a word it is one move and no call.
#[inline(always)]
fn copy_front(from: &[u8], to: &mut [u8]) -> usize
    ensures within { result ≤ length from.now }
    ensures fits { result ≤ length to.new }
    ensures copied { take result to.new ≡ take result from.now }
    ensures some { 0 < length from.now → 0 < length to.old → 0 < result }
{
    let capacity = to.len();
    if capacity <= from.len() {
        to.copy_from_slice(&from[..capacity]);
        capacity
    } else {
        to[..from.len()].copy_from_slice(from);
        from.len()
    }
}
