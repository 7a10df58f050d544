//! An output into memory.

ghost use Rattle.cap_words.specs.ByteIo.{MemoryFails, NoFault, OutputFails, WasClosed};
ghost use Rattle.cap_words.specs.Vectors.{vec_failures, vec_spare, vec_broken, vec_written};
ghost use Rattle.cap_words.specs.declared.vec_out.VecOut.{VecOut};
ghost use Rattle.std.specs.Io.KnownBytes.{WriteAppends};
ghost use Rattle.std.specs.Prelude.{◌-◌, ◌<◌, ◌==◌, ◌^◌, ◌≡◌, ◌≤◌, [], IfOk, IsErrOf, OnOk, Some, length, true};

use crate::byte_io::{ByteOut, OutFault};
use std::alloc::Global;

/// Appends to a vector: all bytes of a call, or nothing if the vector can't grow. A later call may
/// succeed then. It is closed after 2^64 - 1 failed allocations.
#[derive(Drop)]
pub struct VecOut {
    bytes: Vec<u8>,
    refused: u64,
}

impl VecOut {
    /// An output that holds no bytes yet.
    pub fn new(alloc: Global) -> VecOut
        ensures written { ⟦<VecOut as ByteOut>⟧.written result ≡ Some [] }
        ensures none_failed { ⟦<VecOut as ByteOut>⟧.failures result ≡ record { device = 0; memory = 0 } }
        ensures when_broken { (s : VecOut) →
            ⟦<VecOut as ByteOut>⟧.broken s
            ≡ ((⟦<VecOut as ByteOut>⟧.failures s).memory == 2 ^ 64 - 1) }
        ensures no_device { (s : VecOut) → (⟦<VecOut as ByteOut>⟧.failures s).device ≡ 0 }
    {
        VecOut {
            bytes: Vec::new(alloc),
            refused: 0,
        }
    }

    /// The bytes that were written so far.
    pub fn bytes(&self) -> &[u8]
        ensures { ⟦<VecOut as ByteOut>⟧.written self.now ≡ Some result.now }
    {
        self.bytes.as_slice()
    }
}

impl ByteOut for VecOut {
    ghost written = { vec_written };

    ghost failures = { vec_failures };

    ghost broken = { vec_broken };

    /// Takes all the bytes, or none where the vector can't grow.
    fn write(&mut self, buf: &[u8]) -> Result<usize, OutFault>
        ensures within { IfOk result (λ n. n ≤ length buf.now) }
        ensures all { IfOk result (λ n. n ≡ length buf.now) }
        ensures bytes { WriteAppends (vec_written self.old) (vec_written self.new) result buf.now }
        ensures no_bytes { buf.now ≡ [] → (result ≡ Ok 0) × (self.new ≡ self.old) }
        ensures for_good { vec_broken self.old ≡ true → self.new ≡ self.old }
        ensures some { 0 < length buf.now → IfOk result (λ n. 0 < n) }
        ensures ok { 0 < length buf.now →
            OnOk result (NoFault vec_broken vec_failures self.old self.new) }
        ensures device { IsErrOf result OutFault.Device →
            OutputFails vec_broken vec_failures self.old self.new × (vec_broken self.new ≡ true) }
        ensures memory { IsErrOf result OutFault.Memory →
            MemoryFails vec_broken vec_failures self.old self.new }
        ensures full { IsErrOf result OutFault.Memory →
            (vec_spare self.old < length buf.now) × (vec_spare self.old ≤ vec_spare self.new) }
        ensures was_broken { IsErrOf result OutFault.Spent →
            WasClosed vec_broken vec_failures self.old self.new }
    {
        if buf.is_empty() {
            return Ok(0);
        }
        if self.refused == u64::MAX {
            return Err(OutFault::Spent);
        }
        if self.bytes.extend_from_slice(buf).is_err() {
            self.refused += 1;
            return Err(OutFault::Memory);
        }
        Ok(buf.len())
    }
}
