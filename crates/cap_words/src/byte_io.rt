//! The ends that bytes come in and go out by, and what a source does at its next call.

ghost use Rattle.cap_words.specs.ByteIo.{Failures, InputFails, MemoryFails, NoFault, OutputFails, WasClosed};
ghost use Rattle.std.specs.Io.KnownBytes.{Consumes, Keeps, ReadConsumes, WriteAppends};
ghost use Rattle.std.specs.List.{AllByRecursion};
ghost use Rattle.std.specs.Prelude.{◌++◌, ◌<◌, ◌≡◌, ◌≤◌, [], Bool, IfOk, IfSome, IsErrOf, List, OnOk, Option, drop, false, length, take, true, ℕ};

/// Why a read gave no bytes.
#[derive(Clone, Copy, Debug, PartialEq, Eq, Drop)]
pub enum InFault {
    /// The device failed in this call.
    Device,
    /// An earlier fault has ended the input.
    Spent,
}

/// Why a write took no bytes.
#[derive(Clone, Copy, Debug, PartialEq, Eq, Drop)]
pub enum OutFault {
    /// The device failed in this call.
    Device,
    /// An allocation failed in this call.
    Memory,
    /// An earlier fault has ended the output.
    Spent,
}

/// Bytes that come in.
pub trait ByteIn {
    // The bytes still to come, where they are known.
    ghost to_come: { Self → Option (List ℕ) };

    // How often the device failed.
    ghost failures: { Self → ℕ };

    // An earlier fault has ended it.
    ghost broken: { Self → Bool };

    // The bytes that can be taken without a call of the device.
    ghost buffered: { Self → List ℕ };

    /// The buffered bytes, which are the first of those to come. They can be taken without a call
    /// of the device. An input that an error has closed has none. An input that holds nothing back
    /// always has none.
    fn held(&self) -> &[u8]
        ensures held { result.now ≡ buffered self.now }
        ensures known { IfSome (to_come self.now) (λ xs. (rest : List ℕ) × (xs ≡ result.now ++ rest)) }
        ensures usable { 0 < length result.now → broken self.now ≡ false };

    /// Takes the first `count` of the buffered bytes, or all of them if there are fewer. Nothing
    /// else happens: if there are none to take, the input stays as it is.
    fn skip(&mut self, count: usize)
        ensures idle { take count (buffered self.old) ≡ [] → self.new ≡ self.old }
        ensures bytes { Consumes (to_come self.old) (to_come self.new) (take count (buffered self.old)) }
        ensures left { buffered self.new ≡ drop count (buffered self.old) }
        ensures broken { broken self.new ≡ broken self.old }
        ensures failures { failures self.new ≡ failures self.old };

    /// The next bytes, at most as many as `buf` has. With an empty `buf` the result is always 0,
    /// and nothing happens. Otherwise 0 is the end of the input.
    ///
    /// # Errors
    ///
    /// An error takes no bytes. After one, every call with a `buf` that isn't empty returns
    /// `Spent`.
    ///
    /// - [`InFault::Device`]: the device failed in this call.
    /// - [`InFault::Spent`]: an earlier error has closed the input.
    fn read(&mut self, buf: &mut [u8]) -> Result<usize, InFault>
        ensures within { IfOk result (λ n. n ≤ length buf.new) }
        ensures bytes { ReadConsumes (to_come self.old) (to_come self.new) result buf.new }
        ensures too_small { buf.old ≡ [] → (result ≡ Ok 0) × (self.new ≡ self.old) }
        ensures for_good { broken self.old ≡ true → self.new ≡ self.old }
        ensures ok { 0 < length buf.old → OnOk result (NoFault broken failures self.old self.new) }
        ensures device { IsErrOf result InFault.Device → InputFails broken failures self.old self.new }
        ensures was_broken { IsErrOf result InFault.Spent → WasClosed broken failures self.old self.new };

    // What is known to come are bytes.
    ghost are_bytes: { (s : Self) → IfSome (to_come s) (AllByRecursion (λ b. b < 256)) };
}

/// Bytes that go out.
pub trait ByteOut {
    // The bytes written so far, where they are known.
    ghost written: { Self → Option (List ℕ) };

    // How often the device failed, or an allocation failed.
    ghost failures: { Self → Failures };

    // An earlier fault has ended it.
    ghost broken: { Self → Bool };

    /// Takes a beginning of the bytes, at least one of them if there is one, and returns how many.
    /// With no bytes nothing happens.
    ///
    /// # Errors
    ///
    /// An error takes no bytes.
    ///
    /// - [`OutFault::Device`]: the device failed in this call. After it every call with bytes
    ///   returns `Spent`.
    /// - [`OutFault::Memory`]: an allocation failed in this call. A later call may succeed.
    /// - [`OutFault::Spent`]: an earlier error has closed the output.
    fn write(&mut self, buf: &[u8]) -> Result<usize, OutFault>
        ensures within { IfOk result (λ n. n ≤ length buf.now) }
        ensures bytes { WriteAppends (written self.old) (written self.new) result buf.now }
        ensures no_bytes { buf.now ≡ [] → (result ≡ Ok 0) × (self.new ≡ self.old) }
        ensures for_good { broken self.old ≡ true → self.new ≡ self.old }
        ensures some { 0 < length buf.now → IfOk result (λ n. 0 < n) }
        ensures ok { 0 < length buf.now → OnOk result (NoFault broken failures self.old self.new) }
        ensures device { IsErrOf result OutFault.Device →
            OutputFails broken failures self.old self.new × (broken self.new ≡ true) }
        ensures memory { IsErrOf result OutFault.Memory → MemoryFails broken failures self.old self.new }
        ensures was_broken { IsErrOf result OutFault.Spent → WasClosed broken failures self.old self.new };

    /// Flushes what was written, if the output or its device holds some of it back. No byte is
    /// added or lost. An output that holds nothing back returns `Ok` even after `Device`.
    ///
    /// # Errors
    ///
    /// - [`OutFault::Device`]: the device failed in this call. After it every write with bytes
    ///   returns `Spent`, and so does `flush` if there is anything to flush.
    /// - [`OutFault::Memory`]: an allocation failed in this call.
    /// - [`OutFault::Spent`]: an earlier error has closed the output.
    fn flush(&mut self) -> Result<(), OutFault>
        ensures bytes { Keeps (written self.old) (written self.new) }
        ensures for_good { broken self.old ≡ true → self.new ≡ self.old }
        ensures ok { OnOk result ((broken self.new ≡ broken self.old)
            × (failures self.new ≡ failures self.old)) }
        ensures device { IsErrOf result OutFault.Device →
            OutputFails broken failures self.old self.new × (broken self.new ≡ true) }
        ensures memory { IsErrOf result OutFault.Memory → MemoryFails broken failures self.old self.new }
        ensures was_broken { IsErrOf result OutFault.Spent → WasClosed broken failures self.old self.new }
    {
        Ok(())
    }
}

/// What a source does at its next call.
#[derive(Clone, Copy)]
pub enum Phase {
    /// It goes on.
    Open,
    /// It has returned that there are no more words.
    Ended,
    /// It has returned an error.
    Failed,
}
