//! Filling a whole buffer from an input, counting what was read, and writing a whole buffer to an
//! output.

ghost use Rattle.cap_words.specs.Counting.{Reads};
ghost use Rattle.cap_words.specs.ByteIo.{InputFails, MemoryFails, NoFault, OutputFails};
ghost use Rattle.std.specs.Io.KnownBytes.{Appends, Consumes, IsAtEnd};
ghost use Rattle.std.specs.Prelude.{◌<◌, ◌≡◌, ◌≤◌, [], IfNone, IfOk, IfSome, IsErrOf, List, OnErr, OnOk, length, take, true, ℕ};

use crate::byte_io::{ByteIn, ByteOut, InFault, OutFault};

/// How many bytes of a buffer were filled, and the fault that came before it was full.
#[derive(Clone, Copy, Debug, PartialEq, Eq, Drop)]
pub struct Filled {
    /// The bytes at the start of the buffer that came from the input.
    pub len: usize,
    /// Why there are no more of them, where it isn't that the input ended.
    pub fault: Option<InFault>,
}

/// Reads until the buffer is full, the input ends or a fault comes. The bytes before a fault are
/// kept. An empty buffer is full, and then nothing is read.
#[inline]
pub fn fill<I: ByteIn>(input: &mut I, buf: &mut [u8]) -> Filled
    ensures len { result.len ≤ length buf.new }
    ensures bytes { Consumes (I.to_come input.old) (I.to_come input.new) (take result.len buf.new) }
    ensures too_small { buf.old ≡ [] → (result.fault ≡ None) × (input.new ≡ input.old) }
    ensures end { IfNone result.fault (result.len < length buf.new → IsAtEnd (I.to_come input.new)) }
    ensures short { IfSome result.fault (λ _. result.len < length buf.new) }
    ensures ok { 0 < length buf.old →
        IfNone result.fault (NoFault I.broken I.failures input.old input.new) }
    ensures device { result.fault ≡ Some InFault.Device →
        InputFails I.broken I.failures input.old input.new }
    ensures was_broken { result.fault ≡ Some InFault.Spent →
        (I.broken input.old ≡ true) × (result.len ≡ 0) × (input.new ≡ input.old) }
{
    // Nearly always the first read fills the buffer, so the loop for the others is a function of
    // its own.
    match input.read(buf) {
        Ok(count) if 0 < count && count < buf.len() => {
            let rest = fill_rest(input, &mut buf[count..]);
            Filled {
                len: count + rest.len,
                fault: rest.fault,
            }
        }
        Ok(count) => Filled {
            len: count,
            fault: None,
        },
        Err(fault) => Filled {
            len: 0,
            fault: Some(fault),
        },
    }
}

// Fills what a first read left of a buffer.
#[cold]
#[inline(never)]
fn fill_rest<I: ByteIn>(input: &mut I, buf: &mut [u8]) -> Filled
    ensures len { result.len ≤ length buf.new }
    ensures bytes { Consumes (I.to_come input.old) (I.to_come input.new) (take result.len buf.new) }
    ensures end { IfNone result.fault (result.len < length buf.new → IsAtEnd (I.to_come input.new)) }
    ensures short { IfSome result.fault (λ _. result.len < length buf.new) }
    ensures ok { 0 < length buf.old →
        IfNone result.fault (NoFault I.broken I.failures input.old input.new) }
    ensures device { result.fault ≡ Some InFault.Device →
        InputFails I.broken I.failures input.old input.new }
    ensures was_broken { result.fault ≡ Some InFault.Spent → I.broken input.old ≡ true }
{
    let mut len = 0;
    while len < buf.len() {
        match input.read(&mut buf[len..]) {
            Ok(0) => break,
            Ok(count) => len += count,
            Err(fault) => return Filled {
                len,
                fault: Some(fault),
            },
        }
    }
    Filled { len, fault: None }
}

/// Writes all the bytes. With no bytes the output isn't called.
///
/// # Errors
///
/// After an error the output took a beginning of the bytes, and not all of them.
///
/// - [`OutFault::Device`]: the device of the output failed. The output is closed then.
/// - [`OutFault::Memory`]: an allocation of the output failed.
/// - [`OutFault::Spent`]: an earlier error had closed the output. It is as it was.
pub fn write_all<O: ByteOut>(output: &mut O, bytes: &[u8]) -> Result<(), OutFault>
    ensures ok { OnOk result (Appends (O.written output.old) (O.written output.new) bytes.now) }
    ensures err { OnErr result ((n : ℕ) × (n < length bytes.now)
        × Appends (O.written output.old) (O.written output.new) (take n bytes.now)) }
    ensures no_bytes { bytes.now ≡ [] → (result ≡ Ok tt) × (output.new ≡ output.old) }
    ensures works { 0 < length bytes.now →
        OnOk result (NoFault O.broken O.failures output.old output.new) }
    ensures device { IsErrOf result OutFault.Device →
        OutputFails O.broken O.failures output.old output.new × (O.broken output.new ≡ true) }
    ensures memory { IsErrOf result OutFault.Memory →
        MemoryFails O.broken O.failures output.old output.new }
    ensures was_broken { IsErrOf result OutFault.Spent →
        (O.broken output.old ≡ true) × (output.new ≡ output.old) }
{
    let mut done = 0;
    while done < bytes.len() {
        match output.write(&bytes[done..]) {
            Ok(count) => done += count,
            Err(fault) => return Err(fault),
        }
    }
    Ok(())
}

/// An input, and how many bytes were read of it. An error is returned, and not remembered.
#[derive(Drop)]
pub struct Counted<I: ByteIn> {
    /// The input itself.
    pub input: I,
    /// How many bytes were read so far, or 2^64 - 1 if there were more.
    pub read: u64,
}

impl<I: ByteIn> Counted<I> {
    /// Fills a buffer with the next bytes as far as there are any, and returns how many came. An
    /// empty buffer is full, and then nothing is read and nothing changes.
    ///
    /// # Errors
    ///
    /// After an error the bytes that came before it are counted, and are not known.
    ///
    /// - [`InFault::Device`]: the device of the input failed in this call.
    /// - [`InFault::Spent`]: an earlier error had closed the input. Nothing was read.
    #[inline(always)]
    pub fn fill(&mut self, buf: &mut [u8]) -> Result<usize, InFault>
        ensures len { IfOk result (λ n. n ≤ length buf.new) }
        ensures took { IfOk result (λ n. Reads I.to_come self.old self.new (take n buf.new)) }
        ensures empty { buf.old ≡ [] → (result ≡ Ok 0) × (self.new ≡ self.old) }
        ensures end { IfOk result (λ n. n < length buf.new → IsAtEnd (I.to_come self.new.input)) }
        ensures still { result ≡ Ok 0 → self.new.read ≡ self.old.read }
        ensures works { 0 < length buf.old →
            OnOk result (NoFault I.broken I.failures self.old.input self.new.input) }
        ensures device { IsErrOf result InFault.Device →
            InputFails I.broken I.failures self.old.input self.new.input }
        ensures reads { (bs : List ℕ) × Reads I.to_come self.old self.new bs }
        ensures was_broken { IsErrOf result InFault.Spent →
            (I.broken self.old.input ≡ true) × (self.new ≡ self.old) }
    {
        let read = self.read;
        let filled = fill(&mut self.input, buf);
        self.read = read.saturating_add(filled.len as u64);
        match filled.fault {
            None => Ok(filled.len),
            Some(fault) => Err(fault),
        }
    }
}
