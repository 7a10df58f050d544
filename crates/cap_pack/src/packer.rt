//! A sink of words over packed bytes.

ghost use Rattle.cap_pack.specs.Holding.{IsRun, Encodes, first_zeros, group_bytes, held};
ghost use Rattle.cap_spec.specs.Packing.{group_size, pack_text};
ghost use Rattle.cap_words.specs.ByteIo.{MemoryFails, OutputFails, WasClosed};
ghost use Rattle.cap_words.specs.Sinks.{StaysOpen, StoppedPutting, WasPut, begins_appended};
ghost use Rattle.cap_words.specs.declared.sinks.SinkFault.TheVariants.{Device, Memory, Spent};
ghost use Rattle.std.specs.Io.KnownBytes.{Keeps, append_known};
ghost use Rattle.std.specs.Prelude.{◌++◌, ◌<◌, ◌≡◌, ◌≤◌, ◌||◌, IsErrOf, List, OnErr, OnOk, drop, false, length, take, true, ℕ};

use super::encoding::BUFFER_BYTES;
use super::group::{Group, MORE_WORDS, encode_group, write_group};
use super::lanes::{full_run, zero_run};
use super::pieces::{PIECE_WORDS, encode_groups, read_words};
use cap_words::{ByteOut, OutFault, SinkFault, WordSink, write_all};

/// Writes words in one packed encoding (encoding: Packing). A zero word begins the longest run of
/// zero words, at most 256. A word without a zero byte is written literally. The words after it
/// that have at most one zero byte each follow literally, at most 255. Any other word is encoded by
/// itself. It holds at most one group back, which `finish` writes.
#[derive(Drop)]
pub struct Packer<O> {
    output: O,
    closed: bool,
    group: Group,
    // Where a group is encoded before it is written. It is before `words`, and so far from the piece
    // that `put_bytes` reads: a processor may take loads and stores some 4 KiB apart for one place.
    buffer: [u8; BUFFER_BYTES],
    // after the first word of a run of literal words
    words: [u64; MORE_WORDS],
    ghost one_group: { group_size (held group words) ≡ length (held group words) },
    ghost full_first: { first_zeros group ≡ 0 },
}

impl<O: ByteOut> Packer<O> {
    ghost use Rattle.cap_pack.specs.Output.{packer_output};
    ghost use Rattle.cap_pack.specs.declared.packer.Packer.{Packer};

    /// A sink that writes to `output`, after what it took before.
    pub fn new(output: O) -> Packer<O>
        ensures output { packer_output result ≡ output }
        ensures taken { ⟦<Packer<O> as WordSink>⟧.taken result ≡ O.written output }
        ensures empty { (ws : List ℕ) →
            ⟦<Packer<O> as WordSink>⟧.text result ws
            ≡ append_known (O.written output) (pack_text ws) }
        ensures closed { ⟦<Packer<O> as WordSink>⟧.closed result ≡ false }
        ensures broken { ⟦<Packer<O> as WordSink>⟧.broken result ≡ O.broken output }
        ensures shows_taken { (s : Packer O) → ⟦<Packer<O> as WordSink>⟧.taken s ≡ O.written (packer_output s) }
        ensures when_broken { (s : Packer O) →
            ⟦<Packer<O> as WordSink>⟧.broken s
            ≡ (⟦<Packer<O> as WordSink>⟧.closed s || O.broken (packer_output s)) }
        ensures shows_failures { (s : Packer O) →
            ⟦<Packer<O> as WordSink>⟧.failures s ≡ O.failures (packer_output s) }
        ensures text { (s : Packer O) →
            (h : List ℕ) × (group_size h ≡ length h)
            × ((ws : List ℕ) → ⟦<Packer<O> as WordSink>⟧.text s ws
            ≡ append_known (⟦<Packer<O> as WordSink>⟧.taken s) (pack_text (h ++ ws))) }
    {
        Packer {
            output,
            closed: false,
            group: Group::Empty,
            buffer: [0; BUFFER_BYTES],
            words: [0; MORE_WORDS],
        }
    }

    /// Gives the output back as it is. Nothing is written: a group that is still open is lost.
    pub fn into_inner(self) -> O
        ensures { result ≡ packer_output self }
    {
        self.output
    }

    /// Takes the words, one after the other.
    ///
    /// # Errors
    ///
    /// After an error every call returns `Spent`, and what the output took is a beginning of the
    /// text.
    ///
    /// - [`SinkFault::Device`]: the device of the output failed.
    /// - [`SinkFault::Memory`]: an allocation of the output failed.
    /// - [`SinkFault::Spent`]: the sink is finished, or an earlier error has closed it or its
    ///   output. A closed sink returns it also if there is no word.
    pub fn put_all(&mut self, words: &[u64]) -> Result<(), SinkFault>
        ensures put { OnOk result (WasPut ⟦<Packer<O> as WordSink>⟧.text self.old self.new words.now) }
        ensures ok { OnOk result
            (StaysOpen ⟦<Packer<O> as WordSink>⟧.closed ⟦<Packer<O> as WordSink>⟧.broken
            ⟦<Packer<O> as WordSink>⟧.failures self.old self.new) }
        ensures err { OnErr result ((⟦<Packer<O> as WordSink>⟧.closed self.new ≡ true)
            × StoppedPutting ⟦<Packer<O> as WordSink>⟧.text ⟦<Packer<O> as WordSink>⟧.taken self.old
            self.new words.now) }
        ensures stays { ⟦<Packer<O> as WordSink>⟧.closed self.old ≡ true →
            (result ≡ Err Spent) × (self.new ≡ self.old) }
        ensures device { IsErrOf result Device →
            OutputFails ⟦<Packer<O> as WordSink>⟧.broken ⟦<Packer<O> as WordSink>⟧.failures self.old self.new }
        ensures memory { IsErrOf result Memory →
            MemoryFails ⟦<Packer<O> as WordSink>⟧.broken ⟦<Packer<O> as WordSink>⟧.failures self.old self.new }
        ensures was_broken { IsErrOf result Spent →
            WasClosed ⟦<Packer<O> as WordSink>⟧.broken ⟦<Packer<O> as WordSink>⟧.failures self.old self.new
            × Keeps (⟦<Packer<O> as WordSink>⟧.taken self.old) (⟦<Packer<O> as WordSink>⟧.taken self.new) }
    {
        if self.closed {
            return Err(SinkFault::Spent);
        }
        let mut done = 0;
        while done < words.len() {
            let end = words.len().min(done + PIECE_WORDS);
            if let Err(fault) = self.put_piece(&words[done..end]) {
                self.closed = true;
                return Err(SinkFault::from(fault));
            }
            done = end;
        }
        Ok(())
    }

    // Takes as many words in front into the open group as go on with it, and answers how many.
    fn extend(&mut self, words: &[u64]) -> usize
        ensures output { (self.new.output ≡ self.old.output) × (self.new.closed ≡ self.old.closed) }
        ensures within { result ≤ length words.now }
        ensures joined { held self.new.group self.new.words ≡ held self.old.group self.old.words
            ++ take result words.now }
        ensures apart { let rest = drop result words.now in result < length words.now →
            Encodes (held self.new.group self.new.words ++ rest)
            (group_bytes self.new.group self.new.words) rest }
    {
        match self.group {
            Group::Empty => 0,
            Group::Zeros { more } => {
                let count = zero_run(words).min(255 - more as usize);
                self.group = Group::Zeros {
                    more: more + count as u8,
                };
                count
            }
            Group::Plain { first, more } => {
                let count = full_run(words).min(255 - more as usize);
                let end = more as usize + count;
                self.words[more as usize..end].copy_from_slice(&words[..count]);
                self.group = Group::Plain {
                    first,
                    more: end as u8,
                };
                count
            }
        }
    }

    // Holds these words open, and no others.
    fn open(&mut self, words: &[u64])
        requires few { length words.now ≤ 64 }
        requires run { IsRun words.now }
        ensures output { (self.new.output ≡ self.old.output) × (self.new.closed ≡ self.old.closed) }
        ensures held { held self.new.group self.new.words ≡ words.now }
    {
        if words.len() == 0 {
            self.group = Group::Empty;
            return;
        }
        let first = words[0];
        let more = words.len() - 1;
        if first == 0 {
            self.group = Group::Zeros { more: more as u8 };
            return;
        }
        self.words[0..more].copy_from_slice(&words[1..]);
        self.group = Group::Plain {
            first,
            more: more as u8,
        };
    }

    // Takes a piece of words. What encodes the groups that ended is written at once.
    fn put_piece(&mut self, words: &[u64]) -> Result<(), OutFault>
        requires { length words.now ≤ 64 }
        ensures ok { OnOk result (WasPut ⟦<Packer<O> as WordSink>⟧.text self.old self.new words.now) }
        ensures err { OnErr result (StoppedPutting ⟦<Packer<O> as WordSink>⟧.text ⟦<Packer<O> as WordSink>⟧.taken
            self.old self.new words.now) }
        ensures works { OnOk result ((O.broken self.new.output ≡ O.broken self.old.output)
            × (O.failures self.new.output ≡ O.failures self.old.output)) }
        ensures idle { OnOk result (O.broken self.new.output ≡ true →
            self.new.output ≡ self.old.output) }
        ensures device { IsErrOf result OutFault.Device →
            OutputFails O.broken O.failures self.old.output self.new.output }
        ensures memory { IsErrOf result OutFault.Memory →
            MemoryFails O.broken O.failures self.old.output self.new.output }
        ensures was_broken { IsErrOf result OutFault.Spent →
            (O.broken self.old.output ≡ true) × (self.new.output ≡ self.old.output) }
        ensures closed { self.new.closed ≡ self.old.closed }
    {
        let joined = self.extend(words);
        if joined == words.len() {
            return Ok(());
        }
        let start = encode_group(self.group, &self.words, &mut self.buffer);
        let encoded = encode_groups(&words[joined..], &mut self.buffer, start);
        if let Err(fault) = write_all(&mut self.output, &self.buffer[..encoded.bytes]) {
            return Err(fault);
        }
        self.open(&words[joined + encoded.words..]);
        Ok(())
    }
}

impl<O: ByteOut> WordSink for Packer<O> {
    ghost taken = { λ s. O.written s.output };

    ghost text = { λ s ws. append_known (O.written s.output) (pack_text (held s.group s.words ++ ws)) };

    ghost failures = { λ s. O.failures s.output };

    ghost closed = { λ s. s.closed };

    ghost broken = { λ s. s.closed || O.broken s.output };

    fn put(&mut self, word: u64) -> Result<(), SinkFault> {
        self.put_all(&[word])
    }

    fn put_bytes(&mut self, bytes: &[u8]) -> Result<(), SinkFault> {
        if self.closed {
            return Err(SinkFault::Spent);
        }
        let mut words = [0; PIECE_WORDS];
        let mut done = 0;
        while bytes.len() - done >= 8 {
            let count = read_words(&bytes[done..], &mut words);
            if let Err(fault) = self.put_piece(&words[..count]) {
                self.closed = true;
                return Err(SinkFault::from(fault));
            }
            done += 8 * count;
        }
        Ok(())
    }

    fn flush(&mut self) -> Result<(), SinkFault> {
        if self.closed {
            return Err(SinkFault::Spent);
        }
        match self.output.flush() {
            Ok(()) => Ok(()),
            Err(fault) => {
                self.closed = true;
                Err(SinkFault::from(fault))
            }
        }
    }

    fn finish(&mut self) -> Result<(), SinkFault> {
        if self.closed {
            return Err(SinkFault::Spent);
        }
        self.closed = true;
        match write_group(&mut self.output, self.group, &self.words, &mut self.buffer) {
            Ok(()) => Ok(()),
            Err(fault) => Err(SinkFault::from(fault)),
        }
    }

    ghost begins = { λ s ws. begins_appended (O.written s.output) (pack_text (held s.group s.words ++ ws)) };
}
