//! Sinks of words.

ghost use Rattle.cap_spec.specs.Plain.{plain_words};
ghost use Rattle.cap_words.specs.ByteIo.{Failures, MemoryFails, OutputFails, WasClosed};
ghost use Rattle.cap_words.specs.Sinks.{Begins, StaysOpen, StoppedPutting, WasFinished, WasPut, sink_fault_of};
ghost use Rattle.cap_words.specs.declared.sinks.SinkFault.TheVariants.{Device, Memory, Spent};
ghost use Rattle.std.specs.Io.KnownBytes.{Keeps};
ghost use Rattle.std.specs.Prelude.{◌≡◌, [], ◌∷◌, Bool, IsErrOf, List, OnErr, OnOk, Option, false, true, ℕ};

use crate::byte_io::OutFault;

/// Why a sink didn't take a word, or wasn't finished.
#[derive(Clone, Copy, Debug, PartialEq, Eq, Drop)]
pub enum SinkFault {
    /// The output's device failed in this call.
    Device,
    /// An allocation of the output failed in this call.
    Memory,
    /// The sink is finished, or an earlier fault has ended it or its output.
    Spent,
}

impl From<OutFault> for SinkFault {
    ghost from_gives = { λ fault given. given ≡ sink_fault_of fault };

    fn from(fault: OutFault) -> SinkFault {
        match fault {
            OutFault::Device => SinkFault::Device,
            OutFault::Memory => SinkFault::Memory,
            OutFault::Spent => SinkFault::Spent,
        }
    }
}

/// Words that go out.
pub trait WordSink {
    // The bytes that the output took so far, where they are known.
    ghost taken: { Self → Option (List ℕ) };

    // The whole text, where it is known, if these words come next and no more after them.
    ghost text: { Self → List ℕ → Option (List ℕ) };

    // How often the output failed.
    ghost failures: { Self → Failures };

    // It is finished, or has answered a fault.
    ghost closed: { Self → Bool };

    // It is closed, or an earlier fault has ended its output.
    ghost broken: { Self → Bool };

    /// Takes one more word. After a fault every call answers `Spent`, and what the output took is a
    /// beginning of the text.
    fn put(&mut self, word: u64) -> Result<(), SinkFault>
        ensures put { OnOk result (WasPut text self.old self.new (word ∷ [])) }
        ensures ok { OnOk result (StaysOpen closed broken failures self.old self.new) }
        ensures err { OnErr result ((closed self.new ≡ true)
            × ((ws : List ℕ) → Begins (text self.old (word ∷ ws)) (taken self.new))) }
        ensures stays { closed self.old ≡ true → (result ≡ Err Spent) × (self.new ≡ self.old) }
        ensures device { IsErrOf result Device → OutputFails broken failures self.old self.new }
        ensures memory { IsErrOf result Memory → MemoryFails broken failures self.old self.new }
        ensures was_broken { IsErrOf result Spent → WasClosed broken failures self.old self.new
            × Keeps (taken self.old) (taken self.new) };

    /// Takes the words of these bytes, one after the other, the lowest byte of each first; less than a
    /// word at the end is left out. After a fault every call answers `Spent`, and what the output took
    /// is a beginning of the text. A closed sink answers `Spent` also where there is no word.
    fn put_bytes(&mut self, bytes: &[u8]) -> Result<(), SinkFault>
        ensures put { OnOk result (WasPut text self.old self.new (plain_words bytes.now)) }
        ensures ok { OnOk result (StaysOpen closed broken failures self.old self.new) }
        ensures err { OnErr result ((closed self.new ≡ true)
            × StoppedPutting text taken self.old self.new (plain_words bytes.now)) }
        ensures stays { closed self.old ≡ true → (result ≡ Err Spent) × (self.new ≡ self.old) }
        ensures device { IsErrOf result Device → OutputFails broken failures self.old self.new }
        ensures memory { IsErrOf result Memory → MemoryFails broken failures self.old self.new }
        ensures was_broken { IsErrOf result Spent → WasClosed broken failures self.old self.new
            × Keeps (taken self.old) (taken self.new) };

    /// Flushes the output, which passes on the bytes that it holds back. A word that the sink holds back
    /// itself stays: `finish` writes it. After a fault every call answers `Spent`.
    fn flush(&mut self) -> Result<(), SinkFault>
        ensures put { OnOk result (WasPut text self.old self.new []) }
        ensures ok { OnOk result (StaysOpen closed broken failures self.old self.new) }
        ensures err { OnErr result ((closed self.new ≡ true)
            × StoppedPutting text taken self.old self.new []) }
        ensures kept { Keeps (taken self.old) (taken self.new) }
        ensures stays { closed self.old ≡ true → (result ≡ Err Spent) × (self.new ≡ self.old) }
        ensures device { IsErrOf result Device → OutputFails broken failures self.old self.new }
        ensures memory { IsErrOf result Memory → MemoryFails broken failures self.old self.new }
        ensures was_broken { IsErrOf result Spent → WasClosed broken failures self.old self.new };

    /// Writes what is held back. After `Ok` as after a fault every call answers `Spent`.
    fn finish(&mut self) -> Result<(), SinkFault>
        ensures finished { OnOk result (WasFinished text taken self.old self.new []) }
        ensures ok { OnOk result ((closed self.old ≡ false) × (closed self.new ≡ true)
            × (failures self.new ≡ failures self.old)) }
        ensures err { OnErr result ((closed self.new ≡ true)
            × Begins (text self.old []) (taken self.new)) }
        ensures stays { closed self.old ≡ true → (result ≡ Err Spent) × (self.new ≡ self.old) }
        ensures device { IsErrOf result Device → OutputFails broken failures self.old self.new }
        ensures memory { IsErrOf result Memory → MemoryFails broken failures self.old self.new }
        ensures was_broken { IsErrOf result Spent → WasClosed broken failures self.old self.new
            × Keeps (taken self.old) (taken self.new) };

    // What was taken begins each text that may come of it.
    ghost begins: { (s : Self) (ws : List ℕ) → Begins (text s ws) (taken s) };
}
