//! Sources of words.

ghost use Rattle.cap_spec.specs.Plain.{plain_text, plain_words};
ghost use Rattle.cap_spec.specs.Words.{IsWord};
ghost use Rattle.cap_words.specs.ByteIo.{InputFails, NoFault, WasClosed};
ghost use Rattle.cap_words.specs.Phases.{source_fault_of};
ghost use Rattle.cap_words.specs.TakingMany.{EndsWithin, ReadsBytes, TakesWords};
ghost use Rattle.cap_words.specs.declared.sources.SourceFault.TheVariants.{Device, Spent, Truncated};
ghost use Rattle.std.specs.Io.KnownBytes.{Consumes, Keeps};
ghost use Rattle.std.specs.List.{AllByRecursion};
ghost use Rattle.std.specs.Option.{option_to_list};
ghost use Rattle.std.specs.Prelude.{◌*◌, ◌+◌, ◌++◌, ◌-◌, ◌/◌, ◌<◌, ◌^◌, ◌≡◌, ◌≤◌, ◌⊎◌, [], ◌∷◌, Bool, IfOk};
ghost use Rattle.std.specs.Prelude.{IfSome, IsErrOf, List, OnErr, OnOk, OnSome, Option, drop, false, length, min, take, true, ℕ};
ghost use Rattle.std.specs.Vec.{vec_capacity, vec_len};

use crate::byte_io::InFault;
use crate::word::bytes_of;

/// Why a source gave no word.
#[derive(Clone, Copy, Debug, PartialEq, Eq, Drop)]
pub enum SourceFault {
    /// The input ended inside a word, or inside a group of packed words. `byte` is the position then.
    Truncated { byte: u64 },
    /// The input's device failed in this call.
    Device,
    /// An earlier fault has ended the source, or its input.
    Spent,
}

impl From<InFault> for SourceFault {
    ghost from_gives = { λ fault given. given ≡ source_fault_of fault };

    fn from(fault: InFault) -> SourceFault {
        match fault {
            InFault::Device => SourceFault::Device,
            InFault::Spent => SourceFault::Spent,
        }
    }
}

/// Words that come in.
pub trait WordSource {
    // The words still to come, where they are known.
    ghost words: { Self → Option (List ℕ) };

    // Whether the input then ends inside a word.
    ghost is_cut: { Self → Bool };

    // How many bytes were read so far, which stops at 2 ^ 64 - 1.
    ghost place: { Self → ℕ };

    // The place after each further word, and last the one at the end of the input.
    ghost places: { Self → List ℕ };

    // The bytes of the input still to come, where they are known.
    ghost unread: { Self → Option (List ℕ) };

    // It has answered that there are no more words.
    ghost ended: { Self → Bool };

    // It has answered a fault.
    ghost failed: { Self → Bool };

    // How often the input failed.
    ghost failures: { Self → ℕ };

    // An earlier fault has ended it, or its input.
    ghost broken: { Self → Bool };

    /// The next word, or `None` if the input ends between words, and from then on.
    ///
    /// # Errors
    ///
    /// After an error every call returns `Spent`.
    ///
    /// - [`SourceFault::Truncated`]: the input ended inside a word, or inside a
    ///   group of packed words. `byte` is the position then.
    /// - [`SourceFault::Device`]: the device of the input failed in this call.
    /// - [`SourceFault::Spent`]: an earlier error has closed the source, or its input.
    fn next(&mut self) -> Result<Option<u64>, SourceFault>
        ensures words { IfOk result (λ r.
            Consumes (words self.old) (words self.new) (option_to_list r)) }
        ensures word { IfOk result (λ r.
            IfSome r (λ _. OnSome (words self.old) ((is_cut self.new ≡ is_cut self.old)
            × (places self.old ≡ place self.new ∷ places self.new)))) }
        ensures none { result ≡ Ok None →
            OnSome (words self.old) ((words self.old ≡ Some []) × (is_cut self.old ≡ false)
            × (places self.old ≡ place self.new ∷ [])) }
        ensures ended { result ≡ Ok None → ended self.new ≡ true }
        ensures stays { ended self.old ≡ true → (result ≡ Ok None) × (self.new ≡ self.old) }
        ensures err { OnErr result (failed self.new ≡ true) }
        ensures for_good { failed self.old ≡ true → (result ≡ Err Spent) × (self.new ≡ self.old) }
        ensures reads { (bs : List ℕ) × Consumes (unread self.old) (unread self.new) bs
            × (place self.new ≡ min (place self.old + length bs) (2 ^ 64 - 1)) }
        ensures ok { OnOk result (NoFault broken failures self.old self.new) }
        ensures truncated { (byte : ℕ) → IsErrOf result (Truncated byte) →
            OnSome (words self.old) ((words self.old ≡ Some []) × (is_cut self.old ≡ true)
            × (places self.old ≡ place self.new ∷ [])) }
        ensures at { (byte : ℕ) → IsErrOf result (Truncated byte) →
            (byte ≡ place self.new) × (broken self.old ≡ false) × (broken self.new ≡ true)
            × (failures self.new ≡ failures self.old) }
        ensures device { IsErrOf result Device → InputFails broken failures self.old self.new }
        ensures was_broken { IsErrOf result Spent → WasClosed broken failures self.old self.new
            × (place self.new ≡ place self.old) × Keeps (unread self.old) (unread self.new) };

    /// Gives the bytes of buffered words, as far as `out` has space for whole ones, and returns how
    /// many bytes these are. The device isn't called. 0 doesn't say that no words are to come:
    /// `next` does. The bytes of `out` after those given may be overwritten, even if the result is
    /// 0.
    fn ready(&mut self, out: &mut [u8]) -> usize
        ensures fits { result ≤ length out.new }
        ensures words { let ws = plain_words (take result out.new) in
            (take result out.new ≡ plain_text ws)
            × TakesWords words is_cut place places self.old self.new ws }
        ensures usable { (result ≡ 0) ⊎ (broken self.old ≡ false) }
        ensures stays { ended self.old ≡ true → result ≡ 0 }
        ensures for_good { failed self.old ≡ true → result ≡ 0 }
        ensures broken { broken self.new ≡ broken self.old }
        ensures failures { failures self.new ≡ failures self.old }
        ensures none { result ≡ 0 → self.new ≡ self.old }
        ensures reads { ReadsBytes (unread self.old) (unread self.new) (place self.old)
            (place self.new) }
    {
        // For the proof alone: the range of this number.
        let _capacity = out.len();
        0
    }

    /// Appends buffered bytes that are the next words literally, and returns how many bytes these
    /// are. They are whole words of no more than `most` bytes, and within the capacity of `out`.
    /// The device isn't called. 0 doesn't say that no words are to come or buffered: `next` and
    /// `ready` do.
    fn append(&mut self, out: &mut Vec<u8>, most: usize) -> usize
        ensures most { result ≤ most }
        ensures fits { vec_len out.old + result ≤ vec_capacity out.old }
        ensures words { (given : List ℕ) × (out.new.items ≡ out.old.items ++ given)
            × (length given ≡ result) × (given ≡ plain_text (plain_words given))
            × TakesWords words is_cut place places self.old self.new (plain_words given) }
        ensures capacity { vec_capacity out.old ≤ vec_capacity out.new }
        ensures usable { (result ≡ 0) ⊎ (broken self.old ≡ false) }
        ensures stays { ended self.old ≡ true → result ≡ 0 }
        ensures for_good { failed self.old ≡ true → result ≡ 0 }
        ensures broken { broken self.new ≡ broken self.old }
        ensures failures { failures self.new ≡ failures self.old }
        ensures none { result ≡ 0 → self.new ≡ self.old }
        ensures reads { ReadsBytes (unread self.old) (unread self.new) (place self.old)
            (place self.new) }
    {
        // For the proof alone: the range of this number.
        let _capacity = out.len().min(most);
        0
    }

    /// Fills the whole words of `out` with the bytes of the next words. `false` if the input ends
    /// between words before `out` is full, and from then on. If `out` is shorter than a word, the
    /// result is `true` and nothing happens. Less than a word at the end of `out` stays as it is.
    ///
    /// # Errors
    ///
    /// The errors are those of `next`. After one every call with space for a word returns `Spent`.
    /// After an error, and after `false`, the whole words of `out` hold anything, and how many
    /// words came isn't known.
    fn fill(&mut self, out: &mut [u8]) -> Result<bool, SourceFault>
        ensures full { result ≡ Ok true → let ws = plain_words out.new in
            (length ws ≡ length out.old / 8) × (take (8 * length ws) out.new ≡ plain_text ws)
            × TakesWords words is_cut place places self.old self.new ws }
        ensures rest { let whole = length out.old / 8 * 8 in drop whole out.new ≡ drop whole out.old }
        ensures none { length out.old < 8 → (result ≡ Ok true) × (self.new ≡ self.old) }
        ensures works { 8 ≤ length out.old → OnOk result (NoFault broken failures self.old self.new) }
        ensures reads { ReadsBytes (unread self.old) (unread self.new) (place self.old)
            (place self.new) }
        ensures ended { result ≡ Ok false →
            (ended self.new ≡ true)
            × EndsWithin (length out.old / 8) (words self.old) (is_cut self.old) false
            (places self.old) (place self.new) }
        ensures stays { ended self.old ≡ true → 8 ≤ length out.old →
            (result ≡ Ok false) × (self.new ≡ self.old) }
        ensures err { OnErr result (failed self.new ≡ true) }
        ensures for_good { failed self.old ≡ true → 8 ≤ length out.old →
            (result ≡ Err Spent) × (self.new ≡ self.old) }
        ensures truncated { (byte : ℕ) → IsErrOf result (Truncated byte) →
            EndsWithin (length out.old / 8) (words self.old) (is_cut self.old) true
            (places self.old) (place self.new) }
        ensures at { (byte : ℕ) → IsErrOf result (Truncated byte) →
            (byte ≡ place self.new) × (broken self.old ≡ false) × (broken self.new ≡ true)
            × (failures self.new ≡ failures self.old) }
        ensures device { IsErrOf result Device → InputFails broken failures self.old self.new }
        ensures was_broken { IsErrOf result Spent → WasClosed broken failures self.old self.new
            × (place self.new ≡ place self.old) × Keeps (unread self.old) (unread self.new) }
    {
        let whole = out.len() / 8 * 8;
        let mut done = 0;
        while done < whole {
            let count = self.ready(&mut out[done..whole]);
            if count > 0 {
                done += count;
                continue;
            }
            match self.next() {
                Ok(Some(word)) => {
                    out[done..done + 8].copy_from_slice(&bytes_of(word));
                    done += 8;
                }
                Ok(None) => return Ok(false),
                Err(fault) => return Err(fault),
            }
        }
        Ok(true)
    }

    /// Whether bytes of the input are buffered, so that the next word may come without a call of
    /// the device. `false` doesn't say that no words are to come: `next` does. A source that has
    /// ended or failed has no buffered bytes, nor has one with a closed input.
    fn is_buffered(&self) -> bool
        ensures usable { result ≡ true → broken self.now ≡ false }
        ensures stays { ended self.now ≡ true → result ≡ false }
        ensures for_good { failed self.now ≡ true → result ≡ false }
    {
        false
    }

    /// How many bytes of the input were read so far, or 2^64 - 1 where there were more.
    fn position(&self) -> u64
        ensures { result ≡ place self.now };

    // What is known to come are words.
    ghost are_words: { (s : Self) → IfSome (words s) (AllByRecursion IsWord) };
}
