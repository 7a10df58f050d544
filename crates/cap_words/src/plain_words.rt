//! Words from the plain encoding, eight bytes a word.

ghost use Rattle.cap_spec.specs.Plain.{plain_ends, plain_is_cut, plain_words};
ghost use Rattle.cap_words.specs.Inner.{input_of};
ghost use Rattle.cap_words.specs.Laws.{known_are_words};
ghost use Rattle.cap_words.specs.Phases.{has_ended, has_failed, source_broken};
ghost use Rattle.cap_words.specs.PlainSource.{bytes_left};
ghost use Rattle.cap_words.specs.declared.plain_words.PlainWords.{PlainWords};
ghost use Rattle.std.specs.List.{AllByRecursion};
ghost use Rattle.std.specs.Option.{option_map};
ghost use Rattle.std.specs.Prelude.{◌*◌, ◌++◌, ◌/◌, ◌<◌, ◌≡◌, ◌≤◌, ◌||◌, [], IfSome, List, OnSome, false, if◌then◌else◌, length, take, true, unwrap_or, ℕ};

use crate::byte_io::{ByteIn, Phase};
use crate::sources::{SourceFault, WordSource};
use crate::transfer::Counted;
use crate::word::word_of;

/// Reads words of eight bytes, the lowest byte first (encoding: 64-bit Words).
#[derive(Drop)]
pub struct PlainWords<I: ByteIn> {
    bytes: Counted<I>,
    phase: Phase,
}

impl<I: ByteIn> PlainWords<I> {
    /// The words that the bytes of `input` encode.
    pub fn new(input: I) -> PlainWords<I>
        ensures input { input_of result ≡ input }
        ensures words { ⟦<PlainWords<I> as WordSource>⟧.words result
            ≡ option_map plain_words (I.to_come input) }
        ensures is_cut { ⟦<PlainWords<I> as WordSource>⟧.is_cut result
            ≡ plain_is_cut (unwrap_or (I.to_come input) []) }
        ensures place { ⟦<PlainWords<I> as WordSource>⟧.place result ≡ 0 }
        ensures places { OnSome (I.to_come input) (⟦<PlainWords<I> as WordSource>⟧.places result
            ≡ plain_ends 0 (unwrap_or (I.to_come input) [])) }
        ensures unread { ⟦<PlainWords<I> as WordSource>⟧.unread result ≡ I.to_come input }
        ensures ended { ⟦<PlainWords<I> as WordSource>⟧.ended result ≡ false }
        ensures failed { ⟦<PlainWords<I> as WordSource>⟧.failed result ≡ false }
        ensures failures { ⟦<PlainWords<I> as WordSource>⟧.failures result ≡ I.failures input }
        ensures broken { ⟦<PlainWords<I> as WordSource>⟧.broken result ≡ I.broken input }
        ensures when_broken { (s : PlainWords I) →
            ⟦<PlainWords<I> as WordSource>⟧.broken s
            ≡ (if ⟦<PlainWords<I> as WordSource>⟧.ended s then false else
            (⟦<PlainWords<I> as WordSource>⟧.failed s || I.broken (input_of s))) }
        ensures shows_unread { (s : PlainWords I) →
            ⟦<PlainWords<I> as WordSource>⟧.unread s ≡ I.to_come (input_of s) }
        ensures shows_failures { (s : PlainWords I) →
            ⟦<PlainWords<I> as WordSource>⟧.failures s ≡ I.failures (input_of s) }
    {
        PlainWords {
            bytes: Counted { input, read: 0 },
            phase: Phase::Open,
        }
    }

    /// The buffered bytes of the input, which hold the next words. A source that has ended or failed
    /// has none.
    pub fn held(&self) -> &[u8]
        ensures words { IfSome (⟦<PlainWords<I> as WordSource>⟧.words self.now)
            (λ ws. (rest : List ℕ) × (ws ≡ plain_words result.now ++ rest)) }
        ensures open { ⟦<PlainWords<I> as WordSource>⟧.ended self.now ≡ false →
            ⟦<PlainWords<I> as WordSource>⟧.failed self.now ≡ false →
            result.now ≡ I.buffered (input_of self.now) }
        ensures stays { ⟦<PlainWords<I> as WordSource>⟧.ended self.now ≡ true → result.now ≡ [] }
        ensures for_good { ⟦<PlainWords<I> as WordSource>⟧.failed self.now ≡ true →
            result.now ≡ [] }
    {
        match self.phase {
            Phase::Open => self.bytes.input.held(),
            _ => &[],
        }
    }

    /// Gives the input back as it is.
    pub fn into_inner(self) -> I
        ensures { result ≡ input_of self }
    {
        self.bytes.input
    }
}

impl<I: ByteIn> WordSource for PlainWords<I> {
    ghost words = { λ s. option_map plain_words (bytes_left s.phase (I.to_come s.bytes.input)) };

    ghost is_cut = { λ s. plain_is_cut (unwrap_or (bytes_left s.phase (I.to_come s.bytes.input)) []) };

    ghost place = { λ s. s.bytes.read };

    ghost places = { λ s. plain_ends s.bytes.read (unwrap_or (bytes_left s.phase (I.to_come s.bytes.input)) []) };

    ghost unread = { λ s. I.to_come s.bytes.input };

    ghost ended = { λ s. has_ended s.phase };

    ghost failed = { λ s. has_failed s.phase };

    ghost failures = { λ s. I.failures s.bytes.input };

    ghost broken = { λ s. source_broken s.phase (I.broken s.bytes.input) };

    // Inlined, since it is called at each word of a message.
    #[inline(always)]
    fn next(&mut self) -> Result<Option<u64>, SourceFault> {
        // For the proof alone: the range of this number.
        let _read = self.bytes.read;
        match self.phase {
            Phase::Ended => return Ok(None),
            Phase::Failed => return Err(SourceFault::Spent),
            Phase::Open => {}
        }
        let mut bytes = [0; 8];
        match self.bytes.fill(&mut bytes) {
            // Nearly every call gives a whole word, so this case is tested first.
            Ok(8) => Ok(Some(word_of(&bytes))),
            Ok(0) => {
                self.phase = Phase::Ended;
                Ok(None)
            }
            Ok(_) => {
                self.phase = Phase::Failed;
                Err(SourceFault::Truncated {
                    byte: self.bytes.read,
                })
            }
            Err(fault) => {
                self.phase = Phase::Failed;
                Err(SourceFault::from(fault))
            }
        }
    }

    fn ready(&mut self, out: &mut [u8]) -> usize {
        // For the proof alone: the range of this number.
        let _read = self.bytes.read;
        match self.phase {
            Phase::Open => {}
            _ => return 0,
        }
        let count = copy_words(self.bytes.input.held(), out);
        if count == 0 {
            return 0;
        }
        self.bytes.input.skip(count);
        self.bytes.read = self.bytes.read.saturating_add(count as u64);
        count
    }

    // The words are filled in by one read, if the input gives that many bytes at once.
    fn fill(&mut self, out: &mut [u8]) -> Result<bool, SourceFault> {
        let whole = out.len() / 8 * 8;
        if whole == 0 {
            return Ok(true);
        }
        // For the proof alone: the range of this number.
        let _read = self.bytes.read;
        match self.phase {
            Phase::Ended => return Ok(false),
            Phase::Failed => return Err(SourceFault::Spent),
            Phase::Open => {}
        }
        // no further: a read past the last word would take bytes of the next one
        let count = match self.bytes.fill(&mut out[..whole]) {
            Ok(count) => count,
            Err(fault) => {
                self.phase = Phase::Failed;
                return Err(SourceFault::from(fault));
            }
        };
        if count == whole {
            return Ok(true);
        }
        if count % 8 == 0 {
            self.phase = Phase::Ended;
            Ok(false)
        } else {
            self.phase = Phase::Failed;
            Err(SourceFault::Truncated {
                byte: self.bytes.read,
            })
        }
    }

    fn is_buffered(&self) -> bool {
        match self.phase {
            Phase::Open => !self.bytes.input.held().is_empty(),
            _ => false,
        }
    }

    fn position(&self) -> u64 {
        self.bytes.read
    }

    ghost are_words = { λ s. known_are_words s.phase (I.to_come s.bytes.input) (I.are_bytes s.bytes.input) };
}

// Copies as many whole words as there are and as `to` has space for. Returns how many bytes these
// are. The prover knows that they are bytes here, of a parameter, and not of a slice that a call
// returned.
#[inline(always)]
fn copy_words(from: &[u8], to: &mut [u8]) -> usize
    ensures within { result ≤ length from.now }
    ensures fits { result ≤ length to.new }
    ensures words { result ≡ 8 * (result / 8) }
    ensures copied { take result to.new ≡ take result from.now }
    ensures bytes { AllByRecursion (λ b. b < 256) (take result from.now) }
{
    let count = from.len().min(to.len()) / 8 * 8;
    to[..count].copy_from_slice(&from[..count]);
    count
}
