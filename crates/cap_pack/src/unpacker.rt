//! A source of words over packed bytes.

ghost use Rattle.cap_pack.specs.Course.{course_is_cut, course_places, course_words};
ghost use Rattle.cap_pack.specs.CourseWords.{known_course_words};
ghost use Rattle.cap_pack.specs.State.{ahead};
ghost use Rattle.cap_spec.specs.PackedEnds.{packed_ends};
ghost use Rattle.cap_spec.specs.Plain.{plain_words};
ghost use Rattle.cap_spec.specs.Unpacking.{packed_is_cut, unpacked};
ghost use Rattle.cap_words.specs.Phases.{has_ended, has_failed, source_broken};
ghost use Rattle.std.specs.Option.{option_map};
ghost use Rattle.std.specs.Prelude.{◌++◌, ◌<◌, ◌≡◌, ◌≤◌, ◌||◌, [], IfSome, List, OnSome, false, if◌then◌else◌, length, take, unwrap_or, ℕ};

use super::buffered::{append_words, unpack};
use super::reads::{read_head, read_word};
use cap_words::{ByteIn, Counted, Phase, SourceFault, WordSource};

/// Reads the words that packed bytes encode (encoding: Packing). Every encoding is accepted: a byte
/// that its tag marks may be zero, and a run may be shorter than it could be. The head of a group
/// is read whole before the group's first word is given. Each literal word of a run is read when it
/// is asked for. Its size is fixed.
#[derive(Drop)]
pub struct Unpacker<I: ByteIn> {
    bytes: Counted<I>,
    phase: Phase,
    // how many zero words of a run are still to be given
    zeros: u8,
    // how many words as they are are still to be read
    plain: u8,
    // while zero words are held the input works
    ghost usable: { 0 < zeros → I.broken bytes.input ≡ false },
}

impl<I: ByteIn> Unpacker<I> {
    ghost use Rattle.cap_pack.specs.Input.{unpacker_input};
    ghost use Rattle.cap_pack.specs.declared.unpacker.Unpacker.{Unpacker};

    /// The words that the packed bytes of `input` encode, from its next byte on.
    pub fn new(input: I) -> Unpacker<I>
        ensures input { unpacker_input result ≡ input }
        ensures words { ⟦<Unpacker<I> as WordSource>⟧.words result
            ≡ option_map unpacked (I.to_come input) }
        ensures is_cut { ⟦<Unpacker<I> as WordSource>⟧.is_cut result
            ≡ packed_is_cut (unwrap_or (I.to_come input) []) }
        ensures place { ⟦<Unpacker<I> as WordSource>⟧.place result ≡ 0 }
        ensures places { OnSome (I.to_come input) (⟦<Unpacker<I> as WordSource>⟧.places result
            ≡ packed_ends 0 (unwrap_or (I.to_come input) [])) }
        ensures unread { ⟦<Unpacker<I> as WordSource>⟧.unread result ≡ I.to_come input }
        ensures ended { ⟦<Unpacker<I> as WordSource>⟧.ended result ≡ false }
        ensures failed { ⟦<Unpacker<I> as WordSource>⟧.failed result ≡ false }
        ensures failures { ⟦<Unpacker<I> as WordSource>⟧.failures result ≡ I.failures input }
        ensures broken { ⟦<Unpacker<I> as WordSource>⟧.broken result ≡ I.broken input }
        ensures when_broken { (s : Unpacker I I.ByteIn) →
            ⟦<Unpacker<I> as WordSource>⟧.broken s
            ≡ (if ⟦<Unpacker<I> as WordSource>⟧.ended s then false else
            (⟦<Unpacker<I> as WordSource>⟧.failed s || I.broken (unpacker_input s))) }
        ensures shows_unread { (s : Unpacker I I.ByteIn) →
            ⟦<Unpacker<I> as WordSource>⟧.unread s ≡ I.to_come (unpacker_input s) }
        ensures shows_failures { (s : Unpacker I I.ByteIn) →
            ⟦<Unpacker<I> as WordSource>⟧.failures s ≡ I.failures (unpacker_input s) }
    {
        Unpacker {
            bytes: Counted { input, read: 0 },
            phase: Phase::Open,
            zeros: 0,
            plain: 0,
        }
    }

    /// Writes the bytes of the next words to `out`, as far as buffered bytes encode them and `out`
    /// has space for whole ones, and returns how many bytes these are. No word is taken, and the
    /// device isn't called. The bytes of `out` after those written may be overwritten. 0 doesn't say
    /// that no words are to come or buffered.
    pub fn peek(&self, out: &mut [u8]) -> usize
        ensures fits { result ≤ length out.new }
        ensures words { IfSome (⟦<Unpacker<I> as WordSource>⟧.words self.now)
            (λ ws. (rest : List ℕ) × (ws ≡ plain_words (take result out.new) ++ rest)) }
    {
        // For the proof alone: the range of this number.
        let _read = self.bytes.read;
        match self.phase {
            Phase::Open => {}
            _ => return 0,
        }
        unpack(self.bytes.input.held(), out, self.zeros, self.plain).written
    }

    /// Gives the input back as it is: after the bytes of the last word that was given, or of its
    /// group's head.
    pub fn into_inner(self) -> I
        ensures { result ≡ unpacker_input self }
    {
        self.bytes.input
    }
}

impl<I: ByteIn> WordSource for Unpacker<I> {
    ghost words = { λ s. option_map (λ bs. course_words (ahead s.phase s.zeros s.plain s.bytes.read bs)) (I.to_come s.bytes.input) };

    ghost is_cut = { λ s. course_is_cut (ahead s.phase s.zeros s.plain s.bytes.read (unwrap_or (I.to_come s.bytes.input) [])) };

    ghost place = { λ s. s.bytes.read };

    ghost places = { λ s. course_places (ahead s.phase s.zeros s.plain s.bytes.read (unwrap_or (I.to_come s.bytes.input) [])) };

    ghost unread = { λ s. I.to_come s.bytes.input };

    ghost ended = { λ s. has_ended s.phase };

    ghost failed = { λ s. has_failed s.phase };

    ghost failures = { λ s. I.failures s.bytes.input };

    ghost broken = { λ s. source_broken s.phase (I.broken s.bytes.input) };

    fn next(&mut self) -> Result<Option<u64>, SourceFault> {
        // For the proof alone: the range of this number.
        let _position = self.bytes.read;
        match self.phase {
            Phase::Ended => return Ok(None),
            Phase::Failed => return Err(SourceFault::Spent),
            Phase::Open => {}
        }
        if self.zeros > 0 {
            self.zeros -= 1;
            return Ok(Some(0));
        }
        if self.plain > 0 {
            return match read_word(&mut self.bytes) {
                Ok(word) => {
                    self.plain -= 1;
                    Ok(Some(word))
                }
                Err(fault) => {
                    self.phase = Phase::Failed;
                    Err(fault)
                }
            };
        }
        match read_head(&mut self.bytes) {
            Ok(Some(head)) => {
                self.zeros = head.zeros;
                self.plain = head.plain;
                Ok(Some(head.word))
            }
            Ok(None) => {
                self.phase = Phase::Ended;
                Ok(None)
            }
            Err(fault) => {
                self.phase = Phase::Failed;
                Err(fault)
            }
        }
    }

    fn ready(&mut self, out: &mut [u8]) -> usize {
        // For the proof alone: the range of this number.
        let _read = self.bytes.read;
        match self.phase {
            Phase::Open => {}
            _ => return 0,
        }
        let done = unpack(self.bytes.input.held(), out, self.zeros, self.plain);
        if done.written == 0 {
            return 0;
        }
        let input = &mut self.bytes.input;
        input.skip(done.read);
        self.bytes.read = self.bytes.read.saturating_add(done.read as u64);
        self.zeros = done.zeros;
        self.plain = done.plain;
        done.written
    }

    // What is left of a run of words as they are. Inlined, since a stream may be of small messages.
    #[inline(always)]
    fn append(&mut self, out: &mut Vec<u8>, most: usize) -> usize {
        // For the proof alone: the range of this number.
        let _read = self.bytes.read;
        match self.phase {
            Phase::Open => {}
            _ => return 0,
        }
        if self.zeros > 0 {
            return 0;
        }
        let words = append_words(self.plain, self.bytes.input.held(), out, most);
        if words == 0 {
            return 0;
        }
        let count = 8 * words as usize;
        let input = &mut self.bytes.input;
        input.skip(count);
        self.bytes.read = self.bytes.read.saturating_add(count as u64);
        self.plain -= words;
        count
    }

    // Zero words of a run that are still to be given are no bytes: they don't delay a flush of what
    // was written so far.
    fn is_buffered(&self) -> bool {
        match self.phase {
            Phase::Open => !self.bytes.input.held().is_empty(),
            _ => false,
        }
    }

    fn position(&self) -> u64 {
        self.bytes.read
    }

    ghost are_words = { λ s. known_course_words s.phase s.zeros s.plain s.bytes.read (I.to_come s.bytes.input) (I.are_bytes s.bytes.input) };
}
