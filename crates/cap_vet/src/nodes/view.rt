//! A view of a value in a message.

ghost use Rattle.cap_spec.specs.Messages.{segment_of};
ghost use Rattle.cap_spec.specs.Pointers.{element_bits};
ghost use Rattle.cap_vet.specs.Finding.{own_words};
ghost use Rattle.std.specs.Prelude.{◌+◌, ◌<◌, ◌≡◌, ◌≤◌, ⊤, length};

use crate::nodes::found::Found;
use cap_frame::{ByteView, Segments, words_before};
use cap_ptr::{Place, element_bits};
use cap_spec::Kind;
use cap_words::{bits, bytes_of};
use std::alloc::AllocError;

/// A view of what a pointer word leads to, or of an element of a list of structs.
pub struct View<'m, M: Segments> {
    pub(crate) message: &'m M,
    pub(crate) found: Found,
    ghost exists: { found.place.segment < length (M.segments message.now) },
    ghost inside: { found.place.start + found.place.words
        ≤ length (segment_of (M.segments message.now) found.place.segment) },
    ghost own: { own_words found.kind ≤ found.place.words },
}

impl<'m, M: Segments> Clone for View<'m, M> {
    ghost is_clone = { λ s r. r ≡ s };

    ghost is_infallible = { λ _. ⊤ };

    fn clone(&self) -> Result<View<'m, M>, AllocError> {
        Ok(*self)
    }
}

impl<'m, M: Segments> Copy for View<'m, M> {}

impl<'m, M: Segments> View<'m, M> {
    ghost use Rattle.cap_spec.specs.Denoting.{value_at, values_of, words_from};
    ghost use Rattle.cap_spec.specs.Messages.{HasWord};
    ghost use Rattle.cap_spec.specs.Pointers.{list_words};
    ghost use Rattle.cap_spec.specs.Scalars.{scalar_words};
    ghost use Rattle.cap_spec.specs.Showing.{bit_of, byte_of, count_of, data_word_of, kind_of, scalar_of, words_of_own};
    ghost use Rattle.cap_vet.specs.Views.{kept_place, shown, view_kind, view_message, view_place};
    ghost use Rattle.cap_frame.specs.SegmentStarts.{start_of};
    ghost use Rattle.std.specs.Prelude.{◌^◌, IfSome, slice_get};

    /// What it is, with its sizes.
    #[inline(always)]
    pub fn kind(&self) -> Kind
        ensures value { result ≡ view_kind self.now }
        ensures shows { result ≡ kind_of (shown self.now) }
    {
        self.found.kind
    }

    /// The words of a struct, an element or a list, the tag and surplus words of a list of structs
    /// included. `None` for null and a capability.
    pub fn place(&self) -> Option<Place>
        ensures value { result ≡ view_place self.now }
        ensures exists { let m = M.segments (view_message self.now) in
            IfSome result (λ p. p.segment < length m) }
        ensures inside { let m = M.segments (view_message self.now) in
            IfSome result (λ p. p.start + p.words ≤ length (segment_of m p.segment)) }
    {
        match self.found.kind {
            Kind::Null | Kind::Cap { .. } => None,
            _ => Some(self.found.place),
        }
    }

    /// Where its [`place`](View::place) starts in its segment, in words. Null and a capability have no
    /// words, and the number has no meaning for them.
    #[inline(always)]
    pub fn start(&self) -> u32
        ensures { let place = kept_place self.now in result ≡ place.start }
    {
        self.found.place.start
    }

    /// How many words of the message come before those of its [`place`](View::place), where the
    /// segments follow one another (encoding: Serialization Over a Stream). One step for each segment
    /// before its own. Null and a capability have no words, and the number has no meaning for them.
    #[inline(always)]
    pub fn words_before(&self) -> u64
        ensures value { let m = M.segments (view_message self.now) in
            let place = kept_place self.now in
            result ≡ start_of m place.segment + place.start }
        ensures few { result < 2 ^ 42 }
    {
        let place = self.found.place;
        words_before(self.message, place.segment) + u64::from(place.start)
    }

    /// Data word `i` of a struct, or word `i` of a list of values that aren't pointers, its bits past
    /// the last value as zeros (encoding: Structs, Lists). `None` past the last word, and of all else.
    pub fn data_word(&self, i: u32) -> Option<u64>
        ensures value { result ≡ data_word_of (shown self.now) i }
        ensures few { length (words_of_own (shown self.now)) < 2 ^ 32 }
    {
        match self.found.kind {
            Kind::Struct { data_words, .. } => self.struct_word(i, data_words),
            Kind::Scalars { code, count } => self.values_word(i, code, count),
            _ => None,
        }
    }

    /// Byte `i` of a struct's data section, the lowest byte of each word first (encoding: Structs).
    /// `None` past the last byte, and of all but a struct.
    pub fn byte(&self, i: u32) -> Option<u8>
        ensures { result ≡ byte_of (shown self.now) i }
    {
        let Kind::Struct { data_words, .. } = self.found.kind else {
            return None;
        };
        let word = self.struct_word(i / 8, data_words)?;
        Some(bytes_of(word)[(i % 8) as usize])
    }

    /// Bit `i` of a struct's data section, the lowest bit of each word first (encoding: Structs).
    /// `None` past the last bit, and of all but a struct.
    pub fn bit(&self, i: u32) -> Option<bool>
        ensures { result ≡ bit_of (shown self.now) i }
    {
        let Kind::Struct { data_words, .. } = self.found.kind else {
            return None;
        };
        let word = self.struct_word(i / 64, data_words)?;
        Some(bits(word, i % 64, 1) == 1)
    }

    /// Element `i` of a list of values that aren't pointers, as a number without sign: 0 where the
    /// elements have no bits (encoding: Lists). `None` past the last element, and of all else.
    pub fn scalar(&self, i: u32) -> Option<u64>
        ensures { result ≡ scalar_of (shown self.now) i }
    {
        let Kind::Scalars { code, count } = self.found.kind else {
            return None;
        };
        if i >= count {
            return None;
        }
        Some(self.value(i, code, count))
    }

    /// How many elements a list has (encoding: Lists). `None` of all but a list.
    pub fn count(&self) -> Option<u32>
        ensures { result ≡ count_of (shown self.now) }
    {
        match self.found.kind {
            Kind::Scalars { count, .. } | Kind::Pointers { count } | Kind::Structs { count, .. } =>
                Some(count),
            _ => None,
        }
    }

    // A word of its place.
    fn word_at(&self, i: u32) -> u64
        requires { let place = kept_place self.now in i < place.words }
        ensures { let m = M.segments (view_message self.now) in let place = kept_place self.now in
            HasWord m place.segment (place.start + i) result }
    {
        self.message
            .word(self.found.place.segment, self.found.place.start + i)
    }

    // One of its first `data_words` words.
    fn struct_word(&self, i: u32, data_words: u16) -> Option<u64>
        requires { let place = kept_place self.now in data_words ≤ place.words }
        ensures { let m = M.segments (view_message self.now) in let place = kept_place self.now in
            result ≡ slice_get (words_from m place.segment place.start data_words) i }
    {
        if i >= u32::from(data_words) {
            return None;
        }
        Some(self.word_at(i))
    }

    // A word of its `count` values, which begin at its start.
    fn values_word(&self, i: u32, code: u8, count: u32) -> Option<u64>
        requires { let place = kept_place self.now in list_words code count ≤ place.words }
        ensures { let m = M.segments (view_message self.now) in let place = kept_place self.now in
            let values = values_of m place.segment place.start code count in
            result ≡ slice_get (scalar_words code values) i }
    {
        let end = u64::from(element_bits(code)) * u64::from(count);
        let start = u64::from(i) * 64;
        if start >= end {
            return None;
        }
        let used = (end - start).min(64) as u32;
        Some(bits(self.word_at(i), 0, used))
    }

    // One of its `count` values, which begin at its start.
    fn value(&self, i: u32, code: u8, count: u32) -> u64
        requires within { i < count }
        requires inside { let place = kept_place self.now in list_words code count ≤ place.words }
        ensures { let m = M.segments (view_message self.now) in let place = kept_place self.now in
            result ≡ value_at (segment_of m place.segment) place.start (element_bits code) i }
    {
        let size = element_bits(code);
        if size == 0 {
            return 0;
        }
        let start = u64::from(i) * u64::from(size);
        let word = self.word_at((start / 64) as u32);
        bits(word, (start % 64) as u32, size)
    }
}

impl<'m, 'b> View<'m, ByteView<'b>> {
    ghost use Rattle.cap_vet.specs.Views.{bytes_of_place, view_message, view_place};

    /// The bytes of the words of its [`place`](View::place), unchanged. A tag, surplus words and
    /// the bits past the last value of a list are included. Empty for null and a capability.
    pub fn bytes(&self) -> &'b [u8]
        ensures { let m = ⟦<ByteView<'b> as Segments>⟧.segments (view_message self.now) in
            result.now ≡ bytes_of_place m (view_place self.now) }
    {
        match self.place() {
            Some(place) => self.message.bytes(place.segment, place.start, place.words),
            None => &[],
        }
    }
}
