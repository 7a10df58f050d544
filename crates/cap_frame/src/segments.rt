//! What a message is to everything above: a list of segments.

ghost use Rattle.cap_spec.specs.Denoting.{words_from};
ghost use Rattle.cap_spec.specs.Messages.{HasWord, IsMessage, segment_of};
ghost use Rattle.cap_spec.specs.Plain.{plain_text};
ghost use Rattle.std.specs.Prelude.{◌+◌, ◌<◌, ◌^◌, ◌≡◌, ◌≤◌, All, IfSome, List, length, ℕ};

/// The segments of a message: 1 to 512 of them, each of at most 4294967295 words.
pub trait Segments {
    // The words of each segment.
    ghost segments: { Self → List (List ℕ) };

    /// How many segments there are.
    fn count(&self) -> u32
        ensures { result ≡ length (segments self.now) };

    /// How many words segment `s` has, where `s` counts from 0. The caller makes sure that it
    /// exists.
    fn len(&self, s: u32) -> u32
        requires { s < length (segments self.now) }
        ensures { result ≡ length (segment_of (segments self.now) s) };

    /// Word `w` of segment `s`, both counted from 0. The caller makes sure that the word exists.
    fn word(&self, s: u32, w: u32) -> u64
        requires exists { s < length (segments self.now) }
        requires inside { w < length (segment_of (segments self.now) s) }
        ensures { HasWord (segments self.now) s w result };

    /// The bytes of `words` words of segment `s` from word `start` on, eight a word, the lowest byte
    /// first (encoding: 64-bit Words). `None` if there are no such words, and if the message doesn't
    /// have its words as bytes: [`Segments::word`] then gives each. Allocates nothing.
    #[inline]
    fn bytes_at(&self, s: u32, start: u32, words: u32) -> Option<&[u8]>
        ensures exist { IfSome result (λ _. (s < length (segments self.now))
            × (start + words ≤ length (segment_of (segments self.now) s))) }
        ensures bytes { IfSome result (λ bytes.
            bytes.now ≡ plain_text (words_from (segments self.now) s start words)) }
        ensures words { IfSome result (λ _.
            All (λ word. word < 2 ^ 64) (words_from (segments self.now) s start words)) }
    {
        None
    }

    // There are 1 to 512 segments, and their lengths are numbers of 32 bits.
    ghost is_message: { (m : Self) → IsMessage (segments m) };
}
