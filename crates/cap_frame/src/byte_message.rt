//! Messages in one buffer, and the view that borrows one.

ghost use Rattle.cap_frame.specs.Bytes.{cut, starts_of};
ghost use Rattle.cap_spec.specs.GreatestLimits.{most_words};
ghost use Rattle.cap_spec.specs.Messages.{IsMessage, segment_of};
ghost use Rattle.cap_spec.specs.Plain.{plain_text, plain_words};
ghost use Rattle.std.proofs.Props.{props};
ghost use Rattle.std.specs.Prelude.{◌%◌, ◌*◌, ◌+◌, ◌<◌, ◌^◌, ◌≡◌, ◌≤◌, ◌↔◌, [], ◌∷◌, All, IfSome, IsSome, drop, length, slice_range, sum, take, vec_len};

use crate::segment_tables::Starts;
use crate::segments::Segments;
use crate::table::Sizes;
use byteorder::{ByteOrder, LittleEndian};
use std::alloc::Global;

/// A message whose segments follow one another in one buffer.
// Nothing is derived that looks at its fields: bytes that an earlier message left would show.
#[derive(Drop)]
pub struct ByteMessage {
    // the words of all segments in order; after them there may be bytes that an earlier message
    // left
    pub(crate) bytes: Vec<u8>,
    pub(crate) sizes: Sizes,
    // where each segment starts, in words
    pub(crate) starts: Starts,
    ghost starts_are: { starts.items ≡ starts_of 0 sizes.items },
    ghost inside: { 8 * sum sizes.items ≤ vec_len bytes },
    ghost some: { 1 ≤ length sizes.items },
    ghost few: { length sizes.items ≤ 512 },
    ghost small: { sum sizes.items ≤ 2 ^ 28 },
}

/// Makes the tables those of one segment without words.
pub(crate) fn blank(sizes: &mut Sizes, starts: &mut Starts)
    ensures sizes { sizes.new.items ≡ 0 ∷ [] }
    ensures starts { starts.new.items ≡ 0 ∷ [] }
{
    sizes.clear();
    sizes.push(0);
    starts.clear();
    starts.push(0);
}

impl ByteMessage {
    ghost use Rattle.cap_frame.specs.HeldBytes.{held_segments};

    /// A message of one segment without words. It takes no memory.
    pub fn blank(alloc: Global) -> ByteMessage
        ensures { held_segments result ≡ [] ∷ [] }
    {
        let mut sizes = Sizes::new();
        let mut starts = Starts::new();
        blank(&mut sizes, &mut starts);
        ByteMessage {
            bytes: Vec::new(alloc),
            sizes,
            starts,
        }
    }

    /// The message as its segments.
    #[inline]
    pub fn view<'m>(&'m self) -> ByteView<'m>
        ensures { ⟦<ByteView<'m> as Segments>⟧.segments result ≡ held_segments self.now }
    {
        ByteView::over(&self.bytes, &self.starts, &self.sizes)
    }
}

/// A message whose segments are borrowed bytes, one after the other, each word in eight of them.
///
/// It shows nothing of bytes after its last segment.
#[derive(Clone, Copy, Drop)]
pub struct ByteView<'b> {
    // of the contents; more may follow them
    bytes: &'b [u8],
    // where each segment starts, in words
    starts: &'b [u32],
    // how many words each has
    sizes: &'b [u32],
    ghost starts_are: { starts.now ≡ starts_of 0 sizes.now },
    ghost inside: { 8 * sum sizes.now ≤ length bytes.now },
    ghost some: { 1 ≤ length sizes.now },
    ghost few: { length sizes.now ≤ 512 },
    ghost small: { sum sizes.now ≤ 2 ^ 28 },
    ghost is_message: { IsMessage (cut sizes.now bytes.now) } by { Prim.hlevel props },
}

impl<'b> ByteView<'b> {
    /// The message of these bytes, whose segments start and end where the tables say.
    #[inline]
    pub(crate) fn over(bytes: &'b [u8], starts: &'b [u32], sizes: &'b [u32]) -> ByteView<'b>
        requires starts { starts.now ≡ starts_of 0 sizes.now }
        requires inside { 8 * sum sizes.now ≤ length bytes.now }
        requires some { 1 ≤ length sizes.now }
        requires few { length sizes.now ≤ 512 }
        requires small { sum sizes.now ≤ 2 ^ 28 }
        ensures { ⟦<ByteView<'b> as Segments>⟧.segments result ≡ cut sizes.now bytes.now }
    {
        ByteView {
            bytes,
            starts,
            sizes,
        }
    }

    /// A message of one segment, whose words these bytes encode, without a table. Its size in words
    /// is put into `size`. `None` if the bytes aren't whole words, or are more than 268435456 of
    /// them.
    #[inline]
    pub fn of_words(bytes: &'b [u8], size: &'b mut [u32; 1]) -> Option<ByteView<'b>>
        ensures some { IsSome result
            ↔ (length bytes.now % 8 ≡ 0) × (length bytes.now ≤ 8 * most_words) }
        ensures segments { let of = ⟦<ByteView<'b> as Segments>⟧.segments in
            IfSome result (λ v. of v ≡ plain_words bytes.now ∷ []) }
    {
        if bytes.len() % 8 != 0 || bytes.len() > 8 * 268_435_456 {
            return None;
        }
        *size = [(bytes.len() / 8) as u32];
        Some(ByteView::over(bytes, &[0], size))
    }

    /// The bytes of `words` words of segment `s` from word `start` on, unchanged (encoding: 64-bit
    /// Words). The caller makes sure that the segment and these words exist.
    #[inline]
    pub fn bytes(&self, s: u32, start: u32, words: u32) -> &'b [u8]
        requires exists { let m = ⟦<ByteView<'b> as Segments>⟧.segments self.now in s < length m }
        requires inside { let m = ⟦<ByteView<'b> as Segments>⟧.segments self.now in
            start + words ≤ length (segment_of m s) }
        ensures text { let m = ⟦<ByteView<'b> as Segments>⟧.segments self.now in
            result.now ≡ plain_text (slice_range (segment_of m s) start (start + words)) }
        ensures words { let m = ⟦<ByteView<'b> as Segments>⟧.segments self.now in
            All (λ word. word < 2 ^ 64) (slice_range (segment_of m s) start (start + words)) }
    {
        let at = (self.starts[s as usize] + start) as usize;
        words_at(self.bytes, at, words as usize)
    }

    /// All bytes of segment `s`, unchanged, eight for each word (encoding: 64-bit Words). `None` if
    /// there is no such segment. Allocates nothing.
    #[inline]
    pub fn segment(&self, s: u32) -> Option<&'b [u8]>
        ensures some { let m = ⟦<ByteView<'b> as Segments>⟧.segments self.now in
            IsSome result ↔ s < length m }
        ensures text { let m = ⟦<ByteView<'b> as Segments>⟧.segments self.now in
            IfSome result (λ bytes. bytes.now ≡ plain_text (segment_of m s)) }
        ensures words { let m = ⟦<ByteView<'b> as Segments>⟧.segments self.now in
            IfSome result (λ bytes. plain_words bytes.now ≡ segment_of m s) }
    {
        if s >= self.count() {
            return None;
        }
        let at = self.starts[s as usize] as usize;
        Some(words_at(self.bytes, at, self.len(s) as usize))
    }
}

/// The bytes of `words` words from word `at` on, unchanged. The caller makes sure that these bytes
/// have them. Allocates nothing.
#[inline(always)]
pub fn words_at<'b>(bytes: &'b [u8], at: usize, words: usize) -> &'b [u8]
    requires { 8 * (at + words) ≤ length bytes.now }
    ensures part { result.now ≡ take (8 * words) (drop (8 * at) bytes.now) }
    ensures text { result.now ≡ plain_text (plain_words result.now) }
    ensures words { All (λ word. word < 2 ^ 64) (plain_words result.now) }
{
    &bytes[8 * at..8 * (at + words)]
}

impl<'b> Segments for ByteView<'b> {
    ghost segments = { λ m. cut m.sizes.now m.bytes.now };

    #[inline]
    fn count(&self) -> u32 {
        self.sizes.len() as u32
    }

    #[inline]
    fn len(&self, s: u32) -> u32 {
        self.sizes[s as usize]
    }

    #[inline]
    fn word(&self, s: u32, w: u32) -> u64 {
        let at = 8 * (self.starts[s as usize] + w) as usize;
        // A range with an end: rustc then compares the place once with the length of the bytes.
        LittleEndian::read_u64(&self.bytes[at..at + 8])
    }

    #[inline]
    fn bytes_at(&self, s: u32, start: u32, words: u32) -> Option<&[u8]> {
        if s >= self.count() || u64::from(start) + u64::from(words) > u64::from(self.len(s)) {
            return None;
        }
        Some(self.bytes(s, start, words))
    }

    ghost is_message = { λ m. m.is_message };
}
