//! Messages held in memory.

ghost use Rattle.cap_spec.specs.Messages.{IsMessage};
ghost use Rattle.std.proofs.Props.{props};
ghost use Rattle.std.specs.Prelude.{◌≡◌, ◌≤◌, ◌↔◌, [], ◌∷◌, IfSome, IsSome, length, map};

use crate::segments::Segments;

/// A message as a vector of words for each segment.
#[derive(Debug, Drop)]
pub struct WordMessage {
    segments: Vec<Vec<u64>>,
    ghost is_message: { IsMessage (map (λ v. v.items) segments.items) } by { Prim.hlevel props },
}

impl WordMessage {
    /// The message of these segments. `None` for no segment or more than 512, and where a segment
    /// has more than 4294967295 words.
    pub fn new(segments: Vec<Vec<u64>>) -> Option<WordMessage>
        ensures some { IsSome result ↔ IsMessage (map (λ v. v.items) segments.items) }
        ensures segments { let of = ⟦<WordMessage as Segments>⟧.segments in
            IfSome result (λ m. of m ≡ map (λ v. v.items) segments.items) }
    {
        if segments.is_empty() || segments.len() > 512 {
            return None;
        }
        for words in &segments {
            if words.len() > 4294967295 {
                return None;
            }
        }
        Some(WordMessage { segments })
    }
}

impl Segments for WordMessage {
    ghost segments = { λ m. map (λ v. v.items) m.segments.items };

    fn count(&self) -> u32 {
        self.segments.len() as u32
    }

    fn len(&self, s: u32) -> u32 {
        self.segments[s as usize].len() as u32
    }

    fn word(&self, s: u32, w: u32) -> u64 {
        self.segments[s as usize][w as usize]
    }

    ghost is_message = { λ m. m.is_message };
}

/// A message of one segment, whose words are borrowed.
#[derive(Clone, Copy, Debug, Drop)]
pub struct OneSegment<'w> {
    words: &'w [u64],
    ghost is_message: { IsMessage (words.now ∷ []) } by { Prim.hlevel props },
}

impl<'w> OneSegment<'w> {
    /// The message whose one segment has these words, or `None` for more than 4294967295 of them.
    pub fn new(words: &'w [u64]) -> Option<OneSegment<'w>>
        ensures some { IsSome result ↔ (length words.now ≤ 4294967295) }
        ensures segments { let of = ⟦<OneSegment<'w> as Segments>⟧.segments in
            IfSome result (λ m. of m ≡ words.now ∷ []) }
    {
        if words.len() > 4294967295 {
            None
        } else {
            Some(OneSegment { words })
        }
    }
}

impl<'w> Segments for OneSegment<'w> {
    ghost segments = { λ m. m.words.now ∷ [] };

    fn count(&self) -> u32 {
        1
    }

    fn len(&self, _s: u32) -> u32 {
        self.words.len() as u32
    }

    fn word(&self, _s: u32, w: u32) -> u64 {
        self.words[w as usize]
    }

    ghost is_message = { λ m. m.is_message };
}
