//! Where the target of a pointer is.

ghost use Rattle.cap_explain.specs.Leading.{target_after, target_of, target_over, segment_after, list_tag};
ghost use Rattle.std.specs.Prelude.{◌^◌, ◌<◌, ◌≡◌, IfSome};

use crate::forms::excess;
use crate::landing::{Landing, is_short_far};
use crate::words::word_of;
use cap_frame::Segments;
use cap_ptr::{far_segment, is_structs, kind, middle, pad};

/// The target of a pointer, whether it lies inside its segment or not. It starts `start - excess`
/// words after the beginning of its segment.
#[derive(Clone, Copy, Drop)]
pub(crate) struct Target {
    /// Counted from 0.
    pub(crate) segment: u32,
    /// In words.
    pub(crate) start: u64,
    /// In words.
    pub(crate) excess: u32,
    /// The word that gives its sizes.
    pub(crate) word: u64,
}

/// The target of a struct or list pointer at word `at` of a segment.
fn target_after(segment: u32, at: u32, word: u64) -> Option<Target>
    ensures value { result ≡ target_after segment at word }
    ensures near { IfSome result (λ t. t.start < 2 ^ 34) }
{
    if word == 0 || kind(word) >= 2 {
        return None;
    }
    let bits = middle(word);
    Some(Target {
        segment,
        start: u64::from(at) + 1 + u64::from(bits),
        excess: excess(bits),
        word,
    })
}

/// The target that the two words of a landing pad lead to.
fn target_over(far: u64, tag: u64) -> Option<Target>
    ensures value { result ≡ target_over far tag }
    ensures near { IfSome result (λ t. t.start < 2 ^ 34) }
{
    if !is_short_far(far) || kind(tag) >= 2 || middle(tag) != 0 {
        return None;
    }
    Some(Target {
        segment: far_segment(far),
        start: u64::from(pad(far)),
        excess: 0,
        word: tag,
    })
}

/// The target of the pointer `word` at word `at` of a segment, by its landing pad.
pub(crate) fn target_of(segment: u32, at: u32, word: u64, landing: Landing) -> Option<Target>
    ensures value { result ≡ target_of segment at word landing }
    ensures near { IfSome result (λ t. t.start < 2 ^ 34) }
{
    match landing {
        Landing::Near => target_after(segment, at, word),
        Landing::Missing => None,
        Landing::Outside => None,
        Landing::One { word: only } => target_after(far_segment(word), pad(word), only),
        Landing::Two { far, tag } => target_over(far, tag),
    }
}

/// The segment that the pointer `word` leads into, by its own segment and its landing pad.
pub(crate) fn segment_after(segment: u32, word: u64, landing: Landing) -> u32
    ensures { result ≡ segment_after segment word landing }
{
    match landing {
        Landing::Near => segment,
        Landing::Missing => far_segment(word),
        Landing::Outside => far_segment(word),
        Landing::One { .. } => far_segment(word),
        Landing::Two { far, .. } => {
            if is_short_far(far) {
                far_segment(far)
            } else {
                far_segment(word)
            }
        }
    }
}

/// The tag of a list of structs, if the target begins inside its segment.
pub(crate) fn list_tag<M: Segments>(message: &M, target: &Target) -> Option<u64>
    ensures { result ≡ list_tag (M.segments message.now) target.now }
{
    let excess = u64::from(target.excess);
    if !is_structs(target.word) || target.start < excess {
        return None;
    }
    word_of(message, target.segment, target.start - excess)
}
