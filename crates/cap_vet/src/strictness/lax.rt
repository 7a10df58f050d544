//! The forms of a pointer that common readers reject.

ghost use Rattle.cap_spec.specs.Messages.{segment_of};
ghost use Rattle.cap_spec.specs.Paths.{Costs};
ghost use Rattle.cap_spec.specs.Strict.{IsLaxAt};
ghost use Rattle.cap_walk.specs.Looking.{IsNotLax};
ghost use Rattle.std.specs.Prelude.{◌<◌, IfNone, IfSome, length, ℕ};

use cap_frame::Segments;
use cap_ptr::{far_segment, kind, pad, two};
use cap_spec::Lax;

/// Which of these forms the pointer at word `w` of segment `s` has, if any. The pointer can be
/// followed. Reads at most one word of its landing pad.
pub(crate) fn lax_form<M: Segments>(message: &M, s: u32, w: u32) -> Option<Lax>
    requires exists { s < length (M.segments message.now) }
    requires inside { w < length (segment_of (M.segments message.now) s) }
    requires followed { (cost : ℕ) × Costs (M.segments message.now) s w cost }
    ensures some { IfSome result (IsLaxAt (M.segments message.now) s w) }
    ensures none { IfNone result (IsNotLax (M.segments message.now) s w) }
{
    let word = message.word(s, w);
    if kind(word) != 2 {
        return None;
    }
    let landing = message.word(far_segment(word), pad(word));
    if two(word) == 1 {
        if message.len(far_segment(landing)) == 0 {
            return Some(Lax::EmptySegment);
        }
        return None;
    }
    if landing == 0 {
        return Some(Lax::NullPad);
    }
    if kind(landing) == 3 {
        return Some(Lax::CapabilityPad);
    }
    None
}
