//! What a pointer on a path leads to, where the pointer word describes it.

ghost use Rattle.cap_ptr.specs.Shapes.{FindsTarget};
ghost use Rattle.cap_spec.specs.Messages.{segment_of};
ghost use Rattle.cap_ptr.specs.Levels.{levels_of};
ghost use Rattle.cap_vet.specs.NearFinding.{FindsNear, IsNearWithin};
ghost use Rattle.std.specs.Prelude.{◌+◌, ◌<◌, ◌^◌, ◌≡◌, ◌≤◌, IfSome, IsSome, List, length, ℕ};

use crate::nodes::found::{Found, object};
use cap_frame::Segments;
use cap_ptr::{Place, Target, levels_taken, near_target, struct_list};
use cap_spec::Kind;

/// What word `w` of segment `s` leads to, and its charge, where `left` words may still be charged and its target
/// has this level. Returns a result only if the word is null, or describes its object, alone or with
/// the tag of a list of structs, and if that is within the limits.
#[inline(always)]
pub(crate) fn found_near<M: Segments>(
    message: &M,
    left: u64,
    depth: u32,
    s: u32,
    w: u32,
    level: u64,
) -> Option<(Found, u64)>
    requires exists { s < length (M.segments message.now) }
    requires inside { w < length (segment_of (M.segments message.now) s) }
    requires level { level < 2 ^ 63 }
    ensures found { IfSome result (λ x.
        FindsNear (M.segments message.now) left depth s w level x.0 x.1) }
    ensures some { IsNearWithin (M.segments message.now) left depth s w level → IsSome result }
{
    let word = message.word(s, w);
    if word == 0 {
        let null = Found {
            kind: Kind::Null,
            place: Place::NONE,
        };
        return Some((null, 0));
    }
    if let Some(target) = near_target(word, s, w, message.len(s)) {
        return object_within(target, left, depth, level);
    }
    let list = struct_list(message, 0, s, w, word)?;
    object_within(list, left, depth, level)
}

// This object and its charge, if it is within the limits.
#[inline(always)]
fn object_within(target: Target, left: u64, depth: u32, level: u64) -> Option<(Found, u64)>
    requires { level < 2 ^ 63 }
    ensures found { (m : List (List ℕ)) (s w : ℕ) → FindsTarget m s w target → target.pads ≡ 0 →
        IfSome result (λ x. FindsNear m left depth s w level x.0 x.1) }
    ensures some { level + levels_of target.shape ≤ depth → target.charge ≤ left → IsSome result }
{
    let deepest = level + u64::from(levels_taken(&target.shape));
    if deepest > u64::from(depth) || target.charge > left {
        return None;
    }
    Some((object(target), target.charge))
}
