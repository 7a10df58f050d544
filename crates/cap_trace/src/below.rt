//! What a pointer word leads to, as the object that the search goes on through.

ghost use Rattle.cap_ptr.specs.Levels.{levels_of};
ghost use Rattle.cap_ptr.specs.Shapes.{FindsTarget, FindsTargetBy};
ghost use Rattle.cap_spec.specs.Messages.{IsMessage, segment_of};
ghost use Rattle.cap_spec.specs.declared.Step.{Step};
ghost use Rattle.cap_trace.specs.Traces.{GoesBelow, OptionBranch, OptionSteps, words_of_object};
ghost use Rattle.cap_walk.specs.Looking.{object_children};
ghost use Rattle.std.specs.Prelude.{◌+◌, ◌<◌, ◌≡◌, ◌≤◌, List, length, ℕ};

use crate::branch::{Branch, Form, WordPlace};
use cap_frame::Segments;
use cap_ptr::{Followed, Shape, Target, follow, levels_taken};

/// Where the search goes on after a pointer word.
pub(crate) enum Below {
    /// Through the object that the pointer leads to, if it has pointers.
    Object(Option<Branch>),
    /// The pointer can't be followed, or leads past the depth limit.
    Blocked,
}

/// Where the search goes on after the pointer word at this place, which leads to this level.
pub(crate) fn look_below<M: Segments>(
    message: &M,
    depth: u32,
    from: &WordPlace,
    level: u32,
) -> Below
    requires exists { from.now.segment < length (M.segments message.now) }
    requires inside { from.now.at < length (segment_of (M.segments message.now) from.now.segment) }
    requires level { level ≤ 257 }
    ensures { GoesBelow (M.segments message.now) depth from.now.segment from.now.at level result }
{
    // Most pointers of a list may be null, and `follow` takes longer to say so (docs/internals/speed.md).
    if message.word(from.segment, from.at) == 0 {
        return Below::Object(None);
    }
    match follow(message, from.segment, from.at) {
        Ok(Followed::Target(target)) => below_target(&target, depth, level),
        Ok(Followed::Null { .. }) => Below::Object(None),
        Ok(Followed::Cap { .. }) => Below::Object(None),
        Err(_) => Below::Blocked,
    }
}

// The same of a word that leads to this target.
fn below_target(target: &Target, depth: u32, level: u32) -> Below
    requires found { (m : List (List ℕ)) × (s w : ℕ) × IsMessage m × FindsTarget m s w target.now }
    requires level { level ≤ 257 }
    ensures { (m : List (List ℕ)) (s w : ℕ) → FindsTarget m s w target.now →
        GoesBelow m depth s w level result }
{
    if level + levels_taken(&target.shape) > depth {
        return Below::Blocked;
    }
    Below::Object(branch_of(target))
}

// The pointer words of an object, if it has pointers.
fn branch_of(target: &Target) -> Option<Branch>
    requires found { (m : List (List ℕ)) × (s w q tag : ℕ) × IsMessage m
        × FindsTargetBy m s w q tag target.now }
    ensures words { let x = target.now in (m : List (List ℕ)) (s w q tag : ℕ) →
        FindsTargetBy m s w q tag x → (base : List Step) (level : ℕ) →
        words_of_object base level result ≡ object_children base q tag x.segment x.start level }
    ensures branch { (m : List (List ℕ)) (s w q tag depth level : ℕ) →
        FindsTargetBy m s w q tag target.now → level + levels_of target.now.shape ≤ depth →
        OptionBranch m depth level result }
    ensures steps { (m : List (List ℕ)) (s w q tag : ℕ) → FindsTargetBy m s w q tag target.now →
        OptionSteps m s w result }
{
    let (segment, start) = (target.segment, target.start);
    match target.shape {
        Shape::Struct {
            data_words,
            pointers,
        } => {
            if pointers == 0 {
                return None;
            }
            let at = start + u32::from(data_words);
            Some(Branch::row(Form::Struct, segment, at, u32::from(pointers)))
        }
        Shape::Scalars { .. } => None,
        Shape::Pointers { count } => {
            if count == 0 {
                return None;
            }
            Some(Branch::row(Form::Pointers, segment, start, count))
        }
        Shape::Structs {
            count,
            data_words,
            pointers,
            ..
        } => {
            if count == 0 || pointers == 0 {
                return None;
            }
            Some(Branch {
                data_words,
                pointers,
                ..Branch::row(Form::Structs, segment, start + 1, count)
            })
        }
    }
}
