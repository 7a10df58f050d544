//! What is at a spot, and where steps from there lead.

ghost use Rattle.cap_ptr.specs.Shapes.{FindsTarget, IsFollowed};
ghost use Rattle.cap_spec.specs.Following.{Wrong};
ghost use Rattle.cap_spec.specs.Messages.{IsMessage, segment_of};
ghost use Rattle.cap_spec.specs.Paths.{word};
ghost use Rattle.cap_spec.specs.declared.Reason.{Reason};
ghost use Rattle.cap_vet.specs.Finding.{IsFound, IsAtSomePlace, StepLeads, element_of, kind_of_shape};
ghost use Rattle.std.specs.Prelude.{◌<◌, ◌≡◌, List, length, ℕ};

use crate::nodes::spot::Spot;
use cap_frame::Segments;
use cap_ptr::{Followed, Place, Shape, Target, follow, near_target};
use cap_spec::{Kind, Step};

/// What is at a spot: its kind and its words. Null and a capability have no words, at 0:0.
#[derive(Clone, Copy)]
pub(crate) struct Found {
    pub(crate) kind: Kind,
    pub(crate) place: Place,
}

// The kind of an object.
#[inline(always)]
fn kind_of(shape: Shape) -> Kind
    ensures { result ≡ kind_of_shape shape }
{
    match shape {
        Shape::Struct {
            data_words,
            pointers,
        } => Kind::Struct {
            data_words,
            pointers,
        },
        Shape::Scalars { code, count } => Kind::Scalars { code, count },
        Shape::Pointers { count } => Kind::Pointers { count },
        Shape::Structs {
            count,
            data_words,
            pointers,
            ..
        } => Kind::Structs {
            count,
            data_words,
            pointers,
        },
    }
}

impl Found {
    /// Where a step leads from there.
    #[inline(always)]
    pub(crate) fn step(&self, step: Step) -> Option<Spot>
        requires { IsAtSomePlace self.now }
        ensures { StepLeads self.now step result }
    {
        match step {
            Step::Ptr(i) => self.pointer(i),
            Step::Item(i) => self.item(i),
        }
    }

    // The pointer of a struct.
    #[inline(always)]
    fn pointer(&self, i: u16) -> Option<Spot>
        requires { IsAtSomePlace self.now }
        ensures { StepLeads self.now (Step.Ptr i) result }
    {
        let Kind::Struct {
            data_words,
            pointers,
        } = self.kind
        else {
            return None;
        };
        if i >= pointers {
            return None;
        }
        Some(Spot::Word {
            segment: self.place.segment,
            word: self.place.start + u32::from(data_words) + u32::from(i),
        })
    }

    // The element of a list of pointers or of structs.
    #[inline(always)]
    fn item(&self, i: u32) -> Option<Spot>
        requires { IsAtSomePlace self.now }
        ensures { StepLeads self.now (Step.Item i) result }
    {
        match self.kind {
            Kind::Pointers { count } => {
                if i >= count {
                    return None;
                }
                Some(Spot::Word {
                    segment: self.place.segment,
                    word: self.place.start + i,
                })
            }
            Kind::Structs {
                count,
                data_words,
                pointers,
            } => {
                if i >= count {
                    return None;
                }
                let size = u32::from(data_words) + u32::from(pointers);
                Some(Spot::Element {
                    segment: self.place.segment,
                    start: self.place.start + 1 + i * size,
                    data_words,
                    pointers,
                })
            }
            _ => None,
        }
    }
}

/// What a pointer word leads to.
#[inline(always)]
pub(crate) fn found_of(followed: Followed) -> Found
    ensures { (m : List (List ℕ)) (s w : ℕ) →
        IsMessage m → IsFollowed m s w followed → IsFound m (word s w) result }
{
    match followed {
        Followed::Null { .. } => Found {
            kind: Kind::Null,
            place: Place::NONE,
        },
        Followed::Cap { index, .. } => Found {
            kind: Kind::Cap { index },
            place: Place::NONE,
        },
        Followed::Target(target) => object(target),
    }
}

/// The object that a pointer word leads to.
#[inline(always)]
pub(crate) fn object(target: Target) -> Found
    ensures { (m : List (List ℕ)) (s w : ℕ) →
        FindsTarget m s w target → IsFound m (word s w) result }
{
    Found {
        kind: kind_of(target.shape),
        place: Place::of(&target),
    }
}

/// What word `w` of segment `s` leads to, which isn't wrong.
#[inline(always)]
pub(crate) fn found_at<M: Segments>(message: &M, s: u32, w: u32) -> Found
    requires exists { s < length (M.segments message.now) }
    requires inside { w < length (segment_of (M.segments message.now) s) }
    requires right { (v : Reason) → ¬ Wrong (M.segments message.now) s w v }
    ensures { IsFound (M.segments message.now) (word s w) result }
{
    // Most pointer words alone describe their objects.
    match near_target(message.word(s, w), s, w, message.len(s)) {
        Some(target) => object(target),
        None => found_followed(message, s, w),
    }
}

// The same, where it takes a following.
#[inline(never)]
fn found_followed<M: Segments>(message: &M, s: u32, w: u32) -> Found
    requires exists { s < length (M.segments message.now) }
    requires inside { w < length (segment_of (M.segments message.now) s) }
    requires right { (v : Reason) → ¬ Wrong (M.segments message.now) s w v }
    ensures { IsFound (M.segments message.now) (word s w) result }
{
    match follow(message, s, w) {
        Ok(followed) => found_of(followed),
        Err(_) => unreachable!(),
    }
}

/// What an element of a list of structs is.
#[inline(always)]
pub(crate) fn element(segment: u32, start: u32, data_words: u16, pointers: u16) -> Found
    ensures { result ≡ element_of segment start data_words pointers }
{
    Found {
        kind: Kind::Struct {
            data_words,
            pointers,
        },
        place: Place {
            segment,
            start,
            words: u32::from(data_words) + u32::from(pointers),
        },
    }
}
