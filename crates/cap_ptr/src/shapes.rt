//! What following a pointer word gives: an object's sizes and shape, whether it lies inside its
//! segment, and what it is charged.

ghost use Rattle.cap_ptr.specs.Levels.{levels_of};
ghost use Rattle.cap_ptr.specs.Shapes.{IsPlain, IsShape, is_structs};
ghost use Rattle.cap_spec.specs.Denoting.{element_levels};
ghost use Rattle.cap_spec.specs.Following.{IsComposite, extra};
ghost use Rattle.cap_spec.specs.Pointers.{element_bits, extent, list_words};
ghost use Rattle.cap_spec.specs.Words.{signed_offset_of};
ghost use Rattle.std.specs.Prelude.{◌+◌, ◌<◌, ◌^◌, ◌≡◌, ◌≤◌, ◌↔◌, ◌+ℤ◌, ◌<ℤ◌, IfNone, IfSome, IsTrue, pos, ℕ};

use crate::forms::{code, data_size, kind, list_size, pointer_size};
use cap_words::signed_offset;

/// The sizes of an object (encoding: Structs, Lists).
#[derive(Clone, Copy, Debug, PartialEq, Eq, Drop)]
pub enum Shape {
    /// A struct: its data words, then its pointers.
    Struct {
        /// In words.
        data_words: u16,
        /// In pointers, of one word each.
        pointers: u16,
    },
    /// A list of values that aren't pointers.
    Scalars {
        /// From 0 to 5: elements of no bits, 1 bit, 1 byte, 2 bytes, 4 bytes or 8 bytes.
        code: u8,
        /// In elements.
        count: u32,
    },
    /// A list of pointers.
    Pointers {
        /// In pointers, of one word each.
        count: u32,
    },
    /// A list of structs: a tag word, then the elements.
    Structs {
        /// The words of the list without its tag. Those past the last element are surplus.
        words: u32,
        /// In elements.
        count: u32,
        /// Of each element, in words.
        data_words: u16,
        /// Of each element, in pointers.
        pointers: u16,
    },
}

/// An object that lies inside its segment.
#[derive(Clone, Copy, Debug, PartialEq, Eq, Drop)]
pub struct Target {
    /// Its segment, counted from 0.
    pub segment: u32,
    /// The word that it starts at, counted from 0: the tag of a list of structs.
    pub start: u32,
    /// How many words it takes, a tag and surplus words included.
    pub words: u32,
    /// How many words of landing pads led to it: 0, 1 or 2.
    pub pads: u8,
    /// The pads and the words, and one for each element without bits or words. Of a target that
    /// `follow` or `near_target` returns it is less than 2^31.
    pub charge: u64,
    /// Its sizes.
    pub shape: Shape,
}

/// What a pointer word leads to.
#[derive(Clone, Copy, Debug, PartialEq, Eq, Drop)]
pub enum Followed {
    /// Nothing.
    Null {
        /// How many words of landing pads led to it: 0 or 1.
        pads: u8,
    },
    /// A capability.
    Cap {
        /// How many words of landing pads led to it: 0 or 1.
        pads: u8,
        /// Its place in the capability table.
        index: u32,
    },
    /// An object.
    Target(Target),
}

impl Followed {
    ghost use Rattle.cap_ptr.specs.Shapes.{charge_of};
    ghost use Rattle.std.specs.Prelude.{◌≡◌};

    /// What following the word is charged, in words: the landing pads, and what an object is
    /// charged. Of what `follow` returns it is less than 2^31.
    #[inline(always)]
    pub fn charge(&self) -> u64
        ensures { result ≡ charge_of self.now }
    {
        match *self {
            Followed::Null { pads } | Followed::Cap { pads, .. } => u64::from(pads),
            Followed::Target(target) => target.charge,
        }
    }
}

/// Whether a pointer word is of a list of structs (encoding: Lists).
#[inline(always)]
pub fn is_structs(word: u64) -> bool
    ensures value { result ≡ is_structs word }
    ensures composite { IsTrue result ↔ IsComposite word }
{
    kind(word) == 1 && code(word) == 7
}

/// How many bits each element of a list of this code has: codes 0 to 5 are those of values, and
/// the others count as 64 (encoding: Lists).
#[inline(always)]
pub fn element_bits(code: u8) -> u32
    ensures value { result ≡ element_bits code }
    ensures few { result ≤ 64 }
{
    match code {
        0 => 0,
        1 => 1,
        2 => 8,
        3 => 16,
        4 => 32,
        _ => 64,
    }
}

/// How many words a list takes without a tag, by its code and its size.
#[inline(always)]
pub(crate) fn list_words(code: u8, size: u32) -> u32
    ensures value { result ≡ list_words code size }
    ensures few { result ≤ size }
{
    ((u64::from(element_bits(code)) * u64::from(size) + 63) / 64) as u32
}

/// How many words the object of a struct or list pointer takes, with a tag.
#[inline(always)]
pub fn extent(word: u64) -> u32
    ensures value { result ≡ extent word }
    ensures few { result ≤ 2 ^ 29 }
{
    if kind(word) == 0 {
        return u32::from(data_size(word)) + u32::from(pointer_size(word));
    }
    let words = list_words(code(word), list_size(word));
    if code(word) == 7 { 1 + words } else { words }
}

/// The shape of an object that isn't a list of structs.
#[inline(always)]
pub(crate) fn plain_shape(word: u64) -> Shape
    requires { IsPlain word }
    ensures { (tag : ℕ) → IsShape word tag result }
{
    if kind(word) == 0 {
        return Shape::Struct {
            data_words: data_size(word),
            pointers: pointer_size(word),
        };
    }
    let count = list_size(word);
    match code(word) {
        6 => Shape::Pointers { count },
        code => Shape::Scalars { code, count },
    }
}

/// The word that the object of a struct or list pointer starts at, if it isn't negative.
#[inline(always)]
pub(crate) fn start_of(place: u32, word: u64) -> Option<u64>
    ensures some { IfSome result (λ start. pos start ≡ pos (place + 1) +ℤ signed_offset_of word) }
    ensures near { IfSome result (λ start. start < 2 ^ 33) }
    ensures none { IfNone result ((pos (place + 1) +ℤ signed_offset_of word) <ℤ pos 0) }
{
    let start = i64::from(place) + 1 + signed_offset(word);
    if start < 0 { None } else { Some(start as u64) }
}

/// How many elements of a list without a tag have no bits.
pub(crate) fn empty_elements(word: u64) -> u64
    requires { IsPlain word }
    ensures value { (tag : ℕ) → result ≡ extra word tag }
    ensures below { result < 2 ^ 29 }
{
    if kind(word) == 1 && code(word) == 0 {
        u64::from(list_size(word))
    } else {
        0
    }
}

/// How many levels the structs of a list of `count` elements take below their list.
#[inline(always)]
pub fn levels_of_elements(count: u32) -> u32
    ensures value { result ≡ element_levels count }
    ensures few { result ≤ 1 }
{
    if count == 0 { 0 } else { 1 }
}

/// How many levels an object takes below its own.
#[inline(always)]
pub fn levels_taken(shape: &Shape) -> u32
    ensures value { result ≡ levels_of shape.now }
    ensures few { result ≤ 1 }
{
    match shape {
        Shape::Structs { count, .. } => levels_of_elements(*count),
        _ => 0,
    }
}
