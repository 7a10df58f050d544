//! The elements of a list of structs at which paths go on.

ghost use Rattle.cap_spec.specs.Messages.{segment_of};
ghost use Rattle.std.specs.Prelude.{◌*◌, ◌+◌, ◌<◌, ◌^◌, ◌≡◌, ◌≤◌, ⊤, length};

use crate::nodes::found::{Found, element};
use crate::nodes::near_found::found_near;
use crate::nodes::view::View;
use cap_frame::{Segments, words_before};
use std::alloc::AllocError;

/// The elements of the list of structs that the first steps of several paths lead to, in a message
/// that needn't be vetted (encoding: Lists). Where each of them is follows from its number.
pub struct StructElements<'m, M: Segments> {
    pub(crate) message: &'m M,
    // The first one starts at this word of this segment.
    pub(crate) segment: u32,
    pub(crate) first: u32,
    // How many there are, and the sizes of each.
    pub(crate) count: u32,
    pub(crate) data_words: u16,
    pub(crate) pointers: u16,
    // How many words may still be charged.
    pub(crate) left: u64,
    // The level of what their pointers lead to, and the depth limit.
    pub(crate) level: u64,
    pub(crate) depth: u32,
    ghost exists: { segment < length (M.segments message.now) },
    ghost inside: { first + count * (data_words + pointers)
        ≤ length (segment_of (M.segments message.now) segment) },
    ghost low: { level < 2 ^ 62 },
}

impl<'m, M: Segments> Clone for StructElements<'m, M> {
    ghost is_clone = { λ s r. r ≡ s };

    ghost is_infallible = { λ _. ⊤ };

    fn clone(&self) -> Result<StructElements<'m, M>, AllocError> {
        Ok(*self)
    }
}

impl<'m, M: Segments> Copy for StructElements<'m, M> {}

impl<'m, M: Segments> StructElements<'m, M> {
    ghost use Rattle.cap_frame.specs.SegmentStarts.{start_of};
    ghost use Rattle.cap_vet.specs.Views.{kept_place, view_message};
    ghost use Rattle.cap_vet.specs.GivenPaths.{GivesElement, GivesPointer, HasPointerNear, elements_count, elements_message, elements_segment};
    ghost use Rattle.std.specs.Prelude.{◌↔◌, IfSome, IsSome};

    /// How many words of the message come before the segment of the elements, where the segments
    /// follow one another (encoding: Serialization Over a Stream). One step for each of the segments
    /// before it. Allocates nothing.
    pub fn words_before(&self) -> u64
        ensures value { let m = M.segments (elements_message self.now) in
            result ≡ start_of m (elements_segment self.now) }
        ensures few { result < 2 ^ 42 }
    {
        words_before(self.message, self.segment)
    }

    /// Element `i`, as [`PathStart::get`](crate::PathStart::get) gives it for this step alone. `None`
    /// if the list has no such element. Allocates nothing.
    #[inline(always)]
    pub fn element(&self, i: u64) -> Option<View<'m, M>>
        ensures given { let m = M.segments (elements_message self.now) in
            IfSome result (GivesElement m self.now i) }
        ensures exact { IsSome result ↔ i < elements_count self.now }
        ensures low { IfSome result (λ _. i < 4294967295) }
        ensures message { IfSome result (λ v. view_message v ≡ elements_message self.now) }
        ensures segment { IfSome result (λ v. let place = kept_place v in
            place.segment ≡ elements_segment self.now) }
    {
        if i >= u64::from(self.count) {
            return None;
        }
        let size = u32::from(self.data_words) + u32::from(self.pointers);
        Some(View {
            message: self.message,
            found: element(
                self.segment,
                self.first + i as u32 * size,
                self.data_words,
                self.pointers,
            ),
        })
    }

    /// What pointer `j` of element `i` leads to, as [`PathStart::get`](crate::PathStart::get) gives
    /// it for these two steps. After `None` the list has no such pointer, or its word alone doesn't
    /// describe an object within the limits: `PathStart::get` then has to decide. Allocates nothing.
    #[inline(always)]
    pub fn pointer(&self, i: u64, j: u16) -> Option<View<'m, M>>
        ensures given { let m = M.segments (elements_message self.now) in
            IfSome result (GivesPointer m self.now i j) }
        ensures found { let m = M.segments (elements_message self.now) in
            HasPointerNear m self.now i j → IsSome result }
        ensures low { IfSome result (λ _. i < 4294967295) }
        ensures message { IfSome result (λ v. view_message v ≡ elements_message self.now) }
    {
        if i >= u64::from(self.count) || j >= self.pointers {
            return None;
        }
        let size = u32::from(self.data_words) + u32::from(self.pointers);
        let start = self.first + i as u32 * size;
        let word = start + u32::from(self.data_words) + u32::from(j);
        let (message, segment) = (self.message, self.segment);
        let (found, _) = found_near(message, self.left, self.depth, segment, word, self.level)?;
        Some(View { message, found })
    }
}
