//! Nodes of the tree of an accepted message.

ghost use Rattle.cap_spec.specs.Messages.{segment_of};
ghost use Rattle.cap_vet.specs.Nodes.{IsNode};
ghost use Rattle.cap_vet.specs.Spots.{end_at, segment_at, spot_of};
ghost use Rattle.std.specs.Prelude.{◌<◌, ◌≡◌, ◌≤◌, ⊤, length};

use crate::nodes::found::{Found, element, found_at};
use crate::nodes::spot::Spot;
use crate::nodes::view::View;
use cap_frame::Segments;
use cap_spec::Step;
use std::alloc::AllocError;

/// A node of the tree that an accepted message's root denotes (encoding: Objects). It is the
/// pointer word that leads to it, or the element of a list of structs, in a message that it
/// borrows. It knows no path.
pub struct Node<'m, M: Segments> {
    pub(crate) message: &'m M,
    pub(crate) spot: Spot,
    ghost exists: { segment_at spot < length (M.segments message.now) },
    ghost inside: { end_at spot ≤ length (segment_of (M.segments message.now) (segment_at spot)) },
    ghost node: { ∥ IsNode (M.segments message.now) (spot_of spot) ∥₁ },
}

impl<'m, M: Segments> Clone for Node<'m, M> {
    ghost is_clone = { λ s r. r ≡ s };

    ghost is_infallible = { λ _. ⊤ };

    fn clone(&self) -> Result<Node<'m, M>, AllocError> {
        Ok(*self)
    }
}

impl<'m, M: Segments> Copy for Node<'m, M> {}

impl<'m, M: Segments> Node<'m, M> {
    ghost use Rattle.cap_spec.specs.Arriving.{HasObject};
    ghost use Rattle.cap_spec.specs.Paths.{StepsTo, Spot as Where, HasPlace};
    ghost use Rattle.cap_spec.specs.Showing.{own_of};
    ghost use Rattle.cap_spec.specs.SpotTrees.{DenotesAt};
    ghost use Rattle.cap_spec.specs.Tree.{Tree, part_at};
    ghost use Rattle.cap_vet.specs.Finding.{IsFound};
    ghost use Rattle.cap_vet.specs.Views.{kept_place, node_message, node_spot, shown, view_kind, view_message, view_place};
    ghost use Rattle.std.specs.Prelude.{IfNone, IfSome, MatchOption, Some, None, ℕ};

    // What is at the node's spot. Following its pointer can't fail. It and its callers are inlined,
    // so that the result stays in registers.
    #[inline(always)]
    fn found(&self) -> Found
        ensures { IsFound (M.segments (node_message self.now)) (node_spot self.now) result }
    {
        match self.spot {
            Spot::Word { segment, word } => found_at(self.message, segment, word),
            Spot::Element {
                segment,
                start,
                data_words,
                pointers,
            } => element(segment, start, data_words, pointers),
        }
    }

    /// A view of the node: what it is without its children. A pointer that leads to it is followed
    /// again. Allocates nothing.
    #[inline(always)]
    pub fn view(&self) -> View<'m, M>
        ensures message { view_message result ≡ node_message self.now }
        ensures object { let m = M.segments (node_message self.now) in
            let spot = node_spot self.now in let place = kept_place result in
            HasObject m spot (view_kind result) place.segment place.start place.words }

        // There is a tree at the node, and the view shows what it is by itself.
        ensures tree { let m = M.segments (node_message self.now) in
            (t : Tree) × DenotesAt m (node_spot self.now) t × (shown result ≡ own_of t) }
        ensures shows { let m = M.segments (node_message self.now) in
            (t : Tree) → DenotesAt m (node_spot self.now) t → shown result ≡ own_of t }
        ensures place { let m = M.segments (node_message self.now) in
            MatchOption (view_place result) ((t b n : ℕ) → ¬ HasPlace m (node_spot self.now) t b n)
            (λ p. HasPlace m (node_spot self.now) p.segment p.start p.words) }
    {
        View {
            message: self.message,
            found: self.found(),
        }
    }

    /// The node that one step leads to, or `None` where this node has no such part: a struct's pointer
    /// `i`, or element `i` of a list of pointers or of structs. The child of a path's node is the node
    /// of that path with the step added. Takes no memory.
    #[inline(always)]
    pub fn child(&self, step: Step) -> Option<Node<'m, M>>
        ensures message { IfSome result (λ n. node_message n ≡ node_message self.now) }
        ensures some { let m = M.segments (node_message self.now) in
            IfSome result (λ n. StepsTo m (node_spot self.now) step (node_spot n)) }
        ensures none { let m = M.segments (node_message self.now) in
            IfNone result ((b : Where) → ¬ StepsTo m (node_spot self.now) step b) }
        ensures part { let m = M.segments (node_message self.now) in
            (t : Tree) → DenotesAt m (node_spot self.now) t →
            MatchOption result (part_at t step ≡ None)
            (λ n. (u : Tree) × (part_at t step ≡ Some u) × DenotesAt m (node_spot n) u) }
    {
        let next = self.found().step(step)?;
        let child = Node {
            message: self.message,
            spot: next,
        };
        Some(child)
    }
}
