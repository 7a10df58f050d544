//! A message that was accepted.

ghost use Rattle.cap_walk.specs.Reports.{IsVetted};
ghost use Rattle.std.specs.Prelude.{◌≡◌, ⊤};

use crate::nodes::node::Node;
use crate::nodes::spot::Spot;
use cap_frame::Segments;
use cap_spec::Step;
use cap_walk::Report;
use std::alloc::AllocError;

/// A message whose root denotes one finite tree, of the reported numbers, within the greatest limits:
/// at most 268435456 words and 256 levels.
pub struct Vetted<'m, M: Segments> {
    pub(crate) message: &'m M,
    pub(crate) report: Report,
    ghost accepted: { ∥ IsVetted (M.segments message.now) report ∥₁ },
}

impl<'m, M: Segments> Clone for Vetted<'m, M> {
    ghost is_clone = { λ s r. r ≡ s };

    ghost is_infallible = { λ _. ⊤ };

    fn clone(&self) -> Result<Vetted<'m, M>, AllocError> {
        Ok(*self)
    }
}

impl<'m, M: Segments> Copy for Vetted<'m, M> {}

impl<'m, M: Segments> Vetted<'m, M> {
    ghost use Rattle.cap_spec.specs.Denoting.{Denotes};
    ghost use Rattle.cap_spec.specs.Paths.{ReachesSpot, Spot as Where};
    ghost use Rattle.cap_spec.specs.SpotTrees.{DenotesAt};
    ghost use Rattle.cap_spec.specs.Tree.{Tree, node_at};
    ghost use Rattle.cap_vet.specs.Views.{node_message, node_spot};
    ghost use Rattle.cap_vet.specs.Vettings.{message_of, report_of};
    ghost use Rattle.std.specs.Prelude.{IfNone, IfSome, MatchOption, None, Some, [], ℕ};

    /// The charge, the depth, the pointers and the capabilities of the message's tree, which is
    /// within 268435456 words and 256 levels.
    pub fn report(&self) -> Report
        ensures value { result ≡ report_of self.now }
        ensures accepted { IsVetted (M.segments (message_of self.now)) result }
    {
        self.report
    }

    /// The message itself, whose root denotes that tree.
    pub fn message(&self) -> &'m M
        ensures value { result.now ≡ message_of self.now }
        ensures accepted { IsVetted (M.segments result.now) (report_of self.now) }
    {
        self.message
    }

    /// The node of the empty path: what the root pointer denotes. Takes no memory.
    pub fn root(&self) -> Node<'m, M>
        ensures message { node_message result ≡ message_of self.now }
        ensures comes { ReachesSpot (M.segments (message_of self.now)) [] 1 (node_spot result) }
    {
        Node {
            message: self.message,
            spot: Spot::Word {
                segment: 0,
                word: 0,
            },
        }
    }

    /// The node at a path of steps from the root, or `None` if the tree has none there. A step goes
    /// to a pointer of a struct, or to an element of a list of pointers or of structs, by its
    /// number from 0. From an element of a list of structs it goes on as from a struct. Follows
    /// each pointer on the path but the last. Allocates nothing.
    pub fn get(&self, path: &[Step]) -> Option<Node<'m, M>>
        ensures message { IfSome result (λ n. node_message n ≡ message_of self.now) }
        ensures some { let m = M.segments (message_of self.now) in
            IfSome result (λ n. (level : ℕ) × ReachesSpot m path.now level (node_spot n)) }
        ensures none { let m = M.segments (message_of self.now) in
            IfNone result ((level : ℕ) (a : Where) → ¬ ReachesSpot m path.now level a) }
        ensures node { let m = M.segments (message_of self.now) in
            (t : Tree) (c d : ℕ) → Denotes m 0 0 t c d →
            MatchOption result (node_at t path.now ≡ None)
            (λ n. (u : Tree) × (node_at t path.now ≡ Some u) × DenotesAt m (node_spot n) u) }
    {
        let mut node = self.root();
        for step in path {
            match node.child(*step) {
                Some(child) => node = child,
                None => return None,
            }
        }
        Some(node)
    }
}
