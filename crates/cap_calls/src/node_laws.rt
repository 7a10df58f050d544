//! What is known of nodes: a vetted message has its nodes, a node's bytes are those of its words, and
//! they are inside the frame.

ghost use Rattle.cap_calls.specs.CallFlags.{has_no_table};
ghost use Rattle.cap_calls.specs.CallFrames.{BeginsWith};
ghost use Rattle.cap_calls.specs.CallNodes.{none_node, offset_of};
ghost use Rattle.cap_calls.specs.Calls.{ReportsVet};
ghost use Rattle.cap_calls.specs.NodeCalls.{ReportsGet};
ghost use Rattle.cap_calls.specs.RangeCalls.{AreStepKinds, RangeCall};
ghost use Rattle.cap_calls.specs.declared.answer.Answer.{Answer};
ghost use Rattle.cap_calls.specs.declared.answer.Answer.TheVariants.{Good, NoNode};
ghost use Rattle.cap_calls.specs.declared.limits.CallLimits.{CallLimits};
ghost use Rattle.cap_calls.specs.declared.node.CallNode.{CallNode};
ghost use Rattle.cap_calls.specs.declared.report.CallReport.{CallReport};
ghost use Rattle.cap_spec.specs.Denoting.{words_from};
ghost use Rattle.cap_spec.specs.Messages.{segment_of};
ghost use Rattle.cap_spec.specs.PathTexts.{IsPath};
ghost use Rattle.cap_spec.specs.Paths.{IsPlace};
ghost use Rattle.cap_spec.specs.Plain.{plain_words};
ghost use Rattle.cap_spec.specs.declared.Step.{Step};
ghost use Rattle.cap_vet.specs.PathDemands.{MeetsOnPath};
ghost use Rattle.cap_walk.specs.Demands.{Meets};
ghost use Rattle.cap_walk.specs.declared.demands.Demands.{Demands};
ghost use Rattle.std.specs.Prelude.{◌*◌, ◌+◌, ◌<◌, ◌≡◌, ◌≤◌, ◌⊎◌, IsFalse, List, length, slice_index_or, slice_range, ℕ};

/// If a message meets the demands, so do the pointers on each path. So [`crate::get`] and
/// [`crate::get_range`] refuse no path in a message that [`crate::vet`] accepts with the same limits,
/// of another form than words. They find its node, or that nothing is there.
pub fn vetted_messages_have_their_nodes()
    ensures paths { (demands : Demands) (m : List (List ℕ)) (words depth : ℕ) →
        Meets demands m words depth →
        (path : List Step) → MeetsOnPath demands m words depth path }
    ensures get { (l : CallLimits) (bytes text : List ℕ) (a : Answer) (node : CallNode)
        (r q : CallReport) → IsFalse (has_no_table l) → IsPath text →
        ReportsVet l bytes Good r → ReportsGet l bytes text a node q → (a ≡ Good) ⊎ (a ≡ NoNode) }
    ensures get_range { (l : CallLimits) (bytes : List ℕ) (r : CallReport) (c : RangeCall l bytes) →
        IsFalse (has_no_table l) → AreStepKinds c.steps c.varying → ReportsVet l bytes Good r →
        (c.returned ≡ Good) ⊎ (c.returned ≡ NoNode) }
{}

/// The words of the bytes from the offset of word b of segment t on are those of the segment from there
/// on. So the bytes from the place of a path on are the words of the object there. (A node of a list of
/// structs leaves out its tag, which is the first of them.)
pub fn offsets_are_of_words()
    ensures words { (bytes : List ℕ) (m : List (List ℕ)) (t b n k : ℕ) →
        BeginsWith bytes m → t < length m → b + n ≤ length (segment_of m t) →
        offset_of m t b ≡ 8 * k → slice_range (plain_words bytes) k (k + n) ≡ words_from m t b n }
    ensures path { (bytes : List ℕ) (m : List (List ℕ)) (path : List Step) (t b n : ℕ) →
        BeginsWith bytes m → IsPlace m path t b n → let at = offset_of m t b in
        plain_words (slice_range bytes at (at + 8 * n)) ≡ words_from m t b n }
{}

/// The bytes of each node that [`crate::get`] or [`crate::get_range`] reports are inside the frame whose
/// length it reports, and this frame is inside the input.
pub fn nodes_are_inside_their_frame()
    ensures get { (l : CallLimits) (bytes text : List ℕ) (a : Answer) (node : CallNode)
        (r : CallReport) → ReportsGet l bytes text a node r →
        (node.offset + node.length ≤ r.length) × (r.length ≤ length bytes) }
    ensures get_range { (l : CallLimits) (bytes : List ℕ) (c : RangeCall l bytes) (k : ℕ) →
        k < c.count → let node = slice_index_or c.after k none_node in
        (node.offset + node.length ≤ c.report.length) × (c.report.length ≤ length bytes) }
{}
