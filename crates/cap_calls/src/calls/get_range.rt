//! The call for the nodes at the paths of a range.

ghost use Rattle.cap_calls.specs.RangeCalls.{AreStepKinds, GetsRange, IsBadStep, ReportsRange, ReportsSteps, path_after, step_after};
ghost use Rattle.cap_calls.specs.declared.answer.Answer.{Answer};
ghost use Rattle.cap_calls.specs.declared.node.CallNode.{CallNode};
ghost use Rattle.cap_calls.specs.declared.report.CallReport.{CallReport};
ghost use Rattle.std.specs.Prelude.{◌++◌, ◌<◌, ◌≡◌, ◌∷◌, IfNone, IfSome, List, length, ℕ};

use crate::answer::Answer;
use crate::calls::get::{are_limits, bad_path, path_answer};
use crate::found::Found;
use crate::front::NoFrame;
use crate::limits::CallLimits;
use crate::node::{CallNode, bytes_before};
use crate::over::{Call, over};
use crate::report::CallReport;
use crate::step::CallStep;
use cap_frame::{ByteView, Segments};
use cap_vet::{Demands, Limits, PathStart, Step, StepSource, StructElements};

/// Follows paths of which one step varies in the message that bytes are, and reports the node at
/// each. Node k is at the path whose step `varying` has its number and k more. The steps that lead
/// to it are given as numbers. Each node is what [`crate::get`] reports for its path, with the
/// limits applied to each path by itself. No number wraps: where there is none so high, nothing is
/// at the path. Allocates nothing.
///
/// `found` is how many nodes were reported. They are the first of `nodes`, and the others are
/// unchanged. The first of these that applies is returned:
/// - [`Answer::BadLimits`];
/// - [`Answer::BadPath`], if the kind of a step is neither 0 nor 1, and `detail` is the first such
///   step; or else if there is no step `varying`, and `detail` is the number of steps;
/// - why there is no frame, or [`Answer::Trailing`], as for [`crate::vet`];
/// - for the first path that has no node, what [`crate::get`] returns and reports for it;
/// - [`Answer::Good`]: all nodes were found.
///
/// The report is written whole.
pub fn get_range(
    bytes: &[u8],
    limits: &CallLimits,
    steps: &[CallStep],
    varying: usize,
    nodes: &mut [CallNode],
    found: &mut usize,
    report: &mut CallReport,
) -> Answer
    ensures reports { ReportsRange limits.now bytes.now steps.now varying nodes.old result found.new
        nodes.new report.new }
    // The bytes and the steps allow no other result.
    ensures only { (a : Answer) (n : ℕ) (new : List CallNode) (r : CallReport) →
        ReportsRange limits.now bytes.now steps.now varying nodes.old a n new r →
        (result ≡ a) × (found.new ≡ n) × (nodes.new ≡ new) × (report.new ≡ r) }
{
    let what = find(bytes, limits, steps, varying, nodes);
    *found = what.count;
    *report = what.report;
    what.answer
}

// What the call finds.
fn find(
    bytes: &[u8],
    limits: &CallLimits,
    steps: &[CallStep],
    varying: usize,
    nodes: &mut [CallNode],
) -> Found
    ensures { ReportsSteps limits.now bytes.now steps.now varying nodes.old nodes.new result }
{
    match bad_step(steps, varying) {
        Some(at) => {
            if are_limits(limits) {
                bad_path(at)
            } else {
                Found::without(NoFrame::BadLimits)
            }
        }
        None => {
            let whole = !limits.allows_trailing();
            over(
                &GettingRange { steps, varying },
                whole,
                bytes,
                limits,
                nodes,
            )
        }
    }
}

// Where the steps are no path of a range.
fn bad_step(steps: &[CallStep], varying: usize) -> Option<usize>
    ensures some { IfSome result (IsBadStep steps.now varying) }
    ensures none { IfNone result (AreStepKinds steps.now varying) }
{
    'steps: for at in 0..steps.len() {
        if steps[at].kind > 1 {
            return Some(at);
        }
    }
    if varying >= steps.len() {
        return Some(steps.len());
    }
    None
}

// Steps of a path, in numbers.
#[derive(Clone, Copy, Drop)]
struct FixedSteps<'s> {
    rest: &'s [CallStep],
}

impl<'s> StepSource for FixedSteps<'s> {
    ghost gives = { λ left path. path ≡ path_after left.rest.now 0 0 };

    ghost most = { λ left. length left.rest.now };

    #[inline(always)]
    fn next_step(&mut self) -> Option<Step> {
        if self.rest.is_empty() {
            return None;
        }
        let step = self.rest[0];
        self.rest = &self.rest[1..];
        Some(step.after(0))
    }
}

// The call on a message, for these steps.
#[derive(Clone, Copy, Drop)]
struct GettingRange<'s> {
    steps: &'s [CallStep],
    varying: usize,
    ghost inside: { varying < length steps.now },
}

impl<'s> GettingRange<'s> {
    // The steps before the one that varies, that step, and those after it.
    #[inline]
    fn parts(&self) -> (FixedSteps<'s>, CallStep, FixedSteps<'s>)
        ensures { (k : ℕ) → path_after self.now.steps.now self.now.varying k
            ≡ path_after result.0.rest.now 0 0
            ++ step_after result.1 k ∷ path_after result.2.rest.now 0 0 }
    {
        let first = FixedSteps {
            rest: &self.steps[..self.varying],
        };
        let rest = FixedSteps {
            rest: &self.steps[self.varying + 1..],
        };
        (first, self.steps[self.varying], rest)
    }
}

impl<'s> Call for GettingRange<'s> {
    type Item = CallNode;

    ghost finds = { λ call demands m words depth old f new.
        GetsRange (λ k. path_after call.steps.now call.varying k) old new demands m words depth f };

    // The steps before the one that varies are followed once for all nodes.
    #[inline(never)]
    fn on<'b>(
        &self,
        view: &ByteView<'b>,
        _words: u64,
        limits: Limits,
        demands: Demands,
        out: &mut [CallNode],
    ) -> Found {
        let (first, step, rest) = self.parts();
        let start = PathStart::new(view, limits, demands, first);
        let shortcut = Shortcut::choose(&start, step, rest);
        let done = shortcut.elements(view.count(), out);
        'nodes: for k in done..out.len() {
            match shortcut.pointed(k as u64, view.count()) {
                Some(node) => out[k] = node,
                None => match start.get(step.after(k as u64), rest) {
                    Ok(Some(at)) => out[k] = CallNode::of(&at, view.count()),
                    Ok(None) => return stopped(path_answer(Answer::NoNode), k),
                    Err(refusal) => return stopped(Found::refused(refusal), k),
                },
            }
        }
        stopped(path_answer(Answer::Good), out.len())
    }
}

// How most nodes of a range are found: by their number alone, or by one pointer more.
#[derive(Drop)]
enum Shortcut<'m, M: Segments> {
    // The elements of this list of structs, from the one of this number on.
    Elements(StructElements<'m, M>, u32),
    // What this pointer of each of them leads to.
    Pointers(StructElements<'m, M>, u32, u16),
    // Each path has to be followed.
    Unknown,
}

impl<'m, M: Segments> Shortcut<'m, M> {
    ghost use Rattle.cap_calls.specs.RangeShortcut.{HasCount, IsShortcut, IsShortcutNode, WritesFirst};
    ghost use Rattle.cap_vet.specs.GivenPaths.{start_message};
    ghost use Rattle.std.specs.Prelude.{◌^◌};

    // How to find the nodes after this start, at the step that varies and the others.
    fn choose(start: &PathStart<'m, M>, step: CallStep, rest: FixedSteps<'_>) -> Shortcut<'m, M>
        ensures { IsShortcut (M.segments (start_message start.now)) start.now step rest.entry.rest.now
            result }
    {
        if step.kind == 0 || rest.rest.len() > 1 {
            return Shortcut::Unknown;
        }
        let Some(list) = start.elements() else {
            return Shortcut::Unknown;
        };
        if rest.rest.is_empty() {
            return Shortcut::Elements(list, step.number);
        }
        match rest.rest[0].after(0) {
            Step::Ptr(j) => Shortcut::Pointers(list, step.number, j),
            Step::Item(_) => Shortcut::Unknown,
        }
    }

    // Writes the first nodes, if they are elements, in a frame of a message of this number of
    // segments. Gives how many they are. The bytes before their segment are counted once for all.
    fn elements(&self, segments: u32, nodes: &mut [CallNode]) -> usize
        requires { HasCount segments self.now }
        ensures { WritesFirst (λ k node. IsShortcutNode self.now k node) result nodes.old nodes.new }
    {
        let Shortcut::Elements(list, number) = self else {
            return 0;
        };
        let list = *list;
        let first = u64::from(*number);
        let before = bytes_before(segments, list.words_before());
        'nodes: for k in 0..nodes.len() {
            let Some(view) = list.element(first + k as u64) else {
                return k;
            };
            nodes[k] = CallNode::in_segment(&view, before);
        }
        nodes.len()
    }

    // The node of path `k`, if it is what a pointer leads to that is found so, in a frame of a message
    // of this number of segments.
    #[inline(always)]
    fn pointed(&self, k: u64, segments: u32) -> Option<CallNode>
        requires count { HasCount segments self.now }
        requires low { k < 2 ^ 63 }
        ensures { IfSome result (λ node. IsShortcutNode self.now k node) }
    {
        let Shortcut::Pointers(list, number, j) = self else {
            return None;
        };
        let view = list.pointer(u64::from(*number) + k, *j)?;
        Some(CallNode::of(&view, segments))
    }
}

// The same, with this many nodes found.
fn stopped(found: Found, count: usize) -> Found
    ensures { result ≡ record found { count = count } }
{
    Found { count, ..found }
}
