//! The call for the node at a path.

ghost use Rattle.cap_calls.specs.CallFrames.{AreLimits};
ghost use Rattle.cap_calls.specs.NodeCalls.{GetsFirst, ReportsGet, ReportsPathCall, bad_path_found, path_found};
ghost use Rattle.cap_calls.specs.declared.answer.Answer.{Answer};
ghost use Rattle.cap_calls.specs.declared.node.CallNode.{CallNode};
ghost use Rattle.cap_calls.specs.declared.report.CallReport.{CallReport};
ghost use Rattle.cap_path.specs.PathSteps.{AreStepsLeft};
ghost use Rattle.cap_spec.specs.declared.Step.{Step};
ghost use Rattle.std.specs.Prelude.{◌≡◌, Decides, List, slice_set};

use crate::answer::Answer;
use crate::found::Found;
use crate::front::{NoFrame, front};
use crate::limits::CallLimits;
use crate::node::CallNode;
use crate::over::{Call, over};
use crate::report::CallReport;
use cap_frame::{ByteView, Segments};
use cap_path::{PathSteps, read_path};
use cap_vet::{Demands, Limits, get_with};

/// Follows a path in the message that bytes are, and reports the node there. By their form the
/// bytes may start with the message. Only the pointers on the path are looked at, so the message
/// needn't be vetted (encoding: Security Considerations). Allocates nothing.
///
/// The first of these that applies is returned:
/// - [`Answer::BadLimits`];
/// - [`Answer::BadPath`], if `path` is no text of a path; `detail` is the first bad byte;
/// - why there is no frame, or [`Answer::Trailing`], as for [`crate::vet`];
/// - the reason of the first pointer on the path that is wrong or past a limit, with its place; the
///   charge of the pointers on the path counts, the root's among them;
/// - [`Answer::ManySegments`], and then the form of the first pointer on the path that isn't
///   strict, without the flag 1;
/// - [`Answer::NoNode`], if nothing is at the path;
/// - [`Answer::Good`], and `node` is the node.
///
/// `node` is all 0 without [`Answer::Good`]. The report is written whole.
pub fn get(
    bytes: &[u8],
    limits: &CallLimits,
    path: &[u8],
    node: &mut CallNode,
    report: &mut CallReport,
) -> Answer
    ensures reports { ReportsGet limits.now bytes.now path.now result node.new report.new }
    // The bytes and the path allow no other result.
    ensures only { (a : Answer) (n : CallNode) (r : CallReport) →
        ReportsGet limits.now bytes.now path.now a n r →
        (result ≡ a) × (node.new ≡ n) × (report.new ≡ r) }
{
    let found = find(bytes, limits, path, node);
    *report = found.report;
    found.answer
}

// What the call finds.
fn find(bytes: &[u8], limits: &CallLimits, path: &[u8], node: &mut CallNode) -> Found
    ensures { ReportsPathCall limits.now bytes.now path.now node.new result }
{
    *node = CallNode::none();
    match read_path(path) {
        Ok(steps) => {
            let mut nodes = [CallNode::none()];
            let whole = !limits.allows_trailing();
            let found = over(&Getting { steps }, whole, bytes, limits, &mut nodes);
            *node = nodes[0];
            found
        }
        Err(at) => {
            if are_limits(limits) {
                bad_path(at)
            } else {
                Found::without(NoFrame::BadLimits)
            }
        }
    }
}

// Whether no limit is above its maximum, no flag and no form is unknown, and the reserved fields are 0.
// Of no bytes nothing else is found before bad limits.
pub(crate) fn are_limits(limits: &CallLimits) -> bool
    ensures { Decides result (AreLimits limits.now) }
{
    match front(&[], limits) {
        Err(NoFrame::BadLimits) => false,
        Err(NoFrame::NoMessage | NoFrame::Fault(_)) | Ok(_) => true,
    }
}

// What is found of a text that stops being a path at this byte.
pub(crate) fn bad_path(at: usize) -> Found
    ensures { result ≡ bad_path_found at }
{
    Found {
        answer: Answer::BadPath,
        count: 0,
        report: CallReport {
            detail: at as u64,
            ..CallReport::none()
        },
    }
}

// The call on a message, for the path of these steps.
#[derive(Clone, Copy, Drop)]
struct Getting<'t> {
    steps: PathSteps<'t>,
}

impl<'t> Call for Getting<'t> {
    type Item = CallNode;

    ghost finds = { λ call demands m words depth old f new. (path : List Step) →
        AreStepsLeft call.steps path → GetsFirst path old new demands m words depth f };

    #[inline(never)]
    fn on<'b>(
        &self,
        view: &ByteView<'b>,
        _words: u64,
        limits: Limits,
        demands: Demands,
        out: &mut [CallNode],
    ) -> Found {
        match get_with(view, limits, demands, self.steps) {
            Ok(Some(at)) => {
                put_first(out, CallNode::of(&at, view.count()));
                path_answer(Answer::Good)
            }
            Ok(None) => {
                put_first(out, CallNode::none());
                path_answer(Answer::NoNode)
            }
            Err(refusal) => {
                put_first(out, CallNode::none());
                Found::refused(refusal)
            }
        }
    }
}

// Puts a node into the first of some nodes, if there is one.
#[inline(always)]
fn put_first(out: &mut [CallNode], node: CallNode)
    ensures { out.new ≡ slice_set out.old 0 node }
{
    if !out.is_empty() {
        out[0] = node;
    }
}

// What is found of a path whose pointers meet the demands.
pub(crate) fn path_answer(answer: Answer) -> Found
    ensures { result ≡ path_found answer }
{
    Found {
        answer,
        count: 0,
        report: CallReport::none(),
    }
}
