//! A call over its input: a frame, or the words of one segment.

ghost use Rattle.cap_calls.specs.CallFindings.{Returns};
ghost use Rattle.cap_calls.specs.CallFlags.{demands_of, has_no_table};
ghost use Rattle.cap_calls.specs.CallInputs.{IsNoSegment, IsSegment, ReportsInput};
ghost use Rattle.cap_calls.specs.declared.found.Found.{Found};
ghost use Rattle.cap_spec.specs.Plain.{plain_words};
ghost use Rattle.cap_walk.specs.Limits.{depth_of, words_of};
ghost use Rattle.std.specs.Prelude.{◌≡◌, [], ◌∷◌, Bool, IfErr, IfOk, IsTrue};

use crate::answer::Answer;
use crate::found::Found;
use crate::front::NoFrame;
use crate::limits::CallLimits;
use crate::over::{Call, over};
use crate::report::CallReport;
use cap_frame::{ByteView, FrontFault, MOST_WORDS, Segments};
use cap_vet::Limits;

/// What a call finds of its input: of the message that bytes start with, or by their form of the
/// one segment whose words they are. Without that form, no bytes may follow the message if they
/// have to be the message as a `whole`. The report is written, and the answer and the count are
/// returned.
// The report is written in each branch, since a small message would pay for a copy of it.
#[inline(always)]
pub(crate) fn over_input<C: Call>(
    call: &C,
    whole: bool,
    bytes: &[u8],
    limits: &CallLimits,
    out: &mut [C::Item],
    report: &mut CallReport,
) -> (Answer, usize)
    ensures { (f : Found) × ReportsInput whole (out.new ≡ out.old)
        (λ m w d g. C.finds call.now (demands_of limits.now) m w d out.old g out.new)
        limits.now bytes.now f × Returns f result.0 report.new × (result.1 ≡ f.count) }
{
    if limits.has_no_table() {
        let found = over_words(call, bytes, limits, out);
        *report = found.report;
        return (found.answer, found.count);
    }
    let found = over(call, whole, bytes, limits, out);
    *report = found.report;
    (found.answer, found.count)
}

// The same of words.
#[cold]
#[inline(never)]
fn over_words<C: Call>(call: &C, bytes: &[u8], limits: &CallLimits, out: &mut [C::Item]) -> Found
    requires { IsTrue (has_no_table limits.now) }
    ensures { (whole : Bool) → ReportsInput whole (out.new ≡ out.old)
        (λ m w d f. C.finds call.now (demands_of limits.now) m w d out.old f out.new)
        limits.now bytes.now result }
{
    let mut size = [0];
    match whole_segment(bytes, limits, &mut size) {
        Ok((view, walk)) => {
            let words = (bytes.len() / 8) as u64;
            let limit = limits.charge_limit(words);
            call.on(&view, words, walk, limits.demands(), out)
                .extent(bytes.len(), 1, words, limit)
        }
        Err(cause) => Found::without(cause),
    }
}

// The message of one segment whose words the bytes are, with the limits of a walk through it. Its
// size in words is put into `size`.
fn whole_segment<'b>(
    bytes: &'b [u8],
    limits: &CallLimits,
    size: &'b mut [u32; 1],
) -> Result<(ByteView<'b>, Limits), NoFrame>
    ensures limits { IfOk result (λ v. (words_of v.1 ≡ limits.now.charge)
        × (depth_of v.1 ≡ limits.now.depth)) }
    ensures words { IfOk result (λ v. IsSegment limits.now bytes.now) }
    ensures segments { let of = ⟦<ByteView<'b> as Segments>⟧.segments in
        IfOk result (λ v. of v.0 ≡ plain_words bytes.now ∷ []) }
    ensures none { IfErr result (IsNoSegment limits.now bytes.now) }
{
    if !limits.has_word_flags() || limits.message_words > MOST_WORDS {
        return Err(NoFrame::BadLimits);
    }
    let Some(walk) = Limits::new(limits.charge, limits.depth) else {
        return Err(NoFrame::BadLimits);
    };
    if bytes.is_empty() {
        return Err(NoFrame::NoMessage);
    }
    let words = (bytes.len() - 1) as u64 / 8 + 1;
    if words > limits.message_words {
        return Err(NoFrame::Fault(FrontFault::TooLarge { words }));
    }
    match ByteView::of_words(bytes, size) {
        Some(view) => Ok((view, walk)),
        None => Err(NoFrame::Fault(FrontFault::Truncated { needed: 8 * words })),
    }
}
