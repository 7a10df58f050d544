//! A call over the message at the start of bytes.

ghost use Rattle.cap_calls.specs.CallFindings.{ReportsWhole};
ghost use Rattle.cap_calls.specs.CallFlags.{demands_of};
ghost use Rattle.cap_calls.specs.declared.found.Found.{Found};
ghost use Rattle.cap_frame.specs.Framed.{frame_bytes, framed_segments};
ghost use Rattle.cap_spec.specs.Frames.{sizes_of};
ghost use Rattle.cap_walk.specs.Limits.{depth_of, words_of};
ghost use Rattle.cap_walk.specs.declared.demands.Demands.{Demands};
ghost use Rattle.std.specs.Prelude.{◌≡◌, ◌-◌, if◌then◌else◌, List, length, sum, ℕ};

use crate::found::Found;
use crate::front::front;
use crate::limits::CallLimits;
use cap_frame::{ByteView, Framed, SegmentTables, Segments};
use cap_vet::{Demands, Limits};

/// What a call does with a message.
pub(crate) trait Call {
    /// An item of the call's output.
    type Item;

    // What it finds of a message, under demands and within limits of its charge and its depth, if
    // its output held the first items before, and the second after.
    ghost finds: { Self → Demands → List (List ℕ) → ℕ → ℕ → List Self.Item → Found →
        List Self.Item → Type 0 };

    /// What it finds of the message that is seen, apart from the extent of its frame.
    /// `words` is how many words its segments have together.
    fn on<'b>(
        &self,
        view: &ByteView<'b>,
        words: u64,
        limits: Limits,
        demands: Demands,
        out: &mut [Self::Item],
    ) -> Found
        requires { words ≡ sum (sizes_of (⟦<ByteView<'b> as Segments>⟧.segments view.now)) }
        ensures { let m = ⟦<ByteView<'b> as Segments>⟧.segments view.now in
            finds self.now demands m (words_of limits) (depth_of limits) out.old result out.new };

    /// The same of a message of one segment, as most are.
    #[inline(always)]
    fn on_one<'b>(
        &self,
        view: &ByteView<'b>,
        words: u64,
        limits: Limits,
        demands: Demands,
        out: &mut [Self::Item],
    ) -> Found
        requires words { words ≡ sum (sizes_of (⟦<ByteView<'b> as Segments>⟧.segments view.now)) }
        requires one { length (⟦<ByteView<'b> as Segments>⟧.segments view.now) ≡ 1 }
        ensures { let m = ⟦<ByteView<'b> as Segments>⟧.segments view.now in
            finds self.now demands m (words_of limits) (depth_of limits) out.old result out.new }
    {
        self.on(view, words, limits, demands, out)
    }
}

/// What a call finds of the message that bytes start with, or of bytes without one. If the bytes
/// have to be the message as a `whole`, none may follow it.
pub(crate) fn over<C: Call>(
    call: &C,
    whole: bool,
    bytes: &[u8],
    limits: &CallLimits,
    out: &mut [C::Item],
) -> Found
    ensures { ReportsWhole whole (out.new ≡ out.old)
        (λ m w d f. C.finds call.now (demands_of limits.now) m w d out.old f out.new)
        limits.now bytes.now result }
{
    match front(bytes, limits) {
        Ok((framed, walk)) => {
            let more = bytes_after(whole, bytes, &framed);
            if more > 0 {
                return Found::trailing(more as u64).framed(&framed, limits);
            }
            over_framed(call, &framed, walk, limits.demands(), out).framed(&framed, limits)
        }
        Err(cause) => Found::without(cause),
    }
}

// How many bytes follow the frame, or 0 where they may.
#[inline]
fn bytes_after(whole: bool, bytes: &[u8], framed: &Framed<'_>) -> usize
    ensures { result ≡ (if whole then (length bytes.now - frame_bytes framed.now) else 0) }
{
    if whole {
        bytes.len().saturating_sub(framed.length())
    } else {
        0
    }
}

// What it finds of a framed message.
fn over_framed<C: Call>(
    call: &C,
    framed: &Framed<'_>,
    limits: Limits,
    demands: Demands,
    out: &mut [C::Item],
) -> Found
    ensures { let m = framed_segments framed.now in
        C.finds call.now demands m (words_of limits) (depth_of limits) out.old result out.new }
{
    let framed = *framed;
    let mut size = [0];
    match framed.one_segment(&mut size) {
        Some(view) => call.on_one(&view, framed.words(), limits, demands, out),
        None => over_segments(call, &framed, limits, demands, out),
    }
}

// The same for a message of several segments, which needs more space for its tables.
#[cold]
#[inline(never)]
fn over_segments<C: Call>(
    call: &C,
    framed: &Framed<'_>,
    limits: Limits,
    demands: Demands,
    out: &mut [C::Item],
) -> Found
    ensures { let m = framed_segments framed.now in
        C.finds call.now demands m (words_of limits) (depth_of limits) out.old result out.new }
{
    let framed = *framed;
    let mut tables = SegmentTables::new();
    call.on(
        &framed.view(&mut tables),
        framed.words(),
        limits,
        demands,
        out,
    )
}
