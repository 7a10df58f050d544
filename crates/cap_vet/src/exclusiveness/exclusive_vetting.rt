//! The verdict of a message of which no word may be used twice.

ghost use Rattle.cap_frame.specs.SegmentStarts.{start_of};
ghost use Rattle.cap_spec.specs.Frames.{sizes_of};
ghost use Rattle.cap_spec.specs.GreatestLimits.{most_depth, most_words};
ghost use Rattle.cap_spec.specs.Messages.{segment_of};
ghost use Rattle.cap_spec.specs.Occupying.{IsDisjoint, IsFirstOverlap, empty_count};
ghost use Rattle.cap_spec.specs.Tree.{Tree};
ghost use Rattle.cap_spec.specs.declared.StrictRefusal.{StrictRefusal};
ghost use Rattle.cap_vet.specs.Exclusives.{IsExclusiveRefusal, vetted_of};
ghost use Rattle.cap_vet.specs.OverlapSteps.{KnowsFirsts};
ghost use Rattle.cap_vet.specs.Overlapping.{EndsMarking, OverlapsFirst};
ghost use Rattle.cap_vet.specs.Taken.{HasCapacity, IsTaken};
ghost use Rattle.cap_vet.specs.Vettings.{message_of, report_of};
ghost use Rattle.cap_walk.specs.Demands.{IsDemandFault, IsMet, Meets, words_under};
ghost use Rattle.cap_walk.specs.Limits.{depth_of, words_of};
ghost use Rattle.cap_walk.specs.Reports.{IsAccepted, IsReport};
ghost use Rattle.cap_walk.specs.Turns.{HoldsOfAll, IsStopped};
ghost use Rattle.cap_walk.specs.declared.report.Report.{Report};
ghost use Rattle.std.specs.Prelude.{Err, ◌+◌, ◌*◌, ◌<◌, ◌≡◌, ◌≤◌, ◌⊎◌, IfErr, IfOk, IsErrOf, IsOk, length, sum, ℕ};

use crate::demanded_vetting::vet_with;
use crate::exclusiveness::exclusive::Exclusive;
use crate::exclusiveness::marks::{Marks, fill_starts, numbers_for};
use crate::exclusiveness::overlap_turn::{Overlap, OverlapSearch};
use crate::nodes::vetted::Vetted;
use crate::strictness::path_strictness::strict_fault;
use crate::strictness::strict_turn::{LaxPointer, LaxSearch};
use arrayvec::ArrayVec;
use cap_frame::Segments;
use cap_spec::StrictRefusal;
use cap_walk::{Demands, Limits, Report, Stopped, limits_under, unamplified_words, walk};
use std::alloc::Global;

/// Why a message isn't exclusive.
#[derive(Clone, Copy, Debug, PartialEq, Eq, Drop)]
pub enum ExclusiveRefusal {
    /// It isn't accepted at all, or doesn't meet the demands.
    Refused(StrictRefusal),
    /// A pointer uses a word twice, the root word, or a word that an earlier pointer uses.
    Overlap {
        /// The segment of the first such pointer in preorder.
        segment: u32,
        /// Its word in that segment.
        word: u32,
        /// How many pointer words were looked at, that one included.
        pointers: u64,
    },
    /// Allocating the marks failed.
    Memory,
}

/// Vets a message under demands, and accepts it if also no word is used twice: by two pointers that
/// paths reach, by one pointer, or by the root (profile). A pointer uses its landing pads, also if it
/// is null or a capability. It uses the words of its object, the tag among them. An object without
/// words uses none, wherever it starts.
///
/// Walks once, but for amplified messages with an overlap: these are walked a second time, without
/// marks. Allocates once: one bit for each word of the message, and at most 64 bits more. Where that
/// fails, the message is vetted all the same.
///
/// # Errors
///
/// - [`ExclusiveRefusal::Refused`]: [`crate::vet_with`] refuses the message.
/// - [`ExclusiveRefusal::Memory`]: the message meets the demands, and the allocation failed.
/// - [`ExclusiveRefusal::Overlap`]: the message meets the demands, and a pointer overlaps. It is the
///   first in preorder that uses a word which is used already.
pub fn vet_exclusive<'m, M: Segments>(
    alloc: Global,
    message: &'m M,
    limits: Limits,
    demands: Demands,
) -> Result<Exclusive<'m, M>, ExclusiveRefusal>
    ensures ok { let m = M.segments message.now in IfOk result (λ e.
        IsMet demands m (words_of limits) (depth_of limits) (report_of (vetted_of e))
        × IsDisjoint m) }
    ensures message { IfOk result (λ e. message_of (vetted_of e) ≡ message.now) }

    // Without that of elements which take no bits or no words, the charge is less than the words of
    // all segments.
    ensures bound { let m = M.segments message.now in
        IfOk result (λ e. let r = report_of (vetted_of e) in (t : Tree)
        × IsReport m (words_under demands m (words_of limits)) (depth_of limits) r t
        × (r.charge < sum (sizes_of m) + empty_count t)) }

    ensures err { let m = M.segments message.now in
        IfErr result (IsExclusiveRefusal demands m (words_of limits) (depth_of limits)) }

    // The other direction, unless the allocation fails.
    ensures refuses { let m = M.segments message.now in (r : StrictRefusal) →
        IsDemandFault demands m (words_of limits) (depth_of limits) r →
        result ≡ Err (ExclusiveRefusal.Refused r) }
    ensures accepts { let m = M.segments message.now in
        Meets demands m (words_of limits) (depth_of limits) → IsDisjoint m →
        IsOk result ⊎ (result ≡ Err ExclusiveRefusal.Memory) }
    ensures names { let m = M.segments message.now in (s w n : ℕ) →
        Meets demands m (words_of limits) (depth_of limits) → IsFirstOverlap m s w n →
        (result ≡ Err (ExclusiveRefusal.Overlap s w n)) ⊎ (result ≡ Err ExclusiveRefusal.Memory) }
{
    // Without a root word there is nothing to mark.
    if message.len(0) == 0 {
        return Err(without_marks(message, limits, demands));
    }
    let Ok(mut bits) = Vec::from_elem(alloc, 0u64, numbers_for(message)) else {
        return Err(without_marks(message, limits, demands));
    };
    match vet_marking(message, limits, demands, bits.as_mut_slice()) {
        Ok((vetted, None)) => Ok(Exclusive { vetted }),
        Ok((_, Some(overlap))) => Err(refusal_for(overlap)),
        Err(refusal) => Err(ExclusiveRefusal::Refused(refusal)),
    }
}

// Why a message isn't exclusive if its words can't be marked.
#[cold]
#[inline(never)]
fn without_marks<M: Segments>(message: &M, limits: Limits, demands: Demands) -> ExclusiveRefusal
    ensures { let m = M.segments message.now in
        IsExclusiveRefusal demands m (words_of limits) (depth_of limits) result }
{
    match vet_with(message, limits, demands) {
        Ok(_) => ExclusiveRefusal::Memory,
        Err(refusal) => ExclusiveRefusal::Refused(refusal),
    }
}

// The refusal for a pointer that overlaps.
fn refusal_for(overlap: Overlap) -> ExclusiveRefusal
    ensures { result ≡ ExclusiveRefusal.Overlap overlap.segment overlap.word overlap.pointers }
{
    ExclusiveRefusal::Overlap {
        segment: overlap.segment,
        word: overlap.word,
        pointers: overlap.pointers,
    }
}

// Vets a message under demands, and looks for the first pointer that overlaps.
fn vet_marking<'m, M: Segments>(
    message: &'m M,
    limits: Limits,
    demands: Demands,
    bits: &mut [u64],
) -> Result<(Vetted<'m, M>, Option<Overlap>), StrictRefusal>
    requires enough { let m = M.segments message.now in
        start_of m (length m) ≤ 64 * length bits.old }
    requires none { (s w : ℕ) → ¬ IsTaken (M.segments message.now) bits.old s w }
    requires root { 0 < length (segment_of (M.segments message.now) 0) }
    ensures ok { let m = M.segments message.now in IfOk result (λ r.
        IsMet demands m (words_of limits) (depth_of limits) (report_of r.0) × EndsMarking m r.1) }
    ensures message { IfOk result (λ r. message_of r.0 ≡ message.now) }
    ensures err { let m = M.segments message.now in
        IfErr result (IsDemandFault demands m (words_of limits) (depth_of limits)) }
{
    let within = limits_under(message, limits, demands);
    let most = unamplified_words(message);
    let mut report = Report::default();
    let firsts = match mark_message(message, &within, most, bits, &mut report) {
        Ok(firsts) => firsts,
        Err(Stopped::Refused(refusal)) => return Err(StrictRefusal::Refused(refusal)),
        Err(Stopped::ByTurn(first)) => return vet_overlapping(message, limits, demands, first),
    };
    match strict_fault(message, demands, firsts.lax) {
        None => Ok((Vetted { message, report }, firsts.overlap)),
        Some(fault) => Err(fault),
    }
}

// Vets a message of which this is the first pointer that overlaps, without marks.
#[cold]
#[inline(never)]
fn vet_overlapping<'m, M: Segments>(
    message: &'m M,
    limits: Limits,
    demands: Demands,
    first: Overlap,
) -> Result<(Vetted<'m, M>, Option<Overlap>), StrictRefusal>
    requires { OverlapsFirst (M.segments message.now) first }
    ensures ok { let m = M.segments message.now in IfOk result (λ r.
        IsMet demands m (words_of limits) (depth_of limits) (report_of r.0) × EndsMarking m r.1) }
    ensures message { IfOk result (λ r. message_of r.0 ≡ message.now) }
    ensures err { let m = M.segments message.now in
        IfErr result (IsDemandFault demands m (words_of limits) (depth_of limits)) }
{
    match vet_with(message, limits, demands) {
        Ok(vetted) => Ok((vetted, Some(first))),
        Err(refusal) => Err(refusal),
    }
}

impl<'m, M: Segments> Vetted<'m, M> {
    /// The same message as one of which no word is used twice (profile), as for
    /// [`crate::vet_exclusive`]. Walks the message once more, up to the first overlap. Allocates once:
    /// one bit for each word of the message, and at most 64 bits more.
    ///
    /// # Errors
    ///
    /// [`ExclusiveRefusal::Refused`] is never returned.
    ///
    /// - [`ExclusiveRefusal::Memory`]: the allocation failed.
    /// - [`ExclusiveRefusal::Overlap`]: a pointer overlaps. It is the first in preorder that uses a
    ///   word which is used already.
    pub fn into_exclusive(self, alloc: Global) -> Result<Exclusive<'m, M>, ExclusiveRefusal>
        ensures ok { IfOk result (λ e. IsDisjoint (M.segments (message_of self.entry))) }
        ensures value { IfOk result (λ e. vetted_of e ≡ self.entry) }
        ensures overlap { (s w n : ℕ) → IsErrOf result (ExclusiveRefusal.Overlap s w n) →
            IsFirstOverlap (M.segments (message_of self.entry)) s w n }
        ensures not_refused { (r : StrictRefusal) → ¬ IsErrOf result (ExclusiveRefusal.Refused r) }

        // The other direction, unless the allocation fails.
        ensures accepts { IsDisjoint (M.segments (message_of self.entry)) →
            IsOk result ⊎ (result ≡ Err ExclusiveRefusal.Memory) }
        ensures names { let m = M.segments (message_of self.entry) in (s w n : ℕ) →
            IsFirstOverlap m s w n → (result ≡ Err (ExclusiveRefusal.Overlap s w n))
            ⊎ (result ≡ Err ExclusiveRefusal.Memory) }
    {
        let Ok(mut marks) = Vec::from_elem(alloc, 0u64, numbers_for(self.message)) else {
            return Err(ExclusiveRefusal::Memory);
        };
        match first_overlap(self.message, marks.as_mut_slice()) {
            None => Ok(Exclusive { vetted: self }),
            Some(overlap) => Err(refusal_for(overlap)),
        }
    }
}

/// The first pointer that overlaps in an accepted message. Walks the message once more, and stops there.
pub(crate) fn first_overlap<M: Segments>(message: &M, bits: &mut [u64]) -> Option<Overlap>
    requires enough { let m = M.segments message.now in
        start_of m (length m) ≤ 64 * length bits.old }
    requires none { (s w : ℕ) → ¬ IsTaken (M.segments message.now) bits.old s w }
    requires accepted { (report : Report)
        × IsAccepted (M.segments message.now) most_words most_depth report }
    ensures { EndsMarking (M.segments message.now) result }
{
    let mut report = Report::default();
    match mark_message(message, &Limits::greatest(), 0, bits, &mut report) {
        Ok(firsts) => firsts.overlap,
        Err(Stopped::ByTurn(first)) => Some(first),
        // The message is accepted.
        Err(Stopped::Refused(_)) => unreachable!(),
    }
}

/// The pointers that a walk has found, each the first of its kind in preorder.
#[derive(Clone, Copy, Drop)]
struct Firsts {
    overlap: Option<Overlap>,
    lax: Option<LaxPointer>,
}

// Walks a message, and marks what each pointer uses. After an overlap the walk stops at a pointer past
// number `most`. A table of where the bits of its segments start is made ready for each message of
// several alone.
fn mark_message<M: Segments>(
    message: &M,
    limits: &Limits,
    most: u64,
    bits: &mut [u64],
    report: &mut Report,
) -> Result<Firsts, Stopped<Overlap>>
    requires enough { let m = M.segments message.now in
        start_of m (length m) ≤ 64 * length bits.old }
    requires none { (s w : ℕ) → ¬ IsTaken (M.segments message.now) bits.old s w }
    requires root { 0 < length (segment_of (M.segments message.now) 0) }
    ensures ok { let m = M.segments message.now in IfOk result (λ firsts.
        IsAccepted m (words_of limits.now) (depth_of limits.now) report.new
        × HoldsOfAll m (KnowsFirsts m firsts)) }
    ensures err { let m = M.segments message.now in
        IfErr result (IsStopped m limits.now (OverlapsFirst m)) }
{
    if message.count() == 1 {
        return mark_all(message, limits, most, &[0], bits, report);
    }
    mark_segments(message, limits, most, bits, report)
}

// The same of a message of several segments.
#[cold]
#[inline(never)]
fn mark_segments<M: Segments>(
    message: &M,
    limits: &Limits,
    most: u64,
    bits: &mut [u64],
    report: &mut Report,
) -> Result<Firsts, Stopped<Overlap>>
    requires enough { let m = M.segments message.now in
        start_of m (length m) ≤ 64 * length bits.old }
    requires none { (s w : ℕ) → ¬ IsTaken (M.segments message.now) bits.old s w }
    requires root { 0 < length (segment_of (M.segments message.now) 0) }
    ensures ok { let m = M.segments message.now in IfOk result (λ firsts.
        IsAccepted m (words_of limits.now) (depth_of limits.now) report.new
        × HoldsOfAll m (KnowsFirsts m firsts)) }
    ensures err { let m = M.segments message.now in
        IfErr result (IsStopped m limits.now (OverlapsFirst m)) }
{
    let mut starts = ArrayVec::new();
    fill_starts(message, &mut starts);
    mark_all(message, limits, most, starts.as_slice(), bits, report)
}

// The same with a table of where the bits of each segment start.
fn mark_all<M: Segments>(
    message: &M,
    limits: &Limits,
    most: u64,
    starts: &[u64],
    bits: &mut [u64],
    report: &mut Report,
) -> Result<Firsts, Stopped<Overlap>>
    requires fits { HasCapacity (M.segments message.now) starts.now bits.old }
    requires none { (s w : ℕ) → ¬ IsTaken (M.segments message.now) bits.old s w }
    requires root { 0 < length (segment_of (M.segments message.now) 0) }
    ensures ok { let m = M.segments message.now in IfOk result (λ firsts.
        IsAccepted m (words_of limits.now) (depth_of limits.now) report.new
        × HoldsOfAll m (KnowsFirsts m firsts)) }
    ensures err { let m = M.segments message.now in
        IfErr result (IsStopped m limits.now (OverlapsFirst m)) }
{
    let mut search = OverlapSearch {
        marks: Marks { starts, bits },
        first: None,
        most,
        strictness: LaxSearch { first: None },
    };
    if !search.marks.mark_words(0, 0, 1) {
        unreachable!();
    }
    match walk(message, limits, &mut search, report) {
        Ok(()) => Ok(Firsts {
            overlap: search.first,
            lax: search.strictness.first,
        }),
        Err(stopped) => Err(stopped),
    }
}
