//! Looking at one pointer word within limits.

ghost use Rattle.cap_ptr.specs.Reaching.{ResolvesTo};
ghost use Rattle.cap_ptr.specs.Rows.{FindsRow};
ghost use Rattle.cap_ptr.specs.Shapes.{FindsTarget, FindsTargetBy};
ghost use Rattle.cap_spec.specs.Faults.{IsFirstReason};
ghost use Rattle.cap_spec.specs.Messages.{IsMessage, segment_of};
ghost use Rattle.cap_spec.specs.Pointers.{IsCap, kind};
ghost use Rattle.cap_walk.specs.Limits.{depth_of, words_of};
ghost use Rattle.cap_walk.specs.Looking.{FollowsWithin, IsLooked, IsNotLax, IsObjectWord, MayReplace, deepest_of};
ghost use Rattle.cap_walk.specs.Turning.{cost_of, object_place};
ghost use Rattle.std.specs.Prelude.{◌+◌, ◌<◌, ◌≤◌, ◌≡◌, ◌-◌, ◌^◌, ◌↔◌, IfErr, IfOk, IfSome, IsTrue, List, length, ℕ};

use crate::limits::Limits;
use crate::pointer_run::{PointerRun, row_run, run_of};
use cap_frame::Segments;
use cap_ptr::{
    Followed, Place, Reason, Row, Target, far_segment, follow, kind, levels_taken, middle,
    near_row, pad, struct_list, two,
};

/// What a pointer word leads to, within the limits.
pub(crate) enum Looked {
    /// Null, at this charge.
    Null(u64),
    /// A capability, at this charge.
    Cap(u64),
    /// An object, at this charge: the deepest level that it takes, its pointer words, and its words.
    Object(u64, u32, Option<PointerRun>, Place),
}

impl Looked {
    /// What following the word costs, in words.
    #[inline(always)]
    pub(crate) fn cost(&self) -> u64
        ensures { result ≡ cost_of self.now }
    {
        match self {
            Looked::Null(cost) => *cost,
            Looked::Cap(cost) => *cost,
            Looked::Object(cost, _, _, _) => *cost,
        }
    }

    /// The words of the object: none for null and for a capability.
    #[inline(always)]
    pub(crate) fn place(&self) -> Place
        ensures { result ≡ object_place self.now }
    {
        match self {
            Looked::Null(_) => Place::NONE,
            Looked::Cap(_) => Place::NONE,
            Looked::Object(_, _, _, place) => *place,
        }
    }
}

/// What word `w` of segment `s` leads to, where `left` words may still be charged and its target
/// has this level. The error is the first reason that applies.
#[inline(always)]
pub fn follow_within<M: Segments>(
    message: &M,
    left: u64,
    depth: u32,
    s: u32,
    w: u32,
    level: u64,
) -> Result<Followed, Reason>
    requires exists { s < length (M.segments message.now) }
    requires inside { w < length (segment_of (M.segments message.now) s) }
    requires level { level < 2 ^ 63 }
    ensures ok { IfOk result (FollowsWithin (M.segments message.now) left depth s w level) }
    ensures err { let m = M.segments message.now in (words before : ℕ) → left ≡ words - before →
        before ≤ words → IfErr result (IsFirstReason m words depth before s w level) }
{
    let followed = follow(message, s, w)?;
    if deepest_level(&followed, level) > u64::from(depth) {
        return Err(Reason::DepthLimit);
    }
    if followed.charge() > left {
        return Err(Reason::WordLimit);
    }
    Ok(followed)
}

// The deepest level that an object of this level takes, and 0 if there is none.
#[inline(always)]
fn deepest_level(followed: &Followed, level: u64) -> u64
    requires { level < 2 ^ 63 }
    ensures { result ≡ deepest_of level followed.now }
{
    match followed {
        Followed::Target(target) => level + u64::from(levels_taken(&target.shape)),
        _ => 0,
    }
}

/// Looks at word `w` of segment `s`, whose target has this level, where `consumed` words were charged
/// before. The error is the first reason that applies.
// It is inlined into the function outside of a walk's loop that asks it, so that its result stays in
// registers.
#[inline(always)]
pub(crate) fn look<M: Segments>(
    message: &M,
    limits: &Limits,
    consumed: u64,
    s: u32,
    w: u32,
    level: u32,
) -> Result<Looked, Reason>
    requires exists { s < length (M.segments message.now) }
    requires inside { w < length (segment_of (M.segments message.now) s) }
    requires consumed { consumed ≤ words_of limits.now }
    requires level { level ≤ depth_of limits.now + 1 }
    ensures ok { let m = M.segments message.now in
        IfOk result (IsLooked m (words_of limits.now) (depth_of limits.now) consumed s w level) }
    ensures err { let m = M.segments message.now in
        IfErr result (IsFirstReason m (words_of limits.now) (depth_of limits.now) consumed s w level) }
{
    let left = limits.words() - consumed;
    let followed = follow_within(message, left, limits.depth(), s, w, u64::from(level))?;
    match followed {
        Followed::Null { pads } => Ok(Looked::Null(u64::from(pads))),
        Followed::Cap { pads, .. } => Ok(Looked::Cap(u64::from(pads))),
        Followed::Target(target) => {
            let deepest = level + levels_taken(&target.shape);
            let run = run_of(&target, level);
            Ok(Looked::Object(target.charge, deepest, run, Place::of(&target)))
        }
    }
}

/// Looks at the same word. Returns a result only if it is null or a capability, or if it describes
/// its object, alone or with the tag of a list of structs, and if that is within the limits.
// A walk asks here first: most words are such, and what they lead to then stays in registers.
#[inline(always)]
pub(crate) fn look_near<M: Segments>(
    message: &M,
    limits: &Limits,
    consumed: u64,
    s: u32,
    w: u32,
    level: u32,
) -> Option<Looked>
    requires exists { s < length (M.segments message.now) }
    requires inside { w < length (segment_of (M.segments message.now) s) }
    requires consumed { consumed ≤ words_of limits.now }
    requires level { level ≤ depth_of limits.now + 1 }
    ensures looked { let m = M.segments message.now in
        IfSome result (IsLooked m (words_of limits.now) (depth_of limits.now) consumed s w level) }
    ensures strict { IfSome result (λ _. IsNotLax (M.segments message.now) s w) }
{
    let word = message.word(s, w);
    if word == 0 {
        return Some(Looked::Null(0));
    }
    if let Some(looked) = described_within(message, limits, consumed, 0, s, w, level) {
        return Some(looked);
    }
    if is_cap(word) {
        return Some(Looked::Cap(0));
    }
    None
}

// A word is that of a capability.
#[inline(always)]
fn is_cap(word: u64) -> bool
    ensures { IsTrue result ↔ IsCap word }
{
    kind(word) == 3 && middle(word) == 0
}

/// What a pointer word leads to over `pads` words of landing pads, where word `at` of this segment
/// takes its place. Returns a result only if that word describes the object, alone or with the tag
/// of a list of structs, and if that is within the limits.
#[inline(always)]
pub(crate) fn described_within<M: Segments>(
    message: &M,
    limits: &Limits,
    consumed: u64,
    pads: u8,
    segment: u32,
    at: u32,
    level: u32,
) -> Option<Looked>
    requires exists { segment < length (M.segments message.now) }
    requires inside { at < length (segment_of (M.segments message.now) segment) }
    requires pads { pads ≤ 2 }
    requires pointer { (s w : ℕ) × MayReplace (M.segments message.now) s w pads segment at }
    requires consumed { consumed ≤ words_of limits.now }
    requires level { level ≤ depth_of limits.now + 1 }
    ensures looked { let m = M.segments message.now in (s w : ℕ) → MayReplace m s w pads segment at →
        IfSome result (IsLooked m (words_of limits.now) (depth_of limits.now) consumed s w level) }
    ensures object { IfSome result (λ _. IsObjectWord (M.segments message.now) segment at) }
{
    let word = message.word(segment, at);
    if let Some(row) = near_row(word, at, message.len(segment)) {
        return row_within(limits, consumed, pads, segment, &row, level);
    }
    let list = struct_list(message, pads, segment, at, word)?;
    target_within(limits, consumed, &list, level)
}

// This row of an object, over some pads. Returns a result only if it is within the limits.
#[inline(always)]
fn row_within(
    limits: &Limits,
    consumed: u64,
    pads: u8,
    segment: u32,
    row: &Row,
    level: u32,
) -> Option<Looked>
    requires pads { pads ≤ 2 }
    requires consumed { consumed ≤ words_of limits.now }
    requires level { level ≤ depth_of limits.now + 1 }
    ensures { (m : List (List ℕ)) (s w at q : ℕ) → FindsRow m segment at q row.now →
        ResolvesTo m s w pads segment at q →
        IfSome result (IsLooked m (words_of limits.now) (depth_of limits.now) consumed s w level) }
{
    let cost = u64::from(pads) + u64::from(row.words);
    // The words come first: docs/internals/speed.md has what the other order costs.
    if consumed + cost > limits.words() || level > limits.depth() {
        return None;
    }
    let run = row_run(segment, row.pointers_start, row.pointer_count, level + 1);
    let place = Place {
        segment,
        start: row.start,
        words: row.words,
    };
    Some(Looked::Object(cost, level, run, place))
}

// This target of a pointer word. Returns a result only if it is within the limits.
#[inline(always)]
fn target_within(limits: &Limits, consumed: u64, target: &Target, level: u32) -> Option<Looked>
    requires found { (m : List (List ℕ)) × (s w q tag : ℕ) × IsMessage m
        × FindsTargetBy m s w q tag target.now }
    requires consumed { consumed ≤ words_of limits.now }
    requires level { level ≤ depth_of limits.now + 1 }
    ensures { (m : List (List ℕ)) (s w : ℕ) → FindsTarget m s w target.now →
        IfSome result (IsLooked m (words_of limits.now) (depth_of limits.now) consumed s w level) }
{
    let deepest = level + levels_taken(&target.shape);
    if deepest > limits.depth() || consumed + target.charge > limits.words() {
        return None;
    }
    let run = run_of(target, level);
    Some(Looked::Object(target.charge, deepest, run, Place::of(target)))
}

/// Looks at word `w` of segment `s`, as `look_near` does, and also at a far pointer with a pad of one
/// word that describes the object.
#[inline(always)]
pub(crate) fn look_described<M: Segments>(
    message: &M,
    limits: &Limits,
    consumed: u64,
    s: u32,
    w: u32,
    level: u32,
) -> Option<Looked>
    requires exists { s < length (M.segments message.now) }
    requires inside { w < length (segment_of (M.segments message.now) s) }
    requires consumed { consumed ≤ words_of limits.now }
    requires level { level ≤ depth_of limits.now + 1 }
    ensures looked { let m = M.segments message.now in
        IfSome result (IsLooked m (words_of limits.now) (depth_of limits.now) consumed s w level) }
    ensures strict { IfSome result (λ _. IsNotLax (M.segments message.now) s w) }
{
    if let Some(looked) = look_near(message, limits, consumed, s, w, level) {
        return Some(looked);
    }
    let word = message.word(s, w);
    if kind(word) != 2 || two(word) != 0 {
        return None;
    }
    let (segment, at) = (far_segment(word), pad(word));
    if segment >= message.count() || at >= message.len(segment) {
        return None;
    }
    described_within(message, limits, consumed, 1, segment, at, level)
}
