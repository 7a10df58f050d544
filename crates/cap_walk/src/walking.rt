//! The walk: one pointer word a turn, in preorder.

ghost use Rattle.cap_spec.specs.Messages.{IsMessage};
ghost use Rattle.cap_spec.specs.declared.Step.{Step};
ghost use Rattle.cap_walk.specs.Passing.{PassesNulls};
ghost use Rattle.cap_walk.specs.Limits.{depth_of, words_of};
ghost use Rattle.cap_walk.specs.PointerRuns.{RunIn, kept_run, root_run};
ghost use Rattle.cap_walk.specs.Reports.{IsAccepted};
ghost use Rattle.cap_walk.specs.Trails.{Ahead};
ghost use Rattle.cap_walk.specs.Turns.{GoesOnIf, HoldsBefore, HoldsOfAll, IsAt, IsStopped, IsWalking};
ghost use Rattle.cap_walk.specs.WalkSteps.{Continues, LeavesCapacity, TakesTurn};
ghost use Rattle.cap_walk.specs.Walking.{HasWalked};
ghost use Rattle.std.specs.Option.{option_to_list};
ghost use Rattle.std.specs.Prelude.{◌++◌, ◌<◌, ◌≡◌, ◌≤◌, [], ◌∷◌, IfErr, IfNone, IfOk, IfSome, IsFalse, IsTrue, List, length, ℕ};

use crate::limits::Limits;
use crate::looking::{Looked, look_described};
use crate::null_words::nulls;
use crate::pointer_run::PointerRun;
use crate::report::Report;
use crate::turn::{Stopped, Turn, add, visit};
use arrayvec::ArrayVec;
use cap_frame::Segments;
use cap_spec::{Reason, Refusal};

/// The pointer words still to be looked at after those of the current run, the next ones last.
/// Each object on the way down that has some left has one run. 257 are enough for the deepest
/// walk.
pub(crate) type Stack<const N: usize> = ArrayVec<PointerRun, N>;

/// What comes after a turn.
enum Next {
    /// A pointer word, the first of the current run.
    More,
    /// The same, where the stack is full.
    Full,
    /// Nothing.
    Done,
}

/// Walks a message from its root in preorder, and takes a turn at each pointer word that isn't zero
/// (encoding: Security Considerations). The turn has to know what it knows before the first pointer
/// word. The report has the numbers of the whole tree. After an error it says nothing. Allocates
/// nothing.
///
/// # Errors
///
/// - [`Stopped::Refused`]: the first pointer word in preorder at which anything is wrong or a limit
///   is passed. Or segment 0 has no words (`NoRoot`, at 0:0). No turn is taken there.
/// - [`Stopped::ByTurn`]: the turn stopped the walk. No later word is looked at.
pub fn walk<M: Segments, T: Turn>(
    message: &M,
    limits: &Limits,
    turn: &mut T,
    report: &mut Report,
) -> Result<(), Stopped<T::Stop>>
    requires begins { T.knows turn.old (M.segments message.now) [] }
    ensures ok { let m = M.segments message.now in IfOk result (λ _.
        IsAccepted m (words_of limits.now) (depth_of limits.now) report.new
        × HoldsOfAll m (T.knows turn.new m)) }
    ensures err { let m = M.segments message.now in
        IfErr result (IsStopped m limits.now (T.stops m)) }
    ensures known { let m = M.segments message.now in
        IfErr result (HoldsBefore m limits.now (T.knows turn.new m)) }
{
    if message.len(0) == 0 {
        return Err(Stopped::Refused(Refusal {
            segment: 0,
            word: 0,
            reason: Reason::NoRoot,
            pointers: 0,
        }));
    }
    *report = Report::default();
    // Each message initializes its runs, so a walk begins with few of them.
    let mut stack: Stack<8> = Stack::new();
    let mut run = root();
    match walk_on(message, limits, turn, &mut stack, &mut run, report) {
        Ok(true) => Ok(()),
        Ok(false) => walk_deep(message, limits, turn, &stack, &mut run, report),
        Err(stopped) => Err(stopped),
    }
}

// The root word alone.
#[inline(always)]
fn root() -> PointerRun
    ensures { result ≡ root_run }
{
    PointerRun {
        segment: 0,
        at: 0,
        left: 1,
        more: 0,
        data_words: 0,
        pointers: 0,
        level: 1,
    }
}

// Goes on where those few runs are full, with as many as the deepest walk can have.
#[cold]
#[inline(never)]
fn walk_deep<M: Segments, T: Turn>(
    message: &M,
    limits: &Limits,
    turn: &mut T,
    few: &Stack<8>,
    run: &mut PointerRun,
    report: &mut Report,
) -> Result<(), Stopped<T::Stop>>
    requires { let m = M.segments message.now in
        IsWalking m limits.now (few.now.items ++ run.old ∷ []) report.old (T.knows turn.old m) }
    ensures ok { let m = M.segments message.now in IfOk result (λ _.
        IsAccepted m (words_of limits.now) (depth_of limits.now) report.new
        × HoldsOfAll m (T.knows turn.new m)) }
    ensures err { let m = M.segments message.now in
        IfErr result (IsStopped m limits.now (T.stops m)) }
    ensures known { let m = M.segments message.now in
        IfErr result (HoldsBefore m limits.now (T.knows turn.new m)) }
{
    let mut stack: Stack<257> = Stack::new();
    if stack.try_extend_from_slice(few.as_slice()).is_err() {
        unreachable!();
    }
    match walk_on(message, limits, turn, &mut stack, run, report) {
        Ok(true) => Ok(()),
        Ok(false) => unreachable!(),
        Err(stopped) => Err(stopped),
    }
}

// Goes on with the words of this run and those of the stack until no pointer word is left, the
// walk is stopped, or the stack is full. `true` if no word is left. If the stack is full, the walk
// has to go on with the run. The current run is beside the stack, so that a word with nothing below
// it costs no push and no pop.
#[inline(always)]
fn walk_on<M: Segments, T: Turn, const N: usize>(
    message: &M,
    limits: &Limits,
    turn: &mut T,
    stack: &mut Stack<N>,
    first: &mut PointerRun,
    counts: &mut Report,
) -> Result<bool, Stopped<T::Stop>>
    requires fits { (length stack.old.items < N) × (N ≤ 257) }
    requires walking { let m = M.segments message.now in
        IsWalking m limits.now (stack.old.items ++ first.old ∷ []) counts.old (T.knows turn.old m) }
    ensures done { let m = M.segments message.now in IfOk result (λ done. IsTrue done →
        IsAccepted m (words_of limits.now) (depth_of limits.now) counts.new
        × HoldsOfAll m (T.knows turn.new m)) }
    ensures full { let m = M.segments message.now in IfOk result (λ done. IsFalse done →
        (length stack.new.items ≡ N)
        × IsWalking m limits.now (stack.new.items ++ first.new ∷ []) counts.new
        (T.knows turn.new m)) }
    ensures err { let m = M.segments message.now in
        IfErr result (IsStopped m limits.now (T.stops m)) }
    ensures known { let m = M.segments message.now in
        IfErr result (HoldsBefore m limits.now (T.knows turn.new m)) }
{
    // Nothing outside of the loop has these, so they stay in registers.
    let limits = *limits;
    let mut run = *first;
    let mut report = *counts;
    'walk: loop {
        let is_null = message.word(run.segment, run.at) == 0;
        match turn_described(
            message,
            &limits,
            turn,
            &mut report,
            run.segment,
            run.at,
            run.level,
        ) {
            Some(Ok(below)) => match go_on(stack, &mut run, below) {
                Next::More => {
                    if is_null {
                        pass_nulls(message, &mut run, &mut report);
                    }
                }
                Next::Full => {
                    *first = run;
                    *counts = report;
                    return Ok(false);
                }
                Next::Done => {
                    *counts = report;
                    return Ok(true);
                }
            },
            Some(Err(stop)) => return Err(Stopped::ByTurn(stop)),
            None => match turn_other(message, &limits, turn, stack, &mut run, &mut report) {
                Ok(Next::More) => {}
                Ok(Next::Full) => {
                    *first = run;
                    *counts = report;
                    return Ok(false);
                }
                Ok(Next::Done) => {
                    *counts = report;
                    return Ok(true);
                }
                Err(stopped) => return Err(stopped),
            },
        }
    }
}

// Takes the turn at a word where `turn_described` returns nothing, and goes on after it. It works on
// copies, so that the values of the loop have no address outside of it.
#[inline(always)]
fn turn_other<M: Segments, T: Turn, const N: usize>(
    message: &M,
    limits: &Limits,
    turn: &mut T,
    stack: &mut Stack<N>,
    run: &mut PointerRun,
    report: &mut Report,
) -> Result<Next, Stopped<T::Stop>>
    requires fits { (length stack.old.items < N) × (N ≤ 257) }
    requires walking { let m = M.segments message.now in
        IsWalking m limits.now (stack.old.items ++ run.old ∷ []) report.old (T.knows turn.old m) }
    ensures { let m = M.segments message.now in
        TakesTurn m limits.now N stack.old.items run.old report.old
        stack.new.items run.new report.new (T.knows turn.new m) (T.stops m) result }
{
    let limits = *limits;
    let mut at = *run;
    let mut counts = *report;
    let next = turn_followed(message, &limits, turn, stack, &mut at, &mut counts);
    *run = at;
    *report = counts;
    next
}

// The same, and not inlined: few words need it, and only these may be such as common readers reject.
#[cold]
#[inline(never)]
fn turn_followed<M: Segments, T: Turn, const N: usize>(
    message: &M,
    limits: &Limits,
    turn: &mut T,
    stack: &mut Stack<N>,
    run: &mut PointerRun,
    report: &mut Report,
) -> Result<Next, Stopped<T::Stop>>
    requires fits { (length stack.old.items < N) × (N ≤ 257) }
    requires walking { let m = M.segments message.now in
        IsWalking m limits.now (stack.old.items ++ run.old ∷ []) report.old (T.knows turn.old m) }
    ensures { let m = M.segments message.now in
        TakesTurn m limits.now N stack.old.items run.old report.old
        stack.new.items run.new report.new (T.knows turn.new m) (T.stops m) result }
{
    let (s, w) = (run.segment, run.at);
    let looked = match visit(message, limits, report, s, w, run.level) {
        Ok(looked) => looked,
        Err(refusal) => return Err(Stopped::Refused(refusal)),
    };
    let cost = looked.cost();
    let place = looked.place();
    let below = add(report, s, w, looked);
    match turn.after(message, s, w, place, true, report.pointers, cost) {
        Ok(()) => Ok(go_on(stack, run, below)),
        Err(stop) => Err(Stopped::ByTurn(stop)),
    }
}

// Looks at the next pointer word, and takes the turn there. Gives the run of its object's pointers.
// Returns a result only of words that `look_described` has one of, and of null, at which no turn is
// taken. Otherwise it changes nothing.
#[inline(always)]
fn turn_described<M: Segments, T: Turn>(
    message: &M,
    limits: &Limits,
    turn: &mut T,
    report: &mut Report,
    s: u32,
    w: u32,
    level: u32,
) -> Option<Result<Option<PointerRun>, T::Stop>>
    requires { let m = M.segments message.now in
        (runs : List PointerRun)
        × IsAt m limits.now s w level runs report.old (T.knows turn.old m) }
    ensures ok { let m = M.segments message.now in
        (runs : List PointerRun) → IsAt m limits.now s w level runs report.old (T.knows turn.old m) →
        GoesOnIf m limits.now runs report.old report.new (T.knows turn.new m) result }
    ensures err { let m = M.segments message.now in
        IfSome result (λ r. IfErr r (T.stops m)) }
    ensures none { IfNone result ((report.new ≡ report.old) × (turn.new ≡ turn.old)) }
{
    if message.word(s, w) == 0 {
        return Some(Ok(add(report, s, w, Looked::Null(0))));
    }
    match look_described(message, limits, report.charge, s, w, level) {
        None => None,
        Some(looked) => {
            let cost = looked.cost();
            let place = looked.place();
            let below = add(report, s, w, looked);
            match turn.after(message, s, w, place, false, report.pointers, cost) {
                Ok(()) => Some(Ok(below)),
                Err(stop) => Some(Err(stop)),
            }
        }
    }
}

// Skips null words at the start of the others of a row, while another word follows them. Most words
// of a list may be null, and these cost no turn.
#[inline(always)]
fn pass_nulls<M: Segments>(message: &M, run: &mut PointerRun, report: &mut Report)
    requires { let m = M.segments message.now in (words depth : ℕ) × (runs : List PointerRun)
        × (seen : List (List Step)) × (ahead : List Ahead)
        × HasWalked m words depth (runs ++ run.old ∷ []) report.old seen ahead }
    ensures { let m = M.segments message.now in (w d : ℕ) (rs : List PointerRun)
        (seen : List (List Step)) (a : List Ahead) → HasWalked m w d (rs ++ run.old ∷ []) report.old seen a →
        PassesNulls m w d rs seen run.old report.old run.new report.new }
{
    if run.left < 2 || message.word(run.segment, run.at) != 0 {
        return;
    }
    let passed = nulls(message, run.segment, run.at, run.left - 1);
    // The count stays below the charge, a number of 64 bits.
    let _charge = report.charge;
    run.at += passed;
    run.left -= passed;
    report.pointers += u64::from(passed);
}

// Goes on after the first word of the run, first with the run below that word.
#[inline(always)]
fn go_on<const N: usize>(
    stack: &mut Stack<N>,
    run: &mut PointerRun,
    below: Option<PointerRun>,
) -> Next
    requires fits { (length stack.old.items < N) × (N ≤ 257) }
    requires inside { (m : List (List ℕ)) × IsMessage m × RunIn m run.old }
    ensures runs { Continues result stack.old.items run.old below stack.new.items run.new }
    ensures fits { LeavesCapacity result (length stack.new.items) N }
{
    match below {
        Some(below) => {
            let more = run.advance();
            push_kept(stack, more, *run);
            *run = below;
            if stack.is_full() {
                return Next::Full;
            }
            Next::More
        }
        None => {
            if run.advance() {
                return Next::More;
            }
            match stack.pop() {
                Some(below) => {
                    *run = below;
                    Next::More
                }
                None => Next::Done,
            }
        }
    }
}

// One more run, where something is left of it.
#[inline(always)]
fn push_kept<const N: usize>(stack: &mut Stack<N>, more: bool, run: PointerRun)
    requires few { N ≤ 257 }
    requires fits { length (stack.old.items ++ option_to_list (kept_run more run)) ≤ N }
    ensures { stack.new.items ≡ stack.old.items ++ option_to_list (kept_run more run) }
{
    if more {
        stack.push(run);
    }
}
