//! Reading the next message of a stream or its end, and what is known of a message that can't be
//! read.

ghost use Rattle.cap_frame.specs.HeldBytes.{held_segments};
ghost use Rattle.cap_frame.specs.Limit.{limit_of};
ghost use Rattle.cap_frame.specs.Reading.{ReadsFrame};
ghost use Rattle.cap_run.specs.Breaking.{BreaksAt, BreaksBy};
ghost use Rattle.cap_run.specs.Running.{EndStops};
ghost use Rattle.cap_run.specs.Streams.{EndsStream};
ghost use Rattle.std.specs.Prelude.{◌≡◌, ◌⊎◌, IfErr, OnOk, false, true, ℕ};

use cap_frame::{
    ByteMessage, FrameFault, Outline, SizeLimit, TableSums, read_noting, read_outline_noting,
};
use cap_text::{Cause, StreamBreak};
use cap_words::WordSource;
use std::alloc::Global;

/// What is known before a message can't be read: whether the input is packed.
pub(crate) fn no_break(packed: bool) -> StreamBreak
    ensures { result.packed ≡ packed }
{
    StreamBreak {
        start: 0,
        packed,
        limit: 0,
        table: None,
        is_cut: false,
    }
}

/// Whether the input ends inside a word, if the source ended inside a message. Otherwise it is
/// `false`. The source stays as it is.
fn is_cut_after<S: WordSource>(source: &mut S, fault: FrameFault) -> bool
    requires { (byte : ℕ) → fault ≡ FrameFault.Truncated byte →
        (S.ended source.old ≡ true) ⊎ (S.failed source.old ≡ true) }
    ensures same { source.new ≡ source.old }
    ensures ended { (byte : ℕ) → fault ≡ FrameFault.Truncated byte → S.ended source.old ≡ true →
        result ≡ false }
    ensures failed { (byte : ℕ) → fault ≡ FrameFault.Truncated byte → S.failed source.old ≡ true →
        result ≡ true }
    ensures other { ((byte : ℕ) → fault ≡ FrameFault.Truncated byte → ⊥) → result ≡ false }
{
    match fault {
        FrameFault::Truncated { byte: _ } => match source.next() {
            Ok(_) => false,
            Err(_) => true,
        },
        _ => false,
    }
}

/// What is known of a message that can't be read.
fn break_at(
    packed: bool,
    limit: SizeLimit,
    start: u64,
    table: Option<TableSums>,
    is_cut: bool,
) -> StreamBreak
    ensures { result ≡ record {
      start = start;
      packed = packed;
      limit = limit_of limit;
      table = table;
      is_cut = is_cut;
    } }
{
    StreamBreak {
        start,
        packed,
        limit: limit.words(),
        table,
        is_cut,
    }
}

/// Reads the next message. `false` if the stream ends before it. If it can't be read, `at` is what is
/// known of it.
#[inline(always)]
pub(crate) fn read_next<S: WordSource>(
    alloc: Global,
    source: &mut S,
    limit: SizeLimit,
    message: &mut ByteMessage,
    at: &mut StreamBreak,
) -> Result<bool, FrameFault>
    ensures read { ReadsFrame S.WordSource (λ m. held_segments message.new ≡ m)
        (limit_of limit) source.old source.new result }
    ensures packed { at.new.packed ≡ at.old.packed }
    ensures at { IfErr result (λ fault.
        BreaksAt S.WordSource at.old.packed (limit_of limit) source.old fault at.new) }
{
    let start = source.position();
    let mut table = None;
    match read_noting(alloc, source, limit, message, &mut table) {
        Ok(found) => Ok(found),
        Err(fault) => {
            let is_cut = is_cut_after(source, fault);
            *at = break_at(at.packed, limit, start, table, is_cut);
            Err(fault)
        }
    }
}

/// Checks that the stream ends here. One more message is [`Cause::TooManyMessages`]. If it can't be
/// read, `at` is what is known of it.
pub(crate) fn end_stream<S: WordSource>(
    source: &mut S,
    limit: SizeLimit,
    at: &mut StreamBreak,
) -> Result<(), Cause>
    ensures ok { OnOk result (EndsStream S.WordSource source.old source.new) }
    ensures err { IfErr result (λ cause.
        EndStops S.WordSource (limit_of limit) source.old source.new cause) }
    ensures at { IfErr result (λ cause.
        BreaksBy S.WordSource at.old.packed (limit_of limit) source.old cause at.new) }
    ensures memory { result ≡ Err (Cause.Frame FrameFault.Memory) → ⊥ }
{
    let start = source.position();
    let mut table = None;
    match read_outline_noting(source, limit, &mut Outline::new(), &mut table) {
        Ok(true) => Err(Cause::TooManyMessages),
        Ok(false) => Ok(()),
        Err(fault) => {
            let is_cut = is_cut_after(source, fault);
            *at = break_at(at.packed, limit, start, table, is_cut);
            Err(Cause::Frame(fault))
        }
    }
}
