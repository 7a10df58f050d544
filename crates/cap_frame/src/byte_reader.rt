//! Reading messages into one buffer.

ghost use Rattle.cap_frame.specs.Bytes.{cut};
ghost use Rattle.cap_frame.specs.HeldBytes.{CapacityAfter, held_segments, capacity_in};
ghost use Rattle.cap_frame.specs.Limit.{limit_of};
ghost use Rattle.cap_frame.specs.Reading.{IsResult, LacksMemory, ReadsFrame, has_message};
ghost use Rattle.cap_frame.specs.TableSteps.{LeavesSizes};
ghost use Rattle.cap_frame.specs.TablesLeft.{LeavesTable};
ghost use Rattle.cap_frame.specs.Taking.{IsUsable, ReadsInput, Stops, Takes};
ghost use Rattle.cap_spec.specs.GreatestLimits.{most_words};
ghost use Rattle.cap_spec.specs.Plain.{plain_words};
ghost use Rattle.std.specs.Prelude.{◌%◌, ◌*◌, ◌+◌, ◌++◌, ◌-◌, ◌/◌, ◌<◌, ◌≡◌, ◌≤◌, [], ◌∷◌, IfErr, IfSome, IsErrOf, List, OnErr, OnOk, false, length, sum, take, true, ℕ};
ghost use Rattle.std.specs.Vec.{vec_capacity, vec_len};

use crate::byte_message::{ByteMessage, blank};
use crate::fault::{FrameFault, SizeLimit, frame_fault};
use crate::segment_tables::fill_starts;
use crate::table::{Sizes, TableSums, empty, next_table, sums_after, total};
use cap_words::{SourceFault, WordSource};
use std::alloc::{AllocError, Global};

// Reads a message: its table, and the words of its segments one after the other.
#[inline(always)]
fn read_parts<S: WordSource>(
    alloc: Global,
    source: &mut S,
    limit: SizeLimit,
    sizes: &mut Sizes,
    bytes: &mut Vec<u8>,
) -> Result<bool, FrameFault>
    ensures read { ReadsFrame S.WordSource (λ m. cut sizes.new.items bytes.new.items ≡ m)
        (limit_of limit) source.old source.new result }
    ensures some { result ≡ Ok true → 1 ≤ length sizes.new.items }
    ensures few { result ≡ Ok true → length sizes.new.items ≤ 512 }
    ensures small { result ≡ Ok true → sum sizes.new.items ≤ most_words }
    ensures inside { result ≡ Ok true → 8 * sum sizes.new.items ≤ vec_len bytes.new }
    ensures memory { IsErrOf result FrameFault.Memory → LacksMemory S.WordSource (limit_of limit)
        (vec_capacity bytes.old) source.old source.new }
    ensures fits { CapacityAfter result (vec_capacity bytes.old) (vec_capacity bytes.new) }
    ensures left { IfErr result (λ fault. IfSome (S.words source.old) (λ ws.
        LeavesSizes fault ws sizes.new.items)) }
{
    empty(sizes);
    match next_table(source, limit, sizes) {
        Ok(true) => {}
        Ok(false) => return Ok(false),
        Err(fault) => return Err(fault),
    }
    let words = total(sizes) as usize;
    let Ok(()) = make_space(alloc, bytes, 8 * words) else {
        return Err(FrameFault::Memory);
    };
    match read_bytes(source, words, bytes) {
        Ok(()) => Ok(true),
        Err(fault) => Err(frame_fault(fault)),
    }
}

/// Reads the next message of a stream into `message`, in place of its contents. `false` if the
/// stream ends before the message's first word (encoding: Serialization Over a Stream).
///
/// Allocates only if the buffer's capacity is less than the message's words, eight bytes each. The
/// buffer is freed first, and stays empty if the allocation fails. So a stream that is read into
/// one message allocates only for a message that is larger than all before it.
///
/// # Errors
///
/// The errors, the words that are taken, and the state of the source after an error are those of
/// [`read_byte_message`]. After an error, and after `false`, the message has one segment without
/// words, as a blank one. After `TooManySegments`, after `TooLarge` and after `false` its buffer has
/// the capacity that it had. After `Memory` it has none.
pub fn read_into<S: WordSource>(
    alloc: Global,
    source: &mut S,
    limit: SizeLimit,
    message: &mut ByteMessage,
) -> Result<bool, FrameFault>
    ensures read { ReadsFrame S.WordSource (λ m. held_segments message.new ≡ m) (limit_of limit)
        source.old source.new result }
    // The capacity was less than the words of the table need.
    ensures memory { IsErrOf result FrameFault.Memory → LacksMemory S.WordSource (limit_of limit)
        (capacity_in message.old) source.old source.new }
    // Nothing was allocated for a message past a limit.
    ensures fits { CapacityAfter result (capacity_in message.old) (capacity_in message.new) }
    ensures blank { (result ≡ Ok true → ⊥) → held_segments message.new ≡ [] ∷ [] }
{
    let ByteMessage {
        bytes,
        sizes,
        starts,
    } = message;
    match read_parts(alloc, source, limit, sizes, bytes) {
        Ok(true) => {
            fill_starts(sizes, starts);
            Ok(true)
        }
        Ok(false) => {
            blank(sizes, starts);
            Ok(false)
        }
        Err(fault) => {
            blank(sizes, starts);
            Err(fault)
        }
    }
}

/// Does what [`read_into`] does, and keeps what the table says in `table` if the message can't be
/// read.
///
/// # Errors
///
/// Those of [`read_into`]. After `TooLarge`, and after `Truncated` if the whole table is there,
/// `table` has the segments and the words that the table says. After another error it is `None`.
/// Without an error it stays as it was.
// It has a body of its own: by a call of it `read_into` takes 25 instructions more for a message.
pub fn read_noting<S: WordSource>(
    alloc: Global,
    source: &mut S,
    limit: SizeLimit,
    message: &mut ByteMessage,
    table: &mut Option<TableSums>,
) -> Result<bool, FrameFault>
    ensures read { ReadsFrame S.WordSource (λ m. held_segments message.new ≡ m) (limit_of limit)
        source.old source.new result }
    // The capacity was less than the words of the table need.
    ensures memory { IsErrOf result FrameFault.Memory → LacksMemory S.WordSource (limit_of limit)
        (capacity_in message.old) source.old source.new }
    // Nothing was allocated for a message past a limit.
    ensures fits { CapacityAfter result (capacity_in message.old) (capacity_in message.new) }
    ensures blank { (result ≡ Ok true → ⊥) → held_segments message.new ≡ [] ∷ [] }
    ensures table { IfErr result (λ fault. LeavesTable fault (S.words source.old) table.new) }
    ensures same { OnOk result (table.new ≡ table.old) }
{
    let ByteMessage {
        bytes,
        sizes,
        starts,
    } = message;
    match read_parts(alloc, source, limit, sizes, bytes) {
        Ok(true) => {
            fill_starts(sizes, starts);
            Ok(true)
        }
        Ok(false) => {
            blank(sizes, starts);
            Ok(false)
        }
        Err(fault) => {
            *table = sums_after(fault, sizes);
            blank(sizes, starts);
            Err(fault)
        }
    }
}

/// Reads the next message of a stream, or `None` if the stream ends before its first word
/// (encoding: Serialization Over a Stream).
///
/// A message is a table of its segments' sizes and then the words of the segments, in order. The
/// table's padding may hold anything. Allocates once, after the table and before the first word of
/// a segment: eight bytes for each word of the message.
///
/// To read one message after the other, see [`read_into`].
///
/// # Errors
///
/// - [`FrameFault::TooManySegments`]: the first word gives more than 512 segments. It was taken,
///   and no more.
/// - [`FrameFault::TooLarge`]: the sizes sum to more words than the limit. The table was taken, and
///   no more.
/// - [`FrameFault::Truncated`]: the source ended inside the message, at this byte.
/// - [`FrameFault::Device`]: the device of the source failed.
/// - [`FrameFault::Memory`]: the allocation failed. The table was taken, and no more.
/// - [`FrameFault::Spent`]: an earlier error had closed the source.
///
/// After a message, and after `TooManySegments`, `TooLarge` and `Memory`, the source can be used
/// on. After `Truncated` it returns `Spent` if its input ended inside a word or a packed group, and
/// `None` if it ended between words.
pub fn read_byte_message<S: WordSource>(
    alloc: Global,
    source: &mut S,
    limit: SizeLimit,
) -> Result<Option<ByteMessage>, FrameFault>
    ensures { ReadsFrame S.WordSource (IsResult held_segments result) (limit_of limit)
        source.old source.new (has_message result) }
{
    let mut message = ByteMessage::blank(alloc);
    match read_into(alloc, source, limit, &mut message) {
        Ok(true) => Ok(Some(message)),
        Ok(false) => Ok(None),
        Err(fault) => Err(fault),
    }
}

// How many bytes of a new buffer are filled with zeros before they are read over. They are still in
// the cache then. Twice the buffer of an input, so that its buffered bytes leave enough of a piece to
// be read without a copy.
const PIECE: usize = 131_072;

// How many bytes one call fills with zeros. The C library fills 2 KiB and more by one string
// instruction, which was slow over pages that the system gives only as they are touched.
const STEP: usize = 1024;

// How many bytes are initialized after a run of literal words that was longer than this. They are
// mostly the head of a further run, which is appended next.
const FEW: usize = 64;

/// Makes sure that a buffer has capacity for `need` bytes. If it hasn't, it is freed before another
/// is allocated, so that its contents are neither moved nor kept beside the new buffer.
pub(crate) fn make_space(alloc: Global, bytes: &mut Vec<u8>, need: usize) -> Result<(), AllocError>
    ensures ok { OnOk result (need ≤ vec_capacity bytes.new) }
    ensures refused { OnErr result (vec_capacity bytes.old < need) }
    ensures freed { OnErr result (vec_capacity bytes.new ≡ 0) }
{
    if bytes.capacity() < need {
        *bytes = Vec::new(alloc);
        *bytes = Vec::with_capacity(alloc, need)?;
    }
    Ok(())
}

// Makes a buffer at least `end` bytes long, within its capacity.
#[inline(always)]
fn lengthen(bytes: &mut Vec<u8>, end: usize)
    requires fits { end ≤ vec_capacity bytes.old }
    ensures kept { (more : List ℕ) × (bytes.new.items ≡ bytes.old.items ++ more) }
    ensures long { (end ≤ vec_len bytes.new) × (vec_len bytes.old ≤ vec_len bytes.new) }
    ensures capacity { vec_capacity bytes.old ≤ vec_capacity bytes.new }
{
    'steps: while bytes.len() < end {
        let next = bytes.len() + STEP.min(end - bytes.len());
        // the capacity suffices, so nothing is allocated
        bytes.resize(next, 0).unwrap();
    }
}

// Reads whole words over the bytes from `start` to `end`. Where there are none yet, zeros are
// appended first.
#[inline(always)]
fn read_piece<S: WordSource>(
    source: &mut S,
    bytes: &mut Vec<u8>,
    start: usize,
    end: usize,
) -> Result<(), SourceFault>
    requires whole { (start % 8 ≡ 0) × (end % 8 ≡ 0) }
    requires some { start < end }
    requires begun { start ≤ vec_len bytes.old }
    requires fits { end ≤ vec_capacity bytes.old }
    ensures ok { OnOk result ((piece : List ℕ)
        × (take end bytes.new.items ≡ take start bytes.old.items ++ piece)
        × (length piece ≡ end - start)
        × Takes S.WordSource source.old source.new (plain_words piece)) }
    ensures within { OnOk result (end ≤ vec_len bytes.new) }
    ensures capacity { vec_capacity bytes.old ≤ vec_capacity bytes.new }
    ensures works { OnOk result (IsUsable S.WordSource source.old source.new) }
    ensures reads { ReadsInput S.WordSource source.old source.new }
    ensures err { IfErr result (Stops S.WordSource ((end - start) / 8) source.old source.new) }
{
    lengthen(bytes, end);
    match source.fill(&mut bytes[start..end]) {
        Ok(true) => Ok(()),
        Ok(false) => Err(SourceFault::Truncated {
            byte: source.position(),
        }),
        Err(fault) => Err(fault),
    }
}

// How much of a fresh buffer is initialized after a run of literal words that was appended.
#[inline(always)]
fn piece_after(run: usize) -> usize
    ensures { (result % 8 ≡ 0) × (0 < result) }
{
    if run > FEW { FEW } else { PIECE }
}

// Appends buffered words to the bytes that were read, if the buffer has no others. Returns how many
// bytes they are.
#[inline(always)]
fn append_run<S: WordSource>(source: &mut S, bytes: &mut Vec<u8>, done: usize, need: usize) -> usize
    requires whole { done % 8 ≡ 0 }
    requires begun { done ≤ vec_len bytes.old }
    requires within { done ≤ need }
    requires usable { S.broken source.old ≡ false }
    ensures ok { (piece : List ℕ)
        × (take (done + result) bytes.new.items ≡ take done bytes.old.items ++ piece)
        × (length piece ≡ result) × Takes S.WordSource source.old source.new (plain_words piece) }
    ensures whole { result % 8 ≡ 0 }
    ensures within { done + result ≤ need }
    ensures long { done + result ≤ vec_len bytes.new }
    ensures capacity { vec_capacity bytes.old ≤ vec_capacity bytes.new }
    ensures works { IsUsable S.WordSource source.old source.new }
    ensures reads { ReadsInput S.WordSource source.old source.new }
{
    if bytes.len() > done {
        return 0;
    }
    source.append(bytes, need - done)
}

/// Reads `words` words into a buffer with capacity for their bytes. The bytes that it has already
/// are read over in one piece, and the rest in pieces of no more than `PIECE`. After each of these
/// the source may append literal words.
// Inlined, since a stream may be of many small messages.
#[inline(always)]
pub(crate) fn read_bytes<S: WordSource>(
    source: &mut S,
    words: usize,
    bytes: &mut Vec<u8>,
) -> Result<(), SourceFault>
    requires usable { S.broken source.old ≡ false }
    requires small { words ≤ most_words }
    requires fits { 8 * words ≤ vec_capacity bytes.old }
    ensures ok { OnOk result (Takes S.WordSource source.old source.new
        (plain_words (take (8 * words) bytes.new.items))) }
    ensures within { OnOk result (8 * words ≤ vec_len bytes.new) }
    ensures works { OnOk result (IsUsable S.WordSource source.old source.new) }
    ensures reads { ReadsInput S.WordSource source.old source.new }
    ensures err { IfErr result (Stops S.WordSource words source.old source.new) }
{
    let need = 8 * words;
    let mut done = 0;
    let mut run = 0;
    'pieces: while done < need {
        // whole words, since an earlier message may have left any number of bytes
        let held = need.min(bytes.len() / 8 * 8);
        let end = held.max(done + piece_after(run).min(need - done));
        match read_piece(source, bytes, done, end) {
            Ok(()) => {}
            Err(fault) => return Err(fault),
        }
        run = append_run(source, bytes, end, need);
        done = end + run;
    }
    Ok(())
}
