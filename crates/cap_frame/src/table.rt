//! The table at the start of a message: how many segments it has, and how many words each of them.

ghost use Rattle.arrayvec.specs.ArrayVec.{array_vec_len};
ghost use Rattle.cap_frame.specs.Limit.{limit_of};
ghost use Rattle.cap_frame.specs.Reading.{ReadsNext};
ghost use Rattle.cap_frame.specs.ReadingFaults.{TakesTable};
ghost use Rattle.cap_frame.specs.Buffers.{AreBuffers};
ghost use Rattle.cap_frame.specs.TableSteps.{LeavesSizes, sums_after};
ghost use Rattle.cap_frame.specs.TablesLeft.{sums_of};
ghost use Rattle.cap_frame.specs.Taking.{IsUsable, ReadsInput, Stops, Takes};
ghost use Rattle.cap_spec.specs.Frames.{IsTable, halves, joined, sizes_of};
ghost use Rattle.std.specs.Prelude.{◌<◌, ◌^◌, ◌≡◌, ◌≤◌, [], ◌∷◌, ◌%◌, ◌*◌, ◌+◌, ◌++◌, ◌/◌, IfErr, IfOk, IfSome, IsErrOf, List, OnOk, false, length, map, sum, take, true, ℕ};
ghost use Rattle.std.specs.Vec.{vec_capacity};

use crate::fault::{FrameFault, SizeLimit, frame_fault};
use arrayvec::ArrayVec;
use cap_words::{SourceFault, WordSource};
use std::alloc::{AllocError, Global};

/// The sizes of a message's segments, in words.
pub(crate) type Sizes = ArrayVec<u32, 512>;

/// Empties a table. Most messages have one segment: of their tables one number is taken, without the
/// call that sets all of them to zero.
#[inline(always)]
pub(crate) fn empty(table: &mut Sizes)
    ensures { table.new.items ≡ [] }
{
    if table.len() == 1 {
        table.pop();
    } else {
        table.clear();
    }
}

/// What is kept of the table of a message that can't be read.
#[derive(Clone, Copy, Debug, PartialEq, Eq, Drop)]
pub struct TableSums {
    /// How many segments the message has.
    pub segments: u32,
    /// How many words they have together.
    pub words: u64,
    /// How many bytes the whole message has, its table included.
    pub bytes: u64,
}

// The number in the low four bytes of a word.
fn low_half(word: u64) -> u32
    ensures { result ≡ word % 2 ^ 32 }
{
    (word % 0x1_0000_0000) as u32
}

// The number in the high four bytes of a word.
fn high_half(word: u64) -> u32
    ensures { result ≡ word / 2 ^ 32 }
{
    (word / 0x1_0000_0000) as u32
}

// Appends the numbers of a word, as far as there are sizes to come. What is left over is padding.
fn push_halves(sizes: &mut Sizes, count: usize, word: u64)
    requires few { count ≤ 512 }
    requires fits { array_vec_len sizes.old < count }
    ensures { sizes.new.items ≡ take count (sizes.old.items ++ halves word) }
{
    sizes.push(low_half(word));
    if sizes.len() < count {
        sizes.push(high_half(word));
    }
}

// Reads the rest of a table, after its first word, which gives at most 512 segments.
#[inline(always)]
fn read_sizes<S: WordSource>(
    source: &mut S,
    first: u64,
    sizes: &mut Sizes,
) -> Result<(), SourceFault>
    requires few { first % 2 ^ 32 < 512 }
    requires usable { S.broken source.old ≡ false }
    requires empty { sizes.old.items ≡ [] }
    ensures ok { OnOk result ((more : List ℕ) × Takes S.WordSource source.old source.new more
        × IsTable (first ∷ more) sizes.new.items) }
    ensures works { OnOk result (IsUsable S.WordSource source.old source.new) }
    ensures reads { ReadsInput S.WordSource source.old source.new }
    ensures err { IfErr result (Stops S.WordSource ((first % 2 ^ 32 + 1) / 2)
        source.old source.new) }
{
    let count = low_half(first) as usize + 1;
    sizes.push(high_half(first));
    'table: for _ in 0..count / 2 {
        match next_word(source) {
            Ok(word) => push_halves(sizes, count, word),
            Err(fault) => return Err(fault),
        }
    }
    Ok(())
}

/// The sum of the sizes of at most 512 segments.
pub(crate) fn total(sizes: &[u32]) -> u64
    requires { length sizes.now ≤ 512 }
    ensures { result ≡ sum sizes.now }
{
    sizes.iter().map(|size| u64::from(*size)).sum()
}

/// What is kept of sizes, or `None` where there are none.
fn sums_of(sizes: &[u32]) -> Option<TableSums>
    requires { length sizes.now ≤ 512 }
    ensures { result ≡ sums_of sizes.now }
{
    if sizes.is_empty() {
        return None;
    }
    let segments = sizes.len() as u32;
    let words = total(sizes);
    Some(TableSums {
        segments,
        words,
        bytes: 8 * (u64::from(segments / 2 + 1) + words),
    })
}

/// What is kept of sizes after a fault: `None` unless the fault is `TooLarge` or `Truncated`.
pub(crate) fn sums_after(fault: FrameFault, sizes: &[u32]) -> Option<TableSums>
    requires { length sizes.now ≤ 512 }
    ensures { result ≡ sums_after fault sizes.now }
{
    match fault {
        FrameFault::TooLarge { .. } => sums_of(sizes),
        FrameFault::Truncated { .. } => sums_of(sizes),
        FrameFault::TooManySegments { .. } => None,
        FrameFault::Device => None,
        FrameFault::Memory => None,
        FrameFault::Spent => None,
    }
}

/// Reads the table of the next message. `false` where the stream ends before its first word.
// Inlined, with what it calls, since a stream may be of many small messages.
#[inline(always)]
pub(crate) fn next_table<S: WordSource>(
    source: &mut S,
    limit: SizeLimit,
    sizes: &mut Sizes,
) -> Result<bool, FrameFault>
    requires empty { sizes.old.items ≡ [] }
    ensures table { result ≡ Ok true
        → TakesTable S.WordSource source.old source.new sizes.new.items }
    ensures within { result ≡ Ok true → sum sizes.new.items ≤ limit_of limit }
    ensures next { ReadsNext S.WordSource (limit_of limit) source.old source.new result }
    ensures no_memory { IsErrOf result FrameFault.Memory → ⊥ }
    ensures left { IfErr result (λ fault. IfSome (S.words source.old) (λ ws.
        LeavesSizes fault ws sizes.new.items)) }
{
    let first = match source.next() {
        Ok(Some(first)) => first,
        Ok(None) => return Ok(false),
        Err(fault) => return Err(frame_fault(fault)),
    };
    let last = low_half(first);
    if last >= 512 {
        return Err(FrameFault::TooManySegments {
            count: u64::from(last) + 1,
        });
    }
    if let Err(fault) = read_sizes(source, first, sizes) {
        sizes.clear();
        return Err(frame_fault(fault));
    }
    let words = total(sizes);
    if words > limit.words() {
        return Err(FrameFault::TooLarge { words });
    }
    Ok(true)
}

/// The next word of a message. That there is none is then a fault.
// Inlined, since it is called at each word of a message.
#[inline(always)]
pub(crate) fn next_word<S: WordSource>(source: &mut S) -> Result<u64, SourceFault>
    ensures ok { IfOk result (λ word. Takes S.WordSource source.old source.new (word ∷ [])) }
    ensures word { IfOk result (λ word. word < 2 ^ 64) }
    ensures works { OnOk result (IsUsable S.WordSource source.old source.new) }
    ensures reads { ReadsInput S.WordSource source.old source.new }
    ensures err { IfErr result (Stops S.WordSource 1 source.old source.new) }
{
    match source.next() {
        Ok(Some(word)) => Ok(word),
        Ok(None) => Err(SourceFault::Truncated {
            byte: source.position(),
        }),
        Err(fault) => Err(fault),
    }
}

/// Reads as many words as a segment has, into a vector with capacity for them.
pub(crate) fn read_words<S: WordSource>(
    source: &mut S,
    size: u32,
    words: &mut Vec<u64>,
) -> Result<(), SourceFault>
    requires usable { S.broken source.old ≡ false }
    requires empty { words.old.items ≡ [] }
    requires fits { size ≤ vec_capacity words.old }
    ensures ok { OnOk result (Takes S.WordSource source.old source.new words.new.items) }
    ensures size { OnOk result (length words.new.items ≡ size) }
    ensures works { OnOk result (IsUsable S.WordSource source.old source.new) }
    ensures reads { ReadsInput S.WordSource source.old source.new }
    ensures err { IfErr result (Stops S.WordSource size source.old source.new) }
{
    'words: for _ in 0..size {
        match next_word(source) {
            Ok(word) => words.push_reserved(word),
            Err(fault) => return Err(fault),
        }
    }
    Ok(())
}

/// Empty vectors with capacity for the words of segments of these sizes.
pub(crate) fn buffers(alloc: Global, sizes: &[u32]) -> Result<Vec<Vec<u64>>, AllocError>
    ensures { IfOk result (λ buffers. AreBuffers (λ v. v.items) (λ v. vec_capacity v)
        buffers.items sizes.now) }
{
    let mut buffers = Vec::with_capacity(alloc, sizes.len())?;
    'sizes: for size in sizes {
        buffers.push(Vec::with_capacity(alloc, *size as usize)?)?;
    }
    Ok(buffers)
}

/// Reads the words of all segments.
pub(crate) fn read_contents<S: WordSource>(
    source: &mut S,
    sizes: &[u32],
    segments: &mut Vec<Vec<u64>>,
) -> Result<(), SourceFault>
    requires usable { S.broken source.old ≡ false }
    requires buffers { AreBuffers (λ v. v.items) (λ v. vec_capacity v) segments.old.items sizes.now }
    ensures ok { OnOk result (Takes S.WordSource source.old source.new
        (joined (map (λ v. v.items) segments.new.items))) }
    ensures sizes { OnOk result (sizes_of (map (λ v. v.items) segments.new.items) ≡ sizes.now) }
    ensures works { OnOk result (IsUsable S.WordSource source.old source.new) }
    ensures reads { ReadsInput S.WordSource source.old source.new }
    ensures err { IfErr result (Stops S.WordSource (sum sizes.now) source.old source.new) }
{
    'segments: for (s, size) in sizes.iter().enumerate() {
        match read_words(source, *size, &mut segments[s]) {
            Ok(()) => {}
            Err(fault) => return Err(fault),
        }
    }
    Ok(())
}
