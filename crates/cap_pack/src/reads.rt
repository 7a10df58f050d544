//! Reading the head of a group, and a literal word.

ghost use Rattle.cap_pack.specs.Course.{course, gives, group_course, stops};
ghost use Rattle.cap_words.specs.Counting.{Reads, ReadsAll};
ghost use Rattle.cap_words.specs.ByteIo.{InputFails, NoFault};
ghost use Rattle.std.specs.Io.KnownBytes.{IsAtEnd};
ghost use Rattle.std.specs.Prelude.{◌<◌, ◌≡◌, [], ◌++◌, IfNone, IfOk, IfSome, IsErrOf, List, OnOk, length, suc, true, ℕ};

use super::head::{Head, LONGEST_HEAD, front_head, head_len, head_of};
use cap_words::{ByteIn, Counted, SourceFault, word_of};

// The head of the next group, where as many bytes are buffered as any head has. It is decoded where
// it is. Else nothing happens.
#[inline(always)]
fn buffered_head<I: ByteIn>(bytes: &mut Counted<I>) -> Option<Head>
    ensures head { IfSome result (λ g. (bs : List ℕ)
        × Reads I.to_come bytes.old bytes.new bs × ((ys : List ℕ) → course 0 bytes.old.read (bs ++ ys)
        ≡ group_course g.word g.zeros g.plain bytes.new.read ys)) }
    ensures works { IfSome result (λ _.
        NoFault I.broken I.failures bytes.old.input bytes.new.input) }
    ensures none { IfNone result (bytes.new ≡ bytes.old) }
{
    let read = bytes.read;
    let held = bytes.input.held();
    if held.len() < LONGEST_HEAD {
        return None;
    }
    let head = front_head(held)?;
    let len = 1 + head_len(held[0]);
    bytes.input.skip(len);
    bytes.read = read.saturating_add(len as u64);
    Some(head)
}

/// The head of the next group, or `None` where the input ends before it.
#[inline(always)]
pub(crate) fn read_head<I: ByteIn>(bytes: &mut Counted<I>) -> Result<Option<Head>, SourceFault>
    ensures head { IfOk result (λ o. IfSome o (λ g. (bs : List ℕ)
        × Reads I.to_come bytes.old bytes.new bs × ((ys : List ℕ) → course 0 bytes.old.read (bs ++ ys)
        ≡ group_course g.word g.zeros g.plain bytes.new.read ys))) }
    ensures none { result ≡ Ok None → Reads I.to_come bytes.old bytes.new []
        × IsAtEnd (I.to_come bytes.new.input) × (bytes.new.read ≡ bytes.old.read) }
    ensures works { OnOk result (NoFault I.broken I.failures bytes.old.input bytes.new.input) }
    ensures truncated { (byte : ℕ) → IsErrOf result (SourceFault.Truncated byte) →
        (byte ≡ bytes.new.read) × ReadsAll I.to_come bytes.old bytes.new
        (λ bs. course 0 bytes.old.read bs ≡ stops bytes.new.read) }
    ensures worked { (byte : ℕ) → IsErrOf result (SourceFault.Truncated byte)
        → NoFault I.broken I.failures bytes.old.input bytes.new.input }
    ensures device { IsErrOf result SourceFault.Device →
        InputFails I.broken I.failures bytes.old.input bytes.new.input }
    ensures reads { (bs : List ℕ) × Reads I.to_come bytes.old bytes.new bs }
    ensures was_broken { IsErrOf result SourceFault.Spent →
        (I.broken bytes.old.input ≡ true) × (bytes.new ≡ bytes.old) }
{
    if let Some(head) = buffered_head(bytes) {
        return Ok(Some(head));
    }
    read_split_head(bytes)
}

// The same where the head may not be buffered whole: its bytes are copied.
#[cold]
#[inline(never)]
fn read_split_head<I: ByteIn>(bytes: &mut Counted<I>) -> Result<Option<Head>, SourceFault>
    ensures head { IfOk result (λ o. IfSome o (λ g. (bs : List ℕ)
        × Reads I.to_come bytes.old bytes.new bs × ((ys : List ℕ) → course 0 bytes.old.read (bs ++ ys)
        ≡ group_course g.word g.zeros g.plain bytes.new.read ys))) }
    ensures none { result ≡ Ok None → Reads I.to_come bytes.old bytes.new []
        × IsAtEnd (I.to_come bytes.new.input) × (bytes.new.read ≡ bytes.old.read) }
    ensures works { OnOk result (NoFault I.broken I.failures bytes.old.input bytes.new.input) }
    ensures truncated { (byte : ℕ) → IsErrOf result (SourceFault.Truncated byte) →
        (byte ≡ bytes.new.read) × ReadsAll I.to_come bytes.old bytes.new
        (λ bs. course 0 bytes.old.read bs ≡ stops bytes.new.read) }
    ensures worked { (byte : ℕ) → IsErrOf result (SourceFault.Truncated byte)
        → NoFault I.broken I.failures bytes.old.input bytes.new.input }
    ensures device { IsErrOf result SourceFault.Device →
        InputFails I.broken I.failures bytes.old.input bytes.new.input }
    ensures reads { (bs : List ℕ) × Reads I.to_come bytes.old bytes.new bs }
    ensures was_broken { IsErrOf result SourceFault.Spent →
        (I.broken bytes.old.input ≡ true) × (bytes.new ≡ bytes.old) }
{
    let mut tag = [0];
    match bytes.fill(&mut tag) {
        Ok(0) => return Ok(None),
        Ok(_) => {}
        Err(fault) => return Err(SourceFault::from(fault)),
    }
    let tag = tag[0];
    let mut buffer = [0; 9];
    match read_whole(bytes, &mut buffer[..head_len(tag)]) {
        Ok(()) => Ok(Some(head_of(tag, &buffer))),
        Err(fault) => Err(fault),
    }
}

/// The next word as it is.
pub(crate) fn read_word<I: ByteIn>(bytes: &mut Counted<I>) -> Result<u64, SourceFault>
    ensures word { IfOk result (λ w. (bs : List ℕ) × Reads I.to_come bytes.old bytes.new bs
        × ((n : ℕ) (ys : List ℕ) →
        course (suc n) bytes.old.read (bs ++ ys)
        ≡ gives w bytes.new.read (course n bytes.new.read ys))) }
    ensures works { OnOk result (NoFault I.broken I.failures bytes.old.input bytes.new.input) }
    ensures truncated { (byte : ℕ) → IsErrOf result (SourceFault.Truncated byte) →
        (byte ≡ bytes.new.read) × ReadsAll I.to_come bytes.old bytes.new
        (λ bs. (n : ℕ) → course (suc n) bytes.old.read bs ≡ stops bytes.new.read) }
    ensures worked { (byte : ℕ) → IsErrOf result (SourceFault.Truncated byte)
        → NoFault I.broken I.failures bytes.old.input bytes.new.input }
    ensures device { IsErrOf result SourceFault.Device →
        InputFails I.broken I.failures bytes.old.input bytes.new.input }
    ensures reads { (bs : List ℕ) × Reads I.to_come bytes.old bytes.new bs }
    ensures was_broken { IsErrOf result SourceFault.Spent →
        (I.broken bytes.old.input ≡ true) × (bytes.new ≡ bytes.old) }
{
    let mut word = [0; 8];
    match read_whole(bytes, &mut word) {
        Ok(()) => Ok(word_of(&word)),
        Err(fault) => Err(fault),
    }
}

// Fills a buffer with the next bytes.
fn read_whole<I: ByteIn>(bytes: &mut Counted<I>, buf: &mut [u8]) -> Result<(), SourceFault>
    requires { 0 < length buf.old }
    ensures took { OnOk result (Reads I.to_come bytes.old bytes.new buf.new) }
    ensures works { OnOk result (NoFault I.broken I.failures bytes.old.input bytes.new.input) }
    ensures truncated { (byte : ℕ) → IsErrOf result (SourceFault.Truncated byte) →
        (byte ≡ bytes.new.read) × ReadsAll I.to_come bytes.old bytes.new
        (λ bs. length bs < length buf.new) }
    ensures worked { (byte : ℕ) → IsErrOf result (SourceFault.Truncated byte)
        → NoFault I.broken I.failures bytes.old.input bytes.new.input }
    ensures device { IsErrOf result SourceFault.Device →
        InputFails I.broken I.failures bytes.old.input bytes.new.input }
    ensures reads { (bs : List ℕ) × Reads I.to_come bytes.old bytes.new bs }
    ensures was_broken { IsErrOf result SourceFault.Spent →
        (I.broken bytes.old.input ≡ true) × (bytes.new ≡ bytes.old) }
{
    match bytes.fill(buf) {
        Ok(len) if len == buf.len() => Ok(()),
        Ok(_) => Err(SourceFault::Truncated { byte: bytes.read }),
        Err(fault) => Err(SourceFault::from(fault)),
    }
}
