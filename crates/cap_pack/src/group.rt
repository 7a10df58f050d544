//! The group that a packer holds open, and how it is written.

ghost use Rattle.cap_pack.specs.Holding.{group_bytes};
ghost use Rattle.cap_words.specs.ByteIo.{MemoryFails, OutputFails};
ghost use Rattle.std.specs.Io.KnownBytes.{Appends};
ghost use Rattle.std.specs.Prelude.{◌≡◌, ◌≤◌, IsErrOf, OnErr, OnOk, take, true, ℕ};

use super::encoding::{BUFFER_BYTES, encode_plain, encode_zeros};
use cap_words::{ByteOut, OutFault, write_all};

/// The most words that follow the first one of a group.
pub(crate) const MORE_WORDS: usize = 255;

/// A group that further words may join.
#[derive(Clone, Copy, Drop)]
pub(crate) enum Group {
    /// No word is held.
    Empty,
    /// A zero word and `more` further ones.
    Zeros { more: u8 },
    /// A word without a zero byte, and `more` further words with at most one each.
    Plain { first: u64, more: u8 },
}

/// Encodes the group at the start of the buffer. Returns how many bytes that takes.
#[inline(always)]
pub(crate) fn encode_group(
    group: Group,
    words: &[u64; MORE_WORDS],
    buffer: &mut [u8; BUFFER_BYTES],
) -> usize
    ensures within { result ≤ 2050 }
    ensures encoded { take result buffer.new ≡ group_bytes group words.now }
{
    match group {
        Group::Empty => 0,
        Group::Zeros { more } => encode_zeros(buffer, 0, more),
        Group::Plain { first, more } => encode_plain(buffer, 0, first, &words[..more as usize]),
    }
}

/// Writes the group, of which `words` holds the words after the first.
#[inline(always)]
pub(crate) fn write_group<O: ByteOut>(
    output: &mut O,
    group: Group,
    words: &[u64; MORE_WORDS],
    buffer: &mut [u8; BUFFER_BYTES],
) -> Result<(), OutFault>
    ensures ok { OnOk result
        (Appends (O.written output.old) (O.written output.new) (group_bytes group words.now)) }
    ensures err { OnErr result ((n : ℕ)
        × Appends (O.written output.old) (O.written output.new)
        (take n (group_bytes group words.now))) }
    ensures works { OnOk result ((O.broken output.new ≡ O.broken output.old)
        × (O.failures output.new ≡ O.failures output.old)) }
    ensures idle { OnOk result (O.broken output.new ≡ true → output.new ≡ output.old) }
    ensures device { IsErrOf result OutFault.Device →
        OutputFails O.broken O.failures output.old output.new × (O.broken output.new ≡ true) }
    ensures memory { IsErrOf result OutFault.Memory →
        MemoryFails O.broken O.failures output.old output.new }
    ensures was_broken { IsErrOf result OutFault.Spent →
        (O.broken output.old ≡ true) × (output.new ≡ output.old) }
{
    let len = encode_group(group, words, buffer);
    write_all(output, &buffer[..len])
}
