//! The kernels of packing that take a vector of words or bytes at a time (encoding: Packing).

ghost use Rattle.byteorder.specs.Endian.{little_number};
ghost use Rattle.cap_spec.specs.Packing.{full_run, tag_of, zero_run};
ghost use Rattle.cap_spec.specs.Plain.{word_bytes};
ghost use Rattle.cap_spec.specs.Unpacking.{marks, spread};
ghost use Rattle.std.specs.Int.Count.{count_trailing_zeros};
ghost use Rattle.std.specs.Prelude.{◌+◌, ◌-◌, ◌++◌, ◌==◌, ◌≡◌, ◌≤◌, filter, if◌then◌else◌, length, map, not, replicate, take};
ghost use Rattle.std.specs.Simd.Lanes.{chunk};

mod spread;
mod squeeze;

use cap_words::{bytes_of, word_of};
use spread::spread_places;
use squeeze::squeeze_places;
use std::simd::prelude::*;

// The tags of the eight words from a place on.
#[inline]
fn tags_of_eight(words: &[u64], at: usize) -> [u8; 8]
    requires { at + 8 ≤ length words.now }
    ensures { result ≡ map (λ w. tag_of (word_bytes w)) (chunk at 8 words.now) }
{
    let bytes = u64x8::from_slice(&words[at..]).to_le_bytes();
    bytes_of(bytes.simd_ne(u8x64::splat(0)).to_bitmask())
}

/// The tags of as many words as there are in whole eights, and how many these are.
#[inline]
pub(crate) fn tags_of_eights(words: &[u64], out: &mut [u8]) -> usize
    requires { length out.old ≡ length words.now }
    ensures len { length out.new ≡ length out.old }
    ensures within { result ≤ length words.now }
    ensures marked { take result out.new ≡ map (λ w. tag_of (word_bytes w)) (take result words.now) }
{
    let mut i = 0;
    while words.len() - i >= 8 {
        u8x8::from_array(tags_of_eight(words, i)).copy_to_slice(&mut out[i..]);
        i += 8;
    }
    i
}

// The bytes of a word, and zeros above them.
#[inline(always)]
fn lanes_of_word(word: u64) -> u8x16
    ensures { result ≡ word_bytes word ++ replicate 8 0 }
{
    u64x2::from_array([word, 0]).to_le_bytes()
}

/// The tag of one word.
#[inline(always)]
pub(crate) fn tag_of_word(word: u64) -> u8
    ensures { result ≡ tag_of (word_bytes word) }
{
    let present = lanes_of_word(word).simd_ne(u8x16::splat(0));
    present.to_bitmask() as u8
}

/// How many of a word's bytes aren't zero.
#[inline(always)]
pub(crate) fn count_present(word: u64) -> u32
    ensures few { result ≤ 8 }
    ensures count { result ≡ length (filter (λ b. not (b == 0)) (word_bytes word)) }
{
    tag_of_word(word).count_ones()
}

// How many of eight lanes come before the first that is marked.
#[inline(always)]
fn before_first(marked: u64) -> usize
    ensures { result ≡ (if marked == 0 then 8 else count_trailing_zeros 64 marked) }
{
    if marked == 0 {
        8
    } else {
        marked.trailing_zeros() as usize
    }
}

// How many of the eight words from a place on come before the first that isn't zero.
#[inline]
fn zeros_of_eight(words: &[u64], at: usize) -> usize
    requires { at + 8 ≤ length words.now }
    ensures { result ≡ zero_run (chunk at 8 words.now) }
{
    let eight = u64x8::from_slice(&words[at..]);
    let present = eight.simd_ne(u64x8::splat(0)).to_bitmask();
    before_first(present)
}

/// How many words at the start are zero, counted by whole eights.
#[inline]
pub(crate) fn zeros_of_eights(words: &[u64]) -> usize
    ensures { result ≤ zero_run words.now }
{
    let mut i = 0;
    while words.len() - i >= 8 {
        let zeros = zeros_of_eight(words, i);
        if zeros < 8 {
            return i + zeros;
        }
        i += 8;
    }
    i
}

// How many of the eight words from a place on come before the first with two zero bytes or more.
#[inline]
fn fulls_of_eight(words: &[u64], at: usize) -> usize
    requires { at + 8 ≤ length words.now }
    ensures { result ≡ full_run (chunk at 8 words.now) }
{
    // A number and the one before it have no bit in common where it has one bit or none.
    let absent = !u8x8::from_array(tags_of_eight(words, at));
    let further = absent & (absent - u8x8::splat(1));
    let sparse = further.simd_ne(u8x8::splat(0)).to_bitmask();
    before_first(sparse)
}

/// How many words at the start have at most one zero byte, counted by whole eights.
#[inline]
pub(crate) fn fulls_of_eights(words: &[u64]) -> usize
    ensures { result ≤ full_run words.now }
{
    let mut i = 0;
    while words.len() - i >= 8 {
        let fulls = fulls_of_eight(words, i);
        if fulls < 8 {
            return i + fulls;
        }
        i += 8;
    }
    i
}

// Eight bytes, and above them eight times another.
#[inline(always)]
fn lanes_of(bytes: [u8; 8], above: u8) -> u8x16
    ensures { result ≡ bytes ++ replicate 8 above }
{
    u8x8::from_array(bytes).shuffle(
        u8x8::splat(above),
        [0, 1, 2, 3, 4, 5, 6, 7, 8, 9, 10, 11, 12, 13, 14, 15],
    )
}

// The lowest eight bytes.
#[inline(always)]
fn low_bytes(lanes: u8x16) -> [u8; 8]
    ensures { result ≡ take 8 lanes }
{
    lanes.extract::<0, 8>().to_array()
}

// The bytes after a tag, each in its place in the word.
#[inline(always)]
fn spread_lanes(tag: u8, bytes: u8x16) -> u8x16
    ensures { little_number 8 (take 8 result) ≡ spread 8 tag bytes }
{
    bytes.swizzle_dyn_within::<16>(lanes_of(spread_places(tag), 128))
}

// The bytes of a word that its tag marks, in order, and zeros after them.
#[inline(always)]
fn squeeze_lanes(tag: u8, word: u64) -> u8x16
    requires { tag ≡ tag_of (word_bytes word) }
    ensures { take 8 result ≡ filter (λ b. not (b == 0)) (word_bytes word)
        ++ replicate (8 - marks 8 tag) 0 }
{
    let places = lanes_of(squeeze_places(tag), 128);
    lanes_of_word(word).swizzle_dyn_within::<16>(places)
}

/// The bytes of a word that its tag marks, in order, and zeros after them.
#[inline(always)]
pub(crate) fn squeezed(tag: u8, word: u64) -> [u8; 8]
    requires { tag ≡ tag_of (word_bytes word) }
    ensures { result ≡ filter (λ b. not (b == 0)) (word_bytes word) ++ replicate (8 - marks 8 tag) 0 }
{
    low_bytes(squeeze_lanes(tag, word))
}

/// The word whose byte `i` is the next of these bytes where bit `i` of the tag is set, and else zero.
/// Bytes past those that the tag marks change nothing.
#[inline]
pub fn scatter(tag: u8, bytes: &[u8; 8]) -> u64
    ensures { result ≡ spread 8 tag bytes.now }
{
    // As a word, which is one move. Each byte was moved for itself where they came in a register: 21
    // instructions more, on x86-64.
    let packed = lanes_of_word(word_of(bytes));
    word_of(&low_bytes(spread_lanes(tag, packed)))
}
