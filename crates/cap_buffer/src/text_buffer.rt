//! A text in a buffer of a fixed size.

ghost use Rattle.cap_spec.specs.Texts.{hex};
ghost use Rattle.hex.specs.Hex.{encode_lower};
ghost use Rattle.std.specs.Prelude.{◌+◌, ◌*◌, ◌++◌, ◌^◌, ◌<◌, ◌≡◌, ◌≤◌, ◌==◌, ◌∷◌, [], decimal, length};

use cap_words::bytes_of;
use itoa::write_digits;
use std::marker::Model;

/// The most decimal digits of a number of 64 bits.
pub const DIGITS: usize = 20;

/// The most decimal digits of a number of 32 bits.
pub const FEW_DIGITS: usize = 10;

/// How many bytes a hash has: 256 bits.
pub const HASH: usize = 32;

/// A text of at most `N` bytes. What is appended has to fit: nothing is cut. A caller may keep one
/// for many texts: clearing it leaves the old bytes in the buffer, so that it costs nothing.
#[derive(Drop)]
pub struct TextBuffer<const N: usize> {
    bytes: [u8; N],
    len: usize,
}

impl<const N: usize> Model for TextBuffer<N> {
    ghost use Rattle.std.specs.Prelude.{◌≤◌, List, take, ℕ};

    ghost Value = { List ℕ };

    ghost view = { λ t. take t.len t.bytes };

    ghost invariant = { λ t. t.len ≤ N };
}

impl<const N: usize> TextBuffer<N> {
    /// An empty text. Allocates nothing.
    pub fn new() -> Self
        ensures { result ≡ [] }
    {
        TextBuffer {
            bytes: [0; N],
            len: 0,
        }
    }

    /// The text.
    #[inline]
    pub fn text(&self) -> &[u8]
        ensures lines { result.now ≡ self.now }
        ensures few { length result.now ≤ N }
    {
        &self.bytes[..self.len]
    }

    /// How many bytes it has.
    #[inline]
    pub fn len(&self) -> usize
        ensures { result ≡ length self.now }
    {
        self.len
    }

    /// Whether it has no byte.
    #[inline]
    pub fn is_empty(&self) -> bool
        ensures { result ≡ (length self.now == 0) }
    {
        self.len == 0
    }

    /// Removes all text.
    #[inline]
    pub fn clear(&mut self)
        ensures { self.new ≡ [] }
    {
        self.len = 0;
    }

    /// Appends text.
    #[inline(always)]
    pub fn push_text(&mut self, text: &[u8])
        requires { length self.old + length text.now ≤ N }
        ensures { self.new ≡ self.old ++ text.now }
    {
        let end = self.len + text.len();
        let bytes = &mut self.bytes[..];
        bytes[self.len..end].copy_from_slice(text);
        self.len = end;
    }

    /// Appends a number in decimal, of at most 20 digits.
    #[inline]
    pub fn push_number(&mut self, n: u64)
        requires { length self.old + DIGITS ≤ N }
        ensures items { self.new ≡ self.old ++ decimal n }
        ensures few { length self.new ≤ length self.old + DIGITS }
        ensures fewer { n < 2 ^ 32 → length self.new ≤ length self.old + FEW_DIGITS }
    {
        let end = self.len + digit_count(n);
        write_digits(n, &mut self.bytes, end);
        self.len = end;
    }

    /// Appends a name and then a number.
    #[inline(always)]
    pub fn push_named(&mut self, name: &[u8], number: u64)
        requires fits { length self.old + length name.now + DIGITS ≤ N }
        ensures items { self.new ≡ self.old ++ (name.now ++ decimal number) }
        ensures few { length self.new ≤ length self.old + length name.now + DIGITS }
        ensures fewer { number < 2 ^ 32 →
            length self.new ≤ length self.old + length name.now + FEW_DIGITS }
    {
        self.push_text(name);
        self.push_number(number);
    }

    /// Appends a place as `SEGMENT:WORD`, both in decimal.
    pub fn push_place(&mut self, segment: u32, word: u64)
        requires { length self.old + 2 * DIGITS + 1 ≤ N }
        ensures items { self.new ≡ self.old ++ (decimal segment ++ 58 ∷ decimal word) }
        ensures few { length self.new ≤ length self.old + 2 * DIGITS + 1 }
    {
        self.push_number(u64::from(segment));
        self.push_named(b":", word);
    }

    /// Appends the 16 hexadecimal digits of a word's bytes, the lowest byte first.
    #[inline]
    pub fn push_hex(&mut self, word: u64)
        requires { length self.old + 16 ≤ N }
        ensures items { self.new ≡ self.old ++ hex word }
        ensures len { length self.new ≡ length self.old + 16 }
    {
        let end = self.len + 16;
        let bytes = &mut self.bytes[..];
        match hex::encode_to_slice(bytes_of(word), &mut bytes[self.len..end]) {
            Ok(()) => self.len = end,
            Err(_) => unreachable!(),
        }
    }

    /// Appends the two hexadecimal digits of each byte of a hash.
    pub fn push_hash(&mut self, hash: &[u8; HASH])
        requires { length self.old + 2 * HASH ≤ N }
        ensures items { self.new ≡ self.old ++ encode_lower hash.now }
        ensures len { length self.new ≡ length self.old + 2 * HASH }
    {
        let end = self.len + 2 * HASH;
        let bytes = &mut self.bytes[..];
        match hex::encode_to_slice(hash, &mut bytes[self.len..end]) {
            Ok(()) => self.len = end,
            Err(_) => unreachable!(),
        }
    }
}

/// How many decimal digits a number has.
#[inline]
fn digit_count(n: u64) -> usize
    ensures { result ≡ length (decimal n) }
{
    if n < 10 {
        return 1;
    }
    if n < 100 {
        return 2;
    }
    2 + digit_count(n / 100)
}
