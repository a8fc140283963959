//! A short text on the stack.

ghost use Rattle.std.specs.Prelude.{true, false, ◌≡◌, ◌+◌, ◌≤◌, ◌<◌, ◌∷◌, ◌++◌, [], length, drop};
ghost use Rattle.bgp_text.specs.Below.{is_ascii, decimal, digit_glyph, list_all, hex_octet};

use crate::decimal::write_digits;
use crate::digits::Digits;
use std::marker::Model;

/// At most 72 ASCII characters, written from the last to the first, so that they are appended to a text in one call.
#[derive(Drop)]
pub(crate) struct Word {
    octets: [u8; 72],
    at: usize,
}

impl Model for Word {
    ghost use Rattle.std.specs.Prelude.{ℕ, List, ◌≤◌, drop};
    ghost use Rattle.bgp_text.specs.Below.{IsAscii};

    ghost Value = { List ℕ };

    ghost view = { λ w. drop w.at w.octets };

    ghost invariant = { λ w. (w.at ≤ 72) × IsAscii (drop w.at w.octets) };
}

static DIGITS: [u8; 16] = *b"0123456789abcdef";

/// The hexadecimal digit of a number below 16, in lower case.
#[inline(always)]
fn digit(value: u8) -> u8
    requires { value < 16 }
    ensures value { result ≡ digit_glyph false value }
    ensures ascii { result < 128 }
{
    DIGITS[usize::from(value)]
}

/// Writes an octet's two hexadecimal digits.
#[inline(always)]
fn write_hex(octet: u8, octets: &mut [u8; 72], at: usize)
    requires { at + 2 ≤ 72 }
    ensures { drop at octets.new ≡ hex_octet octet ++ drop (at + 2) octets.old }
{
    octets[at] = digit(octet / 16);
    octets[at + 1] = digit(octet % 16);
}

/// Writes a number's digits so that they end at `end`, with a mark before them, and returns where the mark is.
#[inline(always)]
fn write_marked(mark: u8, number: u64, octets: &mut [u8; 72], end: usize) -> usize
    requires { (length (decimal number) + 2 ≤ end) × (end ≤ 72) }
    ensures start { result + (1 + length (decimal number)) ≡ end }
    ensures written { drop result octets.new ≡ mark ∷ (decimal number ++ drop end octets.old) }
{
    let at = write_digits(number, octets, end) - 1;
    octets[at] = mark;
    at
}

/// Writes a label so that it ends at `end`, and returns where it starts.
#[inline(always)]
fn write_label(label: &str, octets: &mut [u8; 72], end: usize) -> usize
    requires { (length label.now ≤ end) × (end ≤ 72) }
    ensures start { result + length label.now ≡ end }
    ensures written { drop result octets.new ≡ label.now ++ drop end octets.old }
{
    let at = end - label.len();
    octets[at..end].copy_from_slice(label.as_bytes());
    at
}

impl Word {
    /// An empty word.
    #[inline]
    pub(crate) fn new() -> Word
        ensures { result ≡ [] }
    {
        Word {
            octets: [0; 72],
            at: 72,
        }
    }

    /// Writes a number's digits before it.
    #[inline(always)]
    pub(crate) fn number<N: Digits>(&mut self, number: N)
        requires { length self.old + (N.most + 2) ≤ 72 }
        ensures value { self.new ≡ decimal (N.value number) ++ self.old }
        ensures len { length self.new ≤ length self.old + N.most }
    {
        let end = self.at;
        self.at = write_digits(number.wide(), &mut self.octets, end);
    }

    /// Writes a character before it.
    #[inline]
    pub(crate) fn character(&mut self, character: u8)
        requires room { length self.old < 72 }
        requires ascii { character < 128 }
        ensures { self.new ≡ character ∷ self.old }
    {
        self.at -= 1;
        self.octets[self.at] = character;
    }

    /// Writes a mark, and a number after that, before it.
    #[inline(always)]
    pub(crate) fn marked<N: Digits>(&mut self, mark: u8, number: N)
        requires room { length self.old + (N.most + 2) ≤ 72 }
        requires ascii { mark < 128 }
        ensures value { self.new ≡ mark ∷ (decimal (N.value number) ++ self.old) }
        ensures len { length self.new ≤ length self.old + (1 + N.most) }
    {
        let end = self.at;
        self.at = write_marked(mark, number.wide(), &mut self.octets, end);
    }

    /// Writes a label before it.
    #[inline(always)]
    pub(crate) fn label(&mut self, label: &str)
        requires room { length self.old + length label.now ≤ 72 }
        requires ascii { list_all is_ascii label.now ≡ true }
        ensures { self.new ≡ label.now ++ self.old }
    {
        let end = self.at;
        self.at = write_label(label, &mut self.octets, end);
    }

    /// Writes an octet's two hexadecimal digits before it.
    #[inline]
    pub(crate) fn hex_octet(&mut self, octet: u8)
        requires { length self.old + 2 ≤ 72 }
        ensures value { self.new ≡ hex_octet octet ++ self.old }
        ensures len { length self.new ≡ length self.old + 2 }
    {
        self.character(digit(octet % 16));
        self.character(digit(octet / 16));
    }

    /// Writes the four hexadecimal digits of two octets before it.
    #[inline(always)]
    pub(crate) fn hex_pair(&mut self, high: u8, low: u8)
        requires { length self.old + 4 ≤ 72 }
        ensures value { self.new ≡ (hex_octet high ++ hex_octet low) ++ self.old }
        ensures len { length self.new ≡ length self.old + 4 }
    {
        let at = self.at - 4;
        write_hex(low, &mut self.octets, at + 2);
        write_hex(high, &mut self.octets, at);
        self.at = at;
    }

    /// The characters.
    #[inline]
    pub(crate) fn text(&self) -> &str
        ensures { result.now ≡ self.now }
    {
        unsafe { std::str::from_utf8_unchecked(&self.octets[self.at..]) }
    }
}
