//! Numbers in decimal, and addresses.

ghost use Rattle.std.specs.Prelude.{◌≡◌, ◌≤◌, IfSome};
ghost use Rattle.bgp_script.specs.Number.{digit_of, is_spelled, number_up_to, address_of};

use crate::pieces::Pieces;

// The value of a digit.
fn digit_value(octet: u8) -> Option<u8>
    ensures { result ≡ digit_of octet }
{
    if octet.is_ascii_digit() {
        Some(octet - b'0')
    } else {
        None
    }
}

// Whether there are digits, without a leading zero.
fn is_spelled(word: &[u8]) -> bool
    ensures { result ≡ is_spelled word.now }
{
    match word.split_first() {
        None => false,
        Some((first, rest)) => rest.is_empty() || *first != b'0',
    }
}

/// A number of at most `most`, without sign or leading zeros.
#[tactic(auto, using(crate::proofs::Digits::stops, crate::proofs::Digits::exceeds, crate::proofs::Digits::goes_on, crate::proofs::Digits::ends))]
pub(crate) fn read_number(word: &[u8], most: u32) -> Option<u32>
    ensures number { result ≡ number_up_to most word.now }
    ensures fits { IfSome result (λ number. number ≤ most) }
{
    if !is_spelled(word) {
        return None;
    }
    let mut number: u64 = 0;
    'digits: for octet in word {
        let digit = digit_value(*octet)?;
        number = number * 10 + u64::from(digit);
        if number > u64::from(most) {
            return None;
        }
    }
    Some(number as u32)
}

/// Four octets in decimal, joined by dots.
pub(crate) fn read_address(word: &[u8]) -> Option<[u8; 4]>
    ensures { result ≡ address_of word.now }
{
    let mut numbers = Pieces::between_dots(word);
    let a = numbers.take_number(255)?;
    let b = numbers.take_number(255)?;
    let c = numbers.take_number(255)?;
    let d = numbers.take_number(255)?;
    if numbers.is_done() {
        Some([a as u8, b as u8, c as u8, d as u8])
    } else {
        None
    }
}
