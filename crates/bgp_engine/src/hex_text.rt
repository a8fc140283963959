//! Hexadecimal text, however it is cut into blocks.

ghost use Rattle.std.specs.Prelude.{◌≡◌, ◌+◌, ◌*◌, ◌≤◌, ◌<◌, ◌^◌, true, None, is_some, IfSome};
ghost use Rattle.bgp_engine.specs.Below.{ForSome, hex_digit_value, is_hex_digit};
ghost use Rattle.bgp_engine.specs.HexText.{is_blank, digit_value};
ghost use Rattle.bgp_engine.specs.steps.HexDigits.{value_or_none, FirstPair, IsPair};

use arrayvec::ArrayVec;

/// The state of a reader of hexadecimal text.
#[derive(Clone, Copy)]
pub(crate) struct HexText {
    /// The first digit of a pair whose second hasn't been read.
    pub(crate) pending: Option<u8>,
    /// The number of characters read.
    pub(crate) seen: u64,
    ghost is_digit: { ForSome pending (λ c. is_hex_digit c ≡ true) },
    ghost is_seen: { ForSome pending (λ _. 0 < seen) },
}

/// The result of a character.
#[derive(Clone, Copy)]
pub(crate) enum Taken {
    /// A blank, or the first digit of a pair.
    Nothing,
    Octet(u8),
    /// It isn't allowed in hexadecimal text.
    Bad,
}

fn is_digit(character: u8) -> bool
    ensures { result ≡ is_hex_digit character }
{
    digit_value(character).is_some()
}

fn is_blank(character: u8) -> bool
    ensures { result ≡ is_blank character }
{
    matches!(character, b' ' | b'\r' | b'\n')
}

// The value of each character as a digit of either case: 255 where it isn't one. The next digit can't be predicted, and
// so a table is faster than comparisons.
static VALUES: [u8; 256] = [
    255, 255, 255, 255, 255, 255, 255, 255, 255, 255, 255, 255, 255, 255, 255, 255, 255, 255, 255,
    255, 255, 255, 255, 255, 255, 255, 255, 255, 255, 255, 255, 255, 255, 255, 255, 255, 255, 255,
    255, 255, 255, 255, 255, 255, 255, 255, 255, 255, 0, 1, 2, 3, 4, 5, 6, 7, 8, 9, 255, 255, 255,
    255, 255, 255, 255, 10, 11, 12, 13, 14, 15, 255, 255, 255, 255, 255, 255, 255, 255, 255, 255,
    255, 255, 255, 255, 255, 255, 255, 255, 255, 255, 255, 255, 255, 255, 255, 255, 10, 11, 12, 13,
    14, 15, 255, 255, 255, 255, 255, 255, 255, 255, 255, 255, 255, 255, 255, 255, 255, 255, 255,
    255, 255, 255, 255, 255, 255, 255, 255, 255, 255, 255, 255, 255, 255, 255, 255, 255, 255, 255,
    255, 255, 255, 255, 255, 255, 255, 255, 255, 255, 255, 255, 255, 255, 255, 255, 255, 255, 255,
    255, 255, 255, 255, 255, 255, 255, 255, 255, 255, 255, 255, 255, 255, 255, 255, 255, 255, 255,
    255, 255, 255, 255, 255, 255, 255, 255, 255, 255, 255, 255, 255, 255, 255, 255, 255, 255, 255,
    255, 255, 255, 255, 255, 255, 255, 255, 255, 255, 255, 255, 255, 255, 255, 255, 255, 255, 255,
    255, 255, 255, 255, 255, 255, 255, 255, 255, 255, 255, 255, 255, 255, 255, 255, 255, 255, 255,
    255, 255, 255, 255, 255, 255, 255, 255, 255, 255, 255, 255, 255, 255, 255, 255, 255, 255, 255,
    255, 255, 255,
];

// The value of a character as a digit: 255 where it isn't one.
fn value(character: u8) -> u8
    ensures { result ≡ value_or_none character }
{
    VALUES[usize::from(character)]
}

// The value of a digit of either case.
#[tactic(auto, using(crate::proofs::DigitTable::small_is_digit, crate::proofs::DigitTable::large_is_none))]
fn digit_value(character: u8) -> Option<u8>
    ensures { result ≡ hex_digit_value character }
{
    let value = value(character);
    if value < 16 { Some(value) } else { None }
}

// The octet of a pair of digits, where the second is one.
fn pair(high: u8, low: u8) -> Option<u8>
    requires { is_hex_digit high ≡ true }
    ensures digit { is_some result ≡ is_hex_digit low }
    ensures value { IfSome result (λ octet. octet ≡ digit_value high * 16 + digit_value low) }
{
    let high = digit_value(high).unwrap_or(0) % 16;
    let low = digit_value(low)?;
    Some(high * 16 + low % 16)
}

// The octet of two characters, where both are digits.
#[tactic(auto, using(crate::proofs::DigitTable::small_is_digit))]
fn octet_of(high: u8, low: u8) -> Option<u8>
    ensures { IfSome result (λ octet. IsPair high low octet) }
{
    let high = value(high);
    let low = value(low);
    if high < 16 && low < 16 {
        Some(high * 16 + low)
    } else {
        None
    }
}

// The octet of the first pair of digits, and the text after it.
#[tactic(auto, using(crate::proofs::HexReads::first_pair_of))]
fn first_pair(text: &[u8]) -> Option<(u8, &[u8])>
    ensures { IfSome result (λ r. FirstPair text.entry.now r.1.now r.0) }
{
    let [high, low, behind @ ..] = text else {
        return None;
    };
    let octet = octet_of(*high, *low)?;
    Some((octet, behind))
}

impl HexText {
    ghost use Rattle.std.specs.Prelude.{◌≡◌, ◌+◌, ◌-◌, ◌≤◌, ◌<◌, ◌^◌, [], None, length, MatchOption};
    ghost use Rattle.bgp_engine.specs.Below.{AreOctets};
    ghost use Rattle.std.specs.Option.{option_map};
    ghost use Rattle.bgp_engine.specs.steps.HexSteps.{ReadsOn, Continues, Breaks, ReadsPairs};

    /// A reader at the beginning of a text.
    pub(crate) fn new() -> HexText
        ensures pending { result.pending ≡ None }
        ensures seen { result.seen ≡ 0 }
    {
        HexText {
            pending: None,
            seen: 0,
        }
    }

    /// The offset of a digit whose pair is incomplete.
    pub(crate) fn waiting_digit(&self) -> Option<u64>
        ensures { result ≡ option_map (λ _. self.now.seen - 1) self.now.pending }
    {
        match self.pending {
            None => None,
            Some(_) => Some(self.seen - 1),
        }
    }

    /// Reads the next character.
    pub(crate) fn take(&mut self, character: u8) -> Taken
        requires { self.old.seen + 1 < 2 ^ 64 }
        ensures { ReadsOn self.old character result self.new }
    {
        match self.pending {
            Some(high) => match pair(high, character) {
                Some(octet) => {
                    self.pending = None;
                    self.seen += 1;
                    Taken::Octet(octet)
                }
                None => Taken::Bad,
            },
            None if is_digit(character) => {
                self.seen += 1;
                self.pending = Some(character);
                Taken::Nothing
            }
            None if is_blank(character) => {
                self.seen += 1;
                Taken::Nothing
            }
            None => Taken::Bad,
        }
    }

    /// Reads pairs of digits from the beginning of the text, unless a first digit is pending. Answers the rest of the
    /// text.
    fn take_pairs<'a>(&mut self, text: &'a [u8], octets: &mut ArrayVec<u8, 2048>) -> &'a [u8]
        requires room { 2 * length octets.old.items + length text.now ≤ 4097 }
        requires countable { self.old.seen + length text.now < 2 ^ 64 }
        ensures { ReadsPairs self.old text.entry.now result.now octets.old.items octets.new.items self.new }
    {
        let mut rest = text;
        if self.pending.is_some() {
            return rest;
        }
        'pairs: while let Some((octet, behind)) = first_pair(rest) {
            octets.push(octet);
            rest = behind;
        }
        self.seen += (text.len() - rest.len()) as u64;
        rest
    }

    /// Reads a block of at most 4096 characters, and writes the octets of its pairs in order.
    ///
    /// Answers the offset of the first bad character, if there is one; nothing after it is read.
    pub(crate) fn decode(&mut self, text: &[u8], octets: &mut ArrayVec<u8, 2048>) -> Option<u64>
        requires none_yet { octets.old.items ≡ [] }
        requires short { length text.now ≤ 4096 }
        requires countable { self.old.seen + 4096 < 2 ^ 64 }
        ensures decodes { MatchOption result (Continues self.old text.now octets.new.items self.new) (Breaks self.old text.now octets.new.items) }
        ensures octets { AreOctets octets.new.items }
    {
        let mut rest = text;
        'text: while let Some((character, behind)) = rest.split_first() {
            match self.take(*character) {
                Taken::Nothing => {}
                Taken::Octet(octet) => octets.push(octet),
                Taken::Bad => return Some(self.seen),
            }
            rest = self.take_pairs(behind, octets);
        }
        None
    }
}
