//! What input that isn't a stream of BGP messages looks like, by its first octets; and the position of a character in a text.

ghost use Rattle.std.specs.Prelude.{◌≡◌};
ghost use Rattle.bgp_words.specs.Hints.{are_all, dump_of, eighth, front_number, has_seven_digits, is_archived, is_bmp, is_digit, is_digit_or_space, is_mrt, is_pcap, is_printed, is_space, look_of, next_spot, ninth, one_more, spot_behind, text_of, left_unsaid};

use bgp_open::{Context, Peer};

/// What input that isn't a stream of BGP messages looks like.
#[derive(Clone, Copy, PartialEq, Eq)]
pub enum Look {
    /// A packet capture of tcpdump (pcap).
    Pcap,
    /// A packet capture of Wireshark (pcapng).
    PcapNg,
    /// An archive of routes (MRT, RFC 6396).
    Mrt,
    /// Output of `gzip`.
    Gzip,
    /// Output of `bzip2`.
    Bzip2,
    /// A stream of BMP (RFC 7854).
    Bmp,
    /// Output of `xxd`.
    Xxd,
    /// Output of `hexdump -C`.
    HexdumpC,
    /// Output of `hexdump` or `od`: numbers of two octets.
    Words,
    /// Hexadecimal text.
    Digits,
    /// Other text.
    Text,
}

/// The position of a character in a text, counted from 1.
#[derive(Clone, Copy, PartialEq, Eq)]
pub struct Spot {
    pub line: u64,
    pub column: u64,
}

/// What a speaker offers that a context lacks.
#[derive(Clone, Copy, PartialEq, Eq)]
pub struct Unsaid {
    /// AS numbers of four octets.
    pub as4: bool,
    /// IPv4 unicast in multiprotocol attributes.
    pub ip4: bool,
    /// IPv6 unicast in multiprotocol attributes.
    pub ip6: bool,
}

/// What a speaker offers that a context lacks.
pub fn left_unsaid(ctx: &Context, peer: &Peer) -> Unsaid
    ensures { result ≡ left_unsaid ctx.now peer.now }
{
    Unsaid {
        as4: peer.as4.is_some() && !ctx.as4,
        ip4: peer.ip4 && !ctx.ip4,
        ip6: peer.ip6 && !ctx.ip6,
    }
}

// The number in the first four octets: 0 if there are fewer.
fn front_number(octets: &[u8]) -> u32
    ensures { result ≡ front_number octets.now }
{
    match octets {
        [a, b, c, d, ..] => u32::from_be_bytes([*a, *b, *c, *d]),
        _ => 0,
    }
}

// Whether this begins a packet capture, of either byte order, with times in microseconds or in nanoseconds.
fn is_pcap(number: u32) -> bool
    ensures { result ≡ is_pcap number }
{
    number == 0xa1b2_c3d4 || number == 0xd4c3_b2a1 || number == 0xa1b2_3c4d || number == 0x4d3c_b2a1
}

// Whether archives have this MRT type: TABLE_DUMP, TABLE_DUMP_V2, BGP4MP and BGP4MP_ET.
fn is_archived(kind: u8) -> bool
    ensures { result ≡ is_archived kind }
{
    kind == 12 || kind == 13 || kind == 16 || kind == 17
}

// Whether octets begin with an MRT header: of a type in archives, below 16 MiB.
fn is_mrt(octets: &[u8]) -> bool
    ensures { result ≡ is_mrt octets.now }
{
    match octets {
        [_, _, _, _, a, kind, b, subtype, c, ..] => {
            *a == 0 && is_archived(*kind) && *b == 0 && *subtype <= 12 && *c == 0
        }
        _ => false,
    }
}

// Whether octets begin with a BMP header: below 64 KiB.
fn is_bmp(octets: &[u8]) -> bool
    ensures { result ≡ is_bmp octets.now }
{
    match octets {
        [version, a, b, _, _, kind, ..] => *version == 3 && *a == 0 && *b == 0 && *kind <= 6,
        _ => false,
    }
}

fn is_digit(character: u8) -> bool
    ensures { result ≡ is_digit character }
{
    character >= b'0' && character <= b'9'
        || character >= b'a' && character <= b'f'
        || character >= b'A' && character <= b'F'
}

// Whether a text begins with seven digits.
fn has_seven_digits(text: &[u8]) -> bool
    ensures { result ≡ has_seven_digits text.now }
{
    match text {
        [a, b, c, d, e, f, g, ..] => {
            is_digit(*a)
                && is_digit(*b)
                && is_digit(*c)
                && is_digit(*d)
                && is_digit(*e)
                && is_digit(*f)
                && is_digit(*g)
        }
        _ => false,
    }
}

// The eighth character: 0 if there are fewer.
fn eighth(text: &[u8]) -> u8
    ensures { result ≡ eighth text.now }
{
    match text {
        [_, _, _, _, _, _, _, character, ..] => *character,
        _ => 0,
    }
}

// The ninth character: 0 if there are fewer.
fn ninth(text: &[u8]) -> u8
    ensures { result ≡ ninth text.now }
{
    match text {
        [_, _, _, _, _, _, _, _, character, ..] => *character,
        _ => 0,
    }
}

/// What a text that begins with an offset looks like.
pub fn dump_of(text: &[u8]) -> Option<Look>
    ensures { result ≡ dump_of text.now }
{
    if !has_seven_digits(text) {
        return None;
    }
    if eighth(text) == b' ' {
        return Some(Look::Words);
    }
    if !is_digit(eighth(text)) {
        return None;
    }
    if ninth(text) == b':' {
        return Some(Look::Xxd);
    }
    if ninth(text) == b' ' {
        Some(Look::HexdumpC)
    } else {
        None
    }
}

fn is_space(character: u8) -> bool
    ensures { result ≡ is_space character }
{
    character == b' ' || character == b'\t' || character == b'\r' || character == b'\n'
}

fn is_digit_or_space(character: u8) -> bool
    ensures { result ≡ is_digit_or_space character }
{
    is_digit(character) || is_space(character)
}

/// Whether a character is printable ASCII, or a space.
pub fn is_printed(character: u8) -> bool
    ensures { result ≡ is_printed character }
{
    character >= 33 && character <= 126 || is_space(character)
}

// Whether a text has only digits and spaces.
#[tactic(auto, unfolding(crate::specs::Hints::are_all))]
fn are_digits(text: &[u8]) -> bool
    ensures { result ≡ are_all is_digit_or_space text.now }
{
    let mut left = text;
    'text: while let [character, behind @ ..] = left {
        if !is_digit_or_space(*character) {
            return false;
        }
        left = behind;
    }
    true
}

// Whether each of its characters is printable.
#[tactic(auto, unfolding(crate::specs::Hints::are_all))]
fn are_printed(text: &[u8]) -> bool
    ensures { result ≡ are_all is_printed text.now }
{
    let mut left = text;
    'text: while let [character, behind @ ..] = left {
        if !is_printed(*character) {
            return false;
        }
        left = behind;
    }
    true
}

// A text of digits only, or another.
fn text_of(text: &[u8]) -> Option<Look>
    ensures { result ≡ text_of text.now }
{
    if are_digits(text) {
        return Some(Look::Digits);
    }
    if are_printed(text) {
        Some(Look::Text)
    } else {
        None
    }
}

/// What input looks like by its first octets. No message begins so (RFC 4271, section 4.1).
pub fn look_of(first: &[u8]) -> Option<Look>
    ensures { result ≡ look_of first.now }
{
    let number = front_number(first);
    if is_pcap(number) {
        return Some(Look::Pcap);
    }
    if number == 0x0a0d_0d0a {
        return Some(Look::PcapNg);
    }
    if number / 256 == 0x1f_8b08 {
        return Some(Look::Gzip);
    }
    if number / 256 == 0x42_5a68 {
        return Some(Look::Bzip2);
    }
    if is_mrt(first) {
        return Some(Look::Mrt);
    }
    if is_bmp(first) {
        return Some(Look::Bmp);
    }
    match dump_of(first) {
        Some(look) => Some(look),
        None => text_of(first),
    }
}

// One more, if that fits 64 bits.
fn one_more(number: u64) -> u64
    ensures { result ≡ one_more number }
{
    if number == u64::MAX {
        number
    } else {
        number + 1
    }
}

// The position after a character.
fn next_spot(at: Spot, character: u8) -> Spot
    ensures { result ≡ next_spot at character }
{
    if character == b'\n' {
        Spot {
            line: one_more(at.line),
            column: 1,
        }
    } else {
        Spot {
            line: at.line,
            column: one_more(at.column),
        }
    }
}

/// The position after a text that begins at one.
#[tactic(auto, unfolding(crate::specs::Hints::spot_behind))]
pub fn spot_behind(at: Spot, text: &[u8]) -> Spot
    ensures { result ≡ spot_behind at text.now }
{
    let mut left = text;
    let mut spot = at;
    'text: while let [character, behind @ ..] = left {
        spot = next_spot(spot, *character);
        left = behind;
    }
    spot
}
