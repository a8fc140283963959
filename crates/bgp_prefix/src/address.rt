//! Addresses as text.

ghost use Rattle.std.specs.Prelude.{Some, ◌++◌};
ghost use Rattle.bgp_prefix.specs.Text.{ipv4_address_text, ipv6_address_text, hex_octet};

use std::fmt;

/// An address of `W` octets, the highest first: 4 are IPv4, 16 are IPv6.
#[derive(Clone, Copy, Debug, PartialEq, Eq)]
pub struct Address<const W: usize>(pub [u8; W]);

/// As in `192.0.2.1`.
impl fmt::Display for Address<4> {
    ghost output = { λ a. Some (ipv4_address_text a.0) };

    #[tactic(auto, unfolding(crate::specs::Text::ipv4_address_text))]
    fn fmt<W: fmt::Write>(&self, f: &mut fmt::Formatter<W>) -> fmt::Result {
        let [a, b, c, d] = self.0;
        write!(f, "{a}.{b}.{c}.{d}")
    }
}

/// As in `2001:0db8:0000:0000:0000:0000:0000:0001`: all eight groups, each of four digits.
impl fmt::Display for Address<16> {
    ghost output = { λ a. Some (ipv6_address_text a.0) };

    #[tactic(auto, unfolding(crate::specs::Text::ipv6_address_text))]
    fn fmt<W: fmt::Write>(&self, f: &mut fmt::Formatter<W>) -> fmt::Result {
        let a = self.0;
        let first = Half(
            Group(a[0], a[1]),
            Group(a[2], a[3]),
            Group(a[4], a[5]),
            Group(a[6], a[7]),
        );
        let last = Half(
            Group(a[8], a[9]),
            Group(a[10], a[11]),
            Group(a[12], a[13]),
            Group(a[14], a[15]),
        );
        write!(f, "{first}:{last}")
    }
}

/// Two octets as four lower case digits.
#[derive(Clone, Copy)]
struct Group(u8, u8);

impl fmt::Display for Group {
    ghost output = { λ g. Some (hex_octet g.0 ++ hex_octet g.1) };

    #[tactic(auto, using(std::proofs::lemmas::Fmt::hex_byte))]
    fn fmt<W: fmt::Write>(&self, f: &mut fmt::Formatter<W>) -> fmt::Result {
        let Group(high, low) = *self;
        write!(f, "{high:02x}{low:02x}")
    }
}

/// Four groups with colons between them.
#[derive(Clone, Copy)]
struct Half(Group, Group, Group, Group);

impl fmt::Display for Half {
    ghost use Rattle.std.specs.Prelude.{Some};
    ghost use Rattle.bgp_prefix.specs.steps.Half.{half_text};

    ghost output = { λ h. Some (half_text h) };

    fn fmt<W: fmt::Write>(&self, f: &mut fmt::Formatter<W>) -> fmt::Result {
        let Half(a, b, c, d) = *self;
        write!(f, "{a}:{b}:{c}:{d}")
    }
}
