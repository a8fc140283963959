//! Prefixes as text.

ghost use Rattle.std.specs.Prelude.{Some};
ghost use Rattle.bgp_prefix.specs.Prelude.{ipv4_text, ipv6_text};

use crate::address::Address;
use crate::prefix::Prefix;
use std::fmt;

/// As in `10.0.0.0/8`.
impl fmt::Display for Prefix<4> {
    ghost output = { λ p. Some (ipv4_text p) };

    fn fmt<W: fmt::Write>(&self, f: &mut fmt::Formatter<W>) -> fmt::Result {
        let addr = Address(self.addr());
        let len = self.len();
        write!(f, "{addr}/{len}")
    }
}

/// As in `2001:0db8:0000:0000:0000:0000:0000:0000/32`.
impl fmt::Display for Prefix<16> {
    ghost output = { λ p. Some (ipv6_text p) };

    fn fmt<W: fmt::Write>(&self, f: &mut fmt::Formatter<W>) -> fmt::Result {
        let addr = Address(self.addr());
        let len = self.len();
        write!(f, "{addr}/{len}")
    }
}
