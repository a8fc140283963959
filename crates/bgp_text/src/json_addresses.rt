//! Addresses and prefixes as JSON strings.

ghost use Rattle.std.specs.Prelude.{◌≡◌, ◌++◌, codes, OnOk};
ghost use Rattle.bgp_text.specs.Below.{string_bytes};
ghost use Rattle.bgp_text.specs.Json.{member};
ghost use Rattle.bgp_text.specs.JsonAddress.{ip4_json, ip6_json, ip6_text, prefix4_json, prefix6_json};

use crate::json::{put_name, put_string};
use crate::json_list::Element;
use crate::word::Word;
use bgp_prefix::{Address, Prefix};
use std::alloc::AllocError;
use std::net::Ipv6Addr;

/// Adds an IPv6 address after a quotation mark. That of all zeros is the shortest on the wire, and has a fast path.
#[tactic(auto, unfolding(crate::specs::JsonAddress::ip6_text))]
fn put_ip6_text(text: &mut String, address: [u8; 16]) -> Result<(), AllocError>
    ensures { OnOk result (string_bytes text.new ≡ string_bytes text.old ++ (codes "\"" ++ ip6_text address)) }
{
    let address = Ipv6Addr::from_octets(address);
    if address.is_unspecified() {
        return text.push_str("\"::");
    }
    let groups = address.hex_groups();
    write!(text, "\"{groups}")
}

/// Adds a member that is an IPv4 address.
pub(crate) fn put_ip4_member(
    text: &mut String,
    name: &str,
    address: [u8; 4],
) -> Result<(), AllocError>
    ensures { OnOk result (string_bytes text.new ≡ string_bytes text.old ++ member name.now ip4_json address) }
{
    put_name(text, name)?;
    put_string(text, Address(address))
}

/// Adds a member that is an IPv6 address.
#[tactic(auto, unfolding(crate::specs::Json::quoted))]
pub(crate) fn put_ip6_member(
    text: &mut String,
    name: &str,
    address: [u8; 16],
) -> Result<(), AllocError>
    ensures { OnOk result (string_bytes text.new ≡ string_bytes text.old ++ member name.now ip6_json address) }
{
    put_name(text, name)?;
    put_ip6_text(text, address)?;
    text.push_str("\"")
}

impl Element for Prefix<4> {
    ghost use Rattle.bgp_text.specs.JsonAddress.{prefix4_json};

    ghost json = { prefix4_json };

    fn put_json(&self, text: &mut String) -> Result<(), AllocError> {
        put_string(text, *self)
    }
}

impl Element for Prefix<16> {
    ghost use Rattle.bgp_text.specs.JsonAddress.{prefix6_json};

    ghost json = { prefix6_json };

    #[tactic(auto, unfolding(crate::specs::Json::quoted))]
    fn put_json(&self, text: &mut String) -> Result<(), AllocError> {
        put_ip6_text(text, self.addr())?;
        let mut word = Word::new();
        word.character(b'"');
        word.marked(b'/', self.len());
        text.push_str(word.text())
    }
}
