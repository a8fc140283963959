//! Addresses as text.

ghost use Rattle.std.specs.Prelude.{◌≡◌, ◌+◌, ◌≤◌, ◌<◌, ◌++◌, length, codes};
ghost use Rattle.bgp_text.specs.Below.{decimal, ipv4_address_text, ipv6_address_text, group_text, groups_text};

use crate::short::Short;
use crate::word::Word;
use bgp_prefix::{Address, Prefix4, Prefix6};

/// Writes an IPv4 address before a word.
#[tactic(auto, using(crate::proofs::Words::address_in_front))]
#[inline(always)]
fn put_ip4_address(word: &mut Word, address: [u8; 4])
    requires { length word.old + 17 ≤ 72 }
    ensures value { word.new ≡ ipv4_address_text address ++ word.old }
    ensures len { length word.new ≤ length word.old + 15 }
{
    let [a, b, c, d] = address;
    word.marked(b'.', d);
    word.marked(b'.', c);
    word.marked(b'.', b);
    word.number(a);
}

/// Writes a group of an IPv6 address, two octets, before a word.
#[inline(always)]
fn put_group(word: &mut Word, address: &[u8; 16], group: usize)
    requires room { length word.old + 4 ≤ 72 }
    requires within { group < 8 }
    ensures value { word.new ≡ group_text address.now group ++ word.old }
    ensures len { length word.new ≡ length word.old + 4 }
{
    word.hex_pair(address[2 * group], address[2 * group + 1]);
}

/// Writes four groups of an IPv6 address before a word, from this one on.
#[tactic(auto, using(crate::proofs::Words::four_in_front))]
fn put_half(word: &mut Word, address: &[u8; 16], group: usize)
    requires room { length word.old + 19 ≤ 72 }
    requires within { group + 3 < 8 }
    ensures value { word.new ≡ groups_text address.now group ++ word.old }
    ensures len { length word.new ≡ length word.old + 19 }
{
    put_group(word, address, group + 3);
    word.character(b':');
    put_group(word, address, group + 2);
    word.character(b':');
    put_group(word, address, group + 1);
    word.character(b':');
    put_group(word, address, group);
}

/// Writes an IPv6 address before a word.
#[tactic(auto, using(crate::proofs::Words::halves_in_front))]
fn put_ip6_address(word: &mut Word, address: &[u8; 16])
    requires { length word.old + 39 ≤ 72 }
    ensures value { word.new ≡ ipv6_address_text address.now ++ word.old }
    ensures len { length word.new ≡ length word.old + 39 }
{
    put_half(word, address, 4);
    word.character(b':');
    put_half(word, address, 0);
}

/// Writes the length of a prefix, and a slash before it, before a word.
#[inline(always)]
fn put_length(word: &mut Word, len: u8)
    requires { length word.old + 5 ≤ 72 }
    ensures value { word.new ≡ codes "/" ++ (decimal len ++ word.old) }
    ensures len { length word.new ≤ length word.old + 4 }
{
    word.marked(b'/', len);
}

impl Short for Address<4> {
    ghost use Rattle.bgp_prefix.specs.Text.{ipv4_address_text};

    ghost text = { λ address. ipv4_address_text address.0 };

    ghost most = { 15 };

    #[inline(always)]
    fn put(self, word: &mut Word) {
        put_ip4_address(word, self.0);
    }
}

impl Short for Address<16> {
    ghost use Rattle.bgp_prefix.specs.Text.{ipv6_address_text};

    ghost text = { λ address. ipv6_address_text address.0 };

    ghost most = { 39 };

    fn put(self, word: &mut Word) {
        put_ip6_address(word, &self.0);
    }
}

impl Short for Prefix4 {
    ghost use Rattle.bgp_prefix.specs.Text.{ipv4_text};

    ghost text = { ipv4_text };

    ghost most = { 19 };

    #[inline(always)]
    fn put(self, word: &mut Word) {
        put_length(word, self.len());
        put_ip4_address(word, self.addr());
    }
}

impl Short for Prefix6 {
    ghost use Rattle.bgp_prefix.specs.Text.{ipv6_text};

    ghost text = { ipv6_text };

    ghost most = { 43 };

    #[inline]
    fn put(self, word: &mut Word) {
        put_length(word, self.len());
        put_ip6_address(word, &self.addr());
    }
}
