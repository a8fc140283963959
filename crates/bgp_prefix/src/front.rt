//! The first prefix of octets, before it is a value.

ghost use Rattle.std.specs.Prelude.{◌≡◌, ◌≤◌, ◌*◌, ◌∷◌, ◌++◌, length, take, IfSome, option_map};
ghost use Rattle.bgp_wire.specs.Prelude.{AreOctets};
ghost use Rattle.bgp_prefix.specs.Prelude.{octets_for, address_of, prefix_of, one_prefix, run_of};

use crate::bits::{address, is_allowed, octets_for};

/// A length in bits, all octets after it, those of them that the prefix has, and what follows these.
#[derive(Clone, Copy)]
pub(crate) struct Front<'a> {
    pub(crate) len: u8,
    pub(crate) behind: &'a [u8],
    pub(crate) read: &'a [u8],
    pub(crate) after: &'a [u8],
}

impl<'a> Front<'a> {
    /// The address: where `W` octets follow the length, they are read and masked as one word, including any after the prefix.
    #[inline(always)]
    pub(crate) fn address<const W: usize>(&self) -> [u8; W]
        requires allowed { self.now.len ≤ 8 * W }
        requires held { length self.now.read.now ≡ octets_for self.now.len }
        requires read { self.now.read.now ≡ take (octets_for self.now.len) self.now.behind.now }
        ensures value { result ≡ address_of W self.now.len self.now.read.now }
        ensures octets { AreOctets self.now.read.now }
    {
        match self.behind.first_chunk::<W>() {
            Some(&octets) => address(self.len, &octets),
            None => address(self.len, self.read),
        }
    }
}

/// The first prefix of octets, with an address of `W` octets (RFC 4271, section 4.3). None
/// where the length is too long, or the octets end before it.
#[tactic(auto, unfolding(crate::specs::Prefix::one_prefix))]
pub(crate) fn cut_front<const W: usize>(octets: &[u8]) -> Option<Front<'_>>
    ensures value { option_map (λ f. (prefix_of W f.len f.read.now, f.after.now)) result
        ≡ one_prefix W octets.now }
    ensures allowed { IfSome result (λ f. f.len ≤ 8 * W) }
    ensures held { IfSome result (λ f. length f.read.now ≡ octets_for f.len) }
    ensures read { IfSome result (λ f. f.read.now ≡ take (octets_for f.len) f.behind.now) }
    ensures parts { IfSome result (λ f. octets.now ≡ f.len ∷ (f.read.now ++ f.after.now)) }
{
    let (len, behind) = octets.split_first()?;
    let held = octets_for(*len);
    if !is_allowed::<W>(*len) || behind.len() < held {
        return None;
    }
    let (read, after) = behind.split_at(held);
    Some(Front {
        len: *len,
        behind,
        read,
        after,
    })
}

/// The number of prefixes that octets begin with, and what is left after them.
pub(crate) fn skip_run<const W: usize>(octets: &[u8]) -> (usize, &[u8])
    ensures count { result.0 ≡ length (run_of W octets.now).0 }
    ensures rest { result.1.now ≡ (run_of W octets.now).1 }
{
    let mut count = 0;
    let mut rest = octets;
    'run: while let Some(found) = cut_front::<W>(rest) {
        count += 1;
        rest = found.after;
    }
    (count, rest)
}
