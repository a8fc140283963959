//! Writing and reading headers.

ghost use Rattle.std.specs.Prelude.{◌≡◌, ◌↔◌, ◌+◌, ◌≤◌, ◌++◌, List, ℕ, Ok, IfSome, IsTrue, length, take, replicate};
ghost use Rattle.bgp_frame.specs.Prelude.{IsLength, header, has_marker, head_of_in, IsFrame, wanted_in};

use crate::fault::HeadFault;
use crate::grammar::Grammar;
use crate::kind::Kind;
use bgp_numbers::message;

/// The length of a header.
pub(crate) const HEADER_LEN: usize = 19;

/// A header without fault: the kind, and the length of the whole message.
#[derive(Clone, Copy)]
pub(crate) struct Header<K: Copy> {
    pub(crate) kind: K,
    pub(crate) len: u16,
}

/// The header of a message of this kind with a body of this length (RFC 4271, section 4.1).
///
/// The kind has to allow the length of the whole message, which is 19 octets more.
#[tactic(auto, using(crate::proofs::Headers::below_limit, crate::proofs::Headers::makes_frame))]
pub fn head(kind: Kind, body_len: u16) -> [u8; 19]
    requires { IsLength kind (19 + body_len) }
    ensures header { result ≡ header kind (19 + body_len) }
    ensures frames { (body : List ℕ) → length body ≡ body_len → IsFrame (record { kind = kind; body = body }) (result ++ body) }
{
    let mut octets = [255; 19];
    let [high, low] = (19 + body_len).to_be_bytes();
    octets[16] = high;
    octets[17] = low;
    octets[18] = kind.code();
    octets
}

/// Whether octets begin with eight octets 255. They are compared as one number, since most messages pass.
fn begins_with_half(octets: &[u8]) -> bool
    requires { 8 ≤ length octets.now }
    ensures { IsTrue result ↔ (take 8 octets.now ≡ replicate 8 255) }
{
    match octets.first_chunk::<8>() {
        None => false,
        Some(half) => u64::from_be_bytes(*half) == u64::MAX,
    }
}

/// Whether octets begin with the marker.
fn has_marker(octets: &[u8]) -> bool
    requires { 16 ≤ length octets.now }
    ensures { result ≡ has_marker octets.now }
{
    begins_with_half(octets) && begins_with_half(&octets[8..])
}

/// Reads the first 19 octets, or answers their first fault. The tests are those of RFC 4271, section 6.1, and their order our own.
#[tactic(auto, unfolding(crate::specs::Head::head_of_in))]
pub(crate) fn read_head<G: Grammar>(grammar: G, octets: &[u8]) -> Result<Header<G::Kind>, HeadFault>
    requires { 19 ≤ length octets.now }
    ensures { result ≡ head_of_in (G.types grammar) octets.now }
{
    if !has_marker(octets) {
        return Err(HeadFault::Marker);
    }
    let len = u16::from_be_bytes([octets[16], octets[17]]);
    if len < 19 || len > grammar.limit() {
        return Err(HeadFault::Length(len));
    }
    let code = octets[18];
    match grammar.from_code(code) {
        None => Err(HeadFault::Kind(code)),
        Some(kind) if len < grammar.least_length(kind) || len > grammar.most_length(kind) => {
            Err(HeadFault::Length(len))
        }
        Some(kind) => Ok(Header { kind, len }),
    }
}

/// The header of the UPDATE that these octets begin with, where they begin with one without fault: most messages are, and this takes three tests.
#[tactic(auto, unfolding(crate::specs::Head::head_of_in))]
#[inline(always)]
pub(crate) fn update_head<G: Grammar>(grammar: G, octets: &[u8]) -> Option<Header<G::Kind>>
    requires { 19 ≤ length octets.now }
    ensures { IfSome result (λ head. head_of_in (G.types grammar) octets.now ≡ Ok head) }
{
    let len = u16::from_be_bytes([octets[16], octets[17]]);
    let is_update = has_marker(octets) && octets[18] == message::UPDATE;
    if is_update && len >= 23 && len <= grammar.limit() {
        let kind = grammar.update();
        Some(Header { kind, len })
    } else {
        None
    }
}

/// The length of what these octets begin: a header, and then its message unless it has a fault.
#[tactic(auto, unfolding(crate::specs::Frame::wanted_in))]
pub(crate) fn wanted<G: Grammar>(grammar: G, octets: &[u8]) -> usize
    ensures { result ≡ wanted_in (G.types grammar) octets.now }
{
    if octets.len() < HEADER_LEN {
        return HEADER_LEN;
    }
    match read_head(grammar, octets) {
        Ok(head) => head.len as usize,
        Err(_) => HEADER_LEN,
    }
}
