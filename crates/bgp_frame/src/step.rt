//! The first message of a piece of a stream.

ghost use Rattle.std.specs.Prelude.{◌≡◌, ◌≤◌, length, Ok};
ghost use Rattle.bgp_frame.specs.Prelude.{head_of_in, IsHeldIn, ShowsFront, ShowsFrontIn, ShowsStepIn};

use crate::fault::HeadFault;
use crate::grammar::{Grammar, Plain};
use crate::header::{HEADER_LEN, Header, read_head, update_head};
use crate::kind::Kind;

/// A whole message, with its body as received.
#[derive(Clone, Copy, Debug, PartialEq, Eq)]
pub struct Frame<'a, K: Copy = Kind> {
    /// The type of the message.
    pub kind: K,
    /// The octets after the header: at most 4077, or 65516 where long messages are agreed on (RFC 8654).
    pub body: &'a [u8],
    /// The length of the whole message, as its header says: the body's and 19 octets more.
    pub len: u16,
}

/// Less than a message, a message, or a header with a fault.
#[derive(Clone, Copy, Debug, PartialEq, Eq)]
pub enum Step<'a, K: Copy = Kind> {
    /// The message needs more octets.
    More,
    /// A whole message.
    Frame(Frame<'a, K>),
    /// A header that begins no message: nothing after it can be read.
    Fault(HeadFault),
}

/// The message that a piece begins with, where all of it that its header asks for is in the piece.
#[inline(always)]
fn whole<G: Grammar>(grammar: G, kind: G::Kind, len: u16, piece: &[u8]) -> Step<'_, G::Kind>
    requires long { 19 ≤ length piece.now }
    requires head { head_of_in (G.types grammar) piece.now ≡ Ok (record { kind = kind; len = len }) }
    ensures { ShowsFrontIn (G.types grammar) piece.now result }
{
    match piece.get(HEADER_LEN..len as usize) {
        None => Step::More,
        Some(body) => Step::Frame(Frame { kind, body, len }),
    }
}

/// What a piece of a stream begins with, by the types of a grammar (RFC 4271, sections 4.1 and 6.1). Octets after a whole message, or after a header with
/// a fault, have no effect.
#[tactic(auto, using(crate::proofs::Holding::shows_short))]
#[inline(always)]
pub fn front_of<G: Grammar>(grammar: G, piece: &[u8]) -> Step<'_, G::Kind>
    ensures { ShowsFrontIn (G.types grammar) piece.now result }
{
    if piece.len() < HEADER_LEN {
        return Step::More;
    }
    if let Some(Header { kind, len }) = update_head(grammar, piece) {
        return whole(grammar, kind, len, piece);
    }
    match read_head(grammar, piece) {
        Err(fault) => Step::Fault(fault),
        Ok(Header { kind, len }) => whole(grammar, kind, len, piece),
    }
}

/// What a piece of a stream begins with: what a new framer that is fed the piece shows, borrowed from the piece
/// (RFC 4271, sections 4.1 and 6.1). Octets after a whole message, or after a header with a fault, have no effect.
#[inline(always)]
pub fn front(piece: &[u8]) -> Step<'_>
    ensures { ShowsFront piece.now result }
{
    front_of(Plain, piece)
}

/// What the octets that a framer holds show: there are none after the first message.
#[tactic(auto, using(crate::proofs::Holding::front_held))]
#[inline(always)]
pub(crate) fn shown<G: Grammar>(grammar: G, octets: &[u8]) -> Step<'_, G::Kind>
    requires { IsHeldIn (G.types grammar) octets.now }
    ensures { ShowsStepIn (G.types grammar) octets.now result }
{
    front_of(grammar, octets)
}
