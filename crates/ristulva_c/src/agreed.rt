//! What both speakers of a session agreed on, and the parameters of the peer's OPEN.

ghost use Rattle.std.specs.Prelude.{◌≡◌, Some};
ghost use Rattle.bgp_wire.specs.Prelude.{has_octet};
ghost use Rattle.bgp_open.specs.Prelude.{rising, said_of};
ghost use Rattle.ristulva_c.specs.Prelude.{context_said, peer_said, IsContextTold, IsOpenTold, IsCodesTold};
ghost use Rattle.ristulva_c.specs.Agreed.{IsPeerTold};

use crate::context::SessionContext;
use crate::handle::SessionHandle;
use crate::status::{NO_SESSION, OK, STATE};
use crate::written::write;
use arrayvec::ArrayVec;
use bgp_machine::Session;
use bgp_open::{Context, Peer};
use bgp_wire::OctetSet;
use std::alloc::Global;

/// The parameters of a peer's accepted OPEN (RFC 4271, section 4.2; RFC 5492).
#[repr(C)]
#[derive(Clone, Copy)]
pub struct ToldPeer {
    /// Its AS number: that of its capability for 4-octet AS numbers, else My Autonomous System.
    pub as_number: u32,
    /// Its BGP Identifier.
    pub id: [u8; 4],
    /// The Hold Time that it proposes, in seconds: 0 for none.
    pub hold: u16,
    /// Whether it offers 4-octet AS numbers (RFC 6793): 0 or 1.
    pub as4: u8,
    /// Whether it offers IPv4 unicast (RFC 4760): 0 or 1.
    pub ip4: u8,
    /// Whether it offers IPv6 unicast (RFC 4760): 0 or 1.
    pub ip6: u8,
}

/// A context in C's form.
pub(crate) fn context_said(context: &Context) -> SessionContext
    ensures { result ≡ context_said context.now }
{
    SessionContext {
        internal: u8::from(context.internal),
        as4: u8::from(context.as4),
        ip4: u8::from(context.ip4),
        ip6: u8::from(context.ip6),
    }
}

/// A peer in C's form.
pub(crate) fn peer_said(peer: &Peer) -> ToldPeer
    ensures { result ≡ peer_said (said_of peer.now) }
{
    ToldPeer {
        as_number: peer.as_number(),
        id: peer.id,
        hold: peer.hold,
        as4: u8::from(peer.as4.is_some()),
        ip4: u8::from(peer.ip4),
        ip6: u8::from(peer.ip6),
    }
}

/// Writes the context, where there is one.
fn tell_context(session: &Session, context: &mut SessionContext, hold: &mut u16) -> u32
    ensures { IsContextTold (Some session.now) result context.old context.new hold.old hold.new }
{
    let Some(agreed) = session.context() else {
        return STATE;
    };
    *context = context_said(agreed);
    *hold = agreed.hold;
    OK
}

/// Writes the parameters of the peer's OPEN, where one is accepted.
fn tell_peer(session: &Session, peer: &mut ToldPeer) -> u32
    ensures { IsPeerTold (Some session.now) result peer.old peer.new }
{
    let Some(said) = session.peer() else {
        return STATE;
    };
    *peer = peer_said(said);
    OK
}

/// The octets of a set, in ascending order.
#[tactic(auto, using(crate::proofs::RisingSteps::one_more, crate::proofs::RisingSteps::none_more, crate::proofs::RisingSteps::few))]
fn rising(set: &OctetSet) -> ArrayVec<u8, 256>
    ensures { result.items ≡ rising (has_octet set.now) }
{
    let mut octets = ArrayVec::new();
    'octets: for octet in 0..256u16 {
        if set.contains(octet as u8) {
            octets.push(octet as u8);
        }
    }
    octets
}

/// Writes the codes of the peer's capabilities, where one is accepted.
fn tell_codes(session: &Session, buffer: &mut [u8], len: &mut usize) -> u32
    ensures { IsCodesTold (Some session.now) (record { status = result; before = buffer.old; behind = buffer.new; len_before = len.old; len_behind = len.new }) }
{
    let Some(said) = session.peer() else {
        return STATE;
    };
    write(&rising(&said.codes), buffer, len)
}

/// Reports what both speakers of a session agreed on.
#[unsafe(no_mangle)]
pub extern "C" fn ristulva_session_context(
    alloc: Global,
    session: &mut SessionHandle,
    context: &mut SessionContext,
    hold: &mut u16,
) -> u32
    ensures kept { session.new.value ≡ session.old.value }
    ensures told { IsContextTold session.old.value result context.old context.new hold.old hold.new }
{
    let Some(body) = session.take(alloc) else {
        return NO_SESSION;
    };
    let status = tell_context(&body, context, hold);
    session.put(body);
    status
}

/// Reports the parameters of the OPEN of a session's peer.
#[unsafe(no_mangle)]
pub extern "C" fn ristulva_session_peer(
    alloc: Global,
    session: &mut SessionHandle,
    peer: &mut ToldPeer,
) -> u32
    ensures kept { session.new.value ≡ session.old.value }
    ensures told { IsPeerTold session.old.value result peer.old peer.new }
{
    let Some(body) = session.take(alloc) else {
        return NO_SESSION;
    };
    let status = tell_peer(&body, peer);
    session.put(body);
    status
}

/// Reports the codes of all capabilities of the peer of a session, in ascending order.
#[unsafe(no_mangle)]
pub extern "C" fn ristulva_session_codes(
    alloc: Global,
    session: &mut SessionHandle,
    buffer: &mut [u8],
    len: &mut usize,
) -> u32
    ensures kept { session.new.value ≡ session.old.value }
    ensures told { IsCodesTold session.old.value (record { status = result; before = buffer.old; behind = buffer.new; len_before = len.old; len_behind = len.new }) }
{
    let Some(body) = session.take(alloc) else {
        return NO_SESSION;
    };
    let status = tell_codes(&body, buffer, len);
    session.put(body);
    status
}

/// Writes the message of a session's own OPEN.
#[unsafe(no_mangle)]
pub extern "C" fn ristulva_session_open(
    alloc: Global,
    session: &mut SessionHandle,
    buffer: &mut [u8],
    len: &mut usize,
) -> u32
    ensures kept { session.new.value ≡ session.old.value }
    ensures told { IsOpenTold session.old.value (record { status = result; before = buffer.old; behind = buffer.new; len_before = len.old; len_behind = len.new }) }
{
    let Some(body) = session.take(alloc) else {
        return NO_SESSION;
    };
    let status = write(body.own_frame(), buffer, len);
    session.put(body);
    status
}
