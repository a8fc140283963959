//! The longest message (RFC 4271, 4.1): one that is too long by two octets, which no octets are read as, and one that is pulled in pieces.

use super::*;
use bgp_frame::head;
use bgp_msg::{Decoder, Kind, Message, Outcome, encode};
use bgp_prefix::Prefix4;
use bgp_update::WriteFault;

/// The plain UPDATE with its route repeated.
pub(crate) fn repeated(alloc: Global, count: usize) -> Result<Update, Fail> {
    let ten = Prefix4::new(8, [10, 0, 0, 0]).ok_or("a prefix")?;
    let mut update = plain(alloc)?;
    update.nlri = List::from_vec(vec![in alloc; ten; count]?);
    Ok(update)
}

#[test]
fn an_update_of_2026_routes_is_written(rt: HostRuntime) -> Result<(), Fail> {
    let message = Message::Update(repeated(rt.alloc(), 2026)?);
    let mut out = vec![in rt.alloc(); 7u8]?;
    assert!(rt; encode(&session(true), &message, &mut out).is_ok());
    assert!(rt; out.len() == 1 + 4095);
    Ok(())
}

#[test]
fn an_update_of_2027_routes_is_too_long(rt: HostRuntime) -> Result<(), Fail> {
    let message = Message::Update(repeated(rt.alloc(), 2027)?);
    let mut out = vec![in rt.alloc(); 7u8]?;
    assert!(rt; encode(&session(true), &message, &mut out) == Err(WriteFault::TooLong));
    assert!(rt; out.as_slice() == [7].as_slice());
    Ok(())
}

/// The result of a pull: the number of octets of the piece consumed, and the length of the message that is accepted, or none.
fn pulled(
    decoder: &mut Decoder,
    alloc: Global,
    piece: Option<&[u8]>,
) -> Result<(usize, Option<u16>), Fail> {
    match decoder.pull(alloc, piece.ok_or("a piece")?)? {
        (taken, Some((len, Outcome::Took(..)))) => Ok((taken, Some(len))),
        (_, Some(_)) => Err("a message that is accepted".into()),
        (taken, None) => Ok((taken, None)),
    }
}

/// An UPDATE of 4096 octets, whose ORIGIN has its length in two octets, and a KEEPALIVE.
fn longest(alloc: Global) -> Result<Vec<u8>, AllocError> {
    let mut octets = Vec::from_slice(alloc, &head(Kind::Update, 4077))?;
    octets.extend_from_slice(&[
        0, 0, 0, 0x15, 0x50, 1, 0, 1, 0, 0x40, 2, 6, 2, 1, 0, 0, 0xfd, 0xe8, 0x40, 3, 4, 192, 0, 2,
        1,
    ])?;
    for _ in 0..2026u16 {
        octets.extend_from_slice(&[8, 10])?;
    }
    octets.extend_from_slice(&head(Kind::Keepalive, 0))?;
    Ok(octets)
}

#[test]
fn the_longest_message_is_pulled_in_pieces(rt: HostRuntime) -> Result<(), Fail> {
    let octets = longest(rt.alloc())?;
    let mut decoder = Decoder::new(session(true));
    assert!(rt; octets.len() == 4096 + 19);
    assert!(rt; pulled(&mut decoder, rt.alloc(), octets.get(..4095))? == (4095, None));
    assert!(rt; pulled(&mut decoder, rt.alloc(), octets.get(4095..))? == (1, None));
    assert!(rt; pulled(&mut decoder, rt.alloc(), octets.get(4096..))? == (0, Some(4096)));
    assert!(rt; pulled(&mut decoder, rt.alloc(), octets.get(4096..))? == (19, Some(19)));
    Ok(())
}
