//! The outcomes of a whole stream, however it is cut into pieces.

ghost use Rattle.std.specs.Prelude.{◌≡◌, ◌<◌, ◌≤◌, [], false, length, drop, IfOk};
ghost use Rattle.std.specs.List.{flat_map};
ghost use Rattle.bgp_frame.specs.Prelude.{Waits};
ghost use Rattle.bgp_msg.specs.Prelude.{IsTaken, Decodes, end_behind};
ghost use Rattle.bgp_msg.specs.Seen.{IsSeen};

use crate::decoder::Decoder;
use crate::outcome::Outcome;
use crate::seen::Seen;
use bgp_frame::End;
use bgp_open::Context;
use bgp_wire::List;
use std::alloc::{AllocError, Global};

/// How a stream ends after a reset whose message has this length: 0 for a header's fault.
fn end_behind(len: u16) -> End
    ensures { result ≡ end_behind len }
{
    if len == 0 { End::Head } else { End::Reset }
}

/// Consumes octets up to the end of a message. Answers the number consumed, and the message's outcome, where it is
/// whole.
fn pull_next(
    alloc: Global,
    decoder: &mut Decoder,
    octets: &[u8],
) -> Result<(usize, Option<(u16, Outcome)>), AllocError>
    requires going { decoder.old.stopped ≡ false }
    requires waits { Waits decoder.old.held }
    requires some { 0 < length octets.now }
    ensures { IfOk result (λ r. IsTaken decoder.old octets.now r.0 r.1 decoder.new) }
{
    match decoder.pull(alloc, octets)? {
        (taken, None) => Ok((taken, decoder.next(alloc)?)),
        (taken, found) => Ok((taken, found)),
    }
}

/// Consumes octets up to the end of a message, and adds its outcome. Answers the number consumed, and how the stream
/// ended, where it did.
fn step(
    alloc: Global,
    decoder: &mut Decoder,
    octets: &[u8],
    outs: &mut Vec<(u16, Outcome)>,
) -> Result<(usize, Option<End>), AllocError>
    requires going { decoder.old.stopped ≡ false }
    requires waits { Waits decoder.old.held }
    requires some { 0 < length octets.now }
    ensures within { IfOk result (λ r. r.0 ≤ length octets.now) }
    ensures progress { IfOk result (λ r. 0 < r.0) }
    ensures decodes { IfOk result (λ r. Decodes decoder.old octets.now outs.old.items outs.new.items (drop r.0 octets.now) r.1 decoder.new) }
{
    let (taken, found) = pull_next(alloc, decoder, octets)?;
    match found {
        None => Ok((taken, None)),
        Some((len, outcome)) => {
            let resets = outcome.is_reset();
            outs.push((len, outcome))?;
            if resets {
                Ok((taken, Some(end_behind(len))))
            } else {
                Ok((taken, None))
            }
        }
    }
}

/// Adds the outcomes of the messages in a piece of a stream. Answers how the stream ended, where it did.
fn decode_piece(
    alloc: Global,
    decoder: &mut Decoder,
    piece: &[u8],
    outs: &mut Vec<(u16, Outcome)>,
) -> Result<Option<End>, AllocError>
    requires going { decoder.old.stopped ≡ false }
    requires waits { Waits decoder.old.held }
    ensures { IfOk result (λ ended. Decodes decoder.old piece.now outs.old.items outs.new.items [] ended decoder.new) }
{
    let mut rest = piece;
    'piece: while !rest.is_empty() {
        match step(alloc, decoder, rest, outs)? {
            (_, Some(end)) => return Ok(Some(end)),
            (taken, None) => {
                let (_, later) = rest.split_at(taken);
                rest = later;
            }
        }
    }
    Ok(None)
}

/// The outcomes of a stream in a context: each message's in order, with its length, up to the first reset; and how the
/// stream ends. Where it was cut into pieces has no effect.
///
/// # Errors
/// `AllocError` where an allocation failed.
pub fn decode_all(alloc: Global, ctx: &Context, pieces: &[&[u8]]) -> Result<Seen, AllocError>
    ensures { IfOk result (λ seen. IsSeen ctx.now (flat_map (λ piece. piece.now) pieces.now) seen) }
{
    let mut decoder = Decoder::new(*ctx);
    let mut outs = Vec::new(alloc);
    'pieces: for piece in pieces {
        if let Some(end) = decode_piece(alloc, &mut decoder, piece, &mut outs)? {
            return Ok(Seen {
                outs: List::from_vec(outs),
                end,
            });
        }
    }
    let end = End::Wait(decoder.held() as u16);
    Ok(Seen {
        outs: List::from_vec(outs),
        end,
    })
}
