//! A stream that a decoder reads in pieces.

use bgp_msg::{Decoder, Outcome};
use bgp_open::Context;
use std::alloc::{AllocError, Global};

/// The length of a piece.
pub(crate) const PIECE: usize = 65536;

/// What the speakers of the stream agreed on.
pub(crate) const CONTEXT: Context = Context {
    internal: false,
    as4: true,
    ip4: true,
    ip6: true,
    hold: 90,
};

/// A visitor of the outcomes of a stream's messages.
pub(crate) trait See {
    /// Visits the outcome of a message of length `len`.
    fn see(&mut self, alloc: Global, len: u16, outcome: &Outcome) -> Result<(), AllocError>;
}

/// Visits the outcome of what is held, or of what a piece begins with. Answers the number of octets of the piece
/// consumed, where there was something.
fn decode_next<S: See>(
    alloc: Global,
    decoder: &mut Decoder,
    piece: &[u8],
    seer: &mut S,
) -> Result<Option<usize>, AllocError> {
    let (taken, found) = decoder.pull(alloc, piece)?;
    let Some((len, outcome)) = found else {
        return Ok(if taken == 0 { None } else { Some(taken) });
    };
    seer.see(alloc, len, &outcome)?;
    Ok(Some(taken))
}

/// Visits the outcomes of a piece.
fn decode_piece<S: See>(
    alloc: Global,
    decoder: &mut Decoder,
    piece: &[u8],
    seer: &mut S,
) -> Result<(), AllocError> {
    let mut rest = piece;
    for _turn in 0..u64::MAX {
        match decode_next(alloc, decoder, rest, seer)? {
            Some(taken) => rest = rest.get(taken..).unwrap_or(&[]),
            None => break,
        }
    }
    Ok(())
}

/// Visits the outcomes of a stream.
pub(crate) fn decode<S: See>(alloc: Global, octets: &[u8], seer: &mut S) -> Result<(), AllocError> {
    let mut decoder = Decoder::new(CONTEXT);
    for piece in octets.chunks(PIECE) {
        decode_piece(alloc, &mut decoder, piece, seer)?;
    }
    Ok(())
}
