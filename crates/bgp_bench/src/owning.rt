//! Owns the UPDATEs of a stream by their views, without building outcomes.

ghost use Rattle.std.specs.Prelude.{◌≡◌, IfOk, IfSome};

use crate::stream::{CONTEXT, PIECE};
use bgp_msg::{Decoder, Look, Next, OutcomeView};
use bgp_update::UpdateView;
use std::alloc::{AllocError, Global};
use std::io;

/// The number of messages and of routes.
#[derive(Clone, Copy)]
struct Owned {
    messages: u64,
    routes: u64,
}

impl Owned {
    fn none() -> Owned {
        Owned {
            messages: 0,
            routes: 0,
        }
    }

    fn add_routes(&mut self, count: usize) {
        self.routes = self.routes.saturating_add(count as u64);
    }

    /// Owns the outcome of a message, and drops it.
    fn own(&mut self, alloc: Global, outcome: &OutcomeView<'_>) -> Result<(), AllocError> {
        self.messages = self.messages.saturating_add(1);
        match outcome {
            OutcomeView::Update(view) => {
                self.own_update(alloc, view)?;
                own_notes(alloc, view)
            }
            OutcomeView::Withdraw(view) => {
                self.own_withdrawn(alloc, view)?;
                own_notes(alloc, view)
            }
            _ => Ok(()),
        }
    }

    fn own_update(&mut self, alloc: Global, view: &UpdateView<'_>) -> Result<(), AllocError> {
        let update = view.own(alloc)?;
        self.add_routes(update.nlri.len());
        Ok(())
    }

    /// Owns the routes that are withdrawn.
    fn own_withdrawn(&mut self, alloc: Global, view: &UpdateView<'_>) -> Result<(), AllocError> {
        let routes = view.routes(alloc)?;
        self.add_routes(routes.ip4.len());
        Ok(())
    }

    /// Owns what is held, or what a piece begins with. Answers the number of octets of the piece consumed, and where
    /// the decoder continues.
    fn own_next(
        &mut self,
        alloc: Global,
        decoder: &Decoder,
        piece: &[u8],
    ) -> Result<Option<(usize, Next)>, AllocError>
        ensures { IfOk result (λ found. IfSome found (λ it. it.1.from ≡ decoder.now)) }
    {
        let mut place = UpdateView::empty();
        match decoder.look(piece, &mut place) {
            Look::Message(taken, _len, outcome, next) => {
                self.own(alloc, &outcome)?;
                Ok(Some((taken, next)))
            }
            Look::Fault(taken, _fault, next) => Ok(Some((taken, next))),
            Look::Feed => Ok(None),
        }
    }

    /// Consumes what is held, or what a piece begins with. Answers the number of octets of the piece consumed, where
    /// there was something.
    fn step(
        &mut self,
        alloc: Global,
        decoder: &mut Decoder,
        piece: &[u8],
    ) -> Result<Option<usize>, AllocError> {
        match self.own_next(alloc, decoder, piece)? {
            Some((taken, next)) => {
                decoder.go(next);
                Ok(Some(taken))
            }
            None => match decoder.feed(piece) {
                0 => Ok(None),
                taken => Ok(Some(taken)),
            },
        }
    }
}

fn own_notes(alloc: Global, view: &UpdateView<'_>) -> Result<(), AllocError> {
    let _notes = view.own_notes(alloc)?;
    Ok(())
}

/// Owns the messages of a piece.
fn own_piece(
    alloc: Global,
    decoder: &mut Decoder,
    piece: &[u8],
    owned: &mut Owned,
) -> Result<(), AllocError> {
    let mut rest = piece;
    for _turn in 0..u64::MAX {
        match owned.step(alloc, decoder, rest)? {
            Some(taken) => rest = rest.get(taken..).unwrap_or(&[]),
            None => break,
        }
    }
    Ok(())
}

/// Owns the stream's messages `rounds` times, and prints the counts of one round.
pub(crate) fn run(rt: &(impl Print + AllocGlobal), octets: &[u8], rounds: u32) -> io::Result<()> {
    let mut owned = Owned::none();
    for _round in 0..rounds {
        owned = Owned::none();
        let mut decoder = Decoder::new(CONTEXT);
        for piece in octets.chunks(PIECE) {
            own_piece(rt.alloc(), &mut decoder, piece, &mut owned)?;
        }
    }
    println!(rt; "messages {} routes {}", owned.messages, owned.routes)
}
