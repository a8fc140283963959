//! The guard between two speakers.

ghost use Rattle.std.specs.Prelude.{◌≡◌, true, IfOk, option_map};
ghost use Rattle.bgp_guard.specs.Guard.{closes, fresh, half, has_ended, listens, runs};
ghost use Rattle.bgp_guard.specs.Came.{IsHeard};
ghost use Rattle.bgp_guard.specs.Events.{closed, for_side, is_waiting, kept_alive, sent, stall_seconds, stalled, stood, stopped, ticked, unreached, waited};
ghost use Rattle.bgp_open.specs.Prelude.{said_of};

use crate::answers::{dismiss, tell_late};
use crate::came::Came;
use crate::events::{close, stall, unreachable};
use crate::handing::agreed_hold;
use crate::hearing::{hear, listens};
use crate::keeping::keep;
use crate::line::Half;
use crate::rules::Rules;
use crate::side::Side;
use crate::stage::{DRAIN_SECONDS, OPEN_SECONDS, Stage};
use bgp_open::Peer;
use bgp_terms::Offers;
use std::alloc::{AllocError, Global};
use std::marker::Model;

/// The guard between an outer peer and an inner speaker, of one session. What a side sends is passed on cleaned, in the
/// context that both OPENs agree on; a message that can't be is answered, and ends the session of both (RFC 7606; RFC
/// 4271).
///
/// Its owner has the connections and the clock. It calls [`stood`](Guard::stood) once a side is up, passes received
/// octets to [`hear`](Guard::hear) while the guard [`listens`](Guard::listens), sends what is queued
/// ([`way`](Guard::way)) and reports that by [`sent`](Guard::sent), calls [`tick`](Guard::tick) each second, and closes
/// a side where the guard [`closes`](Guard::closes) it.
///
/// It holds at most one message of each side and 68 KB queued for each, in memory that `new` allocates: no other call
/// allocates.
#[derive(Drop)]
pub struct Guard {
    rules: Rules,
    stage: Stage,
    outer: Half,
    inner: Half,
}

impl Model for Guard {
    ghost use Rattle.bgp_frame.specs.Prelude.{WaitsIn};
    ghost use Rattle.bgp_guard.specs.Guard.{Guarding, types};
    ghost use Rattle.bgp_guard.specs.Halves.{half_of, HasRoom};

    ghost Value = { Guarding };

    ghost view = { λ g. record { rules = g.rules; stage = g.stage; outer = half_of g.outer; inner = half_of g.inner } };

    ghost invariant = { λ g. HasRoom g.stage g.outer.line.way × (HasRoom g.stage g.inner.line.way × (WaitsIn types g.outer.framer × WaitsIn types g.inner.framer)) };
}

/// What an OPEN says, where one was passed on.
fn said(offers: &Option<Offers>) -> Option<&Peer>
    ensures { option_map (λ p. said_of p.now) result ≡ option_map (λ o. said_of o.peer) offers.now }
{
    match offers {
        Some(offers) => Some(&offers.peer),
        None => None,
    }
}

impl Guard {
    /// A guard of which neither side is up yet.
    ///
    /// # Errors
    /// `AllocError` where an allocation failed.
    pub fn new(alloc: Global, rules: Rules) -> Result<Guard, AllocError>
        ensures { IfOk result (λ g. g ≡ fresh rules) }
    {
        let outer = Half::new(alloc)?;
        let inner = Half::new(alloc)?;
        Ok(Guard {
            rules,
            stage: Stage::Runs(0),
            outer,
            inner,
        })
    }

    /// The connection of a side is up.
    pub fn stood(&mut self, side: Side)
        ensures { self.new ≡ for_side stood side self.old }
    {
        match side {
            Side::Outer => self.outer.line.stands = true,
            Side::Inner => self.inner.line.stands = true,
        }
    }

    /// A side can't be reached. The other is sent 6/5, and the guard ends; no effect on a side that is up.
    pub fn unreachable(&mut self, side: Side)
        ensures { self.new ≡ for_side unreached side self.old }
    {
        match side {
            Side::Outer => unreachable(&mut self.stage, &mut self.outer, &mut self.inner),
            Side::Inner => unreachable(&mut self.stage, &mut self.inner, &mut self.outer),
        }
    }

    /// A side has closed its connection, or lost it. The guard ends, and the other side gets what is queued for it.
    pub fn closed(&mut self, side: Side)
        ensures { self.new ≡ for_side closed side self.old }
    {
        match side {
            Side::Outer => close(&mut self.stage, &mut self.outer),
            Side::Inner => close(&mut self.stage, &mut self.inner),
        }
    }

    /// The octets queued for a side haven't moved for [`stall_seconds`](Guard::stall_seconds). They are dropped, the
    /// other side is sent 4/0, and the guard ends.
    pub fn stalled(&mut self, side: Side)
        ensures { self.new ≡ for_side stalled side self.old }
    {
        match side {
            Side::Outer => stall(&mut self.stage, &mut self.outer, &mut self.inner),
            Side::Inner => stall(&mut self.stage, &mut self.inner, &mut self.outer),
        }
    }

    /// For how many seconds octets queued for a side may stay unsent: the Hold Time that both OPENs agree on, 240 where
    /// that is 0 or an OPEN is missing.
    pub fn stall_seconds(&self) -> u16
        ensures { result ≡ stall_seconds self.now }
    {
        match agreed_hold(&self.outer.line, &self.inner.line) {
            0 => u16::from(OPEN_SECONDS),
            hold => hold,
        }
    }

    /// The owner ends the session. Each side that is up is sent 6/2, after what is queued for it, and the guard ends.
    pub fn stop(&mut self)
        ensures { self.new ≡ stopped self.old }
    {
        match self.stage {
            Stage::Ends(_) => {}
            Stage::Runs(_) => {
                dismiss(&mut self.outer.line);
                dismiss(&mut self.inner.line);
                self.stage = Stage::Ends(DRAIN_SECONDS);
            }
        }
    }

    /// Whether it has ended: nothing is read of either side any more.
    pub fn has_ended(&self) -> bool
        ensures { result ≡ has_ended self.now }
    {
        match self.stage {
            Stage::Runs(_) => false,
            Stage::Ends(_) => true,
        }
    }

    /// Whether octets of a side are read: while messages are passed on, it is up, and there is room in the queue for
    /// the other.
    pub fn listens(&self, side: Side) -> bool
        ensures { result ≡ listens side self.now }
    {
        match side {
            Side::Outer => listens(self.stage, &self.outer, &self.inner),
            Side::Inner => listens(self.stage, &self.inner, &self.outer),
        }
    }

    /// Consumes octets of a side up to the end of a message: each is cleaned and passed on, or answered. Answers the
    /// number of octets consumed, none where the side isn't read, and the result; call it again while octets remain.
    pub fn hear(&mut self, side: Side, piece: &[u8]) -> (usize, Came)
        ensures { IsHeard side self.old piece.now result.0 result.1 self.new }
    {
        let silent = self.rules.one_way;
        match side {
            Side::Outer => hear(
                &self.rules,
                false,
                &mut self.stage,
                &mut self.outer,
                &mut self.inner,
                piece,
            ),
            Side::Inner => hear(
                &self.rules.of_inner(),
                silent,
                &mut self.stage,
                &mut self.inner,
                &mut self.outer,
                piece,
            ),
        }
    }

    /// The octets queued for a side.
    pub fn way(&self, side: Side) -> &[u8]
        ensures { result.now ≡ (half side self.now).way }
    {
        match side {
            Side::Outer => self.outer.line.way.as_slice(),
            Side::Inner => self.inner.line.way.as_slice(),
        }
    }

    /// `count` of the octets queued for a side are sent: all of them where there are fewer.
    pub fn sent(&mut self, side: Side, count: usize)
        ensures { self.new ≡ for_side (sent count) side self.old }
    {
        match side {
            Side::Outer => self.outer.line.way.take_off(count),
            Side::Inner => self.inner.line.way.take_off(count),
        }
    }

    /// Whether a side is to be closed, or no longer sought: the guard has ended, and nothing is queued for the side, or
    /// its 10 seconds are over.
    pub fn closes(&self, side: Side) -> bool
        ensures { result ≡ closes side self.now }
    {
        match self.stage {
            Stage::Runs(_) => false,
            Stage::Ends(0) => true,
            Stage::Ends(_) => self.way(side).is_empty(),
        }
    }

    /// What the OPEN of a side says, once it was passed on.
    pub fn peer(&self, side: Side) -> Option<&Peer>
        ensures { option_map (λ p. said_of p.now) result ≡ option_map (λ spoken. spoken.said) (half side self.now).peer }
    {
        match side {
            Side::Outer => said(&self.outer.line.offers),
            Side::Inner => said(&self.inner.line.offers),
        }
    }

    /// A second has passed.
    pub fn tick(&mut self)
        ensures { self.new ≡ ticked self.old }
    {
        match self.stage {
            Stage::Ends(left) => self.stage = Stage::Ends(left.saturating_sub(1)),
            Stage::Runs(gone) if self.waits() => self.wait(gone),
            Stage::Runs(_) => self.keep_alive(),
        }
    }

    // Whether an OPEN is missing while a side is up.
    fn waits(&self) -> bool
        ensures { result ≡ is_waiting self.now }
    {
        let any = self.outer.line.stands || self.inner.line.stands;
        any && !(self.outer.line.offers.is_some() && self.inner.line.offers.is_some())
    }

    // Queues KEEPALIVEs for the sides of an established session where they are due.
    fn keep_alive(&mut self)
        requires { runs self.old.stage ≡ true }
        ensures { self.new ≡ kept_alive self.old }
    {
        let hold = agreed_hold(&self.outer.line, &self.inner.line);
        if hold != 0 && self.outer.line.ready && self.inner.line.ready {
            keep(hold, &mut self.outer.line);
            keep(hold, &mut self.inner.line);
        }
    }

    // One more second has passed in which an OPEN was missing.
    fn wait(&mut self, gone: u8)
        requires { self.old.stage ≡ Stage.Runs gone }
        ensures { self.new ≡ waited gone true self.old }
    {
        if gone < OPEN_SECONDS - 1 {
            self.stage = Stage::Runs(gone + 1);
        } else {
            tell_late(&mut self.outer.line);
            tell_late(&mut self.inner.line);
            self.stage = Stage::Ends(DRAIN_SECONDS);
        }
    }
}
