//! Two speakers, and the connection between them.

ghost use Rattle.std.specs.Prelude.{◌≡◌, take, IfOk, OnOk};
ghost use Rattle.bgp_machine.specs.Prelude.{listens, refusal_of};
ghost use Rattle.bgp_session.specs.Laws.{HasRangesUnless};
ghost use Rattle.bgp_session.specs.steps.Playing.{Rests, IsTried};
ghost use Rattle.bgp_session.specs.Sight.{observed};
ghost use Rattle.bgp_session.specs.World.{tells_seen, feeds_seen, fails_up_seen, lost_seen, refused_seen, joins_seen, sends_seen};
ghost use Rattle.bgp_session.specs.World.{begins, tells, feeds, stands, state_of, seeks, fails_up, lost, refused_at, round_of, forgotten, round_over, new_round, can_join, joins, sends, drawn, end_of};
ghost use Rattle.bgp_session.specs.Report.{report_of};

use crate::acting::{Note, feed, send, tell};
use crate::observer::Observer;
use crate::report::{Report, Round};
use crate::side::Side;
use crate::speaker::Speaker;
use bgp_machine::{Event, SendFault, State};
use bgp_open::Config;
use bgp_update::Update;
use bgp_wire::List;
use std::alloc::{AllocError, Global};
use std::marker::Model;
use std::mem;

/// Both speakers, the NOTIFICATIONs of this round, the finished rounds, and the UPDATEs that weren't sent.
#[derive(Drop)]
pub(crate) struct Pairing {
    a: Speaker,
    b: Speaker,
    notes: List<Note>,
    over: List<Round>,
    begun: bool,
    refused: List<(Side, SendFault)>,
}

impl Model for Pairing {
    ghost use Rattle.bgp_session.specs.World.{World};

    ghost Value = { World };

    ghost view = { λ w. record { a = w.a; b = w.b; notes = w.notes; over = w.over; begun = w.begun; refused = w.refused } };
}

/// A session in this state seeks a connection.
fn seeks(state: State) -> bool
    ensures { result ≡ seeks state }
{
    match state {
        State::Connect | State::Active => true,
        State::Idle | State::OpenSent | State::OpenConfirm | State::Established => false,
    }
}

/// A connection is up for a session in this state.
fn listens(state: State) -> bool
    ensures { result ≡ listens state }
{
    match state {
        State::OpenSent | State::OpenConfirm | State::Established => true,
        State::Idle | State::Connect | State::Active => false,
    }
}

impl Pairing {
    /// Two sessions in Idle.
    pub(crate) fn new(alloc: Global, a: Config, b: Config) -> Pairing
        ensures { result ≡ begins a b }
    {
        Pairing {
            a: Speaker::new(alloc, a),
            b: Speaker::new(alloc, b),
            notes: List::new(alloc),
            over: List::new(alloc),
            begun: false,
            refused: List::new(alloc),
        }
    }

    /// The connection is up until both have left it.
    pub(crate) fn stands(&self) -> bool
        ensures { result ≡ stands self.now }
    {
        !self.a.left || !self.b.left
    }

    /// Whether this side has left the connection.
    pub(crate) fn has_left(&self, side: Side) -> bool
        ensures { result ≡ (end_of side self.now).left }
    {
        match side {
            Side::A => self.a.left,
            Side::B => self.b.left,
        }
    }

    fn state(&self, side: Side) -> State
        ensures { result ≡ state_of side self.now }
    {
        match side {
            Side::A => self.a.session.state(),
            Side::B => self.b.session.state(),
        }
    }

    /// Both seek a connection, and there is none.
    pub(crate) fn can_join(&self) -> bool
        ensures { result ≡ can_join self.now }
    {
        seeks(self.state(Side::A)) && seeks(self.state(Side::B)) && !self.stands()
    }

    /// Delivers an event to a side.
    pub(crate) fn tell<O: Observer>(
        &mut self,
        alloc: Global,
        side: Side,
        event: Event,
        observer: &mut O,
    ) -> Result<(), AllocError>
        ensures told { OnOk result (self.new ≡ tells side event self.old) }
        ensures seen { OnOk result (O.seen observer.new ≡ observed O.after (O.seen observer.old) (tells_seen side event self.old)) }
        ensures rests { Rests self.old → OnOk result (Rests self.new) }
    {
        match side {
            Side::A => tell(
                alloc,
                side,
                &mut self.a,
                &mut self.b,
                &mut self.notes,
                event,
                observer,
            ),
            Side::B => tell(
                alloc,
                side,
                &mut self.b,
                &mut self.a,
                &mut self.notes,
                event,
                observer,
            ),
        }
    }

    /// Octets arrive at a side.
    pub(crate) fn feed<O: Observer>(
        &mut self,
        alloc: Global,
        side: Side,
        piece: &[u8],
        observer: &mut O,
    ) -> Result<(), AllocError>
        requires rests { Rests self.old }
        ensures fed { OnOk result (self.new ≡ feeds side piece.now self.old) }
        ensures seen { OnOk result (O.seen observer.new ≡ observed O.after (O.seen observer.old) (feeds_seen side piece.now self.old)) }
        ensures rests { OnOk result (Rests self.new) }
    {
        match side {
            Side::A => feed(
                alloc,
                side,
                &mut self.a,
                &mut self.b,
                &mut self.notes,
                piece,
                observer,
            ),
            Side::B => feed(
                alloc,
                side,
                &mut self.b,
                &mut self.a,
                &mut self.notes,
                piece,
                observer,
            ),
        }
    }

    /// Delivers the failure of the connection to a side for which it is up.
    fn fail_up<O: Observer>(
        &mut self,
        alloc: Global,
        side: Side,
        observer: &mut O,
    ) -> Result<(), AllocError>
        ensures told { OnOk result (self.new ≡ fails_up side self.old) }
        ensures seen { OnOk result (O.seen observer.new ≡ observed O.after (O.seen observer.old) (fails_up_seen side self.old)) }
        ensures rests { Rests self.old → OnOk result (Rests self.new) }
    {
        if listens(self.state(side)) {
            return self.tell(alloc, side, Event::Failed, observer);
        }
        Ok(())
    }

    /// Loses the connection, where there is one.
    pub(crate) fn lose<O: Observer>(
        &mut self,
        alloc: Global,
        observer: &mut O,
    ) -> Result<(), AllocError>
        ensures lost { OnOk result (self.new ≡ lost self.old) }
        ensures seen { OnOk result (O.seen observer.new ≡ observed O.after (O.seen observer.old) (lost_seen self.old)) }
        ensures rests { Rests self.old → OnOk result (Rests self.new) }
    {
        if !self.stands() {
            return Ok(());
        }
        self.a.flight.clear();
        self.b.flight.clear();
        self.fail_up(alloc, Side::A, observer)?;
        self.fail_up(alloc, Side::B, observer)
    }

    /// Delivers the failure of its attempt to a side that seeks a connection.
    pub(crate) fn refuse<O: Observer>(
        &mut self,
        alloc: Global,
        side: Side,
        observer: &mut O,
    ) -> Result<(), AllocError>
        ensures told { OnOk result (self.new ≡ refused_at side self.old) }
        ensures seen { OnOk result (O.seen observer.new ≡ observed O.after (O.seen observer.old) (refused_seen side self.old)) }
        ensures rests { Rests self.old → OnOk result (Rests self.new) }
    {
        if seeks(self.state(side)) {
            return self.tell(alloc, side, Event::Failed, observer);
        }
        Ok(())
    }

    /// What was sent and received since the last call, as a round.
    fn take_round(&mut self, alloc: Global) -> Round
        ensures value { result ≡ round_of self.old }
        ensures left { self.new ≡ forgotten self.old }
    {
        Round {
            sent_a: mem::replace(&mut self.a.sent, List::new(alloc)),
            sent_b: mem::replace(&mut self.b.sent, List::new(alloc)),
            got_a: mem::replace(&mut self.a.got, List::new(alloc)),
            got_b: mem::replace(&mut self.b.got, List::new(alloc)),
            gone_a: mem::replace(&mut self.a.gone, List::new(alloc)),
            gone_b: mem::replace(&mut self.b.gone, List::new(alloc)),
            notes: mem::replace(&mut self.notes, List::new(alloc)),
        }
    }

    /// Ends the current round.
    fn end_round(&mut self, alloc: Global) -> Result<(), AllocError>
        ensures { OnOk result (self.new ≡ round_over self.old) }
    {
        let round = self.take_round(alloc);
        if self.begun {
            self.over.push(round)?;
        }
        Ok(())
    }

    /// A connection begins, and a round with it.
    fn begin_round(&mut self, alloc: Global) -> Result<(), AllocError>
        ensures begun { OnOk result (self.new ≡ new_round self.old) }
        ensures rests { Rests self.old → OnOk result (Rests self.new) }
    {
        self.end_round(alloc)?;
        self.begun = true;
        self.a.left = false;
        self.a.flight.clear();
        self.b.left = false;
        self.b.flight.clear();
        Ok(())
    }

    /// Draws `count` octets out of the flight towards a side.
    pub(crate) fn draw(&mut self, side: Side, count: usize) -> Result<Vec<u8>, AllocError>
        ensures octets { IfOk result (λ octets. octets.items ≡ take count (end_of side self.old).flight) }
        ensures drawn { OnOk result (self.new ≡ drawn side count self.old) }
        ensures rests { Rests self.old → OnOk result (Rests self.new) }
    {
        match side {
            Side::A => self.a.draw(count),
            Side::B => self.b.draw(count),
        }
    }

    /// Lets a side send an UPDATE. Answers the reason where it isn't sent.
    fn try_send<O: Observer>(
        &mut self,
        alloc: Global,
        side: Side,
        update: &Update,
        observer: &mut O,
    ) -> Result<Option<SendFault>, AllocError>
        ensures sent { IfOk result (λ found. IsTried side update.now self.old found self.new) }
        ensures seen { OnOk result (O.seen observer.new ≡ observed O.after (O.seen observer.old) (sends_seen side update.now self.old)) }
        ensures ranges { IfOk result (λ found. HasRangesUnless found update.now) }
        ensures rests { Rests self.old → OnOk result (Rests self.new) }
    {
        match side {
            Side::A => send(alloc, side, &mut self.a, &mut self.b, update, observer),
            Side::B => send(alloc, side, &mut self.b, &mut self.a, update, observer),
        }
    }

    /// Lets a side send an UPDATE, where its session lets it.
    pub(crate) fn send<O: Observer>(
        &mut self,
        alloc: Global,
        side: Side,
        update: &Update,
        observer: &mut O,
    ) -> Result<(), AllocError>
        ensures sent { OnOk result (self.new ≡ sends side update.now self.old) }
        ensures seen { OnOk result (O.seen observer.new ≡ observed O.after (O.seen observer.old) (sends_seen side update.now self.old)) }
        ensures ranges { OnOk result (HasRangesUnless (refusal_of (end_of side self.old).session update.now) update.now) }
        ensures rests { Rests self.old → OnOk result (Rests self.new) }
    {
        match self.try_send(alloc, side, update, observer)? {
            None => Ok(()),
            Some(fault) => self.refused.push((side, fault)),
        }
    }

    /// Delivers to both sides that they are connected, or that it failed: where they are, a round begins.
    pub(crate) fn connect<O: Observer>(
        &mut self,
        alloc: Global,
        joined: bool,
        observer: &mut O,
    ) -> Result<(), AllocError>
        ensures joined { OnOk result (self.new ≡ joins joined self.old) }
        ensures seen { OnOk result (O.seen observer.new ≡ observed O.after (O.seen observer.old) (joins_seen joined self.old)) }
        ensures rests { Rests self.old → OnOk result (Rests self.new) }
    {
        if joined {
            self.begin_round(alloc)?;
            self.tell(alloc, Side::A, Event::Connected, observer)?;
            return self.tell(alloc, Side::B, Event::Connected, observer);
        }
        self.tell(alloc, Side::A, Event::Failed, observer)?;
        self.tell(alloc, Side::B, Event::Failed, observer)
    }

    /// The outcome of the moves, with these answers of the wire.
    pub(crate) fn report(mut self, alloc: Global, answers: List<bool>) -> Result<Report, AllocError>
        ensures { IfOk result (λ report. report ≡ report_of self answers) }
    {
        let states = (self.state(Side::A), self.state(Side::B));
        self.end_round(alloc)?;
        let Pairing { over, refused, .. } = self;
        Ok(Report {
            rounds: over,
            refused,
            states,
            answers,
        })
    }
}
