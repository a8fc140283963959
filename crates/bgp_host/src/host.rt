//! The owner of a session.

ghost use Rattle.std.specs.Prelude.{◌≡◌, [], ◌∷◌, IfOk, IfErr, OnOk, OnErr};
ghost use Rattle.bgp_machine.specs.Prelude.{IsRefused, fresh, own_octets};
ghost use Rattle.bgp_host.specs.declared.link.Link.TheVariants.{Same};
ghost use Rattle.bgp_host.specs.Prelude.{Told, hosted, RunsFrom, Runs, HearsAll, HearsSome, SendsOne, Acts, OneTurn, IsNotUp, PullsOnce, taken_by};

use crate::acting::{carry_out, put};
use crate::clock::Clock;
use crate::connection::Connection;
use crate::link::Link;
use crate::observer::Observer;
use arrayvec::ArrayVec;
use bgp_machine::{Actions, Event, SendFault, Session};
use bgp_open::Config;
use bgp_update::Update;
use std::alloc::{AllocError, Global};

/// A session with its connection, its timers and its observer. It carries out what the session wants done, and reports changes of
/// the connection to the session at once.
#[derive(Drop)]
pub struct Host<C: Drop, K: Drop, O: Drop> {
    session: Session,
    /// The connection to the peer.
    pub connection: C,
    /// The timers.
    pub clock: K,
    /// The observer of routes, and of the state.
    pub observer: O,
}

// The number of octets that a pull took, if it made progress.
fn taken_by(taken: usize, found: bool) -> Option<usize>
    ensures { result ≡ taken_by taken found }
{
    if found || taken > 0 {
        Some(taken)
    } else {
        None
    }
}

impl<C: Connection + Drop, K: Clock + Drop, O: Observer + Drop> Host<C, K, O> {
    /// A session in Idle, of a speaker with these settings.
    pub fn new(config: Config, connection: C, clock: K, observer: O) -> Host<C, K, O>
        ensures session { result.session ≡ fresh config }
        ensures connection { result.connection ≡ connection }
        ensures clock { result.clock ≡ clock }
        ensures observer { result.observer ≡ observer }
    {
        Host {
            session: Session::new(config),
            connection,
            clock,
            observer,
        }
    }

    /// The session, with its state and what both agreed on.
    pub fn session(&self) -> &Session
        ensures { result.now ≡ self.now.session }
    {
        &self.session
    }

    // Carries out the actions of a call, and reports the session's state.
    fn act(&mut self, link: Link, actions: &Actions) -> Link
        ensures acts { Acts (own_octets self.old.session.settings) link actions.now.items self.old.session.standing.state
            (record { calls = C.calls self.old.connection; ticks = K.ticks self.old.clock; notices = O.notices self.old.observer })
            (record { calls = C.calls self.new.connection; ticks = K.ticks self.new.clock; notices = O.notices self.new.observer }) result }
        ensures same { self.new.session ≡ self.old.session }
    {
        let link = carry_out(
            self.session.own_frame(),
            link,
            actions,
            &mut self.connection,
            &mut self.clock,
            &mut self.observer,
        );
        self.observer.stand(self.session.state());
        link
    }

    // Passes an event to the session once.
    fn tell_once(&mut self, event: Event) -> Link
        ensures { OneTurn (Told event) (hosted self.old.session (C.calls self.old.connection) (K.ticks self.old.clock) (O.notices self.old.observer))
            (hosted self.new.session (C.calls self.new.connection) (K.ticks self.new.clock) (O.notices self.new.observer)) result }
    {
        let actions = self.session.event(event);
        self.act(Link::Same, &actions)
    }

    // Reports to the session that a connection is up, if one is.
    fn rise(&mut self, link: Link) -> Link
        ensures runs { RunsFrom link (hosted self.old.session (C.calls self.old.connection) (K.ticks self.old.clock) (O.notices self.old.observer))
            [] result (hosted self.new.session (C.calls self.new.connection) (K.ticks self.new.clock) (O.notices self.new.observer)) }
        ensures not_up { IsNotUp result }
    {
        match link {
            Link::Up => self.tell_once(Event::Connected),
            Link::Same | Link::Down => link,
        }
    }

    // Reports to the session that its connection failed, if it did.
    fn fall(&mut self, link: Link)
        requires { IsNotUp link }
        ensures { RunsFrom link (hosted self.old.session (C.calls self.old.connection) (K.ticks self.old.clock) (O.notices self.old.observer))
            [] Same (hosted self.new.session (C.calls self.new.connection) (K.ticks self.new.clock) (O.notices self.new.observer)) }
    {
        match link {
            Link::Down => {
                let _ = self.tell_once(Event::Failed);
            }
            Link::Same | Link::Up => {}
        }
    }

    // Reports changes of the connection to the session.
    fn follow(&mut self, link: Link)
        ensures { RunsFrom link (hosted self.old.session (C.calls self.old.connection) (K.ticks self.old.clock) (O.notices self.old.observer))
            [] Same (hosted self.new.session (C.calls self.new.connection) (K.ticks self.new.clock) (O.notices self.new.observer)) }
    {
        let link = self.rise(link);
        self.fall(link);
    }

    /// Passes an event to the session, and carries out the actions that it returns.
    pub fn tell(&mut self, event: Event)
        ensures { Runs (hosted self.old.session (C.calls self.old.connection) (K.ticks self.old.clock) (O.notices self.old.observer))
            (Told event ∷ []) (hosted self.new.session (C.calls self.new.connection) (K.ticks self.new.clock) (O.notices self.new.observer)) }
    {
        let link = self.tell_once(event);
        self.follow(link);
    }

    // Lets the session pull from the front of a piece, and carries out the actions that it returns. Returns the number of octets consumed, or None where
    // nothing is left to do.
    #[tactic(auto, using(crate::proofs::Turns::runs_same))]
    fn pull(
        &mut self,
        alloc: Global,
        piece: &[u8],
        actions: &mut Actions,
    ) -> Result<Option<usize>, AllocError>
        ensures ok { IfOk result (PullsOnce (hosted self.old.session (C.calls self.old.connection) (K.ticks self.old.clock) (O.notices self.old.observer)) piece.now
            (hosted self.new.session (C.calls self.new.connection) (K.ticks self.new.clock) (O.notices self.new.observer))) }
        ensures err { OnErr result (Runs (hosted self.old.session (C.calls self.old.connection) (K.ticks self.old.clock) (O.notices self.old.observer))
            [] (hosted self.new.session (C.calls self.new.connection) (K.ticks self.new.clock) (O.notices self.new.observer))) }
    {
        let (taken, found) = self.session.pull_into(alloc, piece, actions)?;
        let link = self.act(Link::Same, actions);
        self.follow(link);
        Ok(taken_by(taken, found))
    }

    /// Hands octets of the peer's to the session, and carries out the actions that it returns. What is left of the piece when the session leaves is
    /// dropped.
    ///
    /// # Errors
    /// `AllocError` where an allocation failed: the session has received the first octets, and continues after them.
    pub fn hear(&mut self, alloc: Global, piece: &[u8]) -> Result<(), AllocError>
        ensures ok { OnOk result (HearsAll (hosted self.old.session (C.calls self.old.connection) (K.ticks self.old.clock) (O.notices self.old.observer)) piece.now
            (hosted self.new.session (C.calls self.new.connection) (K.ticks self.new.clock) (O.notices self.new.observer))) }
        ensures err { OnErr result (HearsSome (hosted self.old.session (C.calls self.old.connection) (K.ticks self.old.clock) (O.notices self.old.observer)) piece.now
            (hosted self.new.session (C.calls self.new.connection) (K.ticks self.new.clock) (O.notices self.new.observer))) }
    {
        let mut actions: Actions = ArrayVec::new();
        let mut rest = piece;
        'piece: while let Some(taken) = self.pull(alloc, rest, &mut actions)? {
            let (_, later) = rest.split_at(taken);
            rest = later;
        }
        Ok(())
    }

    /// Sends the peer an UPDATE, and carries out the actions that the session returns.
    ///
    /// # Errors
    /// As `Session::send`: nothing was done then.
    #[tactic(auto, using(crate::proofs::Turns::runs_same))]
    pub fn send(&mut self, alloc: Global, update: &Update) -> Result<(), SendFault>
        ensures ok { OnOk result (SendsOne (hosted self.old.session (C.calls self.old.connection) (K.ticks self.old.clock) (O.notices self.old.observer)) update.now
            (hosted self.new.session (C.calls self.new.connection) (K.ticks self.new.clock) (O.notices self.new.observer))) }
        ensures fault { IfErr result (IsRefused self.old.session update.now) }
        ensures err { OnErr result (Runs (hosted self.old.session (C.calls self.old.connection) (K.ticks self.old.clock) (O.notices self.old.observer))
            [] (hosted self.new.session (C.calls self.new.connection) (K.ticks self.new.clock) (O.notices self.new.observer))) }
    {
        let mut octets = Vec::new(alloc);
        let actions = self.session.send(alloc, update, &mut octets)?;
        let link = put(&mut self.connection, Link::Same, &octets);
        let link = self.act(link, &actions);
        self.follow(link);
        Ok(())
    }
}
