//! The session of one connection.

ghost use Rattle.std.specs.Prelude.{◌≡◌, ◌≤◌, ◌<◌, [], false, length, option_map};
ghost use Rattle.bgp_frame.specs.Prelude.{Waits};
ghost use Rattle.bgp_open.specs.Prelude.{said_of};
ghost use Rattle.bgp_machine.specs.Cutting.{IsAtRest};
ghost use Rattle.bgp_machine.specs.Look.{gone, IsLook};
ghost use Rattle.bgp_machine.specs.Standing.{listens, runs};
ghost use Rattle.bgp_machine.specs.Table.{happens};
ghost use Rattle.bgp_machine.specs.Session.{fresh, own_octets, after_event, IsFed};

use crate::action::Actions;
use crate::action_views::ActionViews;
use crate::event::Event;
use crate::look::{Look, Next};
use crate::standing::Standing;
use crate::state::State;
use crate::timer::Timer;
use arrayvec::ArrayVec;
use bgp_frame::{Framer, Pull};
use bgp_open::{Config, Context, Peer, own_frame};
use bgp_update::UpdateView;
use std::marker::Model;

/// One speaker's end of one connection (RFC 4271, section 8). It does no IO and knows no time: its owner passes it the
/// events and the octets received, and does what it answers. It holds at most one message, of at most 4096 octets.
#[derive(Drop)]
pub struct Session {
    pub(crate) config: Config,
    pub(crate) standing: Standing,
    pub(crate) framer: Framer,
    own: ArrayVec<u8, 49>,
}

impl Model for Session {
    ghost use Rattle.std.specs.Prelude.{◌≡◌, false, []};
    ghost use Rattle.bgp_machine.specs.Standing.{listens};
    ghost use Rattle.bgp_machine.specs.Session.{Machine, own_octets};

    ghost Value = { Machine };

    ghost view = { λ s. record { settings = s.config; standing = s.standing; held = s.framer } };

    ghost invariant = { λ s. (listens s.standing.state ≡ false → s.framer ≡ []) × (s.own.items ≡ own_octets s.config) };
}

impl Session {
    /// A session in Idle, for a speaker with these settings.
    #[tactic(auto, unfolding(crate::specs::Session::own_octets))]
    pub fn new(config: Config) -> Session
        ensures { result ≡ fresh config }
    {
        Session {
            config,
            standing: Standing::new(),
            framer: Framer::new(),
            own: own_frame(&config),
        }
    }

    /// The state of the session.
    pub fn state(&self) -> State
        ensures { result ≡ self.now.standing.state }
    {
        self.standing.phase.state()
    }

    /// The whole state: that of the FSM, and the timers.
    #[inline(always)]
    pub(crate) fn standing(&self) -> &Standing
        ensures { result.now ≡ self.now.standing }
    {
        &self.standing
    }

    /// What both agreed on: only in OpenConfirm and in Established.
    pub fn context(&self) -> Option<&Context>
        ensures { option_map (λ ctx. ctx.now) result ≡ self.now.standing.context }
    {
        self.standing.phase.context()
    }

    /// The parameters of the peer's accepted OPEN: only in OpenConfirm and in Established.
    pub fn peer(&self) -> Option<&Peer>
        ensures { option_map (λ peer. said_of peer.now) result ≡ self.now.standing.peer }
    {
        self.standing.phase.peer()
    }

    /// Whether the timer runs.
    pub fn running(&self, timer: Timer) -> bool
        ensures { result ≡ runs self.now.standing.running timer }
    {
        self.standing.timers.runs(timer)
    }

    /// The octets of the speaker's own OPEN, header and body: what `Action::SendOpen` asks to send.
    pub fn own_frame(&self) -> &[u8]
        ensures { result.now ≡ own_octets self.now.settings }
    {
        &self.own
    }

    /// The number of octets held.
    pub fn held(&self) -> usize
        ensures value { result ≡ length self.now.held }
        ensures bound { result ≤ 4096 }
        // Where what is held is incomplete, nothing is left to do.
        ensures rests { Waits self.now.held → IsAtRest self.now }
        ensures deaf { listens self.now.standing.state ≡ false → self.now.held ≡ [] }
    {
        self.framer.held()
    }

    /// What is to be done on an event. What doesn't belong in the state does nothing, nor does a timer that doesn't run.
    pub fn event(&mut self, event: Event) -> Actions
        ensures actions { result.items ≡ (happens self.old.standing event).actions }
        ensures after { self.new ≡ after_event self.old event }
    {
        let mut actions = ArrayVec::new();
        self.event_view(event).own_plain(&mut actions);
        actions
    }

    /// The same, as views.
    pub fn event_view(&mut self, event: Event) -> ActionViews<'static>
        ensures actions { result ≡ (happens self.old.standing event).actions }
        ensures after { self.new ≡ after_event self.old event }
    {
        let mut actions = ActionViews::new();
        self.standing.happens(event, &mut actions);
        if !self.standing.listens() {
            self.framer.clear();
        }
        actions
    }

    /// Consumes octets of the piece until it ends, or a whole message or a header with a fault is held. Answers the
    /// number consumed: none before the connection is up.
    pub fn feed(&mut self, piece: &[u8]) -> usize
        ensures fed { IsFed self.old piece.now result self.new }
        // Where what is held is incomplete, nothing is left to do.
        ensures rests { Waits self.new.held → IsAtRest self.new }
        ensures deaf { listens self.new.standing.state ≡ false → self.new.held ≡ [] }
    {
        if self.standing.listens() {
            self.framer.feed(piece)
        } else {
            0
        }
    }

    /// What a pull from a piece would do, without memory and without a change: none where it would feed the piece. To
    /// continue after it, do what it says, and call [`go`](Session::go) with the state that it gives, before the octets
    /// of the piece that it consumes are dropped.
    ///
    /// The view of an UPDATE is written into `place`, over whatever it held: start with [`UpdateView::empty`].
    #[inline(always)]
    pub fn look<'b, 'a>(
        &'a self,
        piece: &'a [u8],
        place: &'b mut UpdateView<'a>,
    ) -> Option<Look<'b>>
        ensures { IsLook self.now piece.entry.now result }
    {
        match self.framer.look(piece) {
            Pull::Feed => None,
            Pull::Frame(taken, frame) => {
                let heard = self.standing.hear(&self.config, frame, place)?;
                Some(Look::new(taken, self, heard))
            }
            Pull::Fault(taken, fault) => {
                let heard = self.standing.hear_fault(fault)?;
                Some(Look::new(taken, self, heard))
            }
        }
    }

    /// Continues after a look: what is held is dropped. The session has to be as it was at the look.
    pub fn go(&mut self, next: Next)
        requires { next.from ≡ self.old }
        ensures { self.new ≡ gone self.old next.standing }
    {
        let standing = next.standing;
        if let Some(standing) = standing {
            self.standing = standing;
        }
        self.framer.clear();
    }
}
