//! A session without what it holds.

ghost use Rattle.std.specs.Prelude.{◌≡◌, ◌+◌, ◌<◌, ◌≤◌, [], ◌∷◌, ◌++◌, length, true, false};
ghost use Rattle.bgp_machine.specs.declared.action.Action.TheVariants.{SendNotification, Close, Disarm};
ghost use Rattle.bgp_frame.specs.Prelude.{notification_of_view};
ghost use Rattle.bgp_machine.specs.Standing.{established_in, idle, listens};
ghost use Rattle.bgp_machine.specs.Table.{only_if, flushed, leave, reset};

use crate::action_view::ActionView;
use crate::action_views::ActionViews;
use crate::phase::Phase;
use crate::timer::{Timer, Timers};
use bgp_frame::NotificationView;
use bgp_open::Context;
use std::marker::Model;

/// The state of a session, and its timers.
#[derive(Drop)]
pub(crate) struct Standing {
    pub(crate) phase: Phase,
    pub(crate) timers: Timers,
}

impl Model for Standing {
    ghost use Rattle.std.specs.Prelude.{◌≡◌, true, false};
    ghost use Rattle.bgp_machine.specs.Standing.{Standing as StandingValue, state_in, context_in, peer_in, listens};

    ghost Value = { StandingValue };

    ghost view = { λ s. record { state = state_in s.phase; context = context_in s.phase; peer = peer_in s.phase; running = s.timers } };

    ghost invariant = { λ s. listens (state_in s.phase) ≡ true → s.timers.retry ≡ false };
}

/// Disarms a timer where it runs.
fn disarm(running: bool, timer: Timer, actions: &mut ActionViews<'_>)
    requires { length actions.old < 5 }
    ensures does { actions.new ≡ actions.old ++ only_if running (Disarm timer) }
    ensures one { length actions.new ≤ length actions.old + 1 }
{
    if running {
        actions.push(ActionView::Disarm(timer));
    }
}

impl Standing {
    /// A session before its first event.
    pub(crate) fn new() -> Standing
        ensures { result ≡ idle }
    {
        Standing {
            phase: Phase::Idle,
            timers: Timers::none(),
        }
    }

    /// A copy.
    pub(crate) fn copy(&self) -> Standing
        ensures { result ≡ self.now }
    {
        Standing {
            phase: self.phase,
            timers: self.timers,
        }
    }

    /// Whether octets are accepted: the connection is up.
    pub(crate) fn listens(&self) -> bool
        ensures { result ≡ listens self.now.state }
    {
        match self.phase {
            Phase::Idle | Phase::Connect | Phase::Active => false,
            Phase::OpenSent | Phase::OpenConfirm(_, _) | Phase::Established(_, _) => true,
        }
    }

    /// The context, where the session is Established.
    pub(crate) fn established(&self) -> Option<Context>
        ensures { result ≡ established_in self.now.state self.now.context }
    {
        match self.phase {
            Phase::Established(context, _) => Some(context),
            _ => None,
        }
    }

    /// Leaves the connection: appends what that requires to what is to be done already.
    pub(crate) fn leave(&mut self, actions: &mut ActionViews<'_>)
        requires { length actions.old ≤ 2 }
        ensures actions { actions.new ≡ (leave self.old actions.old).actions }
        ensures after { self.new ≡ (leave self.old actions.old).next }
    {
        disarm(self.timers.retry, Timer::Retry, actions);
        disarm(self.timers.hold, Timer::Hold, actions);
        disarm(self.timers.keepalive, Timer::Keepalive, actions);
        if let Phase::Established(_, _) = self.phase {
            actions.push(ActionView::Flush);
        }
        self.phase = Phase::Idle;
        self.timers = Timers::none();
    }

    /// Sends the peer a NOTIFICATION, closes and leaves.
    pub(crate) fn reset<'a>(&mut self, why: NotificationView<'a>, actions: &mut ActionViews<'a>)
        requires { actions.old ≡ [] }
        ensures actions { actions.new ≡ (reset self.old (notification_of_view why.entry)).actions }
        ensures after { self.new ≡ (reset self.old (notification_of_view why.entry)).next }
    {
        actions.push(ActionView::SendNotification(why));
        actions.push(ActionView::Close);
        self.leave(actions);
    }
}
