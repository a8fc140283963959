//! What events do.

ghost use Rattle.std.specs.Prelude.{◌≡◌, []};
ghost use Rattle.bgp_frame.specs.Prelude.{notification_of_view};
ghost use Rattle.bgp_machine.specs.declared.event.Event.TheVariants as event;
ghost use Rattle.bgp_machine.specs.Prelude.{expired, on_event, happens, held_too_long, cease};

use crate::action_view::ActionView;
use crate::action_views::ActionViews;
use crate::event::Event;
use crate::phase::Phase;
use crate::standing::Standing;
use crate::timer::{OPEN_HOLD_SECONDS, RETRY_SECONDS, Timer};
use bgp_frame::NotificationView;
use bgp_numbers::error;

/// The NOTIFICATION of a peer that was silent for too long.
fn held_too_long() -> NotificationView<'static>
    ensures { notification_of_view result ≡ held_too_long }
{
    NotificationView {
        code: error::HOLD_TIMER_EXPIRED,
        subcode: error::UNSPECIFIC,
        info: &[],
    }
}

/// The NOTIFICATION of a session that is stopped.
fn cease() -> NotificationView<'static>
    ensures { notification_of_view result ≡ cease }
{
    NotificationView {
        code: error::CEASE,
        subcode: error::UNSPECIFIC,
        info: &[],
    }
}

impl Standing {
    /// The owner starts the session: a connection is tried.
    fn start(&mut self, actions: &mut ActionViews<'_>)
        requires { actions.old ≡ [] }
        ensures actions { actions.new ≡ (happens self.old event.Start).actions }
        ensures after { self.new ≡ (happens self.old event.Start).next }
    {
        if let Phase::Idle = self.phase {
            actions.push(ActionView::Arm(Timer::Retry, RETRY_SECONDS));
            actions.push(ActionView::Connect);
            self.phase = Phase::Connect;
            self.timers = self.timers.with(Timer::Retry, true);
        }
    }

    /// The connection is up: the OPEN is sent.
    fn connected(&mut self, actions: &mut ActionViews<'_>)
        requires { actions.old ≡ [] }
        ensures actions { actions.new ≡ (happens self.old event.Connected).actions }
        ensures after { self.new ≡ (happens self.old event.Connected).next }
    {
        match self.phase {
            Phase::Connect | Phase::Active => {
                actions.push(ActionView::Disarm(Timer::Retry));
                actions.push(ActionView::SendOpen);
                actions.push(ActionView::Arm(Timer::Hold, OPEN_HOLD_SECONDS));
                self.phase = Phase::OpenSent;
                self.timers = self
                    .timers
                    .with(Timer::Retry, false)
                    .with(Timer::Hold, true);
            }
            _ => {}
        }
    }

    /// The connection failed, or was closed.
    fn failed(&mut self, actions: &mut ActionViews<'_>)
        requires { actions.old ≡ [] }
        ensures actions { actions.new ≡ (happens self.old event.Failed).actions }
        ensures after { self.new ≡ (happens self.old event.Failed).next }
    {
        match self.phase {
            Phase::Idle => {}
            Phase::OpenSent => {
                actions.push(ActionView::Disarm(Timer::Hold));
                actions.push(ActionView::Arm(Timer::Retry, RETRY_SECONDS));
                self.phase = Phase::Active;
                self.timers = self
                    .timers
                    .with(Timer::Hold, false)
                    .with(Timer::Retry, true);
            }
            _ => self.leave(actions),
        }
    }

    /// The owner stops the session: the peer gets a NOTIFICATION, where there is one.
    fn stopped(&mut self, actions: &mut ActionViews<'_>)
        requires { actions.old ≡ [] }
        ensures actions { actions.new ≡ (happens self.old event.Stop).actions }
        ensures after { self.new ≡ (happens self.old event.Stop).next }
    {
        match self.phase {
            Phase::Idle => {}
            Phase::Connect | Phase::Active => {
                actions.push(ActionView::Close);
                self.leave(actions);
            }
            _ => self.reset(cease(), actions),
        }
    }

    /// A connection is tried again, where none is up.
    fn retry_expired(&mut self, actions: &mut ActionViews<'_>)
        requires { actions.old ≡ [] }
        ensures actions { actions.new ≡ (on_event self.old self.old.state (event.Expired Timer.Retry)).actions }
        ensures after { self.new ≡ (on_event self.old self.old.state (event.Expired Timer.Retry)).next }
    {
        match self.phase {
            Phase::Connect => actions.push(ActionView::Close),
            Phase::Active => {}
            _ => return,
        }
        actions.push(ActionView::Arm(Timer::Retry, RETRY_SECONDS));
        actions.push(ActionView::Connect);
        self.phase = Phase::Connect;
        self.timers = self.timers.with(Timer::Retry, true);
    }

    /// The peer was silent for too long, where a connection is up.
    fn hold_expired(&mut self, actions: &mut ActionViews<'_>)
        requires { actions.old ≡ [] }
        ensures actions { actions.new ≡ (on_event self.old self.old.state (event.Expired Timer.Hold)).actions }
        ensures after { self.new ≡ (on_event self.old self.old.state (event.Expired Timer.Hold)).next }
    {
        match self.phase {
            Phase::Idle | Phase::Connect | Phase::Active => {}
            _ => self.reset(held_too_long(), actions),
        }
    }

    /// A KEEPALIVE is due, where the peer is accepted.
    fn keepalive_expired(&mut self, actions: &mut ActionViews<'_>)
        requires { actions.old ≡ [] }
        ensures actions { actions.new ≡ (on_event self.old self.old.state (event.Expired Timer.Keepalive)).actions }
        ensures after { self.new ≡ (on_event self.old self.old.state (event.Expired Timer.Keepalive)).next }
    {
        if let Some(context) = self.phase.context() {
            let seconds = context.hold / 3;
            actions.push(ActionView::SendKeepalive);
            actions.push(ActionView::Arm(Timer::Keepalive, seconds));
            self.timers = self.timers.with(Timer::Keepalive, true);
        }
    }

    fn expired(&mut self, timer: Timer, actions: &mut ActionViews<'_>)
        requires { actions.old ≡ [] }
        ensures actions { actions.new ≡ (happens self.old (event.Expired timer)).actions }
        ensures after { self.new ≡ (happens self.old (event.Expired timer)).next }
    {
        if !self.timers.runs(timer) {
            return;
        }
        self.timers = self.timers.with(timer, false);
        match timer {
            Timer::Retry => self.retry_expired(actions),
            Timer::Hold => self.hold_expired(actions),
            Timer::Keepalive => self.keepalive_expired(actions),
        }
    }

    /// What an event does.
    pub(crate) fn happens(&mut self, event: Event, actions: &mut ActionViews<'_>)
        requires { actions.old ≡ [] }
        ensures actions { actions.new ≡ (happens self.old event).actions }
        ensures after { self.new ≡ (happens self.old event).next }
    {
        match event {
            Event::Start => self.start(actions),
            Event::Stop => self.stopped(actions),
            Event::Connected => self.connected(actions),
            Event::Failed => self.failed(actions),
            Event::Expired(timer) => self.expired(timer, actions),
        }
    }
}
