//! What is done on what is received.

ghost use Rattle.std.specs.Prelude.{◌≡◌, ◌<◌, ◌++◌, [], ◌∷◌, length, true, false, Some};
ghost use Rattle.bgp_open.specs.Prelude.{said_of};
ghost use Rattle.bgp_machine.specs.declared.action.Action.TheVariants.{Close};
ghost use Rattle.bgp_machine.specs.Prelude.{on_heard, suits, accepted, go, hold_on, leave};
ghost use Rattle.bgp_machine.specs.declared.heard.Heard.TheVariants as heard;
ghost use Rattle.bgp_machine.specs.declared.state.State.TheVariants as state;

use crate::action_view::ActionView;
use crate::action_views::ActionViews;
use crate::heard::Heard;
use crate::phase::Phase;
use crate::standing::Standing;
use crate::timer::Timer;
use bgp_open::{Context, Peer};

impl Standing {
    /// Restarts the Hold Timer, where there is one.
    fn hold_on(&mut self, actions: &mut ActionViews<'_>)
        requires { length actions.old < 5 }
        ensures actions { actions.new ≡ actions.old ++ hold_on self.old.context }
        ensures after { self.new ≡ (go self.old (hold_on self.old.context) self.old.state).next }
    {
        if let Some(context) = self.phase.context() {
            let seconds = context.hold;
            if seconds > 0 {
                actions.push(ActionView::Arm(Timer::Hold, seconds));
                self.timers = self.timers.with(Timer::Hold, true);
            }
        }
    }

    /// Continues with a peer that is accepted.
    fn accept(&mut self, peer: Peer, context: Context, actions: &mut ActionViews<'_>)
        requires none { actions.old ≡ [] }
        requires sent { self.old.state ≡ state.OpenSent }
        ensures actions { actions.new ≡ (accepted self.old (said_of peer) context).actions }
        ensures after { self.new ≡ (accepted self.old (said_of peer) context).next }
    {
        actions.push(ActionView::SendKeepalive);
        if context.hold > 0 {
            actions.push(ActionView::Arm(Timer::Hold, context.hold));
            actions.push(ActionView::Arm(Timer::Keepalive, context.hold / 3));
            self.timers = self
                .timers
                .with(Timer::Hold, true)
                .with(Timer::Keepalive, true);
        } else {
            actions.push(ActionView::Disarm(Timer::Hold));
            self.timers = self.timers.with(Timer::Hold, false);
        }
        self.phase = Phase::OpenConfirm(context, peer);
    }

    /// Receives the KEEPALIVE of a peer that is accepted.
    fn keep_alive(&mut self, actions: &mut ActionViews<'_>)
        requires none { actions.old ≡ [] }
        requires suits { suits self.old.state heard.Keepalive ≡ true }
        ensures actions { actions.new ≡ hold_on self.old.context }
        ensures after { self.new ≡ (go self.old (hold_on self.old.context) state.Established).next }
    {
        if let Phase::OpenConfirm(context, peer) = self.phase {
            self.phase = Phase::Established(context, peer);
        }
        self.hold_on(actions);
    }

    /// The peer ends the session.
    fn closed(&mut self, actions: &mut ActionViews<'_>)
        requires { actions.old ≡ [] }
        ensures actions { actions.new ≡ (leave self.old (Close ∷ [])).actions }
        ensures after { self.new ≡ (leave self.old (Close ∷ [])).next }
    {
        actions.push(ActionView::Close);
        self.leave(actions);
    }

    /// Acts on what leaves the state unchanged: an UPDATE that doesn't end the session, or a KEEPALIVE, while the Hold
    /// Timer runs. Answers true if it was one of these (the common case); does nothing on anything else.
    #[inline(always)]
    pub(crate) fn stays<'a>(&self, heard: &'a Heard<'a>, actions: &mut ActionViews<'a>) -> bool
        requires { actions.old ≡ [] }
        ensures actions { result ≡ true → actions.new ≡ (on_heard self.now heard.entry.now).actions }
        ensures same { result ≡ true → (on_heard self.now heard.entry.now).next ≡ self.now }
        ensures none { result ≡ false → actions.new ≡ [] }
    {
        let Some(context) = self.established() else {
            return false;
        };
        if context.hold == 0 || !self.timers.hold {
            return false;
        }
        match heard {
            Heard::Update(view) => actions.push(ActionView::Announce(view)),
            Heard::Withdraw(view) => actions.push(ActionView::Withdraw(view)),
            Heard::Keepalive => {}
            _ => return false,
        }
        actions.push(ActionView::Arm(Timer::Hold, context.hold));
        true
    }

    /// Acts on what was received.
    pub(crate) fn act<'a>(&mut self, heard: &'a Heard<'a>, actions: &mut ActionViews<'a>)
        requires none { actions.old ≡ [] }
        requires suits { suits self.old.state heard.now ≡ true }
        ensures actions { actions.new ≡ (on_heard self.old heard.entry.now).actions }
        ensures after { self.new ≡ (on_heard self.old heard.entry.now).next }
    {
        match heard {
            Heard::Open(open, context) => self.accept(open.peer(), *context, actions),
            Heard::Keepalive => self.keep_alive(actions),
            Heard::Update(view) => {
                actions.push(ActionView::Announce(view));
                self.hold_on(actions);
            }
            Heard::Withdraw(view) => {
                actions.push(ActionView::Withdraw(view));
                self.hold_on(actions);
            }
            Heard::Notification(_) => self.closed(actions),
            Heard::Reset(why) => self.reset(*why, actions),
            Heard::Refused(why) => self.reset(why.view(), actions),
        }
    }
}
