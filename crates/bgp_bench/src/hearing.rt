//! A session that receives a stream.

ghost use Rattle.std.specs.Prelude.{◌≤◌, length, IfSome};

use crate::stream::PIECE;
use arrayvec::ArrayVec;
use bgp_attr::{MpReach, MpReachView, MpUnreach, MpUnreachView};
use bgp_frame::head;
use bgp_machine::{Action, ActionView, ActionViews, Actions, Event, Session, State};
use bgp_msg::Kind;
use bgp_open::{Config, own_frame};
use bgp_update::{Routes, Update, UpdateView};
use std::alloc::{AllocError, Global};
use std::io;

/// What a session wants done: the number of actions, and of the routes that they announce and withdraw.
#[derive(Clone, Copy)]
struct Heard {
    actions: u64,
    announced: u64,
    withdrawn: u64,
}

/// How a session receives.
#[derive(Clone, Copy)]
pub(crate) enum By {
    /// By sets of its own.
    Sets,
    /// By one set of actions, reused.
    OneSet,
    /// By views, without memory.
    Views,
}

fn announced_by(update: &Update) -> usize {
    let reached = match &update.attrs.mp_reach {
        Some(MpReach::Ip4 { nlri, .. }) => nlri.len(),
        Some(MpReach::Ip6 { nlri, .. }) => nlri.len(),
        None => 0,
    };
    reached.saturating_add(update.nlri.len())
}

fn withdrawn_by(update: &Update) -> usize {
    let unreached = match &update.attrs.mp_unreach {
        Some(MpUnreach::Ip4(routes)) => routes.len(),
        Some(MpUnreach::Ip6(routes)) => routes.len(),
        None => 0,
    };
    unreached.saturating_add(update.withdrawn.len())
}

fn withdrawn_with(routes: &Routes) -> usize {
    routes.ip4.len().saturating_add(routes.ip6.len())
}

fn announced_in(view: &UpdateView<'_>) -> usize {
    let reached = match view.reach() {
        Some(MpReachView::Ip4 { nlri, .. }) => nlri.left(),
        Some(MpReachView::Ip6 { nlri, .. }) => nlri.left(),
        None => 0,
    };
    reached.saturating_add(view.nlri().left())
}

fn withdrawn_in(view: &UpdateView<'_>) -> usize {
    let unreached = match view.unreach() {
        Some(MpUnreachView::Ip4(routes)) => routes.left(),
        Some(MpUnreachView::Ip6(routes)) => routes.left(),
        None => 0,
    };
    unreached.saturating_add(view.withdrawn().left())
}

impl Heard {
    fn new() -> Heard {
        Heard {
            actions: 0,
            announced: 0,
            withdrawn: 0,
        }
    }

    fn count(&mut self, action: &Action) {
        let (announced, withdrawn) = match action {
            Action::Announce(update, _) => (announced_by(update), withdrawn_by(update)),
            Action::Withdraw(routes) => (0, withdrawn_with(routes)),
            _ => (0, 0),
        };
        self.add(announced, withdrawn);
    }

    fn count_view(&mut self, action: &ActionView<'_>) {
        let (announced, withdrawn) = match action {
            ActionView::Announce(view) => (announced_in(view), withdrawn_in(view)),
            ActionView::Withdraw(view) => (
                0,
                announced_in(view).saturating_add(withdrawn_in(view)),
            ),
            _ => (0, 0),
        };
        self.add(announced, withdrawn);
    }

    fn add(&mut self, announced: usize, withdrawn: usize) {
        self.actions = self.actions.saturating_add(1);
        self.announced = self.announced.saturating_add(announced as u64);
        self.withdrawn = self.withdrawn.saturating_add(withdrawn as u64);
    }
}

/// Passes a piece to the session.
#[tactic(auto, using(crate::proofs::Taken::session_takes_within))]
fn hear_piece(
    alloc: Global,
    session: &mut Session,
    piece: &[u8],
    heard: &mut Heard,
) -> Result<(), AllocError> {
    let mut rest = piece;
    for _turn in 0..u64::MAX {
        let (taken, found) = session.pull(alloc, rest)?;
        rest = &rest[taken..];
        match &found {
            Some(actions) => {
                for action in actions.as_slice() {
                    heard.count(action);
                }
            }
            None if taken == 0 => break,
            None => {}
        }
    }
    Ok(())
}

/// Passes a piece to the session, by one set of actions.
#[tactic(auto, using(crate::proofs::Taken::session_takes_within))]
fn hear_piece_into(
    alloc: Global,
    session: &mut Session,
    piece: &[u8],
    actions: &mut Actions,
    heard: &mut Heard,
) -> Result<(), AllocError> {
    let mut rest = piece;
    for _turn in 0..u64::MAX {
        let (taken, found) = session.pull_into(alloc, rest, actions)?;
        rest = &rest[taken..];
        for action in actions.as_slice() {
            heard.count(action);
        }
        if taken == 0 && !found {
            break;
        }
    }
    Ok(())
}

/// Counts what is received of a piece, by views, and continues the session. Answers the number of octets consumed.
#[inline(always)]
fn view_next(session: &mut Session, piece: &[u8], heard: &mut Heard) -> Option<usize>
    ensures { IfSome result (λ taken. taken ≤ length piece.now) }
{
    let mut view = UpdateView::empty();
    let look = session.look(piece, &mut view)?;
    let mut actions = ActionViews::new();
    let next = look.act(&mut actions);
    for action in actions.as_slice() {
        heard.count_view(action);
    }
    let taken = look.taken();
    session.go(next);
    Some(taken)
}

/// Passes a piece to the session, by views.
fn hear_piece_by_views(session: &mut Session, piece: &[u8], heard: &mut Heard) {
    let mut rest = piece;
    for _turn in 0..u64::MAX {
        let taken = match view_next(session, rest, heard) {
            Some(taken) => taken,
            None => {
                let fed = session.feed(rest);
                if fed == 0 {
                    break;
                }
                fed
            }
        };
        rest = &rest[taken..];
    }
}

/// A session of AS 65002 that is Established with AS 65001. Both offer 4-octet AS numbers, IPv4 and IPv6.
fn established(alloc: Global) -> Result<Session, AllocError> {
    let own = Config::new(65002, 65001, [192, 0, 2, 2], 90, true, true, true).unwrap();
    let peer = Config::new(65001, 65002, [192, 0, 2, 1], 90, true, true, true).unwrap();
    let mut session = Session::new(own);
    session.event(Event::Start);
    session.event(Event::Connected);
    let mut heard = Heard::new();
    hear_piece(alloc, &mut session, &own_frame(&peer), &mut heard)?;
    hear_piece(alloc, &mut session, &head(Kind::Keepalive, 0), &mut heard)?;
    Ok(session)
}

/// Passes the stream to the session, piece by piece.
fn hear_stream(
    alloc: Global,
    session: &mut Session,
    octets: &[u8],
    by: By,
    actions: &mut Actions,
    heard: &mut Heard,
) -> Result<(), AllocError> {
    for piece in octets.chunks(PIECE) {
        match by {
            By::Sets => hear_piece(alloc, session, piece, heard)?,
            By::OneSet => hear_piece_into(alloc, session, piece, actions, heard)?,
            By::Views => hear_piece_by_views(session, piece, heard),
        }
    }
    Ok(())
}

/// Passes the stream to an Established session, and answers its state after it, and the counts.
fn hear_round(
    alloc: Global,
    octets: &[u8],
    by: By,
    actions: &mut Actions,
) -> Result<(State, Heard), AllocError> {
    let mut session = established(alloc)?;
    let mut heard = Heard::new();
    hear_stream(alloc, &mut session, octets, by, actions, &mut heard)?;
    Ok((session.state(), heard))
}

/// Passes the stream to an Established session `rounds` times, and prints the counts of one round, and the session's
/// state after it.
pub(crate) fn run(
    rt: &(impl Print + AllocGlobal),
    octets: &[u8],
    rounds: u32,
    by: By,
) -> io::Result<()> {
    let mut actions = ArrayVec::new();
    let (mut state, mut heard) = (State::Idle, Heard::new());
    for _round in 0..rounds {
        (state, heard) = hear_round(rt.alloc(), octets, by, &mut actions)?;
    }
    println!(rt;
        "actions {} announced {} withdrawn {}",
        heard.actions, heard.announced, heard.withdrawn
    )?;
    println!(rt; "state {state:?}")
}
