//! The actions of one end, and their effect on the other.

ghost use Rattle.std.specs.Prelude.{◌≡◌, [], ◌∷◌, IfOk, OnOk};
ghost use Rattle.bgp_machine.specs.Prelude.{IsAtRest, IsReady};
ghost use Rattle.bgp_session.specs.Prelude.{pair, acted, all_acted, told, fed, Feeds, SeesPull, HasRangesUnless, Sends, observed, event_seen, octets_seen, tried_seen};

use crate::observer::Observer;
use crate::side::Side;
use crate::speaker::{Speaker, notification};
use bgp_frame::{Kind, head};
use bgp_machine::{Action, Actions, Event, SendFault};
use bgp_update::Update;
use bgp_wire::List;
use std::alloc::{AllocError, Global};

/// The sender, the code and the subcode of a NOTIFICATION.
pub(crate) type Note = (Side, u8, u8);

/// Does one thing that the session of `this` wants done.
fn act(
    alloc: Global,
    side: Side,
    this: &mut Speaker,
    other: &mut Speaker,
    notes: &mut List<Note>,
    action: Action,
) -> Result<(), AllocError>
    ensures { OnOk result (acted side (pair this.old other.old notes.old) action ≡ pair this.new other.new notes.new) }
{
    match action {
        Action::Close => {
            this.leave();
            Ok(())
        }
        Action::SendOpen => other.await_octets(this.session.own_frame()),
        Action::SendKeepalive => other.await_octets(&head(Kind::Keepalive, 0)),
        Action::SendNotification(why) => {
            notes.push((side, why.code, why.subcode))?;
            other.await_octets(&notification(alloc, &why)?)
        }
        Action::Announce(update, info) => this.got.push((update, info)),
        Action::Withdraw(routes) => this.gone.push(routes),
        Action::Connect | Action::Arm(_, _) | Action::Disarm(_) | Action::Flush => Ok(()),
    }
}

/// Does all that the session of `this` wants done.
fn act_all(
    alloc: Global,
    side: Side,
    this: &mut Speaker,
    other: &mut Speaker,
    notes: &mut List<Note>,
    actions: Actions,
) -> Result<(), AllocError>
    ensures { OnOk result (all_acted side (pair this.old other.old notes.old) actions.items ≡ pair this.new other.new notes.new) }
{
    'actions: for action in actions {
        act(alloc, side, this, other, notes, action)?;
    }
    Ok(())
}

/// Delivers an event to `this`.
pub(crate) fn tell<O: Observer>(
    alloc: Global,
    side: Side,
    this: &mut Speaker,
    other: &mut Speaker,
    notes: &mut List<Note>,
    event: Event,
    observer: &mut O,
) -> Result<(), AllocError>
    ensures told { OnOk result (told side (pair this.old other.old notes.old) event ≡ pair this.new other.new notes.new) }
    ensures seen { OnOk result (O.seen observer.new ≡ observed O.after (O.seen observer.old) (event_seen side this.old.session event ∷ [])) }
{
    if let Event::Failed = event {
        this.leave();
    }
    let actions = this.session.event(event);
    observer.told(side, event, this.session.state(), &actions)?;
    act_all(alloc, side, this, other, notes, actions)
}

/// Lets `this` consume octets from the beginning of a piece, or do what is to be done on what it holds. Answers the
/// number consumed, and None where nothing is left to do.
fn pull<O: Observer>(
    alloc: Global,
    side: Side,
    this: &mut Speaker,
    other: &mut Speaker,
    notes: &mut List<Note>,
    piece: &[u8],
    observer: &mut O,
) -> Result<Option<usize>, AllocError>
    requires ready { IsReady this.old.session }
    ensures feeds { IfOk result (Feeds side (pair this.old other.old notes.old) piece.now (pair this.new other.new notes.new)) }
    ensures seen { IfOk result (SeesPull O.after (O.seen observer.old) (O.seen observer.new) side this.old.session this.new.session piece.now) }
{
    let context = this.session.context().copied();
    let (taken, found) = this.session.pull(alloc, piece)?;
    let (front, _) = piece.split_at(taken);
    observer.came(side, front)?;
    match found {
        Some(actions) => {
            observer.heard(side, context, this.session.state(), &actions)?;
            act_all(alloc, side, this, other, notes, actions)?;
            Ok(Some(taken))
        }
        None if taken == 0 => Ok(None),
        None => Ok(Some(taken)),
    }
}

/// Feeds a piece to `this`, and does all that it wants done.
pub(crate) fn feed<O: Observer>(
    alloc: Global,
    side: Side,
    this: &mut Speaker,
    other: &mut Speaker,
    notes: &mut List<Note>,
    piece: &[u8],
    observer: &mut O,
) -> Result<(), AllocError>
    requires rests { IsAtRest this.old.session }
    ensures fed { OnOk result (fed side (pair this.old other.old notes.old) piece.now ≡ pair this.new other.new notes.new) }
    ensures seen { OnOk result (O.seen observer.new ≡ observed O.after (O.seen observer.old) (octets_seen side this.old.session piece.now)) }
    ensures rests { OnOk result (IsAtRest this.new.session) }
{
    let mut rest = piece;
    'piece: while let Some(taken) = pull(alloc, side, this, other, notes, rest, observer)? {
        let (_, later) = rest.split_at(taken);
        rest = later;
    }
    Ok(())
}

/// Lets `this` send an UPDATE. Answers the reason where it isn't sent.
pub(crate) fn send<O: Observer>(
    alloc: Global,
    side: Side,
    this: &mut Speaker,
    other: &mut Speaker,
    update: &Update,
    observer: &mut O,
) -> Result<Option<SendFault>, AllocError>
    ensures sent { IfOk result (Sends this.old other.old update.now this.new other.new) }
    ensures seen { OnOk result (O.seen observer.new ≡ observed O.after (O.seen observer.old) (tried_seen side this.old.session update.now ∷ [])) }
    ensures ranges { IfOk result (λ found. HasRangesUnless found update.now) }
{
    let mut octets = Vec::new(alloc);
    let state = this.session.state();
    match this.session.send(alloc, update, &mut octets) {
        Ok(actions) => {
            observer.tried(side, None, state, &actions)?;
            this.sent.push(update.copy(alloc)?)?;
            other.await_octets(&octets)?;
            Ok(None)
        }
        Err(SendFault::Memory) => Err(AllocError),
        Err(fault) => {
            observer.tried(side, Some(fault), state, &[])?;
            Ok(Some(fault))
        }
    }
}
