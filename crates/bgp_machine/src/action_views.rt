//! What is to be done, in order.

ghost use Rattle.std.specs.Prelude.{◌≡◌, ◌<◌, ◌≤◌, ◌+◌, ◌++◌, ◌∷◌, [], length, take, true, false, OnOk, OnErr};
ghost use Rattle.bgp_update.specs.Prelude.{onward_of, rebuilt, routes_value, update_value};
ghost use Rattle.bgp_machine.specs.declared.action.Action.TheVariants.{Announce, Arm, Close, Withdraw};
ghost use Rattle.bgp_machine.specs.ActionView.{action_of, takes_memory};

use crate::action::{Action, Actions};
use crate::action_view::ActionView;
use crate::timer::Timer;
use arrayvec::ArrayVec;
use bgp_update::{PathInfo, Update, UpdateView, onward, reconcile};
use std::alloc::{AllocError, Global};
use std::marker::Model;

/// What is to be done, in order: at most five things, each a few words, without memory.
#[derive(Drop)]
pub struct ActionViews<'a> {
    list: ArrayVec<ActionView<'a>, 5>,
}

impl<'a> Model for ActionViews<'a> {
    ghost use Rattle.std.specs.Prelude.{List, map};
    ghost use Rattle.bgp_machine.specs.declared.action.Action.{Action};
    ghost use Rattle.bgp_machine.specs.ActionView.{action_of};

    ghost Value = { List Action };

    ghost view = { λ v. map action_of v.list.items };
}

// An `Action` has room for a NOTIFICATION of 4 KB, and a function clears the room of each that it makes as it is
// entered. So what most messages need is written over the previous action, where that was of the same kind, and else
// made in functions of their own.

/// Overwrites an action. It is inlined, so that the new one is made in place.
#[inline(always)]
fn set(action: Action, place: &mut Action)
    ensures { place.new ≡ action }
{
    *place = action;
}

/// Overwrites an action with a timer to start.
#[inline(never)]
fn set_arm(timer: Timer, seconds: u16, place: &mut Action)
    ensures { place.new ≡ Arm timer seconds }
{
    set(Action::Arm(timer, seconds), place);
}

/// Writes a timer to start into `place`.
#[inline(always)]
fn fill_arm(timer: Timer, seconds: u16, place: &mut Action)
    ensures { place.new ≡ Arm timer seconds }
{
    match place {
        Action::Arm(which, time) => {
            *which = timer;
            *time = seconds;
        }
        other => set_arm(timer, seconds, other),
    }
}

/// Overwrites an action with an announcement.
#[inline(never)]
fn set_announce(update: Update, info: PathInfo, place: &mut Action)
    ensures { place.new ≡ Announce update info }
{
    set(Action::Announce(update, info), place);
}

/// Writes an announcement into `place`.
#[inline(always)]
fn put_announce(update: Update, info: PathInfo, place: &mut Action)
    ensures { place.new ≡ Announce update info }
{
    match place {
        Action::Announce(routes, path) => {
            *routes = update;
            *path = info;
        }
        other => set_announce(update, info, other),
    }
}

/// Writes routes that the peer announces into `place`.
#[inline(never)]
fn fill_announce(alloc: Global, view: &UpdateView<'_>, place: &mut Action) -> Result<(), AllocError>
    ensures { OnOk result (place.new ≡ Announce (onward_of (update_value view.now)) (rebuilt (update_value view.now).attrs)) }
{
    let update = view.own(alloc)?;
    let info = reconcile(alloc, &update.attrs)?;
    put_announce(onward(update), info, place);
    Ok(())
}

/// Writes withdrawn routes into `place`.
#[inline(never)]
fn fill_withdraw(alloc: Global, view: &UpdateView<'_>, place: &mut Action) -> Result<(), AllocError>
    ensures { OnOk result (place.new ≡ Withdraw (routes_value view.now)) }
{
    set(Action::Withdraw(view.routes(alloc)?), place);
    Ok(())
}

/// The action, where it needs no allocation.
#[inline(always)]
fn plain(action: &ActionView<'_>) -> Action
    requires { takes_memory (action_of action.now) ≡ false }
    ensures { result ≡ action_of action.now }
{
    match action {
        ActionView::Connect => Action::Connect,
        ActionView::SendOpen => Action::SendOpen,
        ActionView::SendKeepalive => Action::SendKeepalive,
        ActionView::SendNotification(why) => Action::SendNotification(why.own()),
        ActionView::Arm(timer, seconds) => Action::Arm(*timer, *seconds),
        ActionView::Disarm(timer) => Action::Disarm(*timer),
        ActionView::Flush => Action::Flush,
        // Never an announcement or a withdrawal: both need an allocation.
        ActionView::Close | ActionView::Announce(_) | ActionView::Withdraw(_) => Action::Close,
    }
}

/// Overwrites an action with one that needs no allocation.
#[inline(never)]
fn set_plain(action: &ActionView<'_>, place: &mut Action)
    requires { takes_memory (action_of action.now) ≡ false }
    ensures { place.new ≡ action_of action.now }
{
    set(plain(action), place);
}

/// Writes an action that needs no allocation into `place`: most messages start a timer.
#[inline(always)]
fn fill_plain(action: &ActionView<'_>, place: &mut Action)
    requires { takes_memory (action_of action.now) ≡ false }
    ensures { place.new ≡ action_of action.now }
{
    match action {
        ActionView::Arm(timer, seconds) => fill_arm(*timer, *seconds, place),
        other => set_plain(other, place),
    }
}

/// Writes an action into `place`, owned.
#[inline(always)]
fn fill(alloc: Global, action: &ActionView<'_>, place: &mut Action) -> Result<(), AllocError>
    ensures ok { OnOk result (place.new ≡ action_of action.now) }
    ensures memory { OnErr result (takes_memory (action_of action.now) ≡ true) }
{
    match action {
        ActionView::Announce(view) => fill_announce(alloc, view, place),
        ActionView::Withdraw(view) => fill_withdraw(alloc, view, place),
        other => {
            fill_plain(other, place);
            Ok(())
        }
    }
}

/// Room for one more action.
#[inline(never)]
fn make_room(actions: &mut Actions)
    requires { length actions.old.items < 5 }
    ensures { actions.new.items ≡ actions.old.items ++ Close ∷ [] }
{
    actions.push(Action::Close);
}

/// Writes an action at an index of a set, owned: over the one that is there, or after the last.
#[inline(always)]
fn put(
    alloc: Global,
    action: &ActionView<'_>,
    at: usize,
    actions: &mut Actions,
) -> Result<(), AllocError>
    requires room { at < 5 }
    requires within { at ≤ length actions.old.items }
    ensures ok { OnOk result (take (at + 1) actions.new.items ≡ take at actions.old.items ++ action_of action.now ∷ []) }
    ensures memory { OnErr result (takes_memory (action_of action.now) ≡ true) }
{
    if actions.len() == at {
        make_room(actions);
    }
    match actions.get_mut(at) {
        None => Ok(()),
        Some(place) => fill(alloc, action, place),
    }
}

impl<'a> ActionViews<'a> {
    ghost use Rattle.std.specs.Prelude.{true, false, map};
    ghost use Rattle.std.specs.List.{list_any};

    /// Nothing is to be done.
    pub fn new() -> ActionViews<'a>
        ensures { result ≡ [] }
    {
        ActionViews {
            list: ArrayVec::new(),
        }
    }

    /// Empties the list.
    pub(crate) fn clear(&mut self)
        ensures { self.new ≡ [] }
    {
        self.list.clear();
    }

    /// Appends an action.
    pub(crate) fn push(&mut self, action: ActionView<'a>)
        requires { length self.old < 5 }
        ensures { self.new ≡ self.old ++ action_of action.entry ∷ [] }
    {
        self.list.push(action);
    }

    /// The list.
    pub fn as_slice(&self) -> &[ActionView<'a>]
        ensures { map action_of result.now ≡ self.now }
    {
        &self.list
    }

    /// Writes the actions into a set, each owned, over its former contents.
    ///
    /// # Errors
    /// `AllocError` where an allocation failed: only for an announcement or a withdrawal. The set is empty then.
    pub fn own(&self, alloc: Global, actions: &mut Actions) -> Result<(), AllocError>
        ensures ok { OnOk result (actions.new.items ≡ self.now) }
        ensures err { OnErr result (actions.new.items ≡ []) }
        ensures memory { OnErr result (list_any takes_memory self.now ≡ true) }
    {
        'all: for (at, action) in self.list.iter().enumerate() {
            if put(alloc, action, at, actions).is_err() {
                actions.clear();
                return Err(AllocError);
            }
        }
        actions.truncate(self.list.len());
        Ok(())
    }

    /// Writes actions that need no allocation into an empty set.
    pub(crate) fn own_plain(&self, actions: &mut Actions)
        requires none { actions.old.items ≡ [] }
        requires plain { list_any takes_memory self.now ≡ false }
        ensures { actions.new.items ≡ self.now }
    {
        for action in self.list.iter() {
            let mut place = Action::Close;
            fill_plain(action, &mut place);
            actions.push(place);
        }
    }
}
