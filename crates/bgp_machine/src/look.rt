//! What a session makes of what is held, or of what a piece begins with, before anything is changed.

use crate::action::Actions;
use crate::action_views::ActionViews;
use crate::heard::Heard;
use crate::session::Session;
use crate::standing::Standing;
use std::alloc::{AllocError, Global};
use std::marker::Model;
use std::snapshot::Snapshot;

/// Where a session continues: the argument of [`Session::go`]. It belongs to the session as it was at the look, and to
/// one in the same state.
#[derive(Drop)]
pub struct Next {
    /// None: its state is unchanged.
    pub(crate) standing: Option<Standing>,
    origin: Snapshot<Session>,
}

impl Model for Next {
    ghost use Rattle.std.specs.Prelude.{unwrap_or};
    ghost use Rattle.bgp_machine.specs.Session.{Going};

    ghost Value = { Going };

    ghost view = { λ n. record { from = n.origin.value; standing = unwrap_or n.standing n.origin.value.standing } };
}

/// A message, or a header with a fault, as a session receives it; what is to be done on it, and where the session
/// continues. It allocates nothing: it points into the piece, or into what the session holds.
#[derive(Drop)]
pub struct Look<'a> {
    taken: usize,
    was: &'a Session,
    heard: Heard<'a>,
}

impl<'a> Model for Look<'a> {
    ghost use Rattle.std.specs.Prelude.{◌≡◌, true};
    ghost use Rattle.bgp_machine.specs.Heard.{suits};
    ghost use Rattle.bgp_machine.specs.Look.{Looked};

    ghost Value = { Looked };

    ghost view = { λ l. record { taken = l.taken; was = l.was.now; heard = l.heard } };

    ghost invariant = { λ l. suits l.was.now.standing.state l.heard ≡ true };
}

impl<'a> Look<'a> {
    ghost use Rattle.std.specs.Prelude.{◌≡◌, true, [], IfOk, OnOk, OnErr};
    ghost use Rattle.bgp_machine.specs.Heard.{has_routes, suits};
    ghost use Rattle.bgp_machine.specs.Look.{step_of};

    /// A look at a session that found this.
    pub(crate) fn new(taken: usize, was: &'a Session, heard: Heard<'a>) -> Look<'a>
        requires { suits was.now.standing.state heard ≡ true }
        ensures { result ≡ record { taken = taken; was = was.now; heard = heard.entry } }
    {
        Look { taken, was, heard }
    }

    /// The number of octets of the piece consumed: none where what is held was received.
    pub fn taken(&self) -> usize
        ensures { result ≡ self.now.taken }
    {
        self.taken
    }

    /// What is received: the peer's message, for callers that want its content.
    pub fn heard(&self) -> &Heard<'a>
        ensures { result.now ≡ self.now.heard }
    {
        &self.heard
    }

    /// Writes what is to be done, in order, into a list, over its former contents. Answers where the session continues.
    pub fn act(&'a self, actions: &mut ActionViews<'a>) -> Next
        ensures actions { actions.new ≡ (step_of self.now).actions }
        ensures from { result.from ≡ self.now.was }
        ensures next { result.standing ≡ (step_of self.now).next }
    {
        actions.clear();
        if self.was.standing().stays(&self.heard, actions) {
            return Next {
                standing: None,
                origin: Snapshot::of(self.was),
            };
        }
        self.turn(actions)
    }

    /// The slow path, in a function of its own: a call clears the room of all that it makes.
    #[inline(never)]
    fn turn(&'a self, actions: &mut ActionViews<'a>) -> Next
        requires { actions.old ≡ [] }
        ensures actions { actions.new ≡ (step_of self.now).actions }
        ensures from { result.from ≡ self.now.was }
        ensures next { result.standing ≡ (step_of self.now).next }
    {
        let mut standing = self.was.standing().copy();
        standing.act(&self.heard, actions);
        Next {
            standing: Some(standing),
            origin: Snapshot::of(self.was),
        }
    }

    /// Writes what is to be done into a set, each action owned, over its former contents. Answers where the session
    /// continues.
    ///
    /// # Errors
    /// `AllocError` where an allocation failed: only for an UPDATE that doesn't end the session. The set is empty then.
    pub fn own(&self, alloc: Global, actions: &mut Actions) -> Result<Next, AllocError>
        ensures ok { OnOk result (actions.new.items ≡ (step_of self.now).actions) }
        ensures from { IfOk result (λ next. next.from ≡ self.now.was) }
        ensures next { IfOk result (λ next. next.standing ≡ (step_of self.now).next) }
        ensures err { OnErr result (actions.new.items ≡ []) }
        ensures memory { OnErr result (has_routes self.now.heard ≡ true) }
    {
        let mut views = ActionViews::new();
        let next = self.act(&mut views);
        views.own(alloc, actions)?;
        Ok(next)
    }
}
