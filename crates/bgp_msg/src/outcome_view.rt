//! The outcome of a message, from borrowed octets.

ghost use Rattle.std.specs.Prelude.{◌≡◌, [], true, IfOk, OnErr};
ghost use Rattle.bgp_update.specs.Prelude.{update_value, notes_value, routes_value};
ghost use Rattle.bgp_msg.specs.declared.message.Message.TheVariants as message;
ghost use Rattle.bgp_msg.specs.declared.outcome.Outcome.TheVariants as outcome;

use crate::message::Message;
use crate::outcome::Outcome;
use bgp_frame::NotificationView;
use bgp_open::OpenView;
use bgp_update::UpdateView;
use bgp_wire::List;
use std::alloc::{AllocError, Global};

/// The outcome of a message, or of the header of one: a few words that point into its octets, instead of an owned
/// [`Outcome`]. An UPDATE's view is in the caller's buffer.
#[derive(Clone, Copy)]
pub enum OutcomeView<'a> {
    /// An OPEN is accepted.
    Open(OpenView<'a>),
    /// An UPDATE is accepted, with notes on attributes that are discarded.
    Update(&'a UpdateView<'a>),
    /// A NOTIFICATION is accepted.
    Notification(NotificationView<'a>),
    /// A KEEPALIVE is accepted.
    Keepalive,
    /// An UPDATE that is treated as a withdrawal of all its routes (RFC 7606, section 2), with notes on why.
    Withdraw(&'a UpdateView<'a>),
    /// The session ends with this notification.
    Reset(NotificationView<'a>),
}

/// An UPDATE that is accepted, as an owned value. The notes come first: proofs pay for each large value that `?` may
/// drop.
#[inline(always)]
fn own_update(view: &UpdateView<'_>, alloc: Global) -> Result<Outcome, AllocError>
    ensures { IfOk result (λ o. o ≡ outcome.Took (message.Update (update_value view.now)) (notes_value view.now)) }
{
    let notes = view.own_notes(alloc)?;
    let update = view.own(alloc)?;
    Ok(Outcome::Took(Message::Update(update), notes))
}

/// An UPDATE that is treated as a withdrawal, as an owned value.
#[inline(always)]
fn own_withdrawal(view: &UpdateView<'_>, alloc: Global) -> Result<Outcome, AllocError>
    ensures { IfOk result (λ o. o ≡ outcome.Withdraw (routes_value view.now) (notes_value view.now)) }
{
    let notes = view.own_notes(alloc)?;
    let routes = view.routes(alloc)?;
    Ok(Outcome::Withdraw(routes, notes))
}

/// A message that is accepted without notes.
#[inline(always)]
fn took(told: Message, alloc: Global) -> Outcome
    ensures { result ≡ outcome.Took told [] }
{
    Outcome::Took(told, List::new(alloc))
}

impl OutcomeView<'_> {
    ghost use Rattle.bgp_msg.specs.Outcome.{is_reset};
    ghost use Rattle.bgp_msg.specs.OutcomeView.{outcome_value, has_lists};

    /// Whether the session ends. A NOTIFICATION that was received is accepted, and isn't a reset.
    #[inline(always)]
    pub fn is_reset(&self) -> bool
        ensures { result ≡ is_reset (outcome_value self.now) }
    {
        match self {
            OutcomeView::Reset(_) => true,
            _ => false,
        }
    }

    /// The outcome, as an owned value.
    ///
    /// # Errors
    /// `AllocError` where an allocation failed: only for an OPEN that is accepted, or an UPDATE that doesn't end the session.
    pub fn own(&self, alloc: Global) -> Result<Outcome, AllocError>
        ensures value { IfOk result (λ o. o ≡ outcome_value self.now) }
        ensures err { OnErr result (has_lists (outcome_value self.now) ≡ true) }
    {
        Ok(match self {
            OutcomeView::Open(view) => took(Message::Open(view.own(alloc)?), alloc),
            OutcomeView::Update(view) => own_update(view, alloc)?,
            OutcomeView::Notification(said) => took(Message::Notification(said.own()), alloc),
            OutcomeView::Keepalive => took(Message::Keepalive, alloc),
            OutcomeView::Withdraw(view) => own_withdrawal(view, alloc)?,
            OutcomeView::Reset(why) => Outcome::Reset(why.own()),
        })
    }
}
