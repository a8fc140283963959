//! Reading an UPDATE.

ghost use Rattle.std.specs.Prelude.{◌≡◌, ◌≤◌, length, IfOk, OnErr, IsTrue};
ghost use Rattle.bgp_update.specs.declared.verdict.Verdict.TheVariants as verdict;
ghost use Rattle.bgp_update.specs.Prelude.{verdict_of, has_value, update_value, routes_value, notes_value, view_value};

use crate::judge_body::view_update;
use crate::verdict::Verdict;
use crate::view::{UpdateView, View};
use bgp_open::Context;
use std::alloc::{AllocError, Global};

/// A message that is accepted. The notes come first: proofs pay for each large value that `?` may drop.
fn own_taken(alloc: Global, view: &UpdateView<'_>) -> Result<Verdict, AllocError>
    ensures { IfOk result (λ v. v ≡ verdict.Take (update_value view.now) (notes_value view.now)) }
{
    let notes = view.own_notes(alloc)?;
    let update = view.own(alloc)?;
    Ok(Verdict::Take(update, notes))
}

/// A message that is treated as a withdrawal.
fn own_withdrawn(alloc: Global, view: &UpdateView<'_>) -> Result<Verdict, AllocError>
    ensures { IfOk result (λ v. v ≡ verdict.Withdraw (routes_value view.now) (notes_value view.now)) }
{
    let notes = view.own_notes(alloc)?;
    let routes = view.routes(alloc)?;
    Ok(Verdict::Withdraw(routes, notes))
}

impl View<'_> {
    /// The verdict, with memory of its own.
    ///
    /// # Errors
    /// `AllocError` where an allocation failed: a reset allocates nothing.
    pub fn own(&self, alloc: Global) -> Result<Verdict, AllocError>
        ensures value { IfOk result (λ v. v ≡ view_value self.now) }
        ensures err { OnErr result (IsTrue (has_value (view_value self.now))) }
    {
        match self {
            View::Take(view) => own_taken(alloc, view),
            View::Withdraw(view) => own_withdrawn(alloc, view),
            View::Reset(notification) => Ok(Verdict::Reset(notification.copy())),
        }
    }
}

/// The verdict on the body of an UPDATE, of at most 4077 octets, in a context (RFC 4271, section 6.3; RFC 7606).
///
/// # Errors
/// `AllocError` where an allocation failed: never where the verdict on the body is a reset.
pub fn read_update(alloc: Global, ctx: &Context, body: &[u8]) -> Result<Verdict, AllocError>
    requires { length body.now ≤ 4077 }
    ensures value { IfOk result (λ v. v ≡ verdict_of ctx.now body.now) }
    ensures err { OnErr result (IsTrue (has_value (verdict_of ctx.now body.now))) }
{
    view_update(ctx, body).own(alloc)
}
