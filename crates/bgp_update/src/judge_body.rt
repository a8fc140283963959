//! The verdict on the body of an UPDATE.

ghost use Rattle.std.specs.Prelude.{◌≡◌, ◌≤◌, ◌+◌, length, option_map};
ghost use Rattle.bgp_frame.specs.Prelude.{notification_of_view};
ghost use Rattle.bgp_update.specs.Prelude.{parts_value, marks_of, bad_network, reset_of_run, verdict_on, verdict_of, view_value};

use crate::body::{Body, split_body};
use crate::found::Found;
use crate::malformed::malformed;
use crate::view::{UpdateView, View};
use bgp_frame::NotificationView;
use bgp_numbers::error::{INVALID_NETWORK_FIELD, UPDATE_MESSAGE};
use bgp_open::Context;
use bgp_prefix::check_run4;

/// A reset of code 3, subcode 10 (Invalid Network Field), without data.
fn bad_network() -> NotificationView<'static>
    ensures { notification_of_view result ≡ bad_network }
{
    NotificationView {
        code: UPDATE_MESSAGE,
        subcode: INVALID_NETWORK_FIELD,
        info: &[],
    }
}

/// The reset for octets that aren't only IPv4 prefixes.
#[tactic(auto, using(crate::proofs::Runs::run_test))]
fn reset_of_run(octets: &[u8]) -> Option<NotificationView<'static>>
    ensures { option_map notification_of_view result ≡ reset_of_run octets.now }
{
    if check_run4(octets) {
        None
    } else {
        Some(bad_network())
    }
}

impl<'a> UpdateView<'a> {
    ghost use Rattle.bgp_update.specs.View.{found_value};

    /// The verdict on the parts of a body.
    #[inline(always)]
    fn judge_parts(&mut self, ctx: &Context, body: Body<'a>) -> Found<'a>
        requires { length body.withdrawn.now + length body.attributes.now ≤ 4073 }
        ensures { found_value result self.new ≡ verdict_on (parts_value body.entry) (marks_of ctx.now (parts_value body.entry)) }
    {
        self.fill(ctx, body);
        if let Some(reset) = self.summary.reset {
            return Found::Reset(reset);
        }
        if let Some(reset) = reset_of_run(body.withdrawn) {
            return Found::Reset(reset);
        }
        if let Some(reset) = reset_of_run(body.nlri) {
            return Found::Reset(reset);
        }
        if !self.summary.withdraws && !self.is_missing() {
            return Found::Take;
        }
        if self.reaches() {
            Found::Withdraw
        } else {
            Found::Reset(malformed())
        }
    }

    /// The verdict on the body of an UPDATE, of at most 4077 octets, in a context, without memory (RFC 4271, section 6.3; RFC 7606). Unless it
    /// ends the session, `self` becomes the view of the body; what it viewed before has no effect.
    #[inline(always)]
    pub fn judge(&mut self, ctx: &Context, body: &'a [u8]) -> Found<'a>
        requires { length body.now ≤ 4077 }
        ensures { found_value result self.new ≡ verdict_of ctx.now body.entry.now }
    {
        match split_body(body) {
            None => Found::Reset(malformed()),
            Some(parts) => self.judge_parts(ctx, parts),
        }
    }
}

/// The verdict on the body of an UPDATE, as by [`UpdateView::judge`], with its view, and with a NOTIFICATION of its own.
pub fn view_update<'a>(ctx: &Context, body: &'a [u8]) -> View<'a>
    requires { length body.now ≤ 4077 }
    ensures { view_value result ≡ verdict_of ctx.now body.now }
{
    let mut view = UpdateView::empty();
    match view.judge(ctx, body) {
        Found::Take => View::Take(view),
        Found::Withdraw => View::Withdraw(view),
        Found::Reset(why) => View::Reset(why.own()),
    }
}
