//! Message dispatch by state: a message's type is tested against the state before its body is judged.

ghost use Rattle.std.specs.Prelude.{◌≡◌, ◌+◌, ◌≤◌, length, true, Some};
ghost use Rattle.bgp_frame.specs.declared.kind.Kind.TheVariants as kind;
ghost use Rattle.bgp_frame.specs.Prelude.{IsLength, notification_of_view, short_value, message_in};
ghost use Rattle.bgp_open.specs.Prelude.{Settings, open_notification, reading_of};
ghost use Rattle.bgp_update.specs.Prelude.{has_value, verdict_of};
ghost use Rattle.bgp_machine.specs.declared.state.State.TheVariants as state;
ghost use Rattle.bgp_machine.specs.Prelude.{has_routes, on_heard, suits, IsFaultOf, IsHeardOf, IsSaid, SaysVerdict, Standing, answered, on_message, on_open, on_verdict, reset, unexpected};

use crate::heard::Heard;
use crate::phase::Phase;
use crate::standing::Standing;
use bgp_frame::{Frame, HeadFault, Kind, NotificationView, ShortNotification};
use bgp_msg::notification_in;
use bgp_numbers::error;
use bgp_open::{Config, Context, OpenFault, agree_with, view_open};
use bgp_update::{Found, UpdateView};

/// The NOTIFICATION of a message whose type doesn't belong in the state: its information is the type (RFC 6608, section 3).
fn unexpected(subcode: u8, kind: Kind) -> ShortNotification
    ensures { short_value result ≡ unexpected subcode kind }
{
    ShortNotification::with_octet(error::FINITE_STATE_MACHINE, subcode, kind as u8)
}

/// The answer to a fault of an OPEN.
fn answer_to(fault: OpenFault) -> NotificationView<'static>
    ensures { (x : Standing) → reset x (notification_of_view result) ≡ answered x (open_notification fault) }
{
    match fault.answer() {
        Some(why) => why,
        // Only a failed allocation has none, and views don't allocate.
        None => NotificationView {
            code: error::OPEN_MESSAGE,
            subcode: error::UNSPECIFIC,
            info: &[],
        },
    }
}

/// An OPEN in OpenSent.
#[inline(never)]
fn hear_open<'a>(config: &Config, body: &'a [u8]) -> Heard<'a>
    requires { 10 ≤ length body.now }
    ensures does { (x : Standing) → on_heard x result ≡ on_open config.now x (reading_of body.entry.now) }
    ensures suits { suits state.OpenSent result ≡ true }
    ensures said { (x : Standing) → IsSaid config.now x (record { kind = kind.Open; body = body.entry.now }) result }
{
    match view_open(body) {
        Ok(open) => match agree_with(config, &open.peer()) {
            Ok(context) => Heard::Open(open, context),
            Err(fault) => Heard::Reset(fault.answer()),
        },
        Err(fault) => Heard::Reset(answer_to(fault)),
    }
}

/// A message in OpenSent.
#[inline(never)]
fn hear_in_open_sent<'a>(config: &Config, frame: Frame<'a>) -> Heard<'a>
    requires { IsLength frame.kind (19 + length frame.body.now) }
    ensures does { (x : Standing) → on_heard x result ≡ on_message config.now x state.OpenSent frame.entry.kind frame.entry.body.now }
    ensures suits { suits state.OpenSent result ≡ true }
    ensures said { (x : Standing) → IsSaid config.now x (message_in frame.entry) result }
{
    match frame.kind {
        Kind::Open => hear_open(config, frame.body),
        Kind::Notification => Heard::Notification(notification_in(frame.body)),
        Kind::Update | Kind::Keepalive => {
            Heard::Refused(unexpected(error::UNEXPECTED_IN_OPEN_SENT, frame.kind))
        }
    }
}

/// A message in OpenConfirm.
#[inline(never)]
fn hear_in_open_confirm<'a>(frame: Frame<'a>) -> Heard<'a>
    requires { IsLength frame.kind (19 + length frame.body.now) }
    ensures does { (s : Settings) (x : Standing) → on_heard x result ≡ on_message s x state.OpenConfirm frame.entry.kind frame.entry.body.now }
    ensures suits { suits state.OpenConfirm result ≡ true }
    ensures said { (s : Settings) (x : Standing) → IsSaid s x (message_in frame.entry) result }
{
    match frame.kind {
        Kind::Keepalive => Heard::Keepalive,
        Kind::Notification => Heard::Notification(notification_in(frame.body)),
        Kind::Open | Kind::Update => {
            Heard::Refused(unexpected(error::UNEXPECTED_IN_OPEN_CONFIRM, frame.kind))
        }
    }
}

/// An UPDATE in Established.
#[inline(always)]
fn hear_update<'b, 'a>(
    context: &Context,
    body: &'a [u8],
    place: &'b mut UpdateView<'a>,
) -> Heard<'b>
    requires { length body.now ≤ 4077 }
    ensures does { (x : Standing) → on_heard x result ≡ on_verdict x (verdict_of context.now body.entry.now) }
    ensures suits { suits state.Established result ≡ true }
    ensures said { SaysVerdict (verdict_of context.now body.entry.now) result }
    ensures value { has_routes result ≡ true → has_value (verdict_of context.now body.entry.now) ≡ true }
{
    match place.judge(context, body) {
        Found::Take => Heard::Update(place),
        Found::Withdraw => Heard::Withdraw(place),
        Found::Reset(why) => Heard::Reset(why),
    }
}

/// A message in Established.
#[inline(always)]
fn hear_in_established<'b, 'a>(
    context: &Context,
    frame: Frame<'a>,
    place: &'b mut UpdateView<'a>,
) -> Heard<'b>
    requires { IsLength frame.kind (19 + length frame.body.now) }
    ensures does { (s : Settings) (x : Standing) → x.context ≡ Some context.now → on_heard x result ≡ on_message s x state.Established frame.entry.kind frame.entry.body.now }
    ensures suits { suits state.Established result ≡ true }
    ensures said { (s : Settings) (x : Standing) → x.context ≡ Some context.now → IsSaid s x (message_in frame.entry) result }
    ensures update { has_routes result ≡ true → frame.entry.kind ≡ kind.Update }
    ensures value { has_routes result ≡ true → has_value (verdict_of context.now frame.entry.body.now) ≡ true }
{
    match frame.kind {
        Kind::Update => hear_update(context, frame.body, place),
        Kind::Keepalive => Heard::Keepalive,
        Kind::Notification => Heard::Notification(notification_in(frame.body)),
        Kind::Open => { Heard::Refused(unexpected(error::UNEXPECTED_IN_ESTABLISHED, Kind::Open)) }
    }
}

impl Standing {
    /// The effect of a whole message: none before the connection is up. The view of an UPDATE is written into `place`.
    #[inline(always)]
    pub(crate) fn hear<'b, 'a>(
        &self,
        config: &Config,
        frame: Frame<'a>,
        place: &'b mut UpdateView<'a>,
    ) -> Option<Heard<'b>>
        requires { IsLength frame.kind (19 + length frame.body.now) }
        ensures { IsHeardOf config.now self.now (message_in frame.entry) result }
    {
        match &self.phase {
            Phase::OpenSent => Some(hear_in_open_sent(config, frame)),
            Phase::OpenConfirm(_, _) => Some(hear_in_open_confirm(frame)),
            Phase::Established(context, _) => Some(hear_in_established(context, frame, place)),
            Phase::Idle | Phase::Connect | Phase::Active => None,
        }
    }

    /// The effect of a header with a fault: none before the connection is up.
    #[inline(never)]
    pub(crate) fn hear_fault<'a>(&self, fault: HeadFault) -> Option<Heard<'a>>
        ensures { IsFaultOf self.now fault result }
    {
        if self.listens() {
            Some(Heard::Refused(fault.answer()))
        } else {
            None
        }
    }
}
