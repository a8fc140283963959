//! The NOTIFICATIONs that a guard sends itself.

ghost use Rattle.std.specs.Prelude.{◌≡◌, ◌≤◌, ◌++◌, ℕ, List, length};
ghost use Rattle.bgp_frame.specs.Prelude.{notification_of_view, short_value, wide_code};
ghost use Rattle.bgp_guard.specs.Prelude.{notice, reset_over, rejected, shutdown, expired, bad_peer_as, not_offered, unexpected, answered, dismissed, reset_by, reject_both, told_late, IsAnswered, half_with, sight_with};

use crate::came::Came;
use crate::line::Line;
use crate::stage::{DRAIN_SECONDS, Stage};
use crate::way::Way;
use bgp_frame::{Kind, NotificationView, ShortNotification, WideKind, head};
use bgp_numbers::{error, message};

/// Queues a NOTIFICATION after all that is queued for a side.
pub(crate) fn tell(why: NotificationView<'_>, way: &mut Way)
    requires { length way.old ≤ 65536 }
    ensures { way.new ≡ way.old ++ notice (notification_of_view why.entry) }
{
    way.put(&head(Kind::Notification, (2 + why.info.len()) as u16));
    way.put(&[why.code, why.subcode]);
    way.put(why.info);
}

/// The side was reset from the other side.
pub(crate) fn reset_over() -> ShortNotification
    ensures { short_value result ≡ reset_over }
{
    ShortNotification::plain(error::CEASE, error::ADMINISTRATIVE_RESET)
}

/// There is no session for the side.
pub(crate) fn rejected() -> ShortNotification
    ensures { short_value result ≡ rejected }
{
    ShortNotification::plain(error::CEASE, error::CONNECTION_REJECTED)
}

/// The owner ends the session.
fn shutdown() -> ShortNotification
    ensures { short_value result ≡ shutdown }
{
    ShortNotification::plain(error::CEASE, error::ADMINISTRATIVE_SHUTDOWN)
}

/// What is queued for the other side hasn't moved for the Hold Time, or an OPEN is missing.
pub(crate) fn expired() -> ShortNotification
    ensures { short_value result ≡ expired }
{
    ShortNotification::plain(error::HOLD_TIMER_EXPIRED, error::UNSPECIFIC)
}

/// An OPEN says AS 0 (RFC 7607).
pub(crate) fn bad_peer_as() -> ShortNotification
    ensures { short_value result ≡ bad_peer_as }
{
    ShortNotification::plain(error::OPEN_MESSAGE, error::BAD_PEER_AS)
}

/// The type octet of a kind (RFC 4271, section 4.1; RFC 2918, section 3).
fn code_of(kind: WideKind) -> u8
    ensures { result ≡ wide_code kind }
{
    match kind {
        WideKind::Base(kind) => kind as u8,
        WideKind::Refresh => message::ROUTE_REFRESH,
    }
}

/// A message of this kind is out of place.
pub(crate) fn unexpected(subcode: u8, kind: WideKind) -> ShortNotification
    ensures { short_value result ≡ unexpected subcode kind }
{
    ShortNotification::with_octet(error::FINITE_STATE_MACHINE, subcode, code_of(kind))
}

/// A ROUTE-REFRESH, which the other side doesn't offer.
pub(crate) fn not_offered() -> ShortNotification
    ensures { short_value result ≡ not_offered }
{
    ShortNotification::with_octet(
        error::MESSAGE_HEADER,
        error::BAD_MESSAGE_TYPE,
        message::ROUTE_REFRESH,
    )
}

/// Answers a side at the OPEN timeout.
pub(crate) fn tell_late(line: &mut Line)
    requires { length line.old.way ≤ 65536 }
    ensures { (held : List ℕ) → half_with held line.new ≡ told_late (half_with held line.old) }
{
    let why = match line.offers {
        None => expired(),
        Some(_) => reset_over(),
    };
    tell(why.view(), &mut line.way);
}

/// Sends a side that is up that the owner ends the session. One that isn't gets nothing.
pub(crate) fn dismiss(line: &mut Line)
    requires { length line.old.way ≤ 65536 }
    ensures { (held : List ℕ) → half_with held line.new ≡ dismissed (half_with held line.old) }
{
    if line.stands {
        tell(shutdown().view(), &mut line.way);
    } else {
        line.way.clear();
    }
}

/// Sends each side its NOTIFICATION, and ends.
fn answer(
    why: NotificationView<'_>,
    others: ShortNotification,
    stage: &mut Stage,
    this: &mut Line,
    other: &mut Line,
) -> Came
    requires room { length this.old.way ≤ 65536 }
    requires others_room { length other.old.way ≤ 65536 }
    ensures after { (h k : List ℕ) → sight_with h k stage.new this.new other.new
        ≡ answered (sight_with h k stage.old this.old other.old) (record { this = notification_of_view why.entry; other = short_value others }) }
    ensures told { IsAnswered (notification_of_view why.entry) result }
{
    tell(why, &mut this.way);
    tell(others.view(), &mut other.way);
    *stage = Stage::Ends(DRAIN_SECONDS);
    Came::Answered {
        code: why.code,
        subcode: why.subcode,
    }
}

/// Sends a side its error, and the other that there was a reset.
pub(crate) fn reset(
    why: NotificationView<'_>,
    stage: &mut Stage,
    this: &mut Line,
    other: &mut Line,
) -> Came
    requires room { length this.old.way ≤ 65536 }
    requires others_room { length other.old.way ≤ 65536 }
    ensures after { (h k : List ℕ) → sight_with h k stage.new this.new other.new
        ≡ answered (sight_with h k stage.old this.old other.old) (reset_by (notification_of_view why.entry)) }
    ensures told { IsAnswered (notification_of_view why.entry) result }
{
    answer(why, reset_over(), stage, this, other)
}

/// Sends both sides that there is no session for them.
pub(crate) fn reject(stage: &mut Stage, this: &mut Line, other: &mut Line) -> Came
    requires room { length this.old.way ≤ 65536 }
    requires others_room { length other.old.way ≤ 65536 }
    ensures after { (h k : List ℕ) → sight_with h k stage.new this.new other.new ≡ answered (sight_with h k stage.old this.old other.old) reject_both }
    ensures told { IsAnswered rejected result }
{
    let why = rejected();
    answer(why.view(), why, stage, this, other)
}
