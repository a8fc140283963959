//! Passing a message on.

ghost use Rattle.std.specs.Prelude.{◌≡◌, ◌+◌, ◌<◌, ◌≤◌, ◌++◌, ℕ, List, false, length, drop, option_map};
ghost use Rattle.bgp_wire.specs.Prelude.{AreOctets};
ghost use Rattle.bgp_frame.specs.Prelude.{IsFrameIn, IsLength, IsLengthIn, message_in, notification_of_view, short_value};
ghost use Rattle.bgp_frame.specs.declared.kind.WideKind.TheVariants as wide;
ghost use Rattle.bgp_open.specs.Prelude.{reading_of, said_of};
ghost use Rattle.bgp_terms.specs.Prelude.{Agreed, wide_terms};
ghost use Rattle.bgp_refresh.specs.declared.fault.RefreshFault.TheVariants as fault;
ghost use Rattle.bgp_refresh.specs.Prelude.{refresh_notification};
ghost use mathlib.Core.Logic.{inl, inr};
ghost use Rattle.bgp_msg.specs.Prelude.{out_of};
ghost use Rattle.bgp_wide.specs.Prelude.{out_in, refreshed};
ghost use Rattle.bgp_clean.specs.Prelude.{WideMessage, octets_handed_in};
ghost use Rattle.bgp_guard.specs.Prelude.{runs, misplaced, answered, agreed, answers_to, cleans, comes_of, terms_in, done, first_as_in, handed_on, has_zero, limits_in, neighbour_as, number_in, is_of_zero, refused_by, said_as, stage_behind, handed_to, is_dropped, spoken_of, types, CameBy, IsAnswered, IsPassedOn, half_with, HasRoom, half_behind, said_in, sight_with, CanBeRead, IsReadIn};

use crate::answers::{bad_peer_as, not_offered, reject, reset, unexpected};
use crate::came::Came;
use crate::line::Line;
use crate::rules::Rules;
use crate::stage::{DRAIN_SECONDS, Stage};
use crate::way::WAY_MAX;
use bgp_clean::{Cleaned, Limits, clean_in};
use bgp_frame::{Frame, Kind, NotificationView, ShortNotification, WideKind};
use bgp_msg::{OutcomeView, view_frame};
use bgp_numbers::error;
use bgp_open::{Context, Peer, agreed_context, view_open};
use bgp_refresh::{RefreshFault, view_refresh};
use bgp_terms::{Offers, Refreshes, WideTerms, offers_in, terms};
use bgp_update::UpdateView;
use bgp_wire::Page;

/// Until both OPENs were passed on: only messages are judged then whose outcome is the same in any context.
const NO_CONTEXT: Context = Context {
    internal: false,
    as4: false,
    ip4: false,
    ip6: false,
    hold: 0,
};

/// What both sides agreed on.
fn context_in(this: &Line, other: &Line) -> Context
    ensures { result ≡ (agreed (option_map spoken_of this.now.offers) (option_map spoken_of other.now.offers)).context }
{
    match (&this.offers, &other.offers) {
        (Some(ours), Some(theirs)) => agreed_context(&ours.peer, &theirs.peer),
        _ => NO_CONTEXT,
    }
}

/// What both sides agreed on for what one sends to the other.
fn terms_in(this: &Line, other: &Line) -> WideTerms
    ensures { wide_terms result ≡ agreed (option_map spoken_of this.now.offers) (option_map spoken_of other.now.offers) }
{
    match (&this.offers, &other.offers) {
        (Some(ours), Some(theirs)) => WideTerms {
            context: agreed_context(&ours.peer, &theirs.peer),
            ..terms(theirs, ours)
        },
        _ => WideTerms::with_refresh(NO_CONTEXT, Refreshes::None),
    }
}

/// The Hold Time that both agreed on: 0 where an OPEN is missing.
pub(crate) fn agreed_hold(this: &Line, other: &Line) -> u16
    ensures { result ≡ (agreed (option_map spoken_of this.now.offers) (option_map spoken_of other.now.offers)).context.hold }
{
    context_in(this, other).hold
}

/// Whether a message is an OPEN of AS 0.
fn has_zero(kind: Kind, body: &[u8]) -> bool
    requires { IsLength kind (19 + length body.now) }
    ensures { result ≡ has_zero kind body.now }
{
    match kind {
        Kind::Open => match view_open(body) {
            Ok(view) => is_of_zero(&view.peer()),
            Err(_) => false,
        },
        Kind::Update | Kind::Notification | Kind::Keepalive => false,
    }
}

/// Whether an OPEN says AS 0.
fn is_of_zero(peer: &Peer) -> bool
    ensures { result ≡ is_of_zero (said_of peer.now) }
{
    peer.as_field == 0 || peer.as_number() == 0
}

/// Why nothing is passed on of a message that is in place: an OPEN of AS 0, or a ROUTE-REFRESH that the other side doesn't
/// offer.
fn refused_by(this: &Line, other: &Line, frame: Frame<'_, WideKind>) -> Option<ShortNotification>
    requires { IsLengthIn types frame.kind (19 + length frame.body.now) }
    ensures { (h k : List ℕ) (stage : Stage) → option_map short_value result ≡ refused_by (sight_with h k stage this.now other.now) frame.entry.kind frame.entry.body.now }
{
    match frame.kind {
        WideKind::Base(kind) if has_zero(kind, frame.body) => Some(bad_peer_as()),
        WideKind::Base(_) => None,
        WideKind::Refresh => match terms_in(this, other).refresh {
            Refreshes::None => Some(not_offered()),
            Refreshes::Plain | Refreshes::Enhanced => None,
        },
    }
}

/// The subcode that answers a message of this kind, where it is out of place.
fn misplaced(this: &Line, other: &Line, kind: WideKind) -> Option<u8>
    ensures { (h k : List ℕ) (stage : Stage) → result ≡ misplaced (sight_with h k stage this.now other.now) kind }
{
    let both = this.offers.is_some() && other.offers.is_some();
    let is_misplaced = match kind {
        WideKind::Base(Kind::Open) => this.offers.is_some(),
        WideKind::Base(Kind::Notification) => false,
        WideKind::Base(Kind::Keepalive) => !both,
        WideKind::Base(Kind::Update) | WideKind::Refresh => !(both && this.ready),
    };
    if !is_misplaced {
        None
    } else if !both {
        Some(error::UNEXPECTED_IN_OPEN_SENT)
    } else if this.ready {
        Some(error::UNEXPECTED_IN_ESTABLISHED)
    } else {
        Some(error::UNEXPECTED_IN_OPEN_CONFIRM)
    }
}

/// What a passed-on OPEN says and offers.
fn offers_of(whole: &[u8]) -> Option<Offers>
    requires { 29 ≤ length whole.now }
    ensures { option_map spoken_of result ≡ said_in (reading_of (drop 19 whole.now)) }
{
    match view_open(&whole[19..]) {
        Ok(view) => Some(offers_in(&view)),
        Err(_) => None,
    }
}

/// The least length of an UPDATE, and the length of a ROUTE-REFRESH that is passed on.
const UPDATE_LEN: usize = 23;

/// Whether nothing is passed on of a message that was cleaned: of an UPDATE whose routes stay inside, or that a
/// KEEPALIVE replaces, as it does a ROUTE-REFRESH without effect.
fn is_dropped(silent: bool, kind: WideKind, cleaned: &[u8]) -> bool
    ensures { (ns : List WideMessage) → IsReadIn kind ns cleaned.now → result ≡ is_dropped (said_as silent kind ns) }
{
    match kind {
        WideKind::Base(Kind::Update) => silent || cleaned.len() < UPDATE_LEN,
        WideKind::Refresh => cleaned.len() < UPDATE_LEN,
        WideKind::Base(Kind::Open | Kind::Notification | Kind::Keepalive) => false,
    }
}

/// Queues a message after all that is queued for a side.
fn put_on(cleaned: &[u8], line: &mut Line)
    requires { length line.old.way + length cleaned.now ≤ WAY_MAX }
    ensures handed { (held : List ℕ) (agreed : Agreed) (ns : List WideMessage) → 0 < length ns → cleaned.now ≡ octets_handed_in agreed ns → half_with held line.new ≡ handed_to agreed ns (half_with held line.old) }
    ensures way { line.new.way ≡ line.old.way ++ cleaned.now }
{
    line.way.put(cleaned);
    line.quiet = 0;
    line.owed = false;
}

/// The state of a guard and a side after a message that is passed on.
fn go_on(kind: WideKind, cleaned: &[u8], stage: &mut Stage, this: &mut Line)
    requires { CanBeRead kind cleaned.now }
    ensures stage { stage.new ≡ stage_behind kind stage.old }
    ensures this { (h : List ℕ) (ns : List WideMessage) → IsReadIn kind ns cleaned.now → half_with h this.new ≡ half_behind kind ns (half_with h this.old) }
    ensures way { this.new.way ≡ this.old.way }
{
    match kind {
        WideKind::Base(Kind::Open) => this.offers = offers_of(cleaned),
        WideKind::Base(Kind::Update) | WideKind::Refresh => {}
        WideKind::Base(Kind::Notification) => *stage = Stage::Ends(DRAIN_SECONDS),
        WideKind::Base(Kind::Keepalive) => this.ready = true,
    }
}

/// Passes on the cleaned form of a whole message.
fn hand_on(
    silent: bool,
    kind: WideKind,
    whole: &[u8],
    cleaned: &[u8],
    stage: &mut Stage,
    this: &mut Line,
    other: &mut Line,
) -> Came
    requires least { CanBeRead kind cleaned.now }
    requires most { length cleaned.now ≤ 12288 }
    requires room { length other.old.way ≤ 53248 }
    ensures after { (h k : List ℕ) (ns : List WideMessage) → cleaned.now ≡ octets_handed_in (terms_in (sight_with h k stage.old this.old other.old)) ns → IsReadIn kind ns cleaned.now
        → sight_with h k stage.new this.new other.new ≡ handed_on silent (sight_with h k stage.old this.old other.old) kind ns }
    ensures told { (agreed : Agreed) (ns : List WideMessage) → cleaned.now ≡ octets_handed_in agreed ns → IsReadIn kind ns cleaned.now → IsPassedOn agreed kind whole.now (said_as silent kind ns) result }
    ensures room { length other.new.way ≤ 65536 }
    ensures this_way { this.new.way ≡ this.old.way }
{
    go_on(kind, cleaned, stage, this);
    if is_dropped(silent, kind, cleaned) {
        other.owed = true;
        return Came::Dropped { kind };
    }
    put_on(cleaned, other);
    Came::HandedOn {
        kind,
        same: cleaned == whole,
    }
}

/// The NOTIFICATION for a ROUTE-REFRESH of fewer than 23 octets, with its Length.
fn short_answer(whole: &[u8]) -> NotificationView<'_>
    requires { 19 ≤ length whole.now }
    ensures { (body : List ℕ) → IsFrameIn types (record { kind = wide.Refresh; body = body }) whole.entry.now → notification_of_view result ≡ refresh_notification fault.Short body }
{
    NotificationView {
        code: error::MESSAGE_HEADER,
        subcode: error::BAD_MESSAGE_LENGTH,
        info: &whole[16..18],
    }
}

/// The octets that a NOTIFICATION has room for as data.
const ANSWER_ROOM: usize = 4075;

/// The NOTIFICATION for a BoRR or an EoRR of another length than 23 octets, with the message as far as there is room for it.
fn length_answer(whole: &[u8]) -> NotificationView<'_>
    requires { 19 ≤ length whole.now }
    ensures { (body : List ℕ) → IsFrameIn types (record { kind = wide.Refresh; body = body }) whole.entry.now → notification_of_view result ≡ refresh_notification fault.Length body }
{
    NotificationView {
        code: error::ROUTE_REFRESH_MESSAGE,
        subcode: error::INVALID_REFRESH_LENGTH,
        info: &whole[..ANSWER_ROOM.min(whole.len())],
    }
}

/// The NOTIFICATION for a ROUTE-REFRESH that is refused.
fn refresh_answer(fault: RefreshFault, whole: &[u8]) -> NotificationView<'_>
    requires { 19 ≤ length whole.now }
    ensures { (body : List ℕ) → IsFrameIn types (record { kind = wide.Refresh; body = body }) whole.entry.now → notification_of_view result ≡ refresh_notification fault body }
{
    match fault {
        RefreshFault::Short => short_answer(whole),
        RefreshFault::Length => length_answer(whole),
    }
}

/// Answers a message of RFC 4271 of which nothing is passed on.
fn refuse_base(
    ctx: &Context,
    frame: Frame<'_>,
    stage: &mut Stage,
    this: &mut Line,
    other: &mut Line,
) -> Came
    requires allowed { IsLength frame.kind (19 + length frame.body.now) }
    requires room { length this.old.way ≤ 65536 }
    requires others_room { length other.old.way ≤ 65536 }
    ensures after { (h k : List ℕ) → sight_with h k stage.new this.new other.new
        ≡ answered (sight_with h k stage.old this.old other.old) (answers_to (inl (out_of ctx.now (message_in frame.entry)))) }
    ensures told { IsAnswered (answers_to (inl (out_of ctx.now (message_in frame.entry)))).this result }
    ensures over { runs stage.new ≡ false }
{
    let mut place = UpdateView::empty();
    match view_frame(ctx, frame, &mut place) {
        OutcomeView::Reset(why) => reset(why, stage, this, other),
        _ => reject(stage, this, other),
    }
}

/// Answers a ROUTE-REFRESH of which nothing is passed on.
fn refuse_refresh(
    refreshes: Refreshes,
    body: &[u8],
    whole: &[u8],
    stage: &mut Stage,
    this: &mut Line,
    other: &mut Line,
) -> Came
    requires framed { IsFrameIn types (record { kind = wide.Refresh; body = body.now }) whole.now }
    requires room { length this.old.way ≤ 65536 }
    requires others_room { length other.old.way ≤ 65536 }
    ensures after { (h k : List ℕ) → sight_with h k stage.new this.new other.new
        ≡ answered (sight_with h k stage.old this.old other.old) (answers_to (inr (refreshed refreshes body.now))) }
    ensures told { IsAnswered (answers_to (inr (refreshed refreshes body.now))).this result }
    ensures over { runs stage.new ≡ false }
{
    match view_refresh(refreshes, body) {
        Err(fault) => reset(refresh_answer(fault, whole), stage, this, other),
        Ok(_) => reject(stage, this, other),
    }
}

/// Answers a message of which nothing is passed on.
fn refuse(
    agreed: &WideTerms,
    frame: Frame<'_, WideKind>,
    whole: &[u8],
    stage: &mut Stage,
    this: &mut Line,
    other: &mut Line,
) -> Came
    requires allowed { IsLengthIn types frame.kind (19 + length frame.body.now) }
    requires framed { IsFrameIn types (message_in frame) whole.now }
    requires room { length this.old.way ≤ 65536 }
    requires others_room { length other.old.way ≤ 65536 }
    ensures after { (h k : List ℕ) → sight_with h k stage.new this.new other.new
        ≡ answered (sight_with h k stage.old this.old other.old) (answers_to (out_in (wide_terms agreed.now) (message_in frame.entry))) }
    ensures told { IsAnswered (answers_to (out_in (wide_terms agreed.now) (message_in frame.entry))).this result }
    ensures over { runs stage.new ≡ false }
{
    let Frame { kind, len, body } = frame;
    match kind {
        WideKind::Base(kind) => {
            refuse_base(
                &agreed.context,
                Frame { kind, len, body },
                stage,
                this,
                other,
            )
        }
        WideKind::Refresh => refuse_refresh(agreed.refresh, body, whole, stage, this, other),
    }
}

/// The AS number by which a session knows a speaker.
fn number_in(ctx: &Context, peer: &Peer) -> u32
    ensures { result ≡ number_in ctx.now (said_of peer.now) }
{
    if ctx.as4 {
        peer.as_number()
    } else {
        u32::from(peer.as_field)
    }
}

/// The AS number of the neighbour, where its paths have to begin with it.
fn neighbour_as(asked: bool, ctx: &Context, offers: &Option<Offers>) -> Option<u32>
    ensures { result ≡ neighbour_as asked ctx.now (option_map spoken_of offers.now) }
{
    if !asked {
        return None;
    }
    match offers {
        Some(offers) => Some(number_in(ctx, &offers.peer)),
        None => None,
    }
}

/// The AS number that the paths of a side begin with.
fn first_as_in(rules: &Rules, ctx: &Context, offers: &Option<Offers>) -> Option<u32>
    ensures { result ≡ first_as_in rules.now ctx.now (option_map spoken_of offers.now) }
{
    match rules.limits.first_as {
        Some(number) => Some(number),
        None => neighbour_as(rules.first_as && !ctx.internal, ctx, offers),
    }
}

/// What the owner requires of the announcements of a side, in a context and by what its OPEN says.
fn limits_in(rules: &Rules, ctx: &Context, offers: &Option<Offers>) -> Limits
    ensures { result ≡ limits_in rules.now ctx.now (option_map spoken_of offers.now) }
{
    Limits {
        local_pref: rules.limits.local_pref && ctx.internal,
        first_as: first_as_in(rules, ctx, offers),
        ..rules.limits
    }
}

/// Cleans a whole message that is in place, and passes it on or answers it.
fn pass(
    rules: &Rules,
    silent: bool,
    frame: Frame<'_, WideKind>,
    whole: &[u8],
    stage: &mut Stage,
    this: &mut Line,
    other: &mut Line,
) -> Came
    requires allowed { IsLengthIn types frame.kind (19 + length frame.body.now) }
    requires octets { AreOctets whole.now }
    requires framed { IsFrameIn types (message_in frame) whole.now }
    requires room { length this.old.way ≤ 65536 }
    requires others_room { length other.old.way ≤ 53248 }
    ensures after { (h k : List ℕ) → sight_with h k stage.new this.new other.new
        ≡ done silent (sight_with h k stage.old this.old other.old) frame.entry.kind (cleans rules.now (sight_with h k stage.old this.old other.old) (message_in frame.entry)) }
    ensures told { (h k : List ℕ) → CameBy silent (sight_with h k stage.old this.old other.old) (message_in frame.entry)
        (cleans rules.now (sight_with h k stage.old this.old other.old) (message_in frame.entry)) result }
    ensures room { HasRoom stage.new this.new.way × HasRoom stage.new other.new.way }
{
    let agreed = terms_in(this, other);
    let mut page: Page<12288> = Page::new();
    match clean_in(
        Refreshes::Plain,
        &agreed,
        &rules.drops,
        &limits_in(rules, &agreed.context, &this.offers),
        true,
        frame,
        &mut page,
    ) {
        Ok(Cleaned::HandedOn) => {
            let _len = page.count();
            hand_on(
                silent,
                frame.kind,
                whole,
                page.as_slice(),
                stage,
                this,
                other,
            )
        }
        Ok(Cleaned::Ends(_)) => refuse(&agreed, frame, whole, stage, this, other),
        // Doesn't happen: there is room for each message.
        Err(_) => Came::Nothing,
    }
}

/// Passes a whole message on, or answers it.
pub(crate) fn take(
    rules: &Rules,
    silent: bool,
    frame: Frame<'_, WideKind>,
    whole: &[u8],
    stage: &mut Stage,
    this: &mut Line,
    other: &mut Line,
) -> Came
    requires allowed { IsLengthIn types frame.kind (19 + length frame.body.now) }
    requires octets { AreOctets whole.now }
    requires framed { IsFrameIn types (message_in frame) whole.now }
    requires room { length this.old.way ≤ 65536 }
    requires others_room { length other.old.way ≤ 53248 }
    ensures after { (h k : List ℕ) → sight_with h k stage.new this.new other.new
        ≡ done silent (sight_with h k stage.old this.old other.old) frame.entry.kind (comes_of rules.now (sight_with h k stage.old this.old other.old) (message_in frame.entry)) }
    ensures told { (h k : List ℕ) → CameBy silent (sight_with h k stage.old this.old other.old) (message_in frame.entry)
        (comes_of rules.now (sight_with h k stage.old this.old other.old) (message_in frame.entry)) result }
    ensures room { HasRoom stage.new this.new.way × HasRoom stage.new other.new.way }
{
    match misplaced(this, other, frame.kind) {
        Some(subcode) => {
            let why = unexpected(subcode, frame.kind);
            reset(why.view(), stage, this, other)
        }
        None => match refused_by(this, other, frame) {
            Some(why) => reset(why.view(), stage, this, other),
            None => pass(rules, silent, frame, whole, stage, this, other),
        },
    }
}
