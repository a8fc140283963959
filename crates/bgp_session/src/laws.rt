//! Laws of one session, re-exported, and of all outcomes of two that are joined by two pipes. Each is the contract of a
//! function that does nothing.

ghost use Rattle.std.specs.Prelude.{◌≡◌, Bool, true, false, List, []};
ghost use Rattle.std.specs.List.{All};
ghost use Rattle.bgp_open.specs.Prelude.{Settings};
ghost use Rattle.bgp_session.specs.declared.moves.Move.{Move};
ghost use Rattle.bgp_session.specs.declared.report.Report.{Report};
ghost use Rattle.bgp_session.specs.declared.side.Side.{Side};
ghost use Rattle.bgp_session.specs.Prelude.{IsReported, rounds_of, end_of, CanBeSet, HaveSentRanges, world_behind, BothAgree, RoundHasReasons, HearsFronts, HeardAll, both_wide};

pub use bgp_machine::laws::{
    any_pieces_can_be_fed, any_pieces_can_be_pulled, cuts_change_nothing,
    cuts_do_as_octet_by_octet, established_is_behind_open_and_keepalive,
    events_leave_nothing_to_do, pulls_do_as_feeds, pulls_do_as_octet_by_octet,
};

/// Whatever is done, and whatever the wire answers: a session that has a context has the one that its speaker agrees on
/// with the other's OPEN, and where both have one, it is the same.
pub fn both_sides_agree()
    ensures { (a b : Settings) (moves : List Move) (answers : List Bool) → CanBeSet a → CanBeSet b → HaveSentRanges a b moves answers
        → BothAgree a b (world_behind a b moves answers) }
{}

/// A side sends a NOTIFICATION only for one of four reasons: the other's AS number isn't the configured one, or the
/// other has the same identifier inside one AS; or a move stops the side, or lets its Hold Timer expire.
pub fn only_these_notifications()
    ensures { (a b : Settings) (moves : List Move) (answers : List Bool) → CanBeSet a → CanBeSet b → HaveSentRanges a b moves answers
        → All (RoundHasReasons a b moves) (rounds_of (world_behind a b moves answers)) }
{}

/// In each round, what a side received is the received form of the first UPDATEs that the other sent, in order, and no
/// routes were lost to a message that was treated as a withdrawal.
pub fn what_is_heard_was_said()
    ensures { (a b : Settings) (moves : List Move) (answers : List Bool) → CanBeSet a → CanBeSet b → HaveSentRanges a b moves answers
        → All (HearsFronts (both_wide a b)) (rounds_of (world_behind a b moves answers)) }
{}

/// A side that hasn't left the connection, and towards which nothing is in flight, has received all that the other sent
/// in the last round.
pub fn all_is_heard()
    ensures { (a b : Settings) (moves : List Move) (answers : List Bool) (side : Side) → CanBeSet a → CanBeSet b → HaveSentRanges a b moves answers
        → (end_of side (world_behind a b moves answers)).left ≡ false → (end_of side (world_behind a b moves answers)).flight ≡ []
        → HeardAll (both_wide a b) side (world_behind a b moves answers) }
{}

/// The report of a schedule keeps to these laws: each NOTIFICATION has its reason, and what was received is a prefix of
/// what was sent.
pub fn reports_keep_to_the_laws()
    ensures notifications { (a b : Settings) (moves : List Move) (report : Report) → CanBeSet a → CanBeSet b → HaveSentRanges a b moves report.answers
        → IsReported a b moves report → All (RoundHasReasons a b moves) report.rounds }
    ensures updates { (a b : Settings) (moves : List Move) (report : Report) → CanBeSet a → CanBeSet b → HaveSentRanges a b moves report.answers
        → IsReported a b moves report → All (HearsFronts (both_wide a b)) report.rounds }
{}
