//! The moves of a schedule.

ghost use Rattle.std.specs.Prelude.{◌≡◌, true, [], ◌∷◌, IfOk, OnOk};
ghost use Rattle.std.specs.List.{All};
ghost use Rattle.bgp_session.specs.Prelude.{CanBeSet, SendsRanges, HaveSentRanges, RoundHasReasons, HearsFronts, both_wide, Rests, Plays, Passes, IsReported, calls_behind, sights_behind, observed, failed_after, failed_behind, Handed, Grows, HasAnswered, trace, calls_in, sights_in, joined_if, can_join, delivers, moved, cut_behind, played};

use crate::moves::Move;
use crate::observer::{Nobody, Observer};
use crate::pairing::Pairing;
use crate::report::Report;
use crate::side::Side;
use crate::speaker::take_front;
use crate::wire::Wire;
use bgp_machine::Event;
use bgp_open::Config;
use bgp_wire::List;
use std::alloc::{AllocError, Global};

/// The octets that pass a wire at once.
const PIECE: usize = 4096;

/// Connects both sides, where both seek a connection and there is none.
fn join<W: Wire, O: Observer>(
    alloc: Global,
    pairing: &mut Pairing,
    wire: &mut W,
    answers: &mut List<bool>,
    observer: &mut O,
) -> Result<(), AllocError>
    ensures plays { OnOk result (Plays (record { honest = W.honest wire.old; after = O.after; old = answers.old; new = answers.new; trace_old = trace (W.failed wire.old) (W.calls wire.old) (O.seen observer.old); trace_new = trace (W.failed wire.new) (W.calls wire.new) (O.seen observer.new) })
        (joined_if (can_join pairing.old) pairing.old) pairing.new) }
    ensures rests { Rests pairing.old → OnOk result (Rests pairing.new) }
    ensures honest { W.honest wire.new ≡ W.honest wire.old }
{
    if !pairing.can_join() {
        return Ok(());
    }
    let joined = wire.join();
    answers.push(joined)?;
    pairing.connect(alloc, joined, observer)
}

/// Lets the wire pass octets, and overwrite them with what arrived.
fn pass_octets<W: Wire>(side: Side, octets: &mut Vec<u8>, wire: &mut W) -> bool
    ensures same { W.honest wire.old ≡ true → result ≡ true → octets.new.items ≡ octets.old.items }
    ensures honest { W.honest wire.new ≡ W.honest wire.old }
    ensures failed { W.failed wire.new ≡ failed_after (W.failed wire.old) result }
    ensures kept { Grows (W.calls wire.old) (W.calls wire.new) (Handed side octets.old.items result ∷ []) }
{
    wire.pass(side, octets.as_mut_slice())
}

/// Passes a piece to a side. Answers whether it passed; where it didn't, the connection is lost.
fn pass<W: Wire, O: Observer>(
    alloc: Global,
    pairing: &mut Pairing,
    side: Side,
    piece: &mut Vec<u8>,
    wire: &mut W,
    answers: &mut List<bool>,
    observer: &mut O,
) -> Result<bool, AllocError>
    requires rests { Rests pairing.old }
    ensures passes { IfOk result (λ passed. Passes (record { honest = W.honest wire.old; after = O.after; old = answers.old; new = answers.new; trace_old = trace (W.failed wire.old) (W.calls wire.old) (O.seen observer.old); trace_new = trace (W.failed wire.new) (W.calls wire.new) (O.seen observer.new) })
        passed side piece.old.items pairing.old pairing.new) }
    ensures rests { OnOk result (Rests pairing.new) }
    ensures honest { W.honest wire.new ≡ W.honest wire.old }
{
    let passed = pass_octets(side, piece, wire);
    answers.push(passed)?;
    if passed {
        pairing.feed(alloc, side, piece, observer)?;
    } else {
        pairing.lose(alloc, observer)?;
    }
    Ok(passed)
}

/// Delivers up to a number of the octets in flight towards a side, piece by piece, until it has left.
fn deliver<W: Wire, O: Observer>(
    alloc: Global,
    pairing: &mut Pairing,
    side: Side,
    count: u16,
    wire: &mut W,
    answers: &mut List<bool>,
    observer: &mut O,
) -> Result<(), AllocError>
    requires rests { Rests pairing.old }
    ensures plays { OnOk result (Plays (record { honest = W.honest wire.old; after = O.after; old = answers.old; new = answers.new; trace_old = trace (W.failed wire.old) (W.calls wire.old) (O.seen observer.old); trace_new = trace (W.failed wire.new) (W.calls wire.new) (O.seen observer.new) })
        (delivers side count pairing.old) pairing.new) }
    ensures rests { OnOk result (Rests pairing.new) }
    ensures honest { W.honest wire.new ≡ W.honest wire.old }
{
    let mut octets = pairing.draw(side, count as usize)?;
    'pieces: while !octets.is_empty() && !pairing.has_left(side) {
        let mut piece = take_front(&mut octets, PIECE)?;
        if !pass(alloc, pairing, side, &mut piece, wire, answers, observer)? {
            return Ok(());
        }
    }
    Ok(())
}

/// Makes a move.
fn make<W: Wire, O: Observer>(
    alloc: Global,
    pairing: &mut Pairing,
    one: &Move,
    wire: &mut W,
    answers: &mut List<bool>,
    observer: &mut O,
) -> Result<(), AllocError>
    requires rests { Rests pairing.old }
    ensures plays { OnOk result (Plays (record { honest = W.honest wire.old; after = O.after; old = answers.old; new = answers.new; trace_old = trace (W.failed wire.old) (W.calls wire.old) (O.seen observer.old); trace_new = trace (W.failed wire.new) (W.calls wire.new) (O.seen observer.new) })
        (moved one.now pairing.old) pairing.new) }
    ensures ranges { OnOk result (SendsRanges pairing.old one.now) }
    ensures rests { OnOk result (Rests pairing.new) }
    ensures honest { W.honest wire.new ≡ W.honest wire.old }
{
    match one {
        Move::Start(side) => pairing.tell(alloc, *side, Event::Start, observer),
        Move::Stop(side) => pairing.tell(alloc, *side, Event::Stop, observer),
        Move::Join => join(alloc, pairing, wire, answers, observer),
        Move::Refuse(side) => pairing.refuse(alloc, *side, observer),
        Move::Deliver(side, count) => {
            deliver(alloc, pairing, *side, *count, wire, answers, observer)
        }
        Move::Lose => pairing.lose(alloc, observer),
        Move::Expire(side, timer) => pairing.tell(alloc, *side, Event::Expired(*timer), observer),
        Move::Send(side, update) => pairing.send(alloc, *side, update, observer),
    }
}

/// Cuts the wire where a connection that was up no longer is.
#[tactic(auto, using(crate::proofs::Plays::grows_none))]
fn cut_behind<W: Wire, O: Observer>(
    stood: bool,
    stands: bool,
    wire: &mut W,
    observer: &mut O,
) -> Result<(), AllocError>
    ensures failed { W.failed wire.new ≡ W.failed wire.old }
    ensures honest { W.honest wire.new ≡ W.honest wire.old }
    ensures kept { Grows (W.calls wire.old) (W.calls wire.new) (calls_in (cut_behind stood stands)) }
    ensures seen { OnOk result (O.seen observer.new ≡ observed O.after (O.seen observer.old) (sights_in (cut_behind stood stands))) }
{
    if stood && !stands {
        wire.cut();
        return observer.ended();
    }
    Ok(())
}

/// Makes a move, and cuts the wire where that ends the connection.
fn play<W: Wire, O: Observer>(
    alloc: Global,
    pairing: &mut Pairing,
    one: &Move,
    wire: &mut W,
    answers: &mut List<bool>,
    observer: &mut O,
) -> Result<(), AllocError>
    requires rests { Rests pairing.old }
    ensures plays { OnOk result (Plays (record { honest = W.honest wire.old; after = O.after; old = answers.old; new = answers.new; trace_old = trace (W.failed wire.old) (W.calls wire.old) (O.seen observer.old); trace_new = trace (W.failed wire.new) (W.calls wire.new) (O.seen observer.new) })
        (played one.now pairing.old) pairing.new) }
    ensures ranges { OnOk result (SendsRanges pairing.old one.now) }
    ensures rests { OnOk result (Rests pairing.new) }
    ensures honest { W.honest wire.new ≡ W.honest wire.old }
{
    let stood = pairing.stands();
    observer.begun(one)?;
    make(alloc, pairing, one, wire, answers, observer)?;
    cut_behind(stood, pairing.stands(), wire, observer)
}

/// Makes all moves, and reports.
fn run<W: Wire, O: Observer>(
    alloc: Global,
    a: Config,
    b: Config,
    moves: &[Move],
    wire: &mut W,
    observer: &mut O,
) -> Result<Report, AllocError>
    ensures reported { W.honest wire.old ≡ true → IfOk result (IsReported a b moves.now) }
    ensures ranges { W.honest wire.old ≡ true → IfOk result (λ report. HaveSentRanges a b moves.now report.answers) }
    ensures failures { IfOk result (λ report. W.failed wire.new ≡ failed_behind (W.failed wire.old) report.answers) }
    ensures asked { IfOk result (λ report. HasAnswered (W.calls wire.old) (W.calls wire.new) report.answers) }
    ensures handed { W.honest wire.old ≡ true → IfOk result (λ report. Grows (W.calls wire.old) (W.calls wire.new) (calls_behind a b moves.now report.answers)) }
    ensures seen { W.honest wire.old ≡ true → IfOk result (λ report. O.seen observer.new ≡ observed O.after (O.seen observer.old) (sights_behind a b moves.now report.answers)) }
    ensures honest { W.honest wire.new ≡ W.honest wire.old }
{
    let mut pairing = Pairing::new(alloc, a, b);
    let mut answers = List::new(alloc);
    'moves: for one in moves {
        play(alloc, &mut pairing, one, wire, &mut answers, observer)?;
    }
    pairing.report(alloc, answers)
}

/// Any configuration can be set.
fn know(config: &Config)
    ensures { CanBeSet config.now }
{
    let _local_as = config.local_as();
    let _hold = config.hold();
    let _id = config.id();
}

/// Runs two speakers against each other over a wire, move by move, and reports what each sent and received. Both
/// sessions begin in Idle.
///
/// Octets pass in pieces of 4096. A connection ends when both sides have left it, and the wire is cut then.
///
/// # Errors
/// `AllocError` where an allocation failed.
pub fn run_pair<W: Wire>(
    alloc: Global,
    a: Config,
    b: Config,
    moves: &[Move],
    wire: &mut W,
) -> Result<Report, AllocError>
    // Over an honest wire the report is that of these moves with the answers that the wire gave.
    ensures reported { W.honest wire.old ≡ true → IfOk result (IsReported a b moves.now) }
    // Then each NOTIFICATION has one of four reasons, and what was received is a prefix of what was sent.
    ensures notifications { W.honest wire.old ≡ true → IfOk result (λ report. All (RoundHasReasons a b moves.now) report.rounds) }
    ensures updates { W.honest wire.old ≡ true → IfOk result (λ report. All (HearsFronts (both_wide a b)) report.rounds) }
    // Whatever the wire, its failures rose by the answers that are false.
    ensures failures { IfOk result (λ report. W.failed wire.new ≡ failed_behind (W.failed wire.old) report.answers) }
    // Where the wire keeps its calls, they are those that gave the answers of the report.
    ensures asked { IfOk result (λ report. HasAnswered (W.calls wire.old) (W.calls wire.new) report.answers) }
    // Over an honest wire its calls are just those of these moves, with these octets.
    ensures handed { W.honest wire.old ≡ true → IfOk result (λ report. Grows (W.calls wire.old) (W.calls wire.new) (calls_behind a b moves.now report.answers)) }
    ensures honest { W.honest wire.new ≡ W.honest wire.old }
{
    observe_pair(alloc, a, b, moves, wire, &mut Nobody)
}

/// As [`run_pair`], and reports the effects of each move to an observer while it is made.
///
/// # Errors
/// As `run_pair`, and where the observer's call fails.
pub fn observe_pair<W: Wire, O: Observer>(
    alloc: Global,
    a: Config,
    b: Config,
    moves: &[Move],
    wire: &mut W,
    observer: &mut O,
) -> Result<Report, AllocError>
    // Over an honest wire the report is that of these moves with the answers that the wire gave.
    ensures reported { W.honest wire.old ≡ true → IfOk result (IsReported a b moves.now) }
    // Then each NOTIFICATION has one of four reasons, and what was received is a prefix of what was sent.
    ensures notifications { W.honest wire.old ≡ true → IfOk result (λ report. All (RoundHasReasons a b moves.now) report.rounds) }
    ensures updates { W.honest wire.old ≡ true → IfOk result (λ report. All (HearsFronts (both_wide a b)) report.rounds) }
    // Whatever the wire, its failures rose by the answers that are false.
    ensures failures { IfOk result (λ report. W.failed wire.new ≡ failed_behind (W.failed wire.old) report.answers) }
    // Where the wire keeps its calls, they are those that gave the answers of the report.
    ensures asked { IfOk result (λ report. HasAnswered (W.calls wire.old) (W.calls wire.new) report.answers) }
    // Over an honest wire its calls are just those of these moves, with these octets.
    ensures handed { W.honest wire.old ≡ true → IfOk result (λ report. Grows (W.calls wire.old) (W.calls wire.new) (calls_behind a b moves.now report.answers)) }
    // Then all that these moves show was reported to the observer, in order, and nothing else.
    ensures seen { W.honest wire.old ≡ true → IfOk result (λ report. O.seen observer.new ≡ observed O.after (O.seen observer.old) (sights_behind a b moves.now report.answers)) }
    ensures honest { W.honest wire.new ≡ W.honest wire.old }
{
    know(&a);
    know(&b);
    run(alloc, a, b, moves, wire, observer)
}
