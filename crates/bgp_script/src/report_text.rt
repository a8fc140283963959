//! The printed form of a report.

ghost use Rattle.std.specs.Prelude.{◌≡◌, ◌++◌, OnOk};
ghost use Rattle.std.specs.List.{flat_map};
ghost use Rattle.std.specs.String.{string_bytes};
ghost use Rattle.bgp_script.specs.ReportText.{side_line, round_lines, rounds_from, fault_number, refused_line, state_name, state_line, report_text};

use crate::note_list::{put_notes, side_name};
use bgp_session::{Report, Round, SendFault, Side, State};
use std::alloc::AllocError;

// Adds the line of a side in a round.
fn put_side(
    text: &mut String,
    side: Side,
    sent: usize,
    got: usize,
    gone: usize,
    notes: &[(Side, u8, u8)],
) -> Result<(), AllocError>
    ensures { OnOk result (string_bytes text.new ≡ string_bytes text.old ++ side_line side sent got gone notes.now) }
{
    let name = side_name(side);
    write!(text, "{name} sent {sent} got {got} gone {gone} notes ")?;
    put_notes(text, side, notes)?;
    text.push_str("\n")
}

// Adds the lines of a round.
fn put_round(text: &mut String, number: usize, round: &Round) -> Result<(), AllocError>
    ensures { OnOk result (string_bytes text.new ≡ string_bytes text.old ++ round_lines number round.now) }
{
    write!(text, "round {number}\n")?;
    put_side(
        text,
        Side::A,
        round.sent_a.len(),
        round.got_a.len(),
        round.gone_a.len(),
        round.notes.as_slice(),
    )?;
    put_side(
        text,
        Side::B,
        round.sent_b.len(),
        round.got_b.len(),
        round.gone_b.len(),
        round.notes.as_slice(),
    )
}

// Adds the lines of rounds, which are numbered from 1.
fn put_rounds(text: &mut String, rounds: &[Round]) -> Result<(), AllocError>
    ensures { OnOk result (string_bytes text.new ≡ string_bytes text.old ++ rounds_from 1 rounds.now) }
{
    'rounds: for (index, round) in rounds.iter().enumerate() {
        put_round(text, index + 1, round)?;
    }
    Ok(())
}

/// The number of a fault.
pub(crate) fn fault_number(fault: &SendFault) -> u8
    ensures { result ≡ fault_number fault.now }
{
    match fault {
        SendFault::NotEstablished => 1,
        SendFault::NotValid(_) => 2,
        SendFault::TooLong => 3,
        SendFault::Memory => 4,
    }
}

fn put_refused(text: &mut String, side: Side, fault: &SendFault) -> Result<(), AllocError>
    ensures { OnOk result (string_bytes text.new ≡ string_bytes text.old ++ refused_line (side, fault.now)) }
{
    let name = side_name(side);
    let number = fault_number(fault);
    write!(text, "refused {name} {number}\n")
}

// Adds a line for each UPDATE that wasn't sent.
fn put_all_refused(text: &mut String, refused: &[(Side, SendFault)]) -> Result<(), AllocError>
    ensures { OnOk result (string_bytes text.new ≡ string_bytes text.old ++ flat_map refused_line refused.now) }
{
    'refused: for one in refused {
        put_refused(text, one.0, &one.1)?;
    }
    Ok(())
}

/// The name of a state.
pub(crate) fn state_name(state: State) -> &'static str
    ensures { result.now ≡ state_name state }
{
    match state {
        State::Idle => "Idle",
        State::Connect => "Connect",
        State::Active => "Active",
        State::OpenSent => "OpenSent",
        State::OpenConfirm => "OpenConfirm",
        State::Established => "Established",
    }
}

fn put_state(text: &mut String, side: Side, state: State) -> Result<(), AllocError>
    ensures { OnOk result (string_bytes text.new ≡ string_bytes text.old ++ state_line side state) }
{
    let name = side_name(side);
    let state = state_name(state);
    write!(text, "state {name} {state}\n")
}

/// Adds the printed form of a report: for each round `round N` and a line for each side, then the UPDATEs that weren't sent, then the
/// states of both sides.
///
/// # Errors
/// `AllocError` where an allocation failed: the first lines may remain.
pub fn put_report(text: &mut String, report: &Report) -> Result<(), AllocError>
    ensures { OnOk result (string_bytes text.new ≡ string_bytes text.old ++ report_text report.now) }
{
    put_rounds(text, report.rounds.as_slice())?;
    put_all_refused(text, report.refused.as_slice())?;
    let (a, b) = report.states;
    put_state(text, Side::A, a)?;
    put_state(text, Side::B, b)
}
