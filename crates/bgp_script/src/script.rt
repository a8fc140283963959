//! Reading a script.

ghost use Rattle.std.specs.Prelude.{◌≡◌, ◌≤◌, length};
ghost use Rattle.std.specs.Result.{result_map_both};
ghost use Rattle.bgp_script.specs.Script.{next_speaker, moves_of, script_of};
ghost use Rattle.bgp_script.specs.ScriptFault.{Answers};

use crate::lines::Lines;
use crate::moves::read_move;
use crate::script_fault::ScriptFault;
use crate::speaker::read_speaker;
use crate::speakers::Speakers;
use bgp_open::Config;
use bgp_session::Move;
use bgp_wire::List;
use std::alloc::Global;

/// The greatest length of a script in octets.
pub const SCRIPT_MAX: usize = 1_048_576;

/// Two speakers, and the moves of a schedule.
#[derive(Drop)]
pub struct Script {
    /// The settings of speaker A.
    pub a: Config,
    /// The settings of speaker B.
    pub b: Config,
    /// The moves, in the order of their lines.
    pub moves: List<Move>,
}

// The speaker of the next line.
fn next_speaker(lines: &mut Lines<'_>, side: &[u8]) -> Result<Config, u32>
    ensures { result_map_both (λ speaker. (speaker, lines.new)) (λ number. number) result ≡ next_speaker side.now lines.old }
{
    let line = lines.take()?;
    match read_speaker(side, line.text) {
        Some(speaker) => Ok(speaker),
        None => Err(line.number),
    }
}

// The moves of all lines that are left.
fn read_moves(
    alloc: Global,
    speakers: &Speakers,
    lines: &mut Lines<'_>,
) -> Result<List<Move>, ScriptFault>
    ensures { Answers result (moves_of speakers.now lines.old.told) }
{
    let mut moves = List::new(alloc);
    'moves: while let Ok(line) = lines.take() {
        let Some(found) = read_move(alloc, speakers, line.text)? else {
            return Err(ScriptFault::Line(line.number));
        };
        moves.push(found)?;
    }
    Ok(moves)
}

/// Reads a script.
///
/// # Errors
/// `Line` with the number of the lowest faulty line, counted from 1; `Memory` where an allocation failed.
#[tactic(auto, unfolding(crate::specs::Script::script_of))]
pub fn read_script(alloc: Global, text: &[u8]) -> Result<Script, ScriptFault>
    requires { length text.now ≤ SCRIPT_MAX }
    ensures { Answers result (script_of text.now) }
{
    let mut lines = Lines::new(text);
    let a = next_speaker(&mut lines, b"a").map_err(ScriptFault::Line)?;
    let b = next_speaker(&mut lines, b"b").map_err(ScriptFault::Line)?;
    let moves = read_moves(alloc, &Speakers { a, b }, &mut lines)?;
    Ok(Script { a, b, moves })
}
