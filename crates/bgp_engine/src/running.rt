//! From a reader through an engine to a writer.

ghost use Rattle.std.specs.Prelude.{◌≡◌, ◌+◌, ◌≤◌, ◌<◌, ◌^◌, false, [], None, length, IfOk, OnOk, OnErr};
ghost use Rattle.bgp_engine.specs.Below.{AreOctets};
ghost use Rattle.bgp_engine.specs.Prelude.{Meets, Finished, IsTotal, OfOctets, Rests, Answers, io};

use crate::engine::Engine;
use crate::fault::ToolFault;
use crate::hex_text::HexText;
use crate::output::put;
use crate::tally::Tally;
use arrayvec::ArrayVec;
use std::alloc::AllocError;
use std::io::{Read, Write};

/// The result of one block of text.
#[derive(Clone, Copy)]
pub(crate) enum Met {
    /// The stream continues.
    Block,
    /// A character is bad, at this offset in the text.
    Bad(u64),
    /// The stream is over.
    Over,
}

// Processes the octets of a block of at most 4096 characters.
fn take_block<E: Engine>(
    hex: bool,
    reader: &mut HexText,
    engine: &mut E,
    block: &[u8],
) -> Result<Met, AllocError>
    requires raw { hex ≡ false → reader.old.pending ≡ None }
    requires countable { reader.old.seen + 4096 < 2 ^ 64 }
    requires short { length block.now ≤ 4096 }
    requires going { E.going (E.state engine.old) }
    requires room { 4096 ≤ E.room (E.state engine.old) }
    ensures meets { IfOk result (Meets hex reader.old reader.new (E.reports (E.state engine.old)) (E.reports (E.state engine.new)) (E.going (E.state engine.new)) (E.told engine.old) (E.told engine.new) block.now) }
    ensures ready { OnOk result (E.ready (E.state engine.new)) }
    ensures room { OnOk result (E.room (E.state engine.old) ≤ E.room (E.state engine.new) + 4096) }
    ensures memory { OnErr result (IsTotal (E.reports (E.state engine.old))) }
    ensures octets { AreOctets block.now }
{
    if !hex {
        let over = engine.take(block)?;
        return Ok(if over { Met::Over } else { Met::Block });
    }
    let mut octets = ArrayVec::new();
    let bad = reader.decode(block, &mut octets);
    let over = engine.take(&octets)?;
    Ok(match bad {
        _ if over => Met::Over,
        None => Met::Block,
        Some(place) => Met::Bad(place),
    })
}

// Writes the collected and the last text, and gives the answer.
fn finish<E: Engine, W: Write>(engine: &mut E, output: &mut W) -> Result<Tally, ToolFault>
    requires { E.ready (E.state engine.old) }
    ensures { Finished (E.reports (E.state engine.old)) (E.told engine.old) (W.contents output.old) (W.contents output.new) result }
{
    let answer = engine.finish();
    if let Err(ToolFault::Memory) = answer {
        return answer;
    }
    put(output, engine.told())?;
    answer
}

/// Runs an engine over a reader's text, which is its stream's octets or hexadecimal text of them.
///
/// The reader is asked for at most 4096 octets at a time, and at most `turns` times. What a block yields is written
/// before the next read.
///
/// # Errors
/// `Memory`, `Read` and `Write` at once, without a second try; `BadHex` where the octets before a bad character didn't
/// end the stream; and the engine's own. What was written before a fault remains.
pub(crate) fn run<E: Engine, R: Read, W: Write>(
    turns: u32,
    hex: bool,
    engine: &mut E,
    input: &mut R,
    output: &mut W,
) -> Result<Tally, ToolFault>
    requires going { E.going (E.state engine.old) }
    requires ready { E.ready (E.state engine.old) }
    requires room { 2 ^ 50 ≤ E.room (E.state engine.old) }
    requires told { E.told engine.old ≡ [] }
    requires rests { Rests (E.reports (E.state engine.old)) }
    ensures { Answers (OfOctets (E.reports (E.state engine.old))) hex (io R.remaining input.old input.new W.contents output.old output.new) result }
{
    let mut reader = HexText::new();
    let mut block = [0; 4096];
    'reading: for _turn in 0..turns {
        let count = match input.read(&mut block) {
            Ok(count) => count,
            Err(_) => return Err(ToolFault::Read),
        };
        if count == 0 {
            if let Some(place) = reader.waiting_digit() {
                return Err(ToolFault::BadHex(place));
            }
            return finish(engine, output);
        }
        match take_block(hex, &mut reader, engine, &block[..count])? {
            Met::Over => return finish(engine, output),
            Met::Bad(place) => {
                put(output, engine.told())?;
                return Err(ToolFault::BadHex(place));
            }
            Met::Block => {}
        }
        put(output, engine.told())?;
        engine.clear();
    }
    Err(ToolFault::Read)
}
