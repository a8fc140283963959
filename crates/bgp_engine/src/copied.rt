//! The engine `from_hex`.

ghost use Rattle.std.specs.Prelude.{◌≡◌, true};
ghost use Rattle.bgp_engine.specs.FromHex.{Copied};
ghost use Rattle.bgp_engine.specs.Run.{Answers, io};

use crate::engine::Engine;
use crate::fault::ToolFault;
use crate::running::run;
use crate::tally::Tally;
use bgp_frame::End;
use std::alloc::{AllocError, Global};
use std::io::{Read, Write};

/// Octets unchanged.
#[derive(Drop)]
struct Copier {
    octets: Vec<u8>,
}

impl Engine for Copier {
    ghost use Rattle.std.specs.Prelude.{ℕ, ◌^◌};
    ghost use Rattle.bgp_engine.specs.FromHex.{Copied};

    ghost State = { ℕ };

    ghost state = { λ _. 0 };

    ghost told = { λ copier. copier.octets.items };

    ghost reports = { λ _. Copied };

    ghost going = { λ _. Unit {0} };

    ghost ready = { λ _. Unit {0} };

    ghost room = { λ _. 2 ^ 60 };

    fn take(&mut self, octets: &[u8]) -> Result<bool, AllocError> {
        self.octets.extend_from_slice(octets)?;
        Ok(false)
    }

    fn finish(&mut self) -> Result<Tally, ToolFault> {
        Ok(Tally {
            messages: 0,
            took: 0,
            withdrawn: 0,
            resets: 0,
            end: End::Wait(0),
        })
    }

    fn told(&self) -> &[u8] {
        self.octets.as_slice()
    }

    fn clear(&mut self) {
        self.octets.clear();
    }
}

/// Writes the octets of hexadecimal text: pairs of digits of either case, with spaces, CR and LF between pairs. It
/// reads as `show` does, and counts nothing.
///
/// # Errors
/// `Memory`, `Read` and `Write` at once, without a second try; `BadHex` at the first bad character. What was written
/// before a fault remains.
pub fn from_hex<R: Read, W: Write>(
    alloc: Global,
    input: &mut R,
    output: &mut W,
) -> Result<Tally, ToolFault>
    ensures { Answers Copied true (io R.remaining input.old input.new W.contents output.old output.new) result }
{
    from_hex_within(alloc, u32::MAX, input, output)
}

/// [`from_hex`], with a reader that is called at most `turns` times.
///
/// # Errors
/// As `from_hex`; `Read` too where that limit was reached before the reader ended.
pub fn from_hex_within<R: Read, W: Write>(
    alloc: Global,
    turns: u32,
    input: &mut R,
    output: &mut W,
) -> Result<Tally, ToolFault>
    ensures { Answers Copied true (io R.remaining input.old input.new W.contents output.old output.new) result }
{
    let mut copier = Copier {
        octets: Vec::new(alloc),
    };
    run(turns, true, &mut copier, input, output)
}
