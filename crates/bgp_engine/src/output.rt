//! Writing text.

ghost use Rattle.bgp_engine.specs.Below.{OnOk, IfErr, Appends};
ghost use Rattle.bgp_engine.specs.Prelude.{FailsWithin};

use crate::fault::ToolFault;
use std::io::Write;

/// Writes the whole text, without a second try.
///
/// # Errors
/// `Write` where a write fails or writes no octet; what was written before remains.
pub fn put<W: Write>(output: &mut W, text: &[u8]) -> Result<(), ToolFault>
    ensures ok { OnOk result (Appends (W.contents output.old) (W.contents output.new) text.now) }
    ensures err { IfErr result (FailsWithin (W.contents output.old) (W.contents output.new) text.now) }
{
    let mut rest = text;
    'text: while !rest.is_empty() {
        let count = output.write(rest).unwrap_or(0);
        if count == 0 {
            return Err(ToolFault::Write);
        }
        rest = &rest[count..];
    }
    Ok(())
}
