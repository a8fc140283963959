//! Copying a text or a message into the caller's buffer.

ghost use Rattle.ristulva_c.specs.Prelude.{IsWritten};

use crate::copied::copy_into;
use crate::status::{OK, ROOM};

/// Copies a text to the beginning of a buffer, and writes its length.
pub(crate) fn write(text: &[u8], buffer: &mut [u8], len: &mut usize) -> u32
    ensures { IsWritten text.now (record { status = result; before = buffer.old; behind = buffer.new; len_before = len.old; len_behind = len.new }) }
{
    *len = text.len();
    if copy_into(text, buffer) { OK } else { ROOM }
}
