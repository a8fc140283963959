//! The header of a message that is written: room for it comes first, then the body, then the header, whose Length
//! covers both.

ghost use Rattle.std.specs.Prelude.{◌≡◌, ◌+◌, ◌≤◌, ◌++◌, length, take, drop};
ghost use Rattle.bgp_frame.specs.Prelude.{header, IsLength};
ghost use Rattle.bgp_msg.specs.Prelude.{room_of, refusal_of};

use bgp_frame::{Kind, head};
use bgp_update::WriteFault;
use bgp_wire::Output;

/// Appends room for a header. Answers whether the allocation succeeded; a body is written in any case, since it may
/// have a fault that is reported first.
pub(crate) fn put_room(out: &mut Vec<u8>) -> bool
    ensures { out.new.items ≡ out.old.items ++ room_of result }
{
    out.extend_from_slice(&[255; 19]).is_ok()
}

/// Writes a header into the room for it at an offset, before a body.
pub fn put_header<O: Output>(kind: Kind, start: usize, out: &mut O)
    requires room { start + 19 ≤ length (O.written out.old) }
    requires allowed { IsLength kind (length (drop start (O.written out.old))) }
    ensures { O.written out.new ≡ take start (O.written out.old) ++ (header kind (length (drop start (O.written out.old))) ++ drop (start + 19) (O.written out.old)) }
{
    let body_len = (out.len() - (start + 19)) as u16;
    out.replace(start, &head(kind, body_len));
}

/// Removes what was appended from an offset on, of a message that isn't written. Answers why it isn't.
pub(crate) fn give_up(
    written: Result<(), WriteFault>,
    start: usize,
    out: &mut Vec<u8>,
) -> WriteFault
    ensures fault { result ≡ refusal_of written }
    ensures rest { out.new.items ≡ take start out.old.items }
{
    out.truncate(start);
    match written {
        Ok(()) => WriteFault::Memory,
        Err(fault) => fault,
    }
}
