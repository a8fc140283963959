//! Writing an OPEN.

ghost use Rattle.std.specs.Prelude.{◌≡◌, ◌++◌, ◌↔◌, IsTrue, IsErrOf, OnOk, OnErr};
ghost use Rattle.bgp_open.specs.declared.write.WriteOpenFault.TheVariants.{NotValid, Memory};
ghost use Rattle.bgp_open.specs.Open.{IsOpen};
ghost use Rattle.bgp_open.specs.Written.{canonical, is_bad};

use crate::body::open_body;
use crate::field::{is_short_hold, is_zero_id};
use crate::message::Open;
use crate::row::row_of;
use std::alloc::AllocError;

/// Why an OPEN isn't written.
#[derive(Clone, Copy, Debug, PartialEq, Eq)]
pub enum WriteOpenFault {
    /// The Hold Time is 1 or 2, or the identifier zero, or the capabilities have more than 253 octets together, or a
    /// [`Capability::Other`](crate::Capability::Other) has the code 1 or 65.
    NotValid,
    /// An allocation failed.
    Memory,
}

impl From<AllocError> for WriteOpenFault {
    ghost from_gives = { λ _ e. e ≡ Memory };

    fn from(_refused: AllocError) -> WriteOpenFault {
        WriteOpenFault::Memory
    }
}

/// Appends the body of an OPEN (RFC 4271, section 4.2): its capabilities in one parameter, no parameter where there are none.
///
/// # Errors
/// `NotValid` exactly where the OPEN isn't valid, else `Memory` where an allocation failed; nothing is appended then.
pub fn write_open(message: &Open, out: &mut Vec<u8>) -> Result<(), WriteOpenFault>
    ensures not_valid { IsErrOf result NotValid ↔ IsTrue (is_bad message.now) }
    ensures ok { OnOk result (out.new.items ≡ out.old.items ++ canonical message.now) }
    // What is written spells the OPEN.
    ensures spelled { OnOk result (IsOpen message.now (canonical message.now)) }
    ensures err { OnErr result (out.new.items ≡ out.old.items) }
{
    if is_short_hold(message.hold) || is_zero_id(message.id) {
        return Err(WriteOpenFault::NotValid);
    }
    match row_of(&message.caps) {
        None => Err(WriteOpenFault::NotValid),
        Some(row) => {
            let body = open_body(message.as_field, message.hold, message.id, &row);
            out.extend_from_slice(&body)?;
            Ok(())
        }
    }
}
