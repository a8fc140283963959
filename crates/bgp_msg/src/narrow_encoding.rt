//! Writing an UPDATE for a speaker with 2-octet AS numbers.

ghost use Rattle.std.specs.Prelude.{◌≡◌, ◌+◌, ◌≤◌, ◌++◌, ◌∷◌, false, true, length, IsTrue, IsErrOf, OnOk, OnErr};
ghost use Rattle.bgp_update.specs.declared.view_narrowing.NarrowFault.TheVariants.{TooLong};
ghost use Rattle.bgp_update.specs.Prelude.{narrowed_update, CanBeTold, update_value, with_as4};
ghost use Rattle.bgp_msg.specs.declared.message.Message.TheVariants as message;
ghost use Rattle.bgp_msg.specs.Prelude.{canonical, is_valid, is_too_long};

use crate::header::{put_header, put_room};
use bgp_frame::Kind;
use bgp_open::Context;
use bgp_update::{NarrowFault, UpdateView};
use std::alloc::Global;

/// Appends an UPDATE as sent to a speaker with 2-octet AS numbers (RFC 6793, section 4.2.2), as `encode` would in the
/// same session with two octets. It is written from its view, and allocates besides `out` only for attributes of types
/// that aren't recognised.
///
/// # Errors
/// `TooLong` where the message would have more than 4096 octets (RFC 4271, section 4.1), `Memory` where an allocation failed; nothing is appended
/// then.
pub fn encode_narrowed(
    alloc: Global,
    ctx: &Context,
    view: &UpdateView<'_>,
    out: &mut Vec<u8>,
) -> Result<(), NarrowFault>
    requires { CanBeTold ctx.now (update_value view.now) }
    // No other message is refused: it is valid in that session.
    ensures valid { is_valid (with_as4 false ctx.now) (message.Update (narrowed_update (update_value view.now))) ≡ true }
    ensures too_long { IsErrOf result TooLong → IsTrue (is_too_long (with_as4 false ctx.now) (message.Update (narrowed_update (update_value view.now)))) }
    ensures fits { OnOk result (is_too_long (with_as4 false ctx.now) (message.Update (narrowed_update (update_value view.now))) ≡ false) }
    ensures ok { OnOk result (out.new.items ≡ out.old.items ++ canonical (with_as4 false ctx.now) (message.Update (narrowed_update (update_value view.now)))) }
    ensures err { OnErr result (out.new.items ≡ out.old.items) }
{
    let start = out.len();
    if !put_room(out) {
        return Err(NarrowFault::Memory);
    }
    let written = view.write_narrowed(alloc, ctx, out);
    if written.is_ok() {
        put_header(Kind::Update, start, out);
    } else {
        out.truncate(start);
    }
    written
}
