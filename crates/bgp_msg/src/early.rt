//! An UPDATE at the beginning of a piece, owned at once.

ghost use Rattle.std.specs.Prelude.{◌≡◌, Some, Ok};
ghost use Rattle.bgp_msg.specs.declared.message.Message.TheVariants as message;
ghost use Rattle.bgp_msg.specs.declared.outcome.Outcome.TheVariants as outcome;

use crate::message::Message;
use crate::outcome::Outcome;
use bgp_update::{Note, Update};
use bgp_wire::List;
use std::alloc::AllocError;

/// The length of an UPDATE that is accepted, the UPDATE, and its notes.
pub(crate) type Early = (u16, Update, List<Note>);

/// What a pull gives for such an UPDATE.
#[inline(always)]
pub(crate) fn taken(
    len: u16,
    update: Update,
    notes: List<Note>,
) -> Result<(usize, Option<(u16, Outcome)>), AllocError>
    ensures { result ≡ Ok (len, Some (len, outcome.Took (message.Update update) notes)) }
{
    Ok((
        len as usize,
        Some((len, Outcome::Took(Message::Update(update), notes))),
    ))
}
