//! Writing a message.

ghost use Rattle.std.specs.Prelude.{◌≡◌, ◌+◌, ◌≤◌, ◌++◌, ◌↔◌, [], Some, false, length, IsTrue, IsErrOf, OnOk, OnErr};
ghost use Rattle.bgp_frame.specs.Prelude.{IsFrame};
ghost use Rattle.bgp_open.specs.Prelude.{IsOpen};
ghost use Rattle.bgp_open.specs.Written as opens;
ghost use Rattle.bgp_update.specs.declared.invalid.Invalid.{Invalid};
ghost use Rattle.bgp_update.specs.declared.write.WriteFault.TheVariants.{NotValid};
ghost use Rattle.bgp_update.specs.declared.write.WriteFault.TheVariants.{TooLong};
ghost use Rattle.bgp_msg.specs.declared.outcome.Outcome.TheVariants.{Took};
ghost use Rattle.bgp_msg.specs.Prelude.{out_of, notification_octets, written, canonical, invalid_open, invalid_of, is_valid, is_too_long};

use crate::message::Message;
use crate::whole::{Body, put_whole};
use bgp_frame::{Kind, Notification};
use bgp_open::{Context, Open, WriteOpenFault, write_open};
use bgp_update::{Invalid, WriteFault, write_update};
use std::alloc::AllocError;

/// The length of a BGP Identifier.
fn id_len(id: &[u8; 4]) -> usize
    ensures value { result ≡ length id.now }
    ensures fixed { result ≡ 4 }
{
    id.len()
}

/// A valid OPEN has a body of at most 265 octets.
#[tactic(auto, using(crate::proofs::Encodings::open_short))]
fn bound_open(said: &Open)
    ensures { opens.is_bad said.now ≡ false → length (opens.canonical said.now) ≤ 265 }
{
    let _four = id_len(&said.id);
}

/// Appends the body of an OPEN.
fn put_open(said: &Open, out: &mut Vec<u8>) -> Result<(), WriteFault>
    ensures not_valid { (why : Invalid) → IsErrOf result (NotValid why) ↔ (invalid_open said.now ≡ Some why) }
    ensures fits { IsErrOf result TooLong → ⊥ }
    ensures ok { OnOk result (out.new.items ≡ out.old.items ++ opens.canonical said.now) }
    ensures spelled { OnOk result (IsOpen said.now (opens.canonical said.now)) }
    ensures short { opens.is_bad said.now ≡ false → length (opens.canonical said.now) ≤ 265 }
    ensures err { OnErr result (out.new.items ≡ out.old.items) }
{
    bound_open(said);
    match write_open(said, out) {
        Ok(()) => Ok(()),
        Err(WriteOpenFault::NotValid) => Err(WriteFault::NotValid(Invalid::BadOpen)),
        Err(WriteOpenFault::Memory) => Err(WriteFault::Memory),
    }
}

/// Appends the body of a NOTIFICATION.
fn put_notification(notification: &Notification, out: &mut Vec<u8>) -> Result<(), AllocError>
    ensures ok { OnOk result (out.new.items ≡ out.old.items ++ notification_octets notification.now) }
    ensures fits { length notification.now.info.items ≤ 4075 }
    ensures err { OnErr result (out.new.items ≡ out.old.items) }
{
    let start = out.len();
    let info = notification.info.as_slice();
    out.extend_from_slice(&[notification.code, notification.subcode])?;
    let written = out.extend_from_slice(info);
    if written.is_err() {
        out.truncate(start);
    }
    written
}

impl Body for Message {
    ghost use Rattle.std.specs.Prelude.{◌≡◌, []};
    ghost use Rattle.bgp_msg.specs.declared.outcome.Outcome.TheVariants.{Took};
    ghost use Rattle.bgp_msg.specs.Outcome.{out_of};
    ghost use Rattle.bgp_msg.specs.Written.{written};

    ghost meant = { λ m. m };

    ghost IsPut = { λ ctx m. out_of ctx (written ctx m) ≡ Took m [] };

    fn body_kind(&self) -> Kind {
        self.kind()
    }

    fn put_body(&self, ctx: &Context, out: &mut Vec<u8>) -> Result<(), WriteFault> {
        match self {
            Message::Open(open) => put_open(open, out),
            Message::Update(update) => write_update(ctx, update, out),
            Message::Notification(notification) => {
                put_notification(notification, out)?;
                Ok(())
            }
            Message::Keepalive => Ok(()),
        }
    }
}

/// Appends a whole message in its one written form (RFC 4271, section 4).
///
/// # Errors
/// `NotValid` for the first reason why it isn't valid in the context, else `TooLong`, else `Memory` where an allocation failed; nothing
/// is appended then.
pub fn encode(ctx: &Context, message: &Message, out: &mut Vec<u8>) -> Result<(), WriteFault>
    ensures not_valid { (why : Invalid) → IsErrOf result (NotValid why) ↔ (invalid_of ctx.now message.now ≡ Some why) }
    ensures too_long { IsErrOf result TooLong ↔ (IsTrue (is_valid ctx.now message.now) × IsTrue (is_too_long ctx.now message.now)) }
    ensures ok { OnOk result (out.new.items ≡ out.old.items ++ canonical ctx.now message.now) }
    // What is written is a whole message, which decodes to the one that was meant, without notes.
    ensures whole { OnOk result (IsFrame (written ctx.now message.now) (canonical ctx.now message.now)) }
    ensures taken { OnOk result (out_of ctx.now (written ctx.now message.now) ≡ Took message.now []) }
    ensures err { OnErr result (out.new.items ≡ out.old.items) }
{
    put_whole(ctx, message, out)
}
