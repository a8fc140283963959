//! A whole message that is written: room for a header comes first, then the body, then the header.

ghost use Rattle.std.specs.Prelude.{◌≡◌, ◌+◌, ◌++◌, ◌↔◌, Some, length, IsTrue, IsErrOf, OnOk, OnErr};
ghost use Rattle.bgp_frame.specs.Prelude.{IsFrame, IsLength};
ghost use Rattle.bgp_update.specs.declared.invalid.Invalid.{Invalid};
ghost use Rattle.bgp_update.specs.declared.write.WriteFault.TheVariants.{NotValid};
ghost use Rattle.bgp_update.specs.declared.write.WriteFault.TheVariants.{TooLong};
ghost use Rattle.bgp_msg.specs.Written.{kind_of, body_of, written, canonical, invalid_of, is_valid, is_too_long};

use crate::header::{give_up, put_header, put_room};
use bgp_frame::Kind;
use bgp_open::Context;
use bgp_update::WriteFault;

/// What has a body to write: a message, or an UPDATE that isn't in a `Message`.
pub(crate) trait Body {
    ghost use Rattle.bgp_open.specs.declared.context.Context.{Context};
    ghost use Rattle.bgp_msg.specs.declared.message.Message.{Message};

    /// The message whose body it is.
    ghost meant: { Self → Message };
    /// What is known where its body is written in a context.
    ghost IsPut: { Context → Self → Type 0 };

    /// The kind of the message.
    fn body_kind(&self) -> Kind
        ensures { result ≡ kind_of (meant self.now) };

    /// Appends the body.
    fn put_body(&self, ctx: &Context, out: &mut Vec<u8>) -> Result<(), WriteFault>
        ensures not_valid { (why : Invalid) → IsErrOf result (NotValid why) ↔ (invalid_of ctx.now (meant self.now) ≡ Some why) }
        ensures too_long { IsErrOf result TooLong ↔ (IsTrue (is_valid ctx.now (meant self.now)) × IsTrue (is_too_long ctx.now (meant self.now))) }
        ensures ok { OnOk result (out.new.items ≡ out.old.items ++ body_of ctx.now (meant self.now)) }
        ensures allowed { OnOk result (IsLength (kind_of (meant self.now)) (19 + length (body_of ctx.now (meant self.now)))) }
        ensures put { OnOk result (IsPut ctx.now self.now) }
        ensures err { OnErr result (out.new.items ≡ out.old.items) };
}

/// Appends a whole message.
pub(crate) fn put_whole<B: Body>(
    ctx: &Context,
    body: &B,
    out: &mut Vec<u8>,
) -> Result<(), WriteFault>
    ensures not_valid { (why : Invalid) → IsErrOf result (NotValid why) ↔ (invalid_of ctx.now (B.meant body.now) ≡ Some why) }
    ensures too_long { IsErrOf result TooLong ↔ (IsTrue (is_valid ctx.now (B.meant body.now)) × IsTrue (is_too_long ctx.now (B.meant body.now))) }
    ensures ok { OnOk result (out.new.items ≡ out.old.items ++ canonical ctx.now (B.meant body.now)) }
    ensures whole { OnOk result (IsFrame (written ctx.now (B.meant body.now)) (canonical ctx.now (B.meant body.now))) }
    ensures put { OnOk result (B.IsPut ctx.now body.now) }
    ensures err { OnErr result (out.new.items ≡ out.old.items) }
{
    let start = out.len();
    let has_room = put_room(out);
    let written = body.put_body(ctx, out);
    if has_room && written.is_ok() {
        put_header(body.body_kind(), start, out);
        return Ok(());
    }
    Err(give_up(written, start, out))
}
