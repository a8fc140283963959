//! Writing an UPDATE that isn't in a `Message`.

ghost use Rattle.std.specs.Prelude.{◌≡◌, ◌++◌, ◌↔◌, Some, IsTrue, IsErrOf, OnOk, OnErr};
ghost use Rattle.bgp_update.specs.declared.invalid.Invalid.{Invalid};
ghost use Rattle.bgp_update.specs.declared.write.WriteFault.TheVariants.{NotValid};
ghost use Rattle.bgp_update.specs.Prelude.{HasUpdateRanges};
ghost use Rattle.bgp_update.specs.declared.write.WriteFault.TheVariants.{TooLong};
ghost use Rattle.bgp_msg.specs.declared.message.Message.TheVariants as message;
ghost use Rattle.bgp_msg.specs.Prelude.{canonical, invalid_of, is_valid, is_too_long};

use crate::whole::{Body, put_whole};
use bgp_frame::Kind;
use bgp_open::Context;
use bgp_update::{Invalid, Update, WriteFault, write_update};

impl Body for Update {
    ghost use Rattle.bgp_msg.specs.declared.message.Message.TheVariants as message;
    ghost use Rattle.bgp_update.specs.Written.{HasUpdateRanges};

    ghost meant = { λ u. message.Update u };

    ghost IsPut = { λ _ u. HasUpdateRanges u };

    fn body_kind(&self) -> Kind {
        Kind::Update
    }

    fn put_body(&self, ctx: &Context, out: &mut Vec<u8>) -> Result<(), WriteFault> {
        write_update(ctx, self, out)
    }
}

/// Appends an UPDATE as `encode` does, without a `Message` around it.
///
/// # Errors
/// As `encode`.
pub fn encode_update(ctx: &Context, update: &Update, out: &mut Vec<u8>) -> Result<(), WriteFault>
    ensures not_valid { (why : Invalid) → IsErrOf result (NotValid why) ↔ (invalid_of ctx.now (message.Update update.now) ≡ Some why) }
    ensures too_long { IsErrOf result TooLong ↔ (IsTrue (is_valid ctx.now (message.Update update.now)) × IsTrue (is_too_long ctx.now (message.Update update.now))) }
    ensures ok { OnOk result (out.new.items ≡ out.old.items ++ canonical ctx.now (message.Update update.now)) }
    // Each of its numbers is within its field.
    ensures ranges { OnOk result (HasUpdateRanges update.now) }
    ensures err { OnErr result (out.new.items ≡ out.old.items) }
{
    put_whole(ctx, update, out)
}
