//! Writing an attribute from its view.

ghost use Rattle.std.specs.Prelude.{◌≡◌, ◌<◌, ◌+◌, ◌≤◌, ◌++◌, false, true, length, OnOk, OnErr};
ghost use Rattle.bgp_wire.specs.Prelude.{Extends};
ghost use Rattle.bgp_attr.specs.Prelude.{attr_value, canonical, is_empty, is_writable, value_octets};

use crate::attr::AttrView;
use crate::finishing::{begin_attr, finish_attr};
use crate::value_writing::put_view_value;
use bgp_open::Context;
use bgp_wire::Output;
use std::alloc::AllocError;

/// Appends an attribute; after an error a part of it may remain.
#[inline(always)]
fn put_attr<O: Output>(ctx: &Context, view: &AttrView<'_>, out: &mut O) -> Result<(), AllocError>
    requires filled { is_empty (attr_value view.now) ≡ false }
    requires short { length (value_octets ctx.now (attr_value view.now)) ≤ 65535 }
    ensures ok { OnOk result (O.written out.new ≡ O.written out.old ++ canonical ctx.now (attr_value view.now)) }
    ensures err { OnErr result (Extends (O.written out.old) (O.written out.new) × (O.room < length (O.written out.old) + length (canonical ctx.now (attr_value view.now)))) }
{
    let start = out.len();
    begin_attr(out)?;
    put_view_value(ctx, view, out)?;
    finish_attr(view, start, out)
}

/// Appends the one written form of an attribute, as [`write_attr`](crate::write_attr) does, from its view: no lists are made, and it
/// isn't measured.
///
/// # Errors
/// `AllocError` where there was no room; what was written before is then as it was.
#[inline(always)]
pub fn write_attr_view<O: Output>(
    ctx: &Context,
    view: &AttrView<'_>,
    out: &mut O,
) -> Result<(), AllocError>
    requires { is_writable ctx.now (attr_value view.now) ≡ true }
    ensures ok { OnOk result (O.written out.new ≡ O.written out.old ++ canonical ctx.now (attr_value view.now)) }
    ensures err { OnErr result (O.written out.new ≡ O.written out.old) }
    ensures full { OnErr result (O.room < length (O.written out.old) + length (canonical ctx.now (attr_value view.now))) }
{
    let start = out.len();
    let written = put_attr(ctx, view, out);
    if written.is_err() {
        out.truncate(start);
    }
    written
}
