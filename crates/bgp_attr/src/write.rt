//! Writing an attribute.

ghost use Rattle.std.specs.Prelude.{◌≡◌, ◌<◌, ◌≤◌, ◌+◌, ◌++◌, Bool, true, false, length, OnOk, OnErr};
ghost use Rattle.bgp_attr.specs.declared.attr.Attr.TheVariants as attr;
ghost use Rattle.bgp_attr.specs.declared.judged.Judged.TheVariants as judged;
ghost use Rattle.bgp_wire.specs.Prelude.{Extends};
ghost use Rattle.bgp_attr.specs.Prelude.{ref_value, judgement, written_tlv, canonical, is_empty, is_writable, Belongs, HasRanges};

use crate::attr::{Attr, AttrRef, form_of};
use crate::finishing::{begin_attr, finish};
use crate::value_writing::put_value;
use bgp_open::Context;
use bgp_wire::Output;
use std::alloc::AllocError;

/// Appends an attribute; after an error a part of it may remain.
fn append_attr<O: Output>(ctx: &Context, attr: AttrRef<'_>, out: &mut O) -> Result<(), AllocError>
    requires filled { is_empty (ref_value attr) ≡ false }
    requires room { O.room ≤ 65535 }
    ensures ok { OnOk result ((O.written out.new ≡ O.written out.old ++ canonical ctx.now (ref_value attr.entry)) × HasRanges (ref_value attr.entry)) }
    ensures err { OnErr result (Extends (O.written out.old) (O.written out.new) × (O.room < length (O.written out.old) + length (canonical ctx.now (ref_value attr.entry)))) }
{
    let start = out.len();
    begin_attr(out)?;
    put_value(ctx, attr, out)?;
    if out.len() - start > 3 + usize::from(u16::MAX) {
        return Err(AllocError);
    }
    finish(form_of(attr), start, out)
}

/// Appends the one written form of an attribute, as [`write_attr_ref`] does, to an output whose room is at most 65535. To measure an
/// attribute, append it to a [`Counter`](bgp_wire::Counter).
///
/// # Errors
/// `AllocError` where there was no room, or no length field can hold the length of the value; what was written before is then as it was.
pub fn put_attr<O: Output>(ctx: &Context, attr: AttrRef<'_>, out: &mut O) -> Result<(), AllocError>
    requires filled { is_empty (ref_value attr) ≡ false }
    requires room { O.room ≤ 65535 }
    ensures ok { OnOk result (O.written out.new ≡ O.written out.old ++ canonical ctx.now (ref_value attr.entry)) }
    ensures ranges { OnOk result (HasRanges (ref_value attr.entry)) }
    ensures err { OnErr result (O.written out.new ≡ O.written out.old) }
    ensures full { OnErr result (O.room < length (O.written out.old) + length (canonical ctx.now (ref_value attr.entry))) }
{
    let start = out.len();
    let written = append_attr(ctx, attr, out);
    if written.is_err() {
        out.truncate(start);
    }
    written
}

/// Appends the one written form of an attribute: the shortest length, and 0 for all that is ignored.
///
/// # Errors
/// `AllocError` where an allocation failed; the vector is then as it was.
pub fn write_attr_ref(ctx: &Context, attr: AttrRef<'_>, out: &mut Vec<u8>) -> Result<(), AllocError>
    requires { is_writable ctx.now (ref_value attr) ≡ true }
    ensures ok { OnOk result (out.new.items ≡ out.old.items ++ canonical ctx.now (ref_value attr.entry)) }
    // Where it belongs, it is read back unchanged.
    ensures kept { OnOk result ((has_nlri : Bool) → Belongs ctx.now has_nlri (ref_value attr.entry)
        → judgement ctx.now has_nlri (written_tlv ctx.now (ref_value attr.entry)) ≡ judged.Keep (ref_value attr.entry)) }
    ensures ranges { OnOk result (HasRanges (ref_value attr.entry)) }
    ensures err { OnErr result (out.new.items ≡ out.old.items) }
{
    put_attr(ctx, attr, out)
}

/// Appends the one written form of an attribute, as [`write_attr_ref`] does.
///
/// # Errors
/// `AllocError` where an allocation failed; the vector is then as it was.
pub fn write_attr(ctx: &Context, attr: &Attr, out: &mut Vec<u8>) -> Result<(), AllocError>
    requires { is_writable ctx.now attr.now ≡ true }
    ensures ok { OnOk result (out.new.items ≡ out.old.items ++ canonical ctx.now attr.now) }
    // Where it belongs, it is read back unchanged.
    ensures kept { OnOk result ((has_nlri : Bool) → Belongs ctx.now has_nlri attr.now
        → judgement ctx.now has_nlri (written_tlv ctx.now attr.now) ≡ judged.Keep attr.now) }
    ensures err { OnErr result (out.new.items ≡ out.old.items) }
{
    write_attr_ref(ctx, AttrRef::from(attr), out)
}
