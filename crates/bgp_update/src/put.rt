//! Writing the attributes of a message, in the order of their types.

ghost use Rattle.std.specs.Prelude.{◌≡◌, ◌<◌, ◌≤◌, ◌+◌, ◌++◌, false, length, OnOk, OnErr};
ghost use Rattle.std.specs.List.{flat_map, AllByRecursion};
ghost use Rattle.bgp_wire.specs.Prelude.{Extends};
ghost use Rattle.bgp_attr.specs.Prelude.{ref_value, canonical, is_empty, HasRanges};
ghost use Rattle.bgp_update.specs.Prelude.{present, attr_list, attributes_octets};

use crate::attrs::{Attrs, slot};
use crate::order::types_of;
use bgp_attr::{AttrRef, put_attr};
use bgp_open::Context;
use bgp_wire::Output;
use std::alloc::AllocError;

/// Appends an attribute, where there is one.
fn put_present<O: Output>(
    ctx: &Context,
    attr: Option<AttrRef<'_>>,
    out: &mut O,
) -> Result<(), AllocError>
    requires filled { AllByRecursion (λ a. is_empty a ≡ false) (present ref_value attr) }
    requires room { O.room ≤ 65535 }
    ensures ok { OnOk result (O.written out.new ≡ O.written out.old ++ flat_map (canonical ctx.now) (present ref_value attr.entry)) }
    ensures ranges { OnOk result (AllByRecursion HasRanges (present ref_value attr.entry)) }
    ensures err { OnErr result (Extends (O.written out.old) (O.written out.new)) }
    ensures full { OnErr result (O.room < length (O.written out.old) + length (flat_map (canonical ctx.now) (present ref_value attr.entry))) }
{
    match attr {
        None => Ok(()),
        Some(attr) => put_attr(ctx, attr, out),
    }
}

/// Appends the attributes of a message; after an error the first of them may remain.
pub(crate) fn put_attributes<O: Output>(
    ctx: &Context,
    attrs: &Attrs,
    out: &mut O,
) -> Result<(), AllocError>
    requires filled { AllByRecursion (λ a. is_empty a ≡ false) (attr_list attrs.now) }
    requires room { O.room ≤ 65535 }
    ensures ok { OnOk result (O.written out.new ≡ O.written out.old ++ attributes_octets ctx.now attrs.now) }
    ensures ranges { OnOk result (AllByRecursion HasRanges (attr_list attrs.now)) }
    ensures err { OnErr result (Extends (O.written out.old) (O.written out.new)) }
    ensures full { OnErr result (O.room < length (O.written out.old) + length (attributes_octets ctx.now attrs.now)) }
{
    let kinds = types_of(attrs);
    'types: for kind in kinds {
        put_present(ctx, slot(attrs, *kind), out)?;
    }
    Ok(())
}
