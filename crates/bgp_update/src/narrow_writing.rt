//! Writing the attributes that are sent to a 2-octet-AS peer, from their views.

ghost use Rattle.std.specs.Prelude.{◌≡◌, ◌++◌, false, true, option_map, OnOk, OnErr};
ghost use Rattle.std.specs.List.{flat_map, AllByRecursion};
ghost use Rattle.bgp_attr.specs.declared.attr.Attr.TheVariants as attr;
ghost use Rattle.bgp_attr.specs.Prelude.{attr_value, path_value, canonical, is_writable};
ghost use Rattle.bgp_wire.specs.Prelude.{Extends};
ghost use Rattle.bgp_update.specs.Prelude.{wide_path, attr_list, present, slot, attributes_octets, told_attrs};

use crate::kept_view::KeptView;
use crate::slot_iter::view_slot;
use crate::sorted_others::SortedOthers;
use crate::told_path::put_told_path;
use crate::told_slot::{told_types, wide_path};
use crate::two_octets::{narrow_aggregator, wide_aggregator};
use bgp_attr::{AttrView, PathView, write_attr_view};
use bgp_numbers::attribute;
use bgp_open::Context;
use std::alloc::AllocError;

/// Appends the attribute of a slot, where there is one.
macro_rules! put_kept {
    ($ctx:expr, $out:expr, $slot:expr, $variant:ident) => {
        match $slot {
            None => Ok(()),
            Some(value) => write_attr_view($ctx, &AttrView::$variant(value), $out),
        }
    };
}

/// Appends an attribute, where there is one.
#[inline(always)]
fn put_present(
    ctx: &Context,
    attr: Option<AttrView<'_>>,
    out: &mut Vec<u8>,
) -> Result<(), AllocError>
    requires { AllByRecursion (λ a. is_writable ctx.now a ≡ true) (present attr_value attr) }
    ensures ok { OnOk result (out.new.items ≡ out.old.items ++ flat_map (canonical ctx.now) (present attr_value attr.entry)) }
    ensures err { OnErr result (Extends out.old.items out.new.items) }
{
    match attr {
        None => Ok(()),
        Some(attr) => write_attr_view(ctx, &attr, out),
    }
}

/// Appends AS4_PATH, where a number of the path needs four octets.
#[inline(always)]
fn put_wide_path(
    ctx: &Context,
    path: Option<PathView<'_>>,
    out: &mut Vec<u8>,
) -> Result<(), AllocError>
    requires { AllByRecursion (λ a. is_writable ctx.now a ≡ true) (present attr.As4Path (wide_path (option_map path_value path))) }
    ensures ok { OnOk result (out.new.items ≡ out.old.items ++ flat_map (canonical ctx.now) (present attr.As4Path (wide_path (option_map path_value path.entry)))) }
    ensures err { OnErr result (Extends out.old.items out.new.items) }
{
    put_kept!(ctx, out, wide_path(path), As4Path)
}

/// Appends the attribute of a type, where one is sent.
#[tactic(auto, unfolding(crate::specs::Slots::slot))]
#[inline(always)]
fn put_slot<'a>(
    ctx: &Context,
    kept: &KeptView<'a>,
    others: &SortedOthers<'_, 'a>,
    kind: u8,
    out: &mut Vec<u8>,
) -> Result<(), AllocError>
    requires narrow { ctx.now.as4 ≡ false }
    requires writable { AllByRecursion (λ a. is_writable ctx.now a ≡ true) (slot (told_attrs kept.now others.now.row.now) kind) }
    ensures ok { OnOk result (out.new.items ≡ out.old.items ++ flat_map (canonical ctx.now) (slot (told_attrs kept.now others.now.row.now) kind)) }
    ensures err { OnErr result (Extends out.old.items out.new.items) }
{
    match kind {
        attribute::AS_PATH => put_told_path(ctx, kept.as_path(), out),
        attribute::AGGREGATOR => {
            put_kept!(ctx, out, narrow_aggregator(kept.aggregator()), Aggregator)
        }
        attribute::AS4_PATH => put_wide_path(ctx, kept.as_path(), out),
        attribute::AS4_AGGREGATOR => {
            put_kept!(ctx, out, wide_aggregator(kept.aggregator()), As4Aggregator)
        }
        _ => put_present(ctx, view_slot(kept, others, kind), out),
    }
}

/// Appends the attributes that are sent; after an error the first of them may remain.
pub(crate) fn put_told_attrs<'a>(
    ctx: &Context,
    kept: &KeptView<'a>,
    others: &SortedOthers<'_, 'a>,
    out: &mut Vec<u8>,
) -> Result<(), AllocError>
    requires narrow { ctx.now.as4 ≡ false }
    requires writable { AllByRecursion (λ a. is_writable ctx.now a ≡ true) (attr_list (told_attrs kept.now others.now.row.now)) }
    ensures ok { OnOk result (out.new.items ≡ out.old.items ++ attributes_octets ctx.now (told_attrs kept.now others.now.row.now)) }
    ensures err { OnErr result (Extends out.old.items out.new.items) }
{
    let kinds = told_types(others.row);
    'types: for kind in kinds {
        put_slot(ctx, kept, others, *kind, out)?;
    }
    Ok(())
}
