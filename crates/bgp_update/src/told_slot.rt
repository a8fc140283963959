//! What is sent of the slots of kept attributes to a 2-octet-AS peer, while their values are borrowed.

ghost use Rattle.std.specs.Prelude.{◌≡◌, ◌==◌, nat_lt, map, option_map};
ghost use Rattle.std.specs.List.{find, flat_map, list_any};
ghost use Rattle.bgp_attr.specs.Prelude.{as4_path_value, opaque_value, path_value};
ghost use Rattle.bgp_update.specs.declared.attrs.Attrs.{Attrs};
ghost use Rattle.bgp_update.specs.Prelude.{wide_path, slot, attr_list};

use crate::attrs::RECOGNISED;
use crate::order::{COMMON, order};
use crate::others::step;
use crate::told_path::is_wide_path;
use bgp_attr::{As4PathView, OpaqueView, PathView};

/// Whether some type is above those that are common.
fn are_uncommon(others: &[OpaqueView<'_>]) -> bool
    ensures { result ≡ list_any (λ o. nat_lt 40 o.kind) (map opaque_value others.now) }
{
    let mut left = others;
    'row: while let Some(other) = step(&mut left) {
        if other.kind > COMMON {
            return true;
        }
    }
    false
}

/// The types to look at, in the order in which they are written: each attribute has one of them.
pub(crate) fn told_types(others: &[OpaqueView<'_>]) -> &'static [u8]
    ensures { (a : Attrs) → a.others ≡ map opaque_value others.now → flat_map (slot a) result.now ≡ attr_list a }
{
    if others.is_empty() {
        &RECOGNISED
    } else if are_uncommon(others) {
        order()
    } else {
        &order()[..41]
    }
}

/// The attribute of a type that isn't recognised.
pub(crate) fn other<'a>(others: &[OpaqueView<'a>], kind: u8) -> Option<OpaqueView<'a>>
    ensures { option_map opaque_value result ≡ find (λ o. o.kind == kind) (map opaque_value others.now) }
{
    let mut left = others;
    'row: while let Some(other) = step(&mut left) {
        if other.kind == kind {
            return Some(other);
        }
    }
    None
}

/// The AS4_PATH that accompanies a path: one exactly where a number needs four octets.
pub(crate) fn wide_path(path: Option<PathView<'_>>) -> Option<As4PathView<'_>>
    ensures { option_map as4_path_value result ≡ wide_path (option_map path_value path.entry) }
{
    let path = path?;
    if is_wide_path(path) {
        Some(As4PathView {
            partial: false,
            path,
        })
    } else {
        None
    }
}
