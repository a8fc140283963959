//! Attributes of types that aren't recognised, ascending by type.

ghost use Rattle.std.specs.Prelude.{◌≡◌, ◌≤◌, [], length, map, IfOk, OnOk};
ghost use Rattle.std.specs.Iterator.{YieldsFirst};
ghost use Rattle.std.specs.List.{flat_map};
ghost use Rattle.bgp_attr.specs.Prelude.{attr_value, opaque_value};
ghost use Rattle.bgp_update.specs.ByType.{IsRowOf};
ghost use Rattle.bgp_update.specs.Prelude.{attrs_left, place_in, put_rising, as_opaque, rising_behind};

use crate::attr_iter::AttrIter;
use crate::by_type::{ByType, are_all_types};
use bgp_attr::{AttrView, Opaque, OpaqueView};
use bgp_wire::List;
use std::alloc::{AllocError, Global};

/// The first of a row, which then begins after it.
pub(crate) fn step<T: Copy>(row: &mut &[T]) -> Option<T>
    ensures { YieldsFirst (λ r. r.now) row.old result row.new }
{
    let (first, rest) = row.split_first()?;
    *row = rest;
    Some(*first)
}

/// The index of a type among attributes that are ascending by type.
fn place_of(kind: u8, others: &[OpaqueView<'_>]) -> usize
    ensures value { result ≡ place_in kind (map opaque_value others.now) }
    ensures within { result ≤ length others.now }
{
    let mut at = 0;
    let mut left = others;
    'row: while let Some(first) = step(&mut left) {
        if first.kind >= kind {
            return at;
        }
        at += 1;
    }
    at
}

/// Inserts an attribute by its type.
#[tactic(auto, using(crate::proofs::Placing::inserted))]
fn insert_rising<'a>(
    others: &mut List<OpaqueView<'a>>,
    opaque: OpaqueView<'a>,
) -> Result<(), AllocError>
    ensures { OnOk result (map opaque_value others.new ≡ put_rising (opaque_value opaque.entry) (map opaque_value others.old)) }
{
    let place = place_of(opaque.kind, others.as_slice());
    others.insert(place, opaque)
}

/// Inserts an attribute where its type isn't recognised.
fn add_other<'a>(others: &mut List<OpaqueView<'a>>, attr: AttrView<'a>) -> Result<(), AllocError>
    ensures { OnOk result (map opaque_value others.new ≡ rising_behind (map opaque_value others.old) (as_opaque (attr_value attr.entry))) }
{
    match attr {
        AttrView::Opaque(opaque) => insert_rising(others, opaque),
        _ => Ok(()),
    }
}

/// Those among kept attributes.
pub(crate) fn others_in<'a>(
    alloc: Global,
    kept: AttrIter<'a>,
) -> Result<List<OpaqueView<'a>>, AllocError>
    ensures { IfOk result (λ os. map opaque_value os ≡ rising_behind [] (flat_map as_opaque (attrs_left kept.entry))) }
{
    let mut others = List::new(alloc);
    let mut left = kept;
    'field: while let Some(attr) = left.next() {
        add_other(&mut others, attr)?;
    }
    Ok(others)
}

/// Those in a buffer, each at its type.
pub(crate) fn row_of<'a>(
    alloc: Global,
    place: &ByType<'a>,
) -> Result<List<OpaqueView<'a>>, AllocError>
    ensures { IfOk result (λ row. IsRowOf place.now row) }
{
    are_all_types(&place.of_type);
    let mut others = List::new(alloc);
    'types: for found in &place.of_type {
        if let Some(opaque) = found {
            others.push(*opaque)?;
        }
    }
    Ok(others)
}

/// These, with memory of their own.
pub(crate) fn own_others(
    alloc: Global,
    others: &[OpaqueView<'_>],
) -> Result<List<Opaque>, AllocError>
    ensures { IfOk result (λ os. os ≡ map opaque_value others.now) }
{
    let mut owned = List::new(alloc);
    let mut left = others;
    'row: while let Some(first) = step(&mut left) {
        owned.push(first.own(alloc)?)?;
    }
    Ok(owned)
}
