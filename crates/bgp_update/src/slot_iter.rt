//! The attributes of a message in the order in which they are written, while their values are borrowed.

ghost use Rattle.std.specs.Prelude.{◌≡◌, [], ◌∷◌, MatchOption};
ghost use Rattle.std.specs.List.{flat_map};
ghost use Rattle.bgp_attr.specs.Prelude.{attr_value};
ghost use Rattle.bgp_update.specs.Fields.{present};
ghost use Rattle.bgp_update.specs.KeptView.{attrs_with, with_others};
ghost use Rattle.bgp_update.specs.Slots.{slot, attr_list};

use crate::kept_view::KeptView;
use crate::others::step;
use crate::told_slot::{other, told_types};
use bgp_attr::{AttrView, OpaqueView, is_recognised};
use std::iter::FusedIterator;

/// A source of attributes of types that aren't recognised, by their type.
pub(crate) trait OfType<'a> {
    ghost use Rattle.std.specs.Prelude.{◌≡◌, ◌==◌, true, List, [], option_map};
    ghost use Rattle.std.specs.List.{find, flat_map};
    ghost use Rattle.bgp_attr.specs.AttrView.{opaque_value};
    ghost use Rattle.bgp_attr.specs.declared.opaque.Opaque.{Opaque};
    ghost use Rattle.bgp_update.specs.declared.attrs.Attrs.{Attrs};
    ghost use Rattle.bgp_update.specs.Slots.{slot, attr_list};

    /// Those that it has.
    ghost others: { Self → List Opaque };

    /// The attribute of a type.
    fn of_type(&self, kind: u8) -> Option<OpaqueView<'a>>
        ensures { option_map opaque_value result ≡ find (λ o. o.kind == kind) (others self.now) };

    /// Whether there are none: false where that isn't known.
    fn are_none(&self) -> bool
        ensures { result ≡ true → others self.now ≡ [] };

    /// The types to look at, in the order in which they are written: each attribute has one of them.
    fn types(&self) -> &'static [u8]
        ensures { (a : Attrs) → a.others ≡ others self.now → flat_map (slot a) result.now ≡ attr_list a };
}

/// A row of them.
#[derive(Clone, Copy)]
pub(crate) struct Row<'b, 'a>(pub(crate) &'b [OpaqueView<'a>]);

impl<'b, 'a> OfType<'a> for Row<'b, 'a> {
    ghost use Rattle.std.specs.Prelude.{map};
    ghost use Rattle.bgp_attr.specs.AttrView.{opaque_value};

    ghost others = { λ row. map opaque_value row.0.now };

    #[inline(always)]
    fn of_type(&self, kind: u8) -> Option<OpaqueView<'a>> {
        other(self.0, kind)
    }

    fn are_none(&self) -> bool {
        self.0.is_empty()
    }

    fn types(&self) -> &'static [u8] {
        told_types(self.0)
    }
}

/// The attribute of a type: at most one.
#[tactic(auto, unfolding(crate::specs::Slots::slot))]
#[inline(always)]
pub(crate) fn view_slot<'a, S: OfType<'a>>(
    kept: &KeptView<'a>,
    others: &S,
    kind: u8,
) -> Option<AttrView<'a>>
    ensures { present attr_value result ≡ slot (with_others kept.now (S.others others.now)) kind }
{
    if is_recognised(kind) {
        kept.attr(kind)
    } else {
        Some(AttrView::Opaque(others.of_type(kind)?))
    }
}

/// The first attribute of these types: those after it are left.
pub(crate) fn first_slot<'k, 'a, S: OfType<'a>>(
    kept: &KeptView<'a>,
    others: &S,
    kinds: &mut &'k [u8],
) -> Option<AttrView<'a>>
    ensures { let slots = slot (with_others kept.now (S.others others.now)) in
        MatchOption result ((flat_map slots kinds.old.now ≡ []) × (flat_map slots kinds.new.now ≡ []))
        (λ a. flat_map slots kinds.old.now ≡ attr_value a ∷ flat_map slots kinds.new.now) }
{
    'types: while let Some(kind) = step(kinds) {
        let attr = view_slot(kept, others, kind);
        if attr.is_some() {
            return attr;
        }
    }
    None
}

/// The attributes of slots, and others of types that aren't recognised, in the order in which they are written: MP_REACH_NLRI and MP_UNREACH_NLRI first
/// (RFC 7606, section 5.1), all others ascending by type. It allocates nothing.
#[derive(Clone, Copy)]
pub struct SlotIter<'b, 'a> {
    kept: &'b KeptView<'a>,
    others: &'b [OpaqueView<'a>],
    kinds: &'static [u8],
}

impl<'b, 'a> SlotIter<'b, 'a> {
    ghost use Rattle.bgp_update.specs.Iters.{slots_left};

    /// The attributes of these slots, and these others.
    pub fn new(kept: &'b KeptView<'a>, others: &'b [OpaqueView<'a>]) -> SlotIter<'b, 'a>
        ensures { slots_left result ≡ attr_list (attrs_with kept.now others.now) }
    {
        SlotIter {
            kept,
            others,
            kinds: told_types(others),
        }
    }
}

impl<'b, 'a> Iterator for SlotIter<'b, 'a> {
    ghost use Rattle.std.specs.Iterator.{YieldsFirstBy, item_count};
    ghost use Rattle.bgp_update.specs.Iters.{slots_left};

    type Item = AttrView<'a>;

    ghost next_gives = { YieldsFirstBy attr_value slots_left };

    ghost remaining = { item_count slots_left };

    fn next(&mut self) -> Option<AttrView<'a>> {
        first_slot(self.kept, &Row(self.others), &mut self.kinds)
    }
}

impl<'b, 'a> FusedIterator for SlotIter<'b, 'a> {}
