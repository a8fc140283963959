//! The attributes of an UPDATE without some of those of types that aren't recognised.

ghost use Rattle.std.specs.Prelude.{option_map};
ghost use Rattle.bgp_update.specs.Found.{IsFound};
ghost use Rattle.bgp_update.specs.View.{update_value};

use crate::attrs::RECOGNISED;
use crate::body_writing::HasAttributes;
use crate::by_type::ByType;
use crate::kept_view::KeptView;
use crate::order::order;
use crate::slot_iter::{OfType, view_slot};
use crate::view::UpdateView;
use bgp_attr::{AttrView, OpaqueView};
use bgp_wire::OctetSet;

/// The kept attributes of an UPDATE, without those of the unrecognised types that are left out. The unrecognised ones that stay are found
/// by their type in one step.
#[derive(Clone, Copy)]
pub struct Chosen<'b, 'a> {
    pub(crate) view: &'b UpdateView<'a>,
    drops: &'b OctetSet,
    others: Option<&'b ByType<'a>>,
    ghost found: { IsFound (option_map (λ t. t.now) others) (update_value view.now).attrs.others },
}

impl<'b, 'a> Chosen<'b, 'a> {
    ghost use Rattle.std.specs.Prelude.{◌≡◌, false};
    ghost use Rattle.std.specs.List.{flat_map};
    ghost use Rattle.bgp_wire.specs.OctetSet.{has_octet};
    ghost use Rattle.bgp_update.specs.declared.attrs.Attrs.{Attrs};
    ghost use Rattle.bgp_update.specs.Slots.{attr_list, slot};
    ghost use Rattle.bgp_update.specs.ByType.{IsByType};
    ghost use Rattle.bgp_update.specs.Chosen.{chosen_update};
    ghost use Rattle.bgp_update.specs.Without.{update_without};

    /// For an UPDATE that keeps no attribute of an unrecognised type: all attributes.
    #[inline(always)]
    pub fn all(view: &'b UpdateView<'a>, drops: &'b OctetSet) -> Chosen<'b, 'a>
        requires { view.now.summary.kept.others ≡ false }
        ensures { chosen_update result ≡ update_without (has_octet drops.now) (update_value view.now) }
    {
        Chosen {
            view,
            drops,
            others: None,
        }
    }

    /// For any UPDATE: its attributes of unrecognised types are in a buffer ([`sort_others`](UpdateView::sort_others)).
    #[inline(always)]
    pub fn without(
        view: &'b UpdateView<'a>,
        drops: &'b OctetSet,
        others: &'b ByType<'a>,
    ) -> Chosen<'b, 'a>
        requires { IsByType others.now (update_value view.now).attrs.others }
        ensures { chosen_update result ≡ update_without (has_octet drops.now) (update_value view.now) }
    {
        Chosen {
            view,
            drops,
            others: Some(others),
        }
    }

    /// The UPDATE.
    #[inline(always)]
    pub fn view(&self) -> &UpdateView<'a>
        ensures { result.now ≡ self.now.view.now }
    {
        self.view
    }

    /// The types to look at for any attributes with the same unrecognised ones, in the order in which they are written.
    pub fn written_types(&self) -> &'static [u8]
        ensures { (a : Attrs) → a.others ≡ (chosen_update self.now).attrs.others → flat_map (slot a) result.now ≡ attr_list a }
    {
        OfType::types(self)
    }

    /// The attributes of recognised types.
    #[inline(always)]
    pub(crate) fn kept(&self) -> &KeptView<'a>
        ensures { result.now ≡ self.now.view.now.summary.kept }
    {
        &self.view.summary.kept
    }
}

impl<'b, 'a> OfType<'a> for Chosen<'b, 'a> {
    ghost use Rattle.bgp_update.specs.Chosen.{chosen_others};

    ghost others = { chosen_others };

    #[inline(always)]
    fn of_type(&self, kind: u8) -> Option<OpaqueView<'a>> {
        if self.drops.contains(kind) {
            return None;
        }
        match self.others {
            None => None,
            Some(others) => others.get(kind),
        }
    }

    #[inline(always)]
    fn are_none(&self) -> bool {
        self.others.is_none()
    }

    #[inline(always)]
    fn types(&self) -> &'static [u8] {
        match self.others {
            None => &RECOGNISED,
            Some(_) => order(),
        }
    }
}

impl<'a> HasAttributes<'a> for Chosen<'_, 'a> {
    ghost use Rattle.bgp_update.specs.Chosen.{chosen_attrs};

    ghost attrs = { chosen_attrs };

    fn attribute(&self, kind: u8) -> Option<AttrView<'a>> {
        view_slot(self.kept(), self, kind)
    }

    fn types(&self) -> &'static [u8] {
        OfType::types(self)
    }
}
