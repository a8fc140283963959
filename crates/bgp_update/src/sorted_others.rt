//! Attributes of types that aren't recognised, each found at its type where there are many.

ghost use Rattle.std.specs.Prelude.{map, option_map};
ghost use Rattle.bgp_attr.specs.AttrView.{opaque_value};
ghost use Rattle.bgp_update.specs.steps.SortedOthers.{AreSorted};

use crate::by_type::ByType;
use crate::slot_iter::OfType;
use crate::told_slot::{other, told_types};
use bgp_attr::OpaqueView;

/// The greatest number of attributes that is searched one after another.
pub(crate) const FEW: usize = 4;

/// A row of them, ascending by type, and the same by type where there are more than [`FEW`]: each type is searched for, so that the time would
/// grow with the square of their number.
#[derive(Clone, Copy)]
pub(crate) struct SortedOthers<'b, 'a> {
    pub(crate) row: &'b [OpaqueView<'a>],
    by_type: Option<&'b ByType<'a>>,
    ghost sorted: { AreSorted (option_map (λ t. t.now) by_type) (map opaque_value row.now) },
}

impl<'b, 'a> SortedOthers<'b, 'a> {
    ghost use Rattle.std.specs.Prelude.{◌≡◌};

    /// This row, which may also be stored by type.
    #[inline(always)]
    pub(crate) fn new(
        row: &'b [OpaqueView<'a>],
        by_type: Option<&'b ByType<'a>>,
    ) -> SortedOthers<'b, 'a>
        requires { AreSorted (option_map (λ t. t.now) by_type) (map opaque_value row.now) }
        ensures { result.row ≡ row.entry }
    {
        SortedOthers { row, by_type }
    }
}

impl<'b, 'a> OfType<'a> for SortedOthers<'b, 'a> {
    ghost use Rattle.std.specs.Prelude.{map};
    ghost use Rattle.bgp_attr.specs.AttrView.{opaque_value};

    ghost others = { λ it. map opaque_value it.row.now };

    #[inline(always)]
    fn of_type(&self, kind: u8) -> Option<OpaqueView<'a>> {
        match self.by_type {
            None => other(self.row, kind),
            Some(by_type) => by_type.get(kind),
        }
    }

    fn are_none(&self) -> bool {
        self.row.is_empty()
    }

    fn types(&self) -> &'static [u8] {
        told_types(self.row)
    }
}
