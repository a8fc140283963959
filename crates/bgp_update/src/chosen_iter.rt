//! The chosen attributes of an UPDATE, in the order in which they are written.

ghost use Rattle.std.specs.Prelude.{◌≡◌};
ghost use Rattle.bgp_attr.specs.Prelude.{attr_value};
ghost use Rattle.bgp_update.specs.Chosen.{chosen_attrs};
ghost use Rattle.bgp_update.specs.Slots.{attr_list};

use crate::chosen::Chosen;
use crate::slot_iter::{OfType, first_slot};
use bgp_attr::AttrView;

/// The chosen attributes, in the order in which they are written. It allocates nothing.
#[derive(Clone, Copy)]
pub struct ChosenIter<'b, 'a> {
    chosen: Chosen<'b, 'a>,
    kinds: &'static [u8],
}

impl<'b, 'a> ChosenIter<'b, 'a> {
    ghost use Rattle.bgp_update.specs.ChosenIter.{chosen_left};

    /// All of them.
    pub fn new(chosen: Chosen<'b, 'a>) -> ChosenIter<'b, 'a>
        ensures { chosen_left result ≡ attr_list (chosen_attrs chosen.entry) }
    {
        ChosenIter {
            chosen,
            kinds: chosen.types(),
        }
    }
}

impl<'b, 'a> Iterator for ChosenIter<'b, 'a> {
    ghost use Rattle.std.specs.Iterator.{YieldsFirstBy, item_count};
    ghost use Rattle.bgp_update.specs.ChosenIter.{chosen_left};

    type Item = AttrView<'a>;

    ghost next_gives = { YieldsFirstBy attr_value chosen_left };

    ghost remaining = { item_count chosen_left };

    fn next(&mut self) -> Option<AttrView<'a>> {
        first_slot(self.chosen.kept(), &self.chosen, &mut self.kinds)
    }
}
