//! The kept attributes of a message, one after another.

ghost use Rattle.std.specs.Prelude.{◌≡◌, [], ◌∷◌, MatchOption};
ghost use Rattle.bgp_attr.specs.Prelude.{attr_value};
ghost use Rattle.bgp_update.specs.MarkIter.{marks_left};
ghost use Rattle.bgp_update.specs.Taken.{kept_of};

use crate::mark::MarkIter;
use bgp_attr::{AttrView, FoundAttr};
use std::iter::FusedIterator;

/// The attributes of a message that are kept, by offset. It allocates nothing.
#[derive(Clone, Copy)]
pub struct AttrIter<'a> {
    marks: MarkIter<'a>,
}

impl<'a> AttrIter<'a> {
    ghost use Rattle.bgp_update.specs.Iters.{attrs_left};

    /// The attributes that these marks keep.
    pub(crate) fn new(marks: MarkIter<'a>) -> AttrIter<'a>
        ensures { attrs_left result ≡ kept_of (marks_left marks.entry) }
    {
        AttrIter { marks }
    }
}

/// The first attribute that is kept: the marks after it are left.
fn first_kept<'a>(marks: &mut MarkIter<'a>) -> Option<AttrView<'a>>
    ensures { MatchOption result ((kept_of (marks_left marks.old) ≡ []) × (kept_of (marks_left marks.new) ≡ []))
        (λ a. kept_of (marks_left marks.old) ≡ attr_value a ∷ kept_of (marks_left marks.new)) }
{
    'field: while let Some(mark) = marks.next() {
        if let FoundAttr::Keep(attr) = mark.judged {
            return Some(attr);
        }
    }
    None
}

impl<'a> Iterator for AttrIter<'a> {
    ghost use Rattle.std.specs.Iterator.{YieldsFirstBy, item_count};
    ghost use Rattle.bgp_update.specs.Iters.{attrs_left};

    type Item = AttrView<'a>;

    ghost next_gives = { YieldsFirstBy attr_value attrs_left };

    ghost remaining = { item_count attrs_left };

    fn next(&mut self) -> Option<AttrView<'a>> {
        first_kept(&mut self.marks)
    }
}

impl<'a> FusedIterator for AttrIter<'a> {}
