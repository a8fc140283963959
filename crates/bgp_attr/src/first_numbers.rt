//! The number of AS numbers in a segment, and the first of them.

ghost use Rattle.std.specs.Prelude.{◌≡◌, length, take};

use crate::numbers::{AsNumberIter, count_numbers};
use crate::segment::number_width;

impl<'a> AsNumberIter<'a> {
    ghost use Rattle.bgp_attr.specs.NumberIter.{as_numbers_left};

    /// The number of AS numbers that are left.
    pub fn left(&self) -> usize
        ensures { result ≡ length (as_numbers_left self.now) }
    {
        count_numbers(self.wide, self.rest)
    }

    /// The first `count` of the numbers left, or all where there are fewer.
    pub fn first(self, count: usize) -> AsNumberIter<'a>
        ensures { as_numbers_left result ≡ take count (as_numbers_left self.entry) }
    {
        if count >= self.left() {
            return self;
        }
        let end = count * number_width(self.wide);
        AsNumberIter {
            wide: self.wide,
            rest: &self.rest[..end],
        }
    }
}
