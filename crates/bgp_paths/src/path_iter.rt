//! The prefixes of octets with their path identifiers, one after another.

ghost use Rattle.std.specs.Prelude.{◌≡◌};

use crate::route::{PathPrefix, first_path_prefix};
use std::iter::FusedIterator;

/// The prefixes that octets begin with, each with the path identifier before it, up to the end or the first fault. It allocates nothing.
#[derive(Clone, Copy)]
pub struct PathIter<'a, const W: usize> {
    rest: &'a [u8],
}

impl<'a, const W: usize> PathIter<'a, W> {
    ghost use Rattle.bgp_paths.specs.Route.{path_prefixes};
    ghost use Rattle.bgp_paths.specs.PathIter.{paths_left};

    /// Those of these octets.
    pub fn new(octets: &'a [u8]) -> PathIter<'a, W>
        ensures { paths_left result ≡ path_prefixes W octets.now }
    {
        PathIter { rest: octets }
    }
}

impl<'a, const W: usize> Iterator for PathIter<'a, W> {
    ghost use Rattle.std.specs.Iterator.{YieldsFirstBy, item_count};
    ghost use Rattle.bgp_paths.specs.Route.{path_prefix_value};
    ghost use Rattle.bgp_paths.specs.PathIter.{paths_left};

    type Item = PathPrefix<W>;

    ghost next_gives = { YieldsFirstBy path_prefix_value paths_left };

    ghost remaining = { item_count paths_left };

    #[inline(always)]
    fn next(&mut self) -> Option<PathPrefix<W>> {
        match first_path_prefix::<W>(self.rest) {
            None => None,
            Some((route, after)) => {
                self.rest = after;
                Some(route)
            }
        }
    }

    /// Each has at least five octets.
    fn size_hint(&self) -> (usize, Option<usize>) {
        (0, Some(self.rest.len()))
    }
}

impl<'a, const W: usize> FusedIterator for PathIter<'a, W> {}
