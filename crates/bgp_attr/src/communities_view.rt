//! Communities borrowed from the octets read.

ghost use Rattle.std.specs.Prelude.{◌≡◌, IfOk};

use crate::communities::{Communities, LargeCommunities};
use crate::large_iter::LargeCommIter;
use crate::numbers::CommIter;
use bgp_wire::List;
use std::alloc::{AllocError, Global};

/// COMMUNITIES, borrowed.
#[derive(Clone, Copy)]
pub struct CommunitiesView<'a> {
    /// The Partial bit.
    pub partial: bool,
    /// The communities, of 4 octets each: at least one in what is read.
    pub values: CommIter<'a>,
}

impl CommunitiesView<'_> {
    ghost use Rattle.bgp_attr.specs.CommunitiesView.{communities_value};

    /// The communities, with memory of their own.
    ///
    /// # Errors
    /// `AllocError` where an allocation failed.
    pub fn own(self, alloc: Global) -> Result<Communities, AllocError>
        ensures { IfOk result (λ c. c ≡ communities_value self.entry) }
    {
        let values = List::from_vec(self.values.collect(alloc)?);
        Ok(Communities {
            partial: self.partial,
            values,
        })
    }
}

/// LARGE_COMMUNITY, borrowed.
#[derive(Clone, Copy)]
pub struct LargeView<'a> {
    /// The Partial bit.
    pub partial: bool,
    /// The communities, of 12 octets each: at least one and without duplicates in what is read.
    pub values: LargeCommIter<'a>,
}

impl LargeView<'_> {
    ghost use Rattle.bgp_attr.specs.CommunitiesView.{large_value};

    /// The communities, with memory of their own.
    ///
    /// # Errors
    /// `AllocError` where an allocation failed.
    pub fn own(self, alloc: Global) -> Result<LargeCommunities, AllocError>
        ensures { IfOk result (λ l. l ≡ large_value self.entry) }
    {
        let values = List::from_vec(self.values.collect(alloc)?);
        Ok(LargeCommunities {
            partial: self.partial,
            values,
        })
    }
}
