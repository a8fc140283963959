//! The capabilities of an OPEN, one after another.

ghost use Rattle.std.specs.Prelude.{MatchOption, IfOk, ◌≡◌, [], ◌∷◌};
ghost use Rattle.bgp_wire.specs.Prelude.{pieces};
ghost use Rattle.bgp_open.specs.Capability.{one_capability};
ghost use Rattle.bgp_open.specs.CapabilityIter.{capabilities_of, capabilities_left};
ghost use Rattle.bgp_open.specs.CapabilityView.{capability_value};
ghost use Rattle.bgp_open.specs.Parameter.{one_parameter};

use crate::capability::Capability;
use crate::capability_view::{CapabilityView, first_capability};
use crate::parameter::first_parameter;
use bgp_wire::List;
use std::alloc::{AllocError, Global};
use std::iter::FusedIterator;

/// The capabilities of an OPEN in their order, however they are grouped into parameters (RFC 5492, section 4). It allocates nothing.
#[derive(Clone, Copy)]
pub struct CapabilityIter<'a> {
    /// What is left of the parameter that was begun.
    begun: &'a [u8],
    /// The parameters after it.
    later: &'a [u8],
}

impl<'a> CapabilityIter<'a> {
    /// The capabilities of these parameters.
    #[tactic(auto, using(crate::proofs::CapabilityIters::none_begun))]
    pub(crate) fn new(parameters: &'a [u8]) -> CapabilityIter<'a>
        ensures { capabilities_left result ≡ capabilities_of parameters.now }
    {
        CapabilityIter {
            begun: &[],
            later: parameters,
        }
    }

    /// The capabilities of this row, which is in no parameter.
    #[tactic(auto, using(crate::proofs::CapabilityIters::nothing_later))]
    pub(crate) fn of_row(row: &'a [u8]) -> CapabilityIter<'a>
        ensures { capabilities_left result ≡ (pieces one_capability row.now).0 }
    {
        CapabilityIter {
            begun: row,
            later: &[],
        }
    }

    /// The capabilities that are left, with memory of their own.
    ///
    /// # Errors
    /// `AllocError` where an allocation failed.
    pub fn own(self, alloc: Global) -> Result<List<Capability>, AllocError>
        ensures { IfOk result (λ caps. caps ≡ capabilities_left self.entry) }
    {
        let mut caps = List::new(alloc);
        for capability in self {
            caps.push(capability.own(alloc)?)?;
        }
        Ok(caps)
    }

    /// The first capability of the parameters after the one that was begun: empty ones are skipped.
    fn begin(&mut self) -> Option<CapabilityView<'a>>
        ensures { MatchOption result ((capabilities_of self.old.later.now ≡ []) × (capabilities_left self.new ≡ []))
            (λ c. capabilities_of self.old.later.now ≡ capability_value c ∷ capabilities_left self.new) }
    {
        self.begun = &[];
        'parameter: while let Some((value, later)) = first_parameter(self.later) {
            self.later = later;
            if let Some((capability, rest)) = first_capability(value) {
                self.begun = rest;
                return Some(capability);
            }
        }
        None
    }

    /// The next capability.
    fn next_capability(&mut self) -> Option<CapabilityView<'a>>
        ensures { MatchOption result ((capabilities_left self.old ≡ []) × (capabilities_left self.new ≡ []))
            (λ c. capabilities_left self.old ≡ capability_value c ∷ capabilities_left self.new) }
    {
        if let Some((capability, rest)) = first_capability(self.begun) {
            self.begun = rest;
            return Some(capability);
        }
        self.begin()
    }
}

impl<'a> Iterator for CapabilityIter<'a> {
    ghost use Rattle.std.specs.Iterator.{YieldsFirstBy, item_count};
    ghost use Rattle.bgp_open.specs.CapabilityIter.{capabilities_left};

    type Item = CapabilityView<'a>;

    ghost next_gives = { YieldsFirstBy capability_value capabilities_left };

    ghost remaining = { item_count capabilities_left };

    fn next(&mut self) -> Option<CapabilityView<'a>> {
        self.next_capability()
    }
}

impl<'a> FusedIterator for CapabilityIter<'a> {}
