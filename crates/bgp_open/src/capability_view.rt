//! Capabilities borrowed from the octets read.

ghost use Rattle.std.specs.Prelude.{◌≡◌, option_map, IfOk};
ghost use Rattle.bgp_open.specs.Prelude.{capability_of, code_of, one_capability, capability_value};

use crate::capability::Capability;
use bgp_numbers::capability;
use bgp_wire::List;
use std::alloc::{AllocError, Global};

/// A capability whose value is borrowed (RFC 5492, section 4).
#[derive(Clone, Copy)]
pub enum CapabilityView<'a> {
    /// Routes of this address family and subsequent address family (RFC 4760, section 8).
    Multi(u16, u8),
    /// AS numbers of four octets, and the speaker's own one (RFC 6793, sections 3 and 4.1).
    As4(u32),
    /// Any other code, with the octets of its value.
    Other(u8, &'a [u8]),
}

impl CapabilityView<'_> {
    /// Its code.
    pub fn code(&self) -> u8
        ensures { result ≡ code_of (capability_value self.now) }
    {
        match self {
            CapabilityView::Multi(_, _) => capability::MULTIPROTOCOL,
            CapabilityView::As4(_) => capability::FOUR_OCTET_AS,
            CapabilityView::Other(code, _) => *code,
        }
    }

    /// The capability, with memory of its own.
    ///
    /// # Errors
    /// `AllocError` where an allocation failed.
    pub fn own(self, alloc: Global) -> Result<Capability, AllocError>
        ensures { IfOk result (λ c. c ≡ capability_value self.entry) }
    {
        match self {
            CapabilityView::Multi(family, subsequent) => Ok(Capability::Multi(family, subsequent)),
            CapabilityView::As4(number) => Ok(Capability::As4(number)),
            CapabilityView::Other(code, value) => {
                let copy = Vec::from_slice(alloc, value)?;
                Ok(Capability::Other(code, List::from_vec(copy)))
            }
        }
    }
}

/// The capability of this code and value: the values of two codes have four octets.
fn meaning(code: u8, value: &[u8]) -> Option<CapabilityView<'_>>
    ensures { option_map capability_value result ≡ capability_of code value.now }
{
    match code {
        capability::MULTIPROTOCOL => match value {
            [high, low, _, subsequent] => Some(CapabilityView::Multi(
                u16::from_be_bytes([*high, *low]),
                *subsequent,
            )),
            _ => None,
        },
        capability::FOUR_OCTET_AS => match value {
            [a, b, c, d] => Some(CapabilityView::As4(u32::from_be_bytes([*a, *b, *c, *d]))),
            _ => None,
        },
        _ => Some(CapabilityView::Other(code, value)),
    }
}

/// The capability at the front, and what follows it.
#[tactic(auto, unfolding(crate::specs::Capability::one_capability))]
pub fn first_capability(octets: &[u8]) -> Option<(CapabilityView<'_>, &[u8])>
    ensures { option_map (λ x. (capability_value x.0, x.1.now)) result ≡ one_capability octets.now }
{
    let (code, rest) = octets.split_first()?;
    let (length, rest) = rest.split_first()?;
    let (value, rest) = rest.split_at_checked(*length as usize)?;
    Some((meaning(*code, value)?, rest))
}
