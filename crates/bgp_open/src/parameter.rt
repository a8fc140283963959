//! Optional parameters in the octets read.

ghost use Rattle.std.specs.Prelude.{◌≡◌, ◌==◌, length, option_map};
ghost use Rattle.bgp_wire.specs.Prelude.{pieces};
ghost use Rattle.bgp_open.specs.Prelude.{one_capability, one_parameter, rest_fault};

use crate::capability_view::first_capability;
use crate::fault::OpenFault;
use bgp_numbers::parameter;

/// Whether the octets are capabilities, each whole, and nothing else.
fn are_capabilities(octets: &[u8]) -> bool
    ensures { result ≡ (length (pieces one_capability octets.now).1 == 0) }
{
    let mut rest = octets;
    'row: while let Some((_, after)) = first_capability(rest) {
        rest = after;
    }
    rest.is_empty()
}

/// The octets of the capabilities in the parameter at the front, and what follows the parameter.
#[tactic(auto, using(crate::proofs::Parameters::steps))]
pub fn first_parameter(octets: &[u8]) -> Option<(&[u8], &[u8])>
    ensures { option_map (λ x. ((pieces one_capability x.0.now).0, x.1.now)) result ≡ one_parameter octets.now }
{
    let (kind, rest) = octets.split_first()?;
    let (length, rest) = rest.split_first()?;
    let (value, rest) = rest.split_at_checked(*length as usize)?;
    if *kind != parameter::CAPABILITIES || !are_capabilities(value) {
        return None;
    }
    Some((value, rest))
}

/// The fault of what is left after the last parameter.
fn rest_fault(rest: &[u8]) -> Option<OpenFault>
    ensures { result ≡ rest_fault rest.now }
{
    let (kind, rest) = rest.split_first()?;
    match rest.split_first() {
        None => Some(OpenFault::Parameter),
        Some((length, value)) if value.len() < *length as usize => Some(OpenFault::Parameter),
        Some(_) if *kind != parameter::CAPABILITIES => Some(OpenFault::UnknownParameter),
        Some(_) => Some(OpenFault::Parameter),
    }
}

/// The first fault of the parameters.
pub(crate) fn parameters_fault(octets: &[u8]) -> Option<OpenFault>
    ensures { result ≡ rest_fault (pieces one_parameter octets.now).1 }
{
    let mut rest = octets;
    'row: while let Some((_, after)) = first_parameter(rest) {
        rest = after;
    }
    rest_fault(rest)
}
