//! What is left where no prefix, capability or parameter can be read.

ghost use Rattle.std.specs.Prelude.{◌≡◌, ◌≤◌, length, is_some, option_map};
ghost use Rattle.bgp_wire.specs.Prelude.{pieces};
ghost use Rattle.bgp_prefix.specs.Prelude.{one_prefix, run_of};
ghost use Rattle.bgp_open.specs.Prelude.{capability_of, one_capability, one_parameter};

use bgp_numbers::{capability, parameter};

/// What follows the IPv4 prefix at the front.
#[tactic(auto, unfolding(bgp_prefix::specs::Prefix::one_prefix))]
fn behind_prefix(octets: &[u8]) -> Option<&[u8]>
    ensures { option_map (λ rest. rest.now) result ≡ option_map (λ x. x.1) (one_prefix 4 octets.now) }
{
    let (bits, behind) = octets.split_first()?;
    if *bits > 32 {
        return None;
    }
    let (_, rest) = behind.split_at_checked((usize::from(*bits) + 7) / 8)?;
    Some(rest)
}

/// What is left after the IPv4 prefixes that octets begin with.
pub(crate) fn rest_of_run(octets: &[u8]) -> &[u8]
    ensures { result.now ≡ (run_of 4 octets.now).1 }
{
    let mut rest = octets;
    'run: while let Some(after) = behind_prefix(rest) {
        rest = after;
    }
    rest
}

/// Whether a value of this code has a meaning: the values of two codes have four octets.
fn has_meaning(code: u8, value: &[u8]) -> bool
    ensures { result ≡ is_some (capability_of code value.now) }
{
    match code {
        capability::MULTIPROTOCOL | capability::FOUR_OCTET_AS => match value {
            [_, _, _, _] => true,
            _ => false,
        },
        _ => true,
    }
}

/// What follows the capability at the front.
#[tactic(auto, unfolding(bgp_open::specs::Capability::one_capability))]
fn behind_capability(octets: &[u8]) -> Option<&[u8]>
    ensures { option_map (λ rest. rest.now) result ≡ option_map (λ x. x.1) (one_capability octets.now) }
{
    let (code, rest) = octets.split_first()?;
    let (len, rest) = rest.split_first()?;
    let (value, rest) = rest.split_at_checked(usize::from(*len))?;
    if !has_meaning(*code, value) {
        return None;
    }
    Some(rest)
}

/// What is left after the capabilities that octets begin with.
pub(crate) fn rest_of_capabilities(octets: &[u8]) -> &[u8]
    ensures { result.now ≡ (pieces one_capability octets.now).1 }
{
    let mut rest = octets;
    'row: while let Some(after) = behind_capability(rest) {
        rest = after;
    }
    rest
}

/// What follows the parameter at the front.
#[tactic(auto, using(bgp_open::proofs::Parameters::steps))]
fn behind_parameter(octets: &[u8]) -> Option<&[u8]>
    ensures { option_map (λ rest. rest.now) result ≡ option_map (λ x. x.1) (one_parameter octets.now) }
{
    let (kind, rest) = octets.split_first()?;
    let (len, rest) = rest.split_first()?;
    let (value, rest) = rest.split_at_checked(usize::from(*len))?;
    if *kind != parameter::CAPABILITIES || !rest_of_capabilities(value).is_empty() {
        return None;
    }
    Some(rest)
}

/// What is left after the parameters that octets begin with.
pub(crate) fn rest_of_parameters(octets: &[u8]) -> &[u8]
    ensures value { result.now ≡ (pieces one_parameter octets.now).1 }
    ensures within { length result.now ≤ length octets.now }
{
    let mut rest = octets;
    'row: while let Some(after) = behind_parameter(rest) {
        rest = after;
    }
    rest
}
