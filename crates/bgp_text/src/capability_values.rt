//! The values of capabilities on which no verdict depends, in words: only printed.

ghost use Rattle.std.specs.Prelude.{◌≡◌, ◌++◌, drop, option_map, take, IfOk, OnOk};
ghost use Rattle.bgp_text.specs.Below.{string_bytes};
ghost use Rattle.bgp_text.specs.CapabilityValues.{capability_text, domain_text, family_text, fqdn_text, further, hop_text, hops_text, host_text, kept_text, name_or_number, path_mode, paths_text, restart_text, restarts_text, role_name, role_text, stale_text};
ghost use Rattle.bgp_text.specs.Shutdown.{where_utf8};
ghost use Rattle.bgp_text.specs.steps.Rows.{PrintsFirst};

use crate::field_values::{put_numbered, put_said};
use crate::short::{Decimal, put_one};
use bgp_names::{afi_name, safi_name};
use std::alloc::AllocError;
use std::str::from_utf8;

/// Adds a name, or the number if it has none.
pub(crate) fn put_name_or_number(
    text: &mut String,
    name: &str,
    number: u32,
) -> Result<(), AllocError>
    ensures { OnOk result (string_bytes text.new ≡ string_bytes text.old ++ name_or_number name.now number) }
{
    if name.is_empty() {
        return put_one(text, Decimal(number));
    }
    text.push_str(name)
}

/// Adds a family by its AFI and its SAFI.
fn put_family(text: &mut String, afi: u16, safi: u8) -> Result<(), AllocError>
    ensures { OnOk result (string_bytes text.new ≡ string_bytes text.old ++ family_text afi safi) }
{
    text.push_str(" ")?;
    put_name_or_number(text, afi_name(afi), u32::from(afi))?;
    text.push_str(" ")?;
    put_name_or_number(text, safi_name(safi), u32::from(safi))
}

/// Adds a comma, if more follows.
pub(crate) fn put_further(text: &mut String, rest: &[u8]) -> Result<(), AllocError>
    ensures { OnOk result (string_bytes text.new ≡ string_bytes text.old ++ further rest.now) }
{
    if rest.is_empty() {
        return Ok(());
    }
    text.push_str(",")
}

/// The name of a role (RFC 9234, section 4.1).
#[tactic(auto, unfolding(crate::specs::CapabilityValues::role_name))]
fn role_name(role: u8) -> &'static str
    ensures { result.now ≡ role_name role }
{
    match role {
        0 => "Provider",
        1 => "RS",
        2 => "RS-Client",
        3 => "Customer",
        4 => "Peer",
        _ => "",
    }
}

/// Adds a role.
fn put_role(text: &mut String, octets: &[u8]) -> Result<(), AllocError>
    ensures { OnOk result (string_bytes text.new ≡ string_bytes text.old ++ role_text octets.now) }
{
    match octets {
        [role] => put_numbered(text, role_name(*role), u32::from(*role)),
        _ => Ok(()),
    }
}

/// Adds a family, and the AFI of its next hops.
fn put_hop(text: &mut String, afi: u16, safi: u8, hop: u16) -> Result<(), AllocError>
    ensures { OnOk result (string_bytes text.new ≡ string_bytes text.old ++ hop_text afi safi hop) }
{
    put_family(text, afi, safi)?;
    text.push_str(" by ")?;
    put_name_or_number(text, afi_name(hop), u32::from(hop))
}

/// Adds the first family of Extended Next Hop Encoding, and returns what follows it: none where there is no family.
fn put_first_hop<'a>(text: &mut String, octets: &'a [u8]) -> Result<Option<&'a [u8]>, AllocError>
    ensures { IfOk result (λ rest. PrintsFirst hops_text (string_bytes text.old) (string_bytes text.new) octets.now (option_map (λ r. r.now) rest)) }
{
    let [a, b, _, safi, h, i, rest @ ..] = octets else {
        return Ok(None);
    };
    let afi = u16::from_be_bytes([*a, *b]);
    put_hop(text, afi, *safi, u16::from_be_bytes([*h, *i]))?;
    put_further(text, rest)?;
    Ok(Some(rest))
}

/// Adds the families of Extended Next Hop Encoding (RFC 8950, section 4).
fn put_hops(text: &mut String, octets: &[u8]) -> Result<(), AllocError>
    ensures { OnOk result (string_bytes text.new ≡ string_bytes text.old ++ hops_text octets.now) }
{
    let mut left = octets;
    'row: while let Some(rest) = put_first_hop(text, left)? {
        left = rest;
    }
    Ok(())
}

/// Whether the forwarding state of a family was preserved.
fn kept_text(flags: u8) -> &'static str
    ensures { result.now ≡ kept_text flags }
{
    if flags >= 128 {
        " forwarding state kept"
    } else {
        ""
    }
}

/// Adds the families of Graceful Restart.
fn put_restarts(text: &mut String, octets: &[u8]) -> Result<(), AllocError>
    ensures { OnOk result (string_bytes text.new ≡ string_bytes text.old ++ restarts_text octets.now) }
{
    let mut left = octets;
    'row: while let [a, b, safi, flags, rest @ ..] = left {
        text.push_str(",")?;
        put_family(text, u16::from_be_bytes([*a, *b]), *safi)?;
        text.push_str(kept_text(*flags))?;
        left = rest;
    }
    Ok(())
}

/// Adds the Restart Time of Graceful Restart, and its families (RFC 4724, section 3).
fn put_restart(text: &mut String, octets: &[u8]) -> Result<(), AllocError>
    ensures { OnOk result (string_bytes text.new ≡ string_bytes text.old ++ restart_text octets.now) }
{
    let [high, low, families @ ..] = octets else {
        return Ok(());
    };
    let time = u32::from(*high) % 16 * 256 + u32::from(*low);
    put_numbered(text, "seconds", time)?;
    put_restarts(text, families)
}

/// Adds the first family of Long-Lived Graceful Restart, and returns what follows it: none where there is no family.
fn put_first_stale<'a>(text: &mut String, octets: &'a [u8]) -> Result<Option<&'a [u8]>, AllocError>
    ensures { IfOk result (λ rest. PrintsFirst stale_text (string_bytes text.old) (string_bytes text.new) octets.now (option_map (λ r. r.now) rest)) }
{
    let [a, b, safi, _, t, u, v, rest @ ..] = octets else {
        return Ok(None);
    };
    put_family(text, u16::from_be_bytes([*a, *b]), *safi)?;
    let time = u32::from(*t) * 65536 + u32::from(*u) * 256 + u32::from(*v);
    put_numbered(text, "seconds", time)?;
    put_further(text, rest)?;
    Ok(Some(rest))
}

/// Adds the families of Long-Lived Graceful Restart (RFC 9494, section 3.1).
fn put_stale(text: &mut String, octets: &[u8]) -> Result<(), AllocError>
    ensures { OnOk result (string_bytes text.new ≡ string_bytes text.old ++ stale_text octets.now) }
{
    let mut left = octets;
    'row: while let Some(rest) = put_first_stale(text, left)? {
        left = rest;
    }
    Ok(())
}

/// Whether a speaker receives or sends path identifiers (RFC 7911, section 4).
#[tactic(auto, unfolding(crate::specs::CapabilityValues::path_mode))]
fn path_mode(mode: u8) -> &'static str
    ensures { result.now ≡ path_mode mode }
{
    match mode {
        1 => "receive",
        2 => "send",
        3 => "send and receive",
        _ => "",
    }
}

/// Adds the families of ADD-PATH.
fn put_paths(text: &mut String, octets: &[u8]) -> Result<(), AllocError>
    ensures { OnOk result (string_bytes text.new ≡ string_bytes text.old ++ paths_text octets.now) }
{
    let mut left = octets;
    'row: while let [a, b, safi, mode, rest @ ..] = left {
        put_family(text, u16::from_be_bytes([*a, *b]), *safi)?;
        text.push_str(" ")?;
        put_name_or_number(text, path_mode(*mode), u32::from(*mode))?;
        put_further(text, rest)?;
        left = rest;
    }
    Ok(())
}

/// These octets as text: empty where they aren't UTF-8.
#[tactic(auto, using(crate::proofs::Escapes::is_text, crate::proofs::Escapes::is_no_text))]
fn where_utf8(octets: &[u8]) -> &str
    ensures { result.now ≡ where_utf8 octets.now }
{
    match from_utf8(octets) {
        Ok(text) => text,
        Err(_) => "",
    }
}

/// The octets of a name of this length, or all where there are fewer, and those after it.
fn name_and_rest(len: u8, octets: &[u8]) -> (&[u8], &[u8])
    ensures name { result.0.now ≡ take len octets.now }
    ensures rest { result.1.now ≡ drop len octets.now }
{
    octets.split_at(usize::from(len).min(octets.len()))
}

/// Adds a name.
fn put_host(text: &mut String, octets: &[u8]) -> Result<(), AllocError>
    ensures { OnOk result (string_bytes text.new ≡ string_bytes text.old ++ host_text octets.now) }
{
    put_said(text, where_utf8(octets))
}

/// Adds the domain of FQDN.
fn put_domain(text: &mut String, octets: &[u8]) -> Result<(), AllocError>
    ensures { OnOk result (string_bytes text.new ≡ string_bytes text.old ++ domain_text octets.now) }
{
    match octets {
        [len, rest @ ..] => put_host(text, name_and_rest(*len, rest).0),
        _ => Ok(()),
    }
}

/// Adds the names of FQDN.
fn put_fqdn(text: &mut String, octets: &[u8]) -> Result<(), AllocError>
    ensures { OnOk result (string_bytes text.new ≡ string_bytes text.old ++ fqdn_text octets.now) }
{
    let [len, rest @ ..] = octets else {
        return Ok(());
    };
    let (name, domain) = name_and_rest(*len, rest);
    put_host(text, name)?;
    put_domain(text, domain)
}

/// Adds the value of a capability of a code.
pub(crate) fn put_capability(text: &mut String, code: u8, octets: &[u8]) -> Result<(), AllocError>
    ensures { OnOk result (string_bytes text.new ≡ string_bytes text.old ++ capability_text code octets.now) }
{
    match code {
        5 => put_hops(text, octets),
        9 => put_role(text, octets),
        64 => put_restart(text, octets),
        69 => put_paths(text, octets),
        71 => put_stale(text, octets),
        73 => put_fqdn(text, octets),
        _ => Ok(()),
    }
}
