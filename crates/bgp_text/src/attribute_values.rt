//! The values of unrecognised attributes in words: only printed.

ghost use Rattle.std.specs.Prelude.{◌≡◌, ◌++◌, codes, option_map, IfOk, OnOk};
ghost use Rattle.bgp_text.specs.Below.{string_bytes, decimal, ipv4_address_text};
ghost use Rattle.bgp_text.specs.AttributeValues.{as_text, attribute_text, clusters_text, color_text, extended6_row, extended6_text, extended_row, extended_text, metric_text, owned_text, subtype_text, types_text};
ghost use Rattle.bgp_text.specs.JsonAddress.{ip6_text};
ghost use Rattle.bgp_text.specs.steps.Rows.{PrintsFirst};

use crate::capability_values::put_further;
use crate::field_values::{number_in, put_address};
use crate::short::{Decimal, put_one};
use bgp_prefix::Address;
use std::alloc::AllocError;
use std::net::Ipv6Addr;

/// Adds the clusters of CLUSTER_LIST (RFC 4456, section 8).
fn put_clusters(text: &mut String, octets: &[u8]) -> Result<(), AllocError>
    ensures { OnOk result (string_bytes text.new ≡ string_bytes text.old ++ clusters_text octets.now) }
{
    let mut left = octets;
    'row: while let [a, b, c, d, rest @ ..] = left {
        put_address(text, &[*a, *b, *c, *d])?;
        left = rest;
    }
    Ok(())
}

/// Adds an AS number.
fn put_as(text: &mut String, octets: &[u8]) -> Result<(), AllocError>
    ensures { OnOk result (string_bytes text.new ≡ string_bytes text.old ++ as_text octets.now) }
{
    match octets {
        [_, _, _, _] => {
            text.push_str(" AS ")?;
            put_one(text, Decimal(number_in(octets)))
        }
        _ => Ok(()),
    }
}

/// Adds the metric of AIGP.
fn put_metric(text: &mut String, octets: &[u8]) -> Result<(), AllocError>
    ensures { OnOk result (string_bytes text.new ≡ string_bytes text.old ++ metric_text octets.now) }
{
    let [t, u, v, a, b, c, d, e, f, g, h] = octets else {
        return Ok(());
    };
    if *t == 1 && *u == 0 && *v == 11 {
        text.push_str(" metric ")?;
        return put_one(
            text,
            Decimal(u64::from_be_bytes([*a, *b, *c, *d, *e, *f, *g, *h])),
        );
    }
    Ok(())
}

/// Adds the name of an extended community's sub-type (RFC 4360, section 3).
fn put_subtype(text: &mut String, subtype: u8) -> Result<(), AllocError>
    ensures { OnOk result (string_bytes text.new ≡ string_bytes text.old ++ subtype_text subtype) }
{
    match subtype {
        2 => text.push_str(" route target "),
        3 => text.push_str(" route origin "),
        _ => {
            text.push_str(" subtype ")?;
            put_one(text, Decimal(subtype))?;
            text.push_str(" ")
        }
    }
}

/// Adds two numbers, and a colon between them.
fn put_pair(text: &mut String, owner: u32, number: u32) -> Result<(), AllocError>
    ensures { OnOk result (string_bytes text.new ≡ string_bytes text.old ++ (decimal owner ++ (codes ":" ++ decimal number))) }
{
    put_one(text, Decimal(owner))?;
    text.push_str(":")?;
    put_one(text, Decimal(number))
}

/// Adds an address and a number, and a colon between them.
fn put_address_pair(text: &mut String, owner: [u8; 4], number: u32) -> Result<(), AllocError>
    ensures { OnOk result (string_bytes text.new ≡ string_bytes text.old ++ (ipv4_address_text owner ++ (codes ":" ++ decimal number))) }
{
    put_one(text, Address(owner))?;
    text.push_str(":")?;
    put_one(text, Decimal(number))
}

/// Adds the owner of an extended community, and its number.
fn put_owned(text: &mut String, kind: u8, value: &[u8]) -> Result<(), AllocError>
    ensures { OnOk result (string_bytes text.new ≡ string_bytes text.old ++ owned_text kind value.now) }
{
    let [a, b, c, d, e, f] = value else {
        return Ok(());
    };
    let last = u32::from(u16::from_be_bytes([*e, *f]));
    match kind {
        0 => {
            let owner = u32::from(u16::from_be_bytes([*a, *b]));
            put_pair(text, owner, u32::from_be_bytes([*c, *d, *e, *f]))
        }
        1 => put_address_pair(text, [*a, *b, *c, *d], last),
        _ => put_pair(text, u32::from_be_bytes([*a, *b, *c, *d]), last),
    }
}

/// Adds a color.
fn put_color(text: &mut String, value: &[u8]) -> Result<(), AllocError>
    ensures { OnOk result (string_bytes text.new ≡ string_bytes text.old ++ color_text value.now) }
{
    match value {
        [_, _, c, d, e, f] => {
            text.push_str(" color ")?;
            put_one(text, Decimal(u32::from_be_bytes([*c, *d, *e, *f])))
        }
        _ => Ok(()),
    }
}

/// Adds a type and a sub-type by their numbers.
fn put_types(text: &mut String, kind: u8, subtype: u8) -> Result<(), AllocError>
    ensures { OnOk result (string_bytes text.new ≡ string_bytes text.old ++ types_text kind subtype) }
{
    text.push_str(" type ")?;
    put_one(text, Decimal(kind))?;
    text.push_str(" subtype ")?;
    put_one(text, Decimal(subtype))
}

/// Adds an extended community of a type, a sub-type and six octets.
fn put_extended(text: &mut String, kind: u8, subtype: u8, value: &[u8]) -> Result<(), AllocError>
    ensures { OnOk result (string_bytes text.new ≡ string_bytes text.old ++ extended_text kind subtype value.now) }
{
    if kind % 64 < 3 {
        put_subtype(text, subtype)?;
        return put_owned(text, kind % 64, value);
    }
    if kind == 3 && subtype == 11 {
        return put_color(text, value);
    }
    put_types(text, kind, subtype)
}

/// Adds the first community of EXTENDED COMMUNITIES, and returns what follows it: none where there is no community.
fn put_first_extended<'a>(
    text: &mut String,
    octets: &'a [u8],
) -> Result<Option<&'a [u8]>, AllocError>
    ensures { IfOk result (λ rest. PrintsFirst extended_row (string_bytes text.old) (string_bytes text.new) octets.now (option_map (λ r. r.now) rest)) }
{
    let [kind, subtype, a, b, c, d, e, f, rest @ ..] = octets else {
        return Ok(None);
    };
    put_extended(text, *kind, *subtype, &[*a, *b, *c, *d, *e, *f])?;
    put_further(text, rest)?;
    Ok(Some(rest))
}

/// Adds the communities of EXTENDED COMMUNITIES.
fn put_extended_row(text: &mut String, octets: &[u8]) -> Result<(), AllocError>
    ensures { OnOk result (string_bytes text.new ≡ string_bytes text.old ++ extended_row octets.now) }
{
    let mut left = octets;
    'row: while let Some(rest) = put_first_extended(text, left)? {
        left = rest;
    }
    Ok(())
}

/// Adds an address in brackets and a number, and a colon between them.
#[tactic(auto, unfolding(crate::specs::JsonAddress::ip6_text))]
fn put_ip6_pair(text: &mut String, owner: [u8; 16], number: u16) -> Result<(), AllocError>
    ensures { OnOk result (string_bytes text.new ≡ string_bytes text.old ++ (codes "[" ++ (ip6_text owner ++ (codes "]:" ++ decimal number)))) }
{
    let groups = Ipv6Addr::from_octets(owner).hex_groups();
    write!(text, "[{groups}]:{number}")
}

/// Adds an extended community of a type, a sub-type, an address and a number.
fn put_extended6(
    text: &mut String,
    kind: u8,
    subtype: u8,
    owner: [u8; 16],
    number: u16,
) -> Result<(), AllocError>
    ensures { OnOk result (string_bytes text.new ≡ string_bytes text.old ++ extended6_text kind subtype owner number) }
{
    if kind % 64 == 0 {
        put_subtype(text, subtype)?;
        return put_ip6_pair(text, owner, number);
    }
    put_types(text, kind, subtype)
}

/// Adds the first community for IPv6 addresses, and returns what follows it: none where there is no community.
fn put_first_extended6<'a>(
    text: &mut String,
    octets: &'a [u8],
) -> Result<Option<&'a [u8]>, AllocError>
    ensures { IfOk result (λ rest. PrintsFirst extended6_row (string_bytes text.old) (string_bytes text.new) octets.now (option_map (λ r. r.now) rest)) }
{
    let [
        kind,
        subtype,
        a,
        b,
        c,
        d,
        e,
        f,
        g,
        h,
        i,
        j,
        k,
        l,
        m,
        n,
        o,
        p,
        y,
        z,
        rest @ ..,
    ] = octets
    else {
        return Ok(None);
    };
    let owner = [
        *a, *b, *c, *d, *e, *f, *g, *h, *i, *j, *k, *l, *m, *n, *o, *p,
    ];
    put_extended6(text, *kind, *subtype, owner, u16::from_be_bytes([*y, *z]))?;
    put_further(text, rest)?;
    Ok(Some(rest))
}

/// Adds the communities for IPv6 addresses.
fn put_extended6_row(text: &mut String, octets: &[u8]) -> Result<(), AllocError>
    ensures { OnOk result (string_bytes text.new ≡ string_bytes text.old ++ extended6_row octets.now) }
{
    let mut left = octets;
    'row: while let Some(rest) = put_first_extended6(text, left)? {
        left = rest;
    }
    Ok(())
}

/// Adds the value of an attribute of a type.
pub(crate) fn put_attribute(text: &mut String, code: u8, octets: &[u8]) -> Result<(), AllocError>
    ensures { OnOk result (string_bytes text.new ≡ string_bytes text.old ++ attribute_text code octets.now) }
{
    match code {
        9 => put_address(text, octets),
        10 => put_clusters(text, octets),
        16 => put_extended_row(text, octets),
        25 => put_extended6_row(text, octets),
        26 => put_metric(text, octets),
        35 => put_as(text, octets),
        _ => Ok(()),
    }
}
