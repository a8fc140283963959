//! A speaker's own OPEN.

ghost use Rattle.std.specs.Prelude.{◌≡◌, IfOk};
ghost use Rattle.bgp_frame.specs.Prelude.{IsFrame};
ghost use Rattle.bgp_frame.specs.declared.kind.Kind.TheVariants as kind;
ghost use Rattle.bgp_open.specs.Prelude.{IsOpen, field_for, own_caps, own_of, row_octets, canonical};

use crate::body::open_body;
use crate::capability::Capability;
use crate::capability_iter::CapabilityIter;
use crate::config::Config;
use crate::field::is_wide;
use crate::message::Open;
use crate::row::put;
use arrayvec::ArrayVec;
use bgp_frame::{Kind, head};
use bgp_numbers::{AS_TRANS, afi, safi};
use std::alloc::{AllocError, Global};

/// The My Autonomous System field for an AS number.
fn as_field(number: u32) -> u16
    ensures { result ≡ field_for number }
{
    if is_wide(number) {
        AS_TRANS
    } else {
        number as u16
    }
}

/// The OPEN of a speaker: its AS number, or 23456 where that is above 65535, and the capabilities that it offers, in the order
/// IPv4 unicast, IPv6 unicast, AS numbers of four octets.
///
/// # Errors
/// `AllocError` where an allocation failed.
pub fn own_open(alloc: Global, config: &Config) -> Result<Open, AllocError>
    ensures { IfOk result (λ o. o ≡ own_of config.now) }
{
    // What is offered is defined once, by the row that is sent; here it is read.
    let caps = CapabilityIter::of_row(&offered_row(config)).own(alloc)?;
    Ok(Open {
        as_field: as_field(config.local_as()),
        hold: config.hold(),
        id: config.id(),
        caps,
    })
}

/// What a speaker offers, as the row of its capabilities.
fn offered_row(config: &Config) -> ArrayVec<u8, 253>
    ensures { result.items ≡ row_octets (own_caps config.now) }
{
    let mut row = ArrayVec::new();
    if config.ip4() {
        put(&Capability::Multi(afi::IPV4, safi::UNICAST), &mut row);
    }
    if config.ip6() {
        put(&Capability::Multi(afi::IPV6, safi::UNICAST), &mut row);
    }
    if config.as4() {
        put(&Capability::As4(config.local_as()), &mut row);
    }
    row
}

/// The whole message of a speaker's OPEN, header and body, without memory.
pub fn own_frame(config: &Config) -> ArrayVec<u8, 49>
    ensures framed { IsFrame (record { kind = kind.Open; body = canonical (own_of config.now) }) result.items }
    // The body spells the speaker's own OPEN.
    ensures spelled { IsOpen (own_of config.now) (canonical (own_of config.now)) }
{
    let row = offered_row(config);
    let body = open_body(
        as_field(config.local_as()),
        config.hold(),
        config.id(),
        &row,
    );
    let mut frame = ArrayVec::new();
    let _ = frame.try_extend_from_slice(&head(Kind::Open, body.len() as u16));
    let _ = frame.try_extend_from_slice(&body);
    frame
}
