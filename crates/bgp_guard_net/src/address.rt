//! Addresses as the octets of C's `sockaddr_in` and `sockaddr_in6` on Linux.

ghost use Rattle.std.specs.Prelude.{◌+◌, ◌≤◌, length};

use libc::net as c;
use std::net::{SocketAddr, SocketAddrV4, SocketAddrV6};

/// The octets of an address, and the number of them that C reads.
#[derive(Clone, Copy)]
pub(crate) struct RawAddress {
    pub(crate) octets: [u8; c::_SS_SIZE],
    pub(crate) len: u32,
}

/// The octets of C's `sockaddr_in`.
const V4_LEN: u32 = 16;

/// The octets of C's `sockaddr_in6`.
const V6_LEN: u32 = 28;

// Writes octets into those of an address.
fn put(address: &mut [u8; c::_SS_SIZE], at: usize, octets: &[u8])
    requires { at + length octets.now ≤ 128 }
{
    address[at..at + octets.len()].copy_from_slice(octets);
}

// The family in the machine's order, and the port in the network's.
fn family_and_port(family: u16, port: u16) -> [u8; c::_SS_SIZE] {
    let mut octets = [0_u8; c::_SS_SIZE];
    put(&mut octets, 0, &family.to_ne_bytes());
    put(&mut octets, 2, &port.to_be_bytes());
    octets
}

// An IPv4 address.
fn raw_v4(address: SocketAddrV4) -> [u8; c::_SS_SIZE] {
    let mut octets = family_and_port(c::AF_INET as u16, address.port());
    put(&mut octets, 4, &address.ip().octets());
    octets
}

// An IPv6 address, with its flow and its scope.
fn raw_v6(address: SocketAddrV6) -> [u8; c::_SS_SIZE] {
    let mut octets = family_and_port(c::AF_INET6 as u16, address.port());
    put(&mut octets, 4, &address.flowinfo().to_ne_bytes());
    put(&mut octets, 8, &address.ip().octets());
    put(&mut octets, 24, &address.scope_id().to_ne_bytes());
    octets
}

/// An address in C's form.
pub(crate) fn raw(address: SocketAddr) -> RawAddress
    ensures { result.len ≤ 128 }
{
    match address {
        SocketAddr::V4(address) => RawAddress {
            octets: raw_v4(address),
            len: V4_LEN,
        },
        SocketAddr::V6(address) => RawAddress {
            octets: raw_v6(address),
            len: V6_LEN,
        },
    }
}
