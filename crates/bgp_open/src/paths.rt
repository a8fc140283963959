//! Path identifiers: whether two OPENs agree on them (ADD-PATH; RFC 7911).

ghost use Rattle.std.specs.Prelude.{◌≡◌};
ghost use Rattle.bgp_open.specs.Prelude.{agree_on_paths, does, has_paths, has_role, is_path_row, is_role, offers_role, takes_role};

use crate::capability::Capability;
use crate::message::Open;
use bgp_numbers::{afi, capability, safi};

/// What a speaker does with path identifiers.
#[derive(Clone, Copy)]
pub(crate) enum Role {
    /// It receives them.
    Reads,
    /// It sends them.
    Sends,
}

/// Whether the standard has this Send/Receive.
fn is_role(code: u8) -> bool
    ensures { result ≡ is_role code }
{
    code == 1 || code == 2 || code == 3
}

/// Whether a Send/Receive gives its speaker this role.
fn does(role: Role, code: u8) -> bool
    ensures { result ≡ does role code }
{
    match role {
        Role::Reads => code == 1 || code == 3,
        Role::Sends => code == 2 || code == 3,
    }
}

/// Whether the value of a capability is understood: families of four octets each.
fn is_path_row(value: &[u8]) -> bool
    ensures { result ≡ is_path_row value.now }
{
    let mut rest = value;
    'families: while let [_, _, _, code, later @ ..] = rest {
        if !is_role(*code) {
            return false;
        }
        rest = later;
    }
    rest.is_empty()
}

/// Whether a row gives its speaker this role for unicast routes of a family.
fn has_role(role: Role, family: u16, value: &[u8]) -> bool
    ensures { result ≡ has_role role family value.now }
{
    let mut rest = value;
    'families: while let [a, b, subsequent, code, later @ ..] = rest {
        let is_family = u16::from_be_bytes([*a, *b]) == family && *subsequent == safi::UNICAST;
        if is_family && does(role, *code) {
            return true;
        }
        rest = later;
    }
    false
}

/// Whether a capability gives its speaker this role.
fn offers_role(role: Role, family: u16, offered: &Capability) -> bool
    ensures { result ≡ offers_role role family offered.now }
{
    match offered {
        Capability::Other(code, value) => {
            *code == capability::ADD_PATH && is_path_row(value) && has_role(role, family, value)
        }
        Capability::Multi(_, _) | Capability::As4(_) => false,
    }
}

/// Whether an OPEN gives its speaker this role.
fn takes_role(role: Role, family: u16, sender: &Open) -> bool
    ensures { result ≡ takes_role role family sender.now }
{
    sender
        .caps
        .iter()
        .any(|offered| offers_role(role, family, offered))
}

/// Whether unicast routes of a family have path identifiers in this direction.
fn has_paths(family: u16, sender: &Open, reader: &Open) -> bool
    ensures { result ≡ has_paths family sender.now reader.now }
{
    takes_role(Role::Sends, family, sender) && takes_role(Role::Reads, family, reader)
}

/// Whether routes have path identifiers in this direction, by the OPENs of both: those of IPv4 unicast, or those of IPv6 unicast where both
/// offer it (RFC 7911, sections 3 and 4). No call here reads such routes.
pub fn agree_on_paths(sender: &Open, reader: &Open) -> bool
    ensures { result ≡ agree_on_paths sender.now reader.now }
{
    has_paths(afi::IPV4, sender, reader)
        || (sender.peer().ip6 && reader.peer().ip6 && has_paths(afi::IPV6, sender, reader))
}
