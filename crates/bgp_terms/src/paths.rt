//! Path identifiers: the roles that a capability gives its speaker (ADD-PATH; RFC 7911, section 4), as `bgp_open` reads it.

ghost use Rattle.std.specs.Prelude.{◌≡◌};
ghost use Rattle.bgp_open.specs.Prelude.{capability_value, is_path_row, is_role};
ghost use Rattle.bgp_terms.specs.Prelude.{does, has_role, offers_role};

use bgp_numbers::{capability, safi};
use bgp_open::CapabilityView;

/// What a speaker does with path identifiers.
#[derive(Clone, Copy)]
pub(crate) enum Role {
    /// It receives them.
    Reads,
    /// It sends them.
    Sends,
}

/// Whether the standard has this Send/Receive.
fn is_role(code: u8) -> bool
    ensures { result ≡ is_role code }
{
    code == 1 || code == 2 || code == 3
}

/// Whether a Send/Receive gives its speaker this role.
fn does(role: Role, code: u8) -> bool
    ensures { result ≡ does role code }
{
    match role {
        Role::Reads => code == 1 || code == 3,
        Role::Sends => code == 2 || code == 3,
    }
}

/// Whether the value of a capability is understood: families of four octets each.
fn is_path_row(value: &[u8]) -> bool
    ensures { result ≡ is_path_row value.now }
{
    let mut rest = value;
    'families: while let [_, _, _, code, later @ ..] = rest {
        if !is_role(*code) {
            return false;
        }
        rest = later;
    }
    rest.is_empty()
}

/// Whether a row gives its speaker this role for unicast routes of a family.
fn has_role(role: Role, family: u16, value: &[u8]) -> bool
    ensures { result ≡ has_role role family value.now }
{
    let mut rest = value;
    'families: while let [a, b, subsequent, code, later @ ..] = rest {
        let is_family = u16::from_be_bytes([*a, *b]) == family && *subsequent == safi::UNICAST;
        if is_family && does(role, *code) {
            return true;
        }
        rest = later;
    }
    false
}

/// Whether a capability gives its speaker this role.
pub(crate) fn offers_role(role: Role, family: u16, offered: CapabilityView<'_>) -> bool
    ensures { result ≡ offers_role role family (capability_value offered.entry) }
{
    match offered {
        CapabilityView::Other(code, value) => {
            code == capability::ADD_PATH && is_path_row(value) && has_role(role, family, value)
        }
        CapabilityView::Multi(_, _) | CapabilityView::As4(_) => false,
    }
}
