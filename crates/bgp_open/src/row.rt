//! Capabilities one after the other.

ghost use Rattle.std.specs.Prelude.{◌≡◌, ◌≤◌, ◌+◌, ◌++◌, ◌↔◌, length, not, IsTrue, IsNone, IfSome};
ghost use Rattle.std.specs.Bool.{OnTrue};
ghost use Rattle.bgp_wire.specs.Prelude.{Row};
ghost use Rattle.bgp_open.specs.Prelude.{IsCapability, capability_octets, row_octets, is_misnamed, is_bad_row};

use crate::capability::Capability;
use arrayvec::ArrayVec;
use bgp_numbers::capability;

/// Whether the capability would be read as another one.
fn is_misnamed(capability: &Capability) -> bool
    ensures { result ≡ is_misnamed capability.now }
{
    match capability {
        Capability::Other(code, _) => {
            *code == capability::MULTIPROTOCOL || *code == capability::FOUR_OCTET_AS
        }
        Capability::Multi(_, _) | Capability::As4(_) => false,
    }
}

/// Appends a capability, where there is room.
pub(crate) fn put(capability: &Capability, row: &mut ArrayVec<u8, 253>) -> bool
    ensures room { IsTrue result ↔ (length row.old.items + length (capability_octets capability.now) ≤ 253) }
    ensures added { OnTrue result (row.new.items ≡ row.old.items ++ capability_octets capability.now) }
    ensures spelled { IsTrue (not (is_misnamed capability.now)) → IsCapability capability.now (capability_octets capability.now) }
{
    match capability {
        Capability::Multi(family, subsequent) => {
            let [high, low] = family.to_be_bytes();
            row.try_extend_from_slice(&[capability::MULTIPROTOCOL, 4, high, low, 0, *subsequent])
                .is_ok()
        }
        Capability::As4(number) => {
            let [a, b, c, d] = number.to_be_bytes();
            row.try_extend_from_slice(&[capability::FOUR_OCTET_AS, 4, a, b, c, d])
                .is_ok()
        }
        Capability::Other(code, value) => {
            if value.len() > 251 {
                return false;
            }
            let length = value.len() as u8;
            row.try_extend_from_slice(&[*code, length]).is_ok()
                && row.try_extend_from_slice(value).is_ok()
        }
    }
}

/// The octets of capabilities that fit in one parameter, and are read as themselves.
pub(crate) fn row_of(caps: &[Capability]) -> Option<ArrayVec<u8, 253>>
    ensures none { IsNone result ↔ IsTrue (is_bad_row caps.now) }
    ensures octets { IfSome result (λ row. row.items ≡ row_octets caps.now) }
    ensures spelled { IfSome result (λ row. Row IsCapability caps.now row.items) }
{
    let mut row = ArrayVec::new();
    for capability in caps {
        if is_misnamed(capability) {
            return None;
        }
        if !put(capability, &mut row) {
            return None;
        }
    }
    Some(row)
}
