//! The octets of an OPEN's body.

ghost use Rattle.std.specs.Prelude.{◌≡◌, ◌≤◌, length};
ghost use Rattle.bgp_open.specs.Prelude.{body_octets};

use arrayvec::ArrayVec;
use bgp_numbers::{VERSION, parameter};

/// The body of an OPEN (RFC 4271, section 4.2) with these fixed fields, and this row of capabilities, unless it is empty, in one
/// parameter. It allocates nothing.
pub fn open_body(as_field: u16, hold: u16, id: [u8; 4], row: &[u8]) -> ArrayVec<u8, 265>
    requires { length row.now ≤ 253 }
    ensures octets { result.items ≡ body_octets as_field hold id row.now }
    ensures least { 10 ≤ length result.items }
    ensures most { length result.items ≤ 265 }
{
    let mut body = ArrayVec::new();
    let [as_high, as_low] = as_field.to_be_bytes();
    let [hold_high, hold_low] = hold.to_be_bytes();
    let _ = body.try_extend_from_slice(&[VERSION, as_high, as_low, hold_high, hold_low]);
    let _ = body.try_extend_from_slice(&id);
    let length = row.len() as u8;
    if length == 0 {
        let _ = body.try_push(0);
    } else {
        let _ = body.try_extend_from_slice(&[length + 2, parameter::CAPABILITIES, length]);
        let _ = body.try_extend_from_slice(row);
    }
    body
}
