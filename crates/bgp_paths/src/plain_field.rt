//! The attributes of a message, without the path identifiers of their routes.

ghost use Rattle.std.specs.Prelude.{◌≡◌, ◌+◌, ◌≤◌, ◌++◌, ℕ, List, length};
ghost use Rattle.bgp_attr.specs.TlvView.{IsTail};
ghost use Rattle.bgp_paths.specs.Plain.{plain_field};

use crate::changing::put_tlv;
use crate::families::PathFamilies;
use crate::plain_routes::{BODY, put};
use bgp_attr::{Tail, TlvIter};
use bgp_wire::Page;

/// The octets of what follows the last whole attribute.
pub(crate) fn octets_of_tail(tail: Tail<'_>) -> &[u8]
    ensures { (rest : List ℕ) → IsTail rest tail.entry → result.now ≡ rest }
{
    match tail {
        Tail::End => &[],
        Tail::Cut(rest) => rest,
    }
}

/// Appends the attributes of a field without the path identifiers of their routes. `room` is used to write the values, whatever it held.
pub(crate) fn put_field(
    families: PathFamilies,
    field: &[u8],
    room: &mut Page<BODY>,
    out: &mut Page<BODY>,
)
    requires short { length field.now ≤ 4077 }
    requires room { length out.old + length (plain_field families field.now) ≤ 4077 }
    ensures { out.new ≡ out.old ++ plain_field families field.now }
{
    let mut tlvs = TlvIter::new(field);
    'field: while let Some(tlv) = tlvs.next() {
        put_tlv(families, &tlv, room, out);
    }
    put(octets_of_tail(tlvs.tail()), out);
}
