//! Laying out the body of an UPDATE: room for its length fields, which are set when the parts are written.

ghost use Rattle.std.specs.Prelude.{◌≡◌, ◌<◌, ◌≤◌, ◌+◌, ◌++◌, [], ◌∷◌, ℕ, List, length, take, drop, OnOk, OnErr};
ghost use Rattle.std.specs.Int.{w16, to_be_bytes};
ghost use Rattle.bgp_wire.specs.Prelude.{Extends};
ghost use Rattle.bgp_update.specs.Prelude.{body_octets, LaysOut};

use bgp_wire::Output;
use std::alloc::AllocError;

/// The octets of a message of 4096 octets that follow its header (RFC 4271, section 4.1).
pub(crate) const LONGEST_BODY: usize = 4077;

/// Where the second length field begins, and where the NLRI begins.
#[derive(Clone, Copy)]
pub(crate) struct Places {
    pub(crate) attributes: usize,
    pub(crate) nlri: usize,
}

/// Appends room for a length field.
pub(crate) fn put_room<O: Output>(out: &mut O) -> Result<(), AllocError>
    ensures ok { OnOk result (O.written out.new ≡ O.written out.old ++ 0 ∷ 0 ∷ []) }
    ensures err { OnErr result (Extends (O.written out.old) (O.written out.new) × (O.room < length (O.written out.old) + 2)) }
{
    out.put(&[0, 0])
}

/// Sets a length field.
fn set_length<O: Output>(len: usize, at: usize, out: &mut O)
    requires small { len ≤ 65535 }
    requires room { at + 2 ≤ length (O.written out.old) }
    ensures { O.written out.new ≡ take at (O.written out.old) ++ (to_be_bytes w16 len ++ drop (at + 2) (O.written out.old)) }
{
    out.replace(at, &(len as u16).to_be_bytes());
}

/// Sets both length fields of a body.
pub(crate) fn set_lengths<O: Output>(start: usize, places: Places, out: &mut O)
    requires withdrawn { start + 2 ≤ places.attributes }
    requires attributes { places.attributes + 2 ≤ places.nlri }
    requires nlri { places.nlri ≤ length (O.written out.old) }
    requires small { length (O.written out.old) ≤ start + 65535 }
    ensures { (withdrawn attributes nlri old : List ℕ) → LaysOut withdrawn attributes nlri start old (O.written out.old) places
        → O.written out.new ≡ old ++ body_octets withdrawn attributes nlri }
{
    set_length(places.attributes - (start + 2), start, out);
    set_length(
        places.nlri - (places.attributes + 2),
        places.attributes,
        out,
    );
}
