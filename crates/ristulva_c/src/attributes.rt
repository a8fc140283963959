//! Attributes in sequence.

ghost use Rattle.std.specs.Prelude.{◌≡◌, ◌⊎◌, ◌↔◌, [], ◌∷◌};
ghost use Rattle.ristulva_c.specs.Prelude.{IsAttributes, attributes_left, attribute_told};
ghost use Rattle.ristulva_c.specs.declared.status.TheConstants.{END, OK, RANGE};

use crate::span::Span;
use crate::status::{END, OK, RANGE};
use bgp_attr::tlv_at;

/// The remaining attributes of a field.
#[repr(C)]
#[derive(Clone, Copy)]
pub struct Attributes {
    /// The offset of the next one.
    pub at: u32,
    /// The end of the field.
    pub end: u32,
}

/// An attribute as it lies in octets (RFC 4271, section 4.3).
#[repr(C)]
#[derive(Clone, Copy)]
pub struct Attribute {
    /// The offset of its flags.
    pub at: u32,
    /// The flags octet.
    pub flags: u8,
    /// The type.
    pub kind: u8,
    /// Its value.
    pub value: Span,
}

/// Gives the attribute at a cursor, and moves the cursor after it.
#[unsafe(no_mangle)]
#[tactic(auto, using(crate::proofs::TlvSteps::tlv_fits, crate::proofs::TlvSteps::value_fits))]
pub extern "C" fn ristulva_next_attribute(
    octets: &[u8],
    cursor: &mut Attributes,
    out: &mut Attribute,
) -> u32
    ensures ok { result ≡ OK → attributes_left octets.now cursor.old ≡ attribute_told octets.now out.new ∷ attributes_left octets.now cursor.new }
    ensures over { result ≡ END → attributes_left octets.now cursor.old ≡ [] }
    ensures range { (result ≡ RANGE) ↔ (IsAttributes octets.now cursor.old → ⊥) }
    ensures kept { (result ≡ OK) ⊎ ((cursor.new ≡ cursor.old) × (out.new ≡ out.old)) }
    ensures field { cursor.new ≡ record cursor.old { at = cursor.new.at } }
    ensures known { (result ≡ OK) ⊎ ((result ≡ END) ⊎ (result ≡ RANGE)) }
{
    let Some(field) = octets.get(cursor.at as usize..cursor.end as usize) else {
        return RANGE;
    };
    match tlv_at(field, 0) {
        None => END,
        Some(tlv) => {
            let len = tlv.value.len() as u32;
            let behind = cursor.at + tlv.whole.len() as u32;
            *out = Attribute {
                at: cursor.at,
                flags: tlv.flags.0,
                kind: tlv.kind,
                value: Span {
                    at: behind - len,
                    len,
                },
            };
            cursor.at = behind;
            OK
        }
    }
}
