//! Offsets in a body without path identifiers, and in the body with them.

ghost use Rattle.std.specs.Prelude.{◌≡◌, ◌≤◌, ◌+◌, ◌-◌, ℕ, length, max, option_map, IfSome};
ghost use Rattle.bgp_attr.specs.Prelude.{placed_tlv};
ghost use Rattle.bgp_update.specs.Prelude.{parts_of};
ghost use Rattle.bgp_paths.specs.Places.{data_in, first_of_type, place_between, received_in, shift_by, shift_value, shifted, type_at};

use crate::plain_body::split_body;
use bgp_attr::{Tlv, TlvIter};
use bgp_numbers::attribute::{MP_REACH_NLRI, MP_UNREACH_NLRI};

/// An attribute that path identifiers make longer: its offset in the field without them, and the number of octets more.
#[derive(Clone, Copy)]
pub(crate) struct Shift {
    at: usize,
    by: u16,
}

/// The number of octets by which path identifiers move each attribute of a body.
#[derive(Clone, Copy)]
pub struct PathShifts {
    start: usize,
    withdrawn: u16,
    unreached: Shift,
    reached: Shift,
}

/// The first attribute of a type.
pub(crate) fn first_of_type(field: &[u8], kind: u8) -> Option<Tlv<'_>>
    ensures value { option_map placed_tlv result ≡ first_of_type kind field.now }
    ensures within { IfSome result (λ t. length t.whole.now ≤ length field.now) }
{
    let mut tlvs = TlvIter::new(field);
    'field: while let Some(tlv) = tlvs.next() {
        if tlv.kind == kind {
            return Some(tlv);
        }
    }
    None
}

impl Shift {
    /// None.
    fn none() -> Shift
        ensures { (at : ℕ) → shift_value result at ≡ 0 }
    {
        Shift { at: 0, by: 0 }
    }

    /// That of the first attribute of a type, in a field without path identifiers and in one with them.
    fn between(plain: &[u8], field: &[u8], kind: u8) -> Shift
        requires { length field.now ≤ 65535 }
        ensures { (at : ℕ) → shift_value result at ≡ shift_by plain.now field.now kind at }
    {
        match first_of_type(plain, kind) {
            None => Shift::none(),
            Some(shorter) => match first_of_type(field, kind) {
                None => Shift::none(),
                Some(longer) => Shift {
                    at: shorter.at,
                    by: longer.whole.len().saturating_sub(shorter.whole.len()) as u16,
                },
            },
        }
    }

    /// The number of octets by which an offset grows.
    fn of(&self, at: usize) -> usize
        ensures value { result ≡ shift_value self.now at }
        ensures small { result ≤ 65535 }
    {
        if self.at < at {
            usize::from(self.by)
        } else {
            0
        }
    }
}

impl PathShifts {
    /// None.
    fn none() -> PathShifts
        ensures { (at : ℕ) → shifted result at ≡ at }
    {
        PathShifts {
            start: 0,
            withdrawn: 0,
            unreached: Shift::none(),
            reached: Shift::none(),
        }
    }

    /// Those of a body without path identifiers, and the body with them.
    pub fn between(plain: &[u8], body: &[u8]) -> PathShifts
        requires { length body.now ≤ 65535 }
        ensures { (at : ℕ) → shifted result at ≡ place_between (parts_of plain.now) (parts_of body.now) at }
    {
        let Some((withdrawn, attributes, _)) = split_body(plain) else {
            return PathShifts::none();
        };
        let Some((all, field, _)) = split_body(body) else {
            return PathShifts::none();
        };
        PathShifts {
            start: 4 + withdrawn.len(),
            withdrawn: all.len().saturating_sub(withdrawn.len()) as u16,
            unreached: Shift::between(attributes, field, MP_UNREACH_NLRI),
            reached: Shift::between(attributes, field, MP_REACH_NLRI),
        }
    }

    /// The offset in the body of the attribute at an offset of the body without path identifiers.
    pub fn place(&self, at: usize) -> usize
        requires { at ≤ 65535 }
        ensures { result ≡ shifted self.now at }
    {
        let place = at.saturating_sub(self.start);
        at + (usize::from(self.withdrawn) + (self.unreached.of(place) + self.reached.of(place)))
    }
}

/// The type of the attribute that octets begin with: 0 where they begin with none.
fn type_at(octets: &[u8]) -> u8
    ensures { result ≡ type_at octets.now }
{
    match octets {
        [_, kind, ..] => *kind,
        _ => 0,
    }
}

/// The first attribute of this type of a body, as it was received.
fn received(body: &[u8], kind: u8) -> Option<&[u8]>
    ensures value { option_map (λ whole. whole.now) result ≡ received_in kind (parts_of body.entry.now) }
    ensures within { IfSome result (λ whole. 4 + length whole.now ≤ length body.entry.now) }
{
    let (_, field, _) = split_body(body)?;
    let tlv = first_of_type(field, kind)?;
    Some(tlv.whole)
}

/// The data of a NOTIFICATION for a fault in a body without path identifiers, as they are in the body with them: an attribute with routes is that which
/// was received (RFC 4271, section 6.3; RFC 7606, section 3).
pub fn data_received<'a>(body: &'a [u8], info: &'a [u8]) -> &'a [u8]
    ensures value { result.now ≡ data_in (parts_of body.entry.now) info.entry.now }
    ensures short { length result.now ≤ max (length body.entry.now - 4) (length info.entry.now) }
{
    let kind = type_at(info);
    if kind != MP_UNREACH_NLRI && kind != MP_REACH_NLRI {
        return info;
    }
    match received(body, kind) {
        None => info,
        Some(whole) => whole,
    }
}
