//! The span of an OPEN's fault.

ghost use Rattle.std.specs.Prelude.{◌≡◌, ◌≤◌, length};
ghost use Rattle.bgp_open.specs.Prelude.{is_short_hold, is_zero_id};
ghost use Rattle.bgp_fields.specs.Prelude.{item_extent, capability_place, parameter_place, parameters_place, open_place};

use crate::field::Span;
use crate::place::span;
use crate::rests::{rest_of_capabilities, rest_of_parameters};
use bgp_numbers::{VERSION, parameter};

/// The length of the parameter or capability at the front, or of those of its octets that exist.
fn item_extent(octets: &[u8]) -> usize
    ensures value { result ≡ item_extent octets.now }
    ensures small { result ≤ 257 }
{
    match octets {
        [_, len, value @ ..] => 2 + usize::from(*len).min(value.len()),
        _ => octets.len(),
    }
}

/// The capability that can't be read in a value that begins at this offset.
fn capability_span(at: usize, value: &[u8]) -> Span
    requires at { at ≤ 8192 }
    requires short { length value.now ≤ 8192 }
    ensures { result ≡ capability_place at value.now }
{
    let rest = rest_of_capabilities(value);
    span(
        at + value.len().saturating_sub(rest.len()),
        item_extent(rest),
    )
}

/// The parameter that can't be read at the front of octets that begin at this offset, or its capability that can't.
fn parameter_span(at: usize, octets: &[u8]) -> Option<Span>
    requires at { at ≤ 4200 }
    requires short { length octets.now ≤ 4096 }
    ensures { result ≡ parameter_place at octets.now }
{
    match octets {
        [] => None,
        [_] => Some(span(at, 1)),
        [code, len, value @ ..] => {
            let len = usize::from(*len);
            if *code == parameter::CAPABILITIES && len <= value.len() {
                let (inside, _) = value.split_at(len);
                return Some(capability_span(at + 2, inside));
            }
            Some(span(at, 2 + len.min(value.len())))
        }
    }
}

/// The first parameter that can't be read.
fn parameters_span(parameters: &[u8]) -> Option<Span>
    requires { length parameters.now ≤ 4096 }
    ensures { result ≡ parameters_place parameters.now }
{
    let rest = rest_of_parameters(parameters);
    parameter_span(29 + parameters.len().saturating_sub(rest.len()), rest)
}

/// Whether a Hold Time is 1 or 2.
fn is_short_hold(hold: u16) -> bool
    ensures { result ≡ is_short_hold hold }
{
    hold == 1 || hold == 2
}

/// Whether all four octets are 0.
fn is_zero_id(id: [u8; 4]) -> bool
    ensures { result ≡ is_zero_id id }
{
    id[0] == 0 && id[1] == 0 && id[2] == 0 && id[3] == 0
}

/// The field that the first failed test of an OPEN's body is about.
pub(crate) fn open_span(body: &[u8]) -> Option<Span>
    requires least { 10 ≤ length body.now }
    requires most { length body.now ≤ 4077 }
    ensures { result ≡ open_place body.now }
{
    if body[0] != VERSION {
        return Some(span(19, 1));
    }
    let parameters = &body[10..];
    if usize::from(body[9]) != parameters.len() {
        return Some(span(28, 1));
    }
    if let Some(found) = parameters_span(parameters) {
        return Some(found);
    }
    if is_short_hold(u16::from_be_bytes([body[3], body[4]])) {
        return Some(span(22, 2));
    }
    if is_zero_id([body[5], body[6], body[7], body[8]]) {
        return Some(span(24, 4));
    }
    None
}
