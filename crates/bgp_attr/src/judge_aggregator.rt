//! The judgement of AGGREGATOR and AS4_AGGREGATOR, and their values.

ghost use Rattle.std.specs.Prelude.{◌≡◌, ◌+◌, true, length};
ghost use Rattle.bgp_attr.specs.declared.attr.Attr.{Attr};
ghost use Rattle.bgp_attr.specs.Prelude.{number_in, number_width, tlv_value, aggregator_of, decided, aggregator_tests, as4_aggregator_tests, ruled};

use crate::aggregator::Aggregator;
use crate::class::Class;
use crate::judge_fixed::{address, four_in};
use crate::ruling::Ruling;
use crate::segment::number_width;
use crate::tlv::Tlv;
use crate::why::Why;
use bgp_open::Context;
use bgp_prefix::AsNumber;

/// A number of four octets where `wide`, else of two.
fn number_in(wide: bool, octets: &[u8]) -> u32
    requires { length octets.now ≡ number_width wide }
    ensures { result ≡ number_in wide octets.now }
{
    if wide {
        four_in(octets)
    } else {
        u32::from(u16::from_be_bytes([octets[0], octets[1]]))
    }
}

/// The AS number and the address of an attribute that is kept.
pub fn aggregator_in(wide: bool, tlv: &Tlv<'_>) -> Aggregator
    requires { length tlv.now.value.now ≡ number_width wide + 4 }
    ensures { result ≡ aggregator_of wide (tlv_value tlv.now) }
{
    let (number, rest) = tlv.value.split_at(number_width(wide));
    let addr = address::<4>(rest);
    Aggregator {
        asn: AsNumber(number_in(wide, number)),
        addr,
        partial: tlv.flags.is_partial(),
    }
}

/// An AS number, of four octets where `wide`, else of two, and an address.
fn rule_by_width(wide: bool, tlv: &Tlv<'_>) -> Ruling
    ensures { (a : Attr) → ruled result tlv.now.whole.now a ≡ decided (aggregator_tests wide (tlv_value tlv.now)) a }
{
    if !tlv.flags.has_class(Class::OptionalTransitive) {
        return Ruling::Withdraw(Why::Flags);
    }
    let width = number_width(wide);
    if tlv.value.len() != width + 4 {
        return Ruling::Discard(Why::Length);
    }
    let (number, _) = tlv.value.split_at(width);
    if number_in(wide, number) == 0 {
        return Ruling::Discard(Why::AsZero);
    }
    Ruling::Keep
}

/// AGGREGATOR (RFC 7606, section 7.7; RFC 7607, section 2).
pub(crate) fn rule_aggregator(ctx: &Context, tlv: &Tlv<'_>) -> Ruling
    ensures { (a : Attr) → ruled result tlv.now.whole.now a ≡ decided (aggregator_tests ctx.now.as4 (tlv_value tlv.now)) a }
{
    rule_by_width(ctx.as4, tlv)
}

/// AS4_AGGREGATOR (RFC 6793, sections 4.1 and 6; RFC 7607, section 2).
pub(crate) fn rule_as4_aggregator(ctx: &Context, tlv: &Tlv<'_>) -> Ruling
    ensures { (a : Attr) → ruled result tlv.now.whole.now a ≡ decided (as4_aggregator_tests ctx.now (tlv_value tlv.now)) a }
{
    if ctx.as4 {
        return Ruling::Discard(Why::FourOctet);
    }
    rule_by_width(true, tlv)
}
