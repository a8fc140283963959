//! Which attributes are written.

ghost use Rattle.std.specs.Prelude.{◌≡◌, false, true, length};
ghost use Rattle.bgp_attr.specs.Prelude.{ref_value, unwritable, is_empty, is_too_long, is_writable};

use crate::attr::{Attr, AttrRef};
use crate::unwritable::{
    Unwritable, has_as_zero, is_as4, is_empty, is_misnamed, is_too_wide, stands_twice,
};
use crate::value_writing::put_value;
use bgp_open::Context;
use bgp_wire::Counter;

/// Whether no length field can hold the length of the value: it is written to a counter with room for that length.
fn is_too_long(ctx: &Context, attr: AttrRef<'_>) -> bool
    requires { is_empty (ref_value attr) ≡ false }
    ensures { result ≡ is_too_long ctx.now (ref_value attr.entry) }
{
    let mut counter: Counter<65535> = Counter::new();
    let written = put_value(ctx, attr, &mut counter);
    // For the proof: at most 65535 octets were counted.
    let _ = counter.count();
    written.is_err()
}

/// The first reason why an attribute isn't written in a context, without memory.
pub fn why_unwritable(ctx: &Context, attr: AttrRef<'_>) -> Option<Unwritable>
    ensures { result ≡ unwritable ctx.now (ref_value attr.entry) }
{
    if is_too_wide(ctx, attr) {
        return Some(Unwritable::AsWidth);
    }
    if ctx.as4 && is_as4(attr) {
        return Some(Unwritable::As4);
    }
    if is_empty(attr) {
        return Some(Unwritable::Empty);
    }
    if is_misnamed(attr) {
        return Some(Unwritable::Recognised);
    }
    if has_as_zero(attr) {
        return Some(Unwritable::AsZero);
    }
    if stands_twice(attr) {
        return Some(Unwritable::Twice);
    }
    if is_too_long(ctx, attr) {
        return Some(Unwritable::TooLong);
    }
    None
}

/// Whether an attribute can be written in a context, without memory.
pub fn writable(ctx: &Context, attr: &Attr) -> bool
    ensures { result ≡ is_writable ctx.now attr.now }
{
    why_unwritable(ctx, AttrRef::from(attr)).is_none()
}
