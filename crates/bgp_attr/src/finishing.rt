//! Writing an attribute whose value is written before its head: nothing is measured.

ghost use Rattle.std.specs.Prelude.{◌≡◌, ◌+◌, ◌<◌, ◌≤◌, [], ◌∷◌, ◌++◌, length, take, drop, OnOk, OnErr};
ghost use Rattle.bgp_attr.specs.Prelude.{attr_value, headed, made};

use crate::attr::{AttrView, Form, form_of_view};
use crate::value_writing::flags_octet;
use bgp_wire::Output;
use std::alloc::AllocError;

/// Appends room for the head of an attribute, with one octet of length; the value is written after it.
///
/// # Errors
/// `AllocError` where there was no room; what was written before is then as it was.
#[inline(always)]
pub fn begin_attr<O: Output>(out: &mut O) -> Result<(), AllocError>
    ensures ok { OnOk result (O.written out.new ≡ O.written out.old ++ 0 ∷ 0 ∷ 0 ∷ []) }
    ensures err { OnErr result (O.written out.new ≡ O.written out.old) }
    ensures full { OnErr result (O.room < length (O.written out.old) + 3) }
{
    out.put(&[0, 0, 0])
}

/// Writes the head, with the length, into the three octets of room for it at `start`, before its value: two octets of length where the
/// value has more than 255 octets, else one (RFC 4271, section 4.3).
///
/// # Errors
/// `AllocError` where there was no room; what was written before is then as it was.
#[inline(always)]
pub(crate) fn finish<O: Output>(form: Form, start: usize, out: &mut O) -> Result<(), AllocError>
    requires room { start + 3 ≤ length (O.written out.old) }
    requires short { length (O.written out.old) ≤ start + 65538 }
    ensures ok { OnOk result (O.written out.new ≡ take start (O.written out.old) ++ (made form.class form.partial form.kind (drop (start + 3) (O.written out.old))).whole) }
    ensures err { OnErr result (O.written out.new ≡ O.written out.old × (O.room < start + length (made form.class form.partial form.kind (drop (start + 3) (O.written out.old))).whole)) }
{
    let len = out.len() - (start + 3);
    if len > 255 {
        out.insert(start, 0)?;
        let flags = flags_octet(form.class, form.partial, true);
        let [high, low] = (len as u16).to_be_bytes();
        out.replace(start, &[flags, form.kind, high, low]);
    } else {
        let flags = flags_octet(form.class, form.partial, false);
        out.replace(start, &[flags, form.kind, len as u8]);
    }
    Ok(())
}

/// Writes the head of an attribute, with the length, into the three octets of room for it at `start`, before its value. Only the type and
/// the flags of `view` are read.
///
/// # Errors
/// `AllocError` where there was no room; what was written before is then as it was.
#[inline(always)]
pub fn finish_attr<O: Output>(
    view: &AttrView<'_>,
    start: usize,
    out: &mut O,
) -> Result<(), AllocError>
    requires room { start + 3 ≤ length (O.written out.old) }
    requires short { length (O.written out.old) ≤ start + 65538 }
    ensures ok { OnOk result (O.written out.new ≡ take start (O.written out.old) ++ headed (attr_value view.now) (drop (start + 3) (O.written out.old))) }
    ensures err { OnErr result (O.written out.new ≡ O.written out.old) }
    ensures full { OnErr result (O.room < start + length (headed (attr_value view.now) (drop (start + 3) (O.written out.old)))) }
{
    finish(form_of_view(*view), start, out)
}
