//! Each attribute of a field, written alone (RFC 4271, section 4.3).

use crate::attributes::TOO_LONG;
use crate::page::Page;
use crate::trouble::Trouble;
use crate::written::{CHANGED, put_behind};
use bgp_attr::{Attr, Judged, Tlv, TlvIter, judge, writable, write_attr};
use bgp_open::Context;
use std::alloc::Global;

/// Writes an attribute, and again after a failed allocation.
fn write_again(
    page: &mut Page,
    ctx: &Context,
    attr: &Attr,
    out: &mut Vec<u8>,
) -> Result<(), Trouble> {
    if !writable(ctx, attr) {
        return page.put("not writable: ");
    }
    let before = out.len();
    if write_attr(ctx, attr, out).is_ok() {
        return Ok(());
    }
    if out.len() != before {
        page.put(CHANGED)?;
    }
    Ok(write_attr(ctx, attr, out)?)
}

/// Adds the octets of an attribute.
fn put_written(alloc: Global, page: &mut Page, ctx: &Context, attr: &Attr) -> Result<(), Trouble> {
    let mut out = Vec::from_slice(alloc, &[7])?;
    write_again(page, ctx, attr, &mut out)?;
    put_behind(alloc, page, out.as_slice())
}

/// Adds the octets that are written for an attribute, which must be kept.
fn put_one(
    alloc: Global,
    page: &mut Page,
    ctx: &Context,
    has_nlri: bool,
    tlv: &Tlv<'_>,
) -> Result<(), Trouble> {
    if tlv.whole.len() > 4075 {
        return Err(TOO_LONG);
    }
    match judge(alloc, ctx, has_nlri, tlv)? {
        Judged::Keep(attr) => put_written(alloc, page, ctx, &attr),
        _ => Err(Trouble::Row("attributes that are kept")),
    }
}

/// The octets that are written for each attribute of a field.
pub fn put_each(
    alloc: Global,
    ctx: &Context,
    has_nlri: bool,
    field: &[u8],
) -> Result<Page, Trouble> {
    let mut page = Page::new(alloc);
    for tlv in TlvIter::new(field) {
        put_one(alloc, &mut page, ctx, has_nlri, &tlv)?;
    }
    Ok(page)
}
