//! The judgement of each attribute of a field, as the first of its type.

use crate::copies::{OTHERWISE, is_judged_copied, is_update_copied};
use crate::page::Page;
use crate::trouble::Trouble;
use bgp_attr::{Attr, AttrView, Judged, JudgedView, Opaque, Tail, Tlv, TlvIter, judge, judge_view};
use bgp_open::Context;
use bgp_text::put_attribute as put_attribute_lines;
use bgp_update::{Attrs, Update};
use bgp_wire::List;
use std::alloc::{AllocError, Global};

pub(crate) const TOO_LONG: Trouble = Trouble::Row("an attribute of more than 4075 octets");

/// No attributes.
pub fn no_attrs(alloc: Global) -> Attrs {
    Attrs {
        origin: None,
        as_path: None,
        next_hop: None,
        med: None,
        local_pref: None,
        atomic: false,
        aggregator: None,
        communities: None,
        mp_reach: None,
        mp_unreach: None,
        as4_path: None,
        as4_aggregator: None,
        large: None,
        others: List::new(alloc),
    }
}

/// Whether an attribute's Partial bit is kept and set.
fn is_partial(attr: &Attr) -> bool {
    match attr {
        Attr::Aggregator(value) => value.partial,
        Attr::Communities(value) => value.partial,
        Attr::As4Path(value) => value.partial,
        Attr::As4Aggregator(value) => value.partial,
        Attr::Large(value) => value.partial,
        _ => false,
    }
}

/// A list of one attribute.
fn list_of(alloc: Global, value: Opaque) -> Result<List<Opaque>, AllocError> {
    let mut others = Vec::with_capacity(alloc, 1)?;
    others.push(value)?;
    Ok(List::from_vec(others))
}

/// The attributes of one attribute.
fn attrs_of(alloc: Global, attr: Attr) -> Result<Attrs, Trouble> {
    let mut attrs = no_attrs(alloc);
    match attr {
        Attr::Origin(value) => attrs.origin = Some(value),
        Attr::AsPath(value) => attrs.as_path = Some(value),
        Attr::NextHop(value) => attrs.next_hop = Some(value),
        Attr::Med(value) => attrs.med = Some(value),
        Attr::LocalPref(value) => attrs.local_pref = Some(value),
        Attr::Atomic => attrs.atomic = true,
        Attr::Aggregator(value) => attrs.aggregator = Some(value),
        Attr::Communities(value) => attrs.communities = Some(value),
        Attr::MpReach(value) => attrs.mp_reach = Some(value),
        Attr::MpUnreach(value) => attrs.mp_unreach = Some(value),
        Attr::As4Path(value) => attrs.as4_path = Some(value),
        Attr::As4Aggregator(value) => attrs.as4_aggregator = Some(value),
        Attr::Large(value) => attrs.large = Some(value),
        Attr::Opaque(value) => attrs.others = list_of(alloc, value)?,
    }
    Ok(attrs)
}

/// Adds a line if an UPDATE of an attribute doesn't equal its copy.
fn put_alone(alloc: Global, page: &mut Page, attr: Attr) -> Result<(), Trouble> {
    let update = Update {
        withdrawn: List::new(alloc),
        attrs: attrs_of(alloc, attr)?,
        nlri: List::new(alloc),
    };
    if !is_update_copied(alloc, &update)? {
        page.put(OTHERWISE)?;
    }
    Ok(())
}

/// Adds the lines of a kept attribute.
fn put_kept(alloc: Global, page: &mut Page, view: &AttrView<'_>) -> Result<(), Trouble> {
    let attr = view.own(alloc)?;
    page.put(if is_partial(&attr) {
        "keep partial\n"
    } else {
        "keep\n"
    })?;
    put_attribute_lines(alloc, &mut page.text, view)?;
    put_alone(alloc, page, attr)
}

/// Adds the judgement of an attribute.
fn put_judged(alloc: Global, page: &mut Page, judged: &JudgedView<'_>) -> Result<(), Trouble> {
    match judged {
        JudgedView::Keep(attr) => return put_kept(alloc, page, attr),
        JudgedView::Discard(why) => {
            page.put("discard ")?;
            page.put_name(alloc, why)?;
        }
        JudgedView::Withdraw(why) => {
            page.put("withdraw ")?;
            page.put_name(alloc, why)?;
        }
        JudgedView::Reset(told) => {
            page.put("reset ")?;
            page.put_notification(alloc, told)?;
        }
    }
    page.put("\n")
}

/// Adds a line if an attribute is judged otherwise as a view, and if that doesn't equal its copy.
fn put_otherwise(
    alloc: Global,
    page: &mut Page,
    judged: &Judged,
    view: &JudgedView<'_>,
) -> Result<(), Trouble> {
    if !is_judged_copied(alloc, judged)? {
        page.put(OTHERWISE)?;
    }
    if *judged != view.own(alloc)? {
        page.put("otherwise as a view: ")?;
    }
    Ok(())
}

/// Adds an attribute's offset and its type.
fn put_place(alloc: Global, page: &mut Page, tlv: &Tlv<'_>) -> Result<(), Trouble> {
    page.put_value(alloc, &tlv.at)?;
    page.put(" ")?;
    page.put_value(alloc, &tlv.kind)?;
    page.put(" ")
}

/// Adds the judgement of an attribute, after its offset and type; the view and the owned value must agree.
fn put_attribute(
    alloc: Global,
    page: &mut Page,
    ctx: &Context,
    has_nlri: bool,
    tlv: &Tlv<'_>,
) -> Result<(), Trouble> {
    if tlv.whole.len() > 4075 {
        return Err(TOO_LONG);
    }
    put_place(alloc, page, tlv)?;
    let judged = judge(alloc, ctx, has_nlri, tlv)?;
    let view = judge_view(ctx, has_nlri, tlv);
    put_otherwise(alloc, page, &judged, &view)?;
    put_judged(alloc, page, &view)
}

/// The judgements of the attributes of a field, and what is left where no attribute begins.
pub fn put_attributes(
    alloc: Global,
    ctx: &Context,
    has_nlri: bool,
    field: &[u8],
) -> Result<Page, Trouble> {
    let mut page = Page::new(alloc);
    let mut tlvs = TlvIter::new(field);
    let tail = tlvs.tail();
    for tlv in TlvIter::new(field) {
        put_attribute(alloc, &mut page, ctx, has_nlri, &tlv)?;
        let _same = tlvs.next();
    }
    if tlvs.next().is_some() || tlvs.next().is_some() || tlvs.tail() != tail {
        page.put("the field goes on behind its end\n")?;
    }
    if let Tail::Cut(octets) = tail {
        page.put("cut ")?;
        page.put_digits(alloc, octets)?;
        page.put("\n")?;
    }
    Ok(page)
}
