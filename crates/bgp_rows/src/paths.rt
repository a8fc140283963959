//! The path and the aggregator of an UPDATE, restored from what 2-octet-AS speakers passed on (RFC 6793, section 4.2.3).

use crate::attributes::no_attrs;
use crate::page::Page;
use crate::trouble::Trouble;
use crate::written::message_of;
use bgp_msg::{Decoder, Look, Message, OutcomeView};
use bgp_open::Context;
use bgp_update::{PathInfo, Update, UpdateView, reconcile};
use bgp_wire::List;
use std::alloc::Global;

const AN_UPDATE: Trouble = Trouble::Row("an UPDATE");

/// The context in which a path has AS numbers of four octets.
const WIDE: Context = Context {
    internal: true,
    as4: true,
    ip4: true,
    ip6: true,
    hold: 0,
};

/// Adds a path and an aggregator, as for an UPDATE.
pub fn put_path(alloc: Global, page: &mut Page, info: PathInfo) -> Result<(), Trouble> {
    let mut attrs = no_attrs(alloc);
    attrs.as_path = info.path;
    attrs.aggregator = info.aggregator;
    let update = Update {
        withdrawn: List::new(alloc),
        attrs,
        nlri: List::new(alloc),
    };
    page.put_update(alloc, &WIDE, &update)
}

/// The path and the aggregator from the view of an UPDATE.
fn viewed_info(alloc: Global, ctx: &Context, stream: &[u8]) -> Result<PathInfo, Trouble> {
    let decoder = Decoder::new(*ctx);
    let mut place = UpdateView::empty();
    let Look::Message(_, _, OutcomeView::Update(view), _) = decoder.look(stream, &mut place) else {
        return Err(AN_UPDATE);
    };
    Ok(view.path_info().own(alloc)?)
}

/// The path and the aggregator from the UPDATE as a value.
fn owned_info(alloc: Global, ctx: &Context, stream: &[u8]) -> Result<PathInfo, Trouble> {
    match message_of(alloc, ctx, stream)? {
        Message::Update(update) => Ok(reconcile(alloc, &update.attrs)?),
        _ => Err(AN_UPDATE),
    }
}

/// The path and the aggregator of an UPDATE; the view and the owned value must agree.
pub fn put_paths(alloc: Global, ctx: &Context, stream: &[u8]) -> Result<Page, Trouble> {
    let info = owned_info(alloc, ctx, stream)?;
    let viewed = viewed_info(alloc, ctx, stream)?;
    let mut page = Page::new(alloc);
    page.put("path\n")?;
    if info != viewed {
        page.put("otherwise as a view:\n")?;
        put_path(alloc, &mut page, viewed)?;
    }
    put_path(alloc, &mut page, info)?;
    Ok(page)
}
