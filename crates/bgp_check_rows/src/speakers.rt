//! A speaker's own OPEN, and what it agrees on with a peer's OPEN.

use crate::scripts::config_of;
use bgp_msg::Message;
use bgp_open::{Config, Context, Open, agree, own_frame, own_open};
use bgp_rows::octets::{Octets, add_given};
use bgp_rows::page::Page;
use bgp_rows::row::Row;
use bgp_rows::trouble::Trouble;
use bgp_rows::written::message_of;
use std::alloc::Global;

/// The context in which the messages of a pair are read: an OPEN is the same in each.
const ANY: Context = Context {
    internal: false,
    as4: true,
    ip4: true,
    ip6: true,
    hold: 0,
};

/// Adds what two speakers agreed on.
pub(crate) fn put_context(alloc: Global, page: &mut Page, ctx: &Context) -> Result<(), Trouble> {
    page.put(if ctx.internal { "internal" } else { "external" })?;
    for (flag, name) in [(ctx.as4, " as4"), (ctx.ip4, " ip4"), (ctx.ip6, " ip6")] {
        if flag {
            page.put(name)?;
        }
    }
    page.put(" hold ")?;
    page.put_value(alloc, &ctx.hold)
}

/// The OPEN of a row's octets.
fn open_of(alloc: Global, octets: &[u8]) -> Result<Open, Trouble> {
    match message_of(alloc, &ANY, octets)? {
        Message::Open(open) => Ok(open),
        _ => Err(Trouble::Row("an OPEN")),
    }
}

/// Adds a speaker's own OPEN.
fn put_said(alloc: Global, page: &mut Page, config: &Config) -> Result<(), Trouble> {
    let frame = own_frame(config);
    page.put("says ")?;
    page.put_digits(alloc, frame.as_slice())?;
    page.put("\n")?;
    let own = own_open(alloc, config)?;
    if own != open_of(alloc, frame.as_slice())? {
        page.put("the OPEN that it says isn't its own\n")?;
    }
    Ok(())
}

/// Adds the outcome of a peer's OPEN.
fn put_answer(
    alloc: Global,
    page: &mut Page,
    config: &Config,
    octets: &[u8],
) -> Result<(), Trouble> {
    match agree(config, &open_of(alloc, octets)?) {
        Ok(ctx) => {
            page.put("agrees ")?;
            put_context(alloc, page, &ctx)?;
        }
        Err(fault) => {
            page.put("answers ")?;
            page.put_notification(alloc, &fault.notification())?;
        }
    }
    page.put("\n")
}

/// A speaker's own OPEN, and the outcome of a peer's OPEN.
pub(crate) fn put_speaker(alloc: Global, row: &Row<'_>) -> Result<Page, Trouble> {
    let config = match config_of(alloc, row.settings) {
        Ok(config) => config,
        Err(trouble) => return Err(trouble),
    };
    let mut octets = Octets::new();
    add_given(row, &mut octets)?;
    let mut page = Page::new(alloc);
    put_said(alloc, &mut page, &config)?;
    put_answer(alloc, &mut page, &config, octets.as_slice())?;
    Ok(page)
}
