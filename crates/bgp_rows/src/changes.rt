//! Each proper prefix of a message, and each change of one of its octets.

use crate::messages::put_ways;
use crate::octets::Octets;
use crate::page::Page;
use crate::trouble::Trouble;
use bgp_open::Context;
use std::alloc::Global;

/// The lines of a Marker with another octet.
const BAD_MARKER: &str = "0 0 HEADER reset 1/1 -\nend head\n";

/// Whether all ways of reading had the same outcome, and a Marker's fault its NOTIFICATION.
fn is_as_wanted(page: &Page, place: usize) -> bool {
    let text = page.text.as_str();
    let agrees = !text.contains("octet by octet:")
        && !text.contains("by pull")
        && !text.contains("as views:");
    agrees && (place >= 16 || text == BAD_MARKER)
}

/// Changes one octet to each other value, and counts those whose outcome is the one wanted.
fn count_at(
    alloc: Global,
    ctx: &Context,
    octets: &mut Octets,
    place: usize,
) -> Result<u64, Trouble> {
    let mut good = 0u64;
    let Some(was) = octets.get(place).copied() else {
        return Ok(0);
    };
    for value in 0..=u8::MAX {
        if value != was {
            if let Some(octet) = octets.get_mut(place) {
                *octet = value;
            }
            let page = put_ways(alloc, ctx, octets.as_slice())?;
            if is_as_wanted(&page, place) {
                good = good.saturating_add(1);
            }
        }
    }
    if let Some(octet) = octets.get_mut(place) {
        *octet = was;
    }
    Ok(good)
}

/// The number of proper prefixes of the message that are incomplete.
fn count_fronts(alloc: Global, ctx: &Context, message: &[u8]) -> Result<u64, Trouble> {
    let mut good = 0u64;
    for size in 0..message.len() {
        let front = message.get(..size).unwrap_or(&[]);
        let page = put_ways(alloc, ctx, front)?;
        let wanted = format!(in alloc; "end wait {size}\n")?;
        if page.text == wanted {
            good = good.saturating_add(1);
        }
    }
    Ok(good)
}

/// The number of proper prefixes of a message that are incomplete, and of changes of one octet with one outcome however they are read.
pub fn put_changes(alloc: Global, ctx: &Context, message: &[u8]) -> Result<Page, Trouble> {
    let mut octets = Octets::new();
    if octets.try_extend_from_slice(message).is_err() {
        return Err(Trouble::Row("a message that is too long"));
    }
    let mut good = 0u64;
    for place in 0..message.len() {
        good = good.saturating_add(count_at(alloc, ctx, &mut octets, place)?);
    }
    let fronts = count_fronts(alloc, ctx, message)?;
    let mut page = Page::new(alloc);
    page.put_value(alloc, &fronts)?;
    page.put(" fronts wait\n")?;
    page.put_value(alloc, &good)?;
    page.put(" changes of an octet come to one answer\n")?;
    Ok(page)
}
