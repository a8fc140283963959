//! Fields of prefixes: the prefixes, and the octets that are written for them (RFC 4271, section 4.3; RFC 4760, section 5).

use crate::octets::{Octets, add_given};
use crate::page::Page;
use crate::row::Row;
use crate::trouble::Trouble;
use crate::written::{CHANGED, put_behind};
use bgp_prefix::{Prefix4, Prefix6, RunFault, read_run4, read_run6, write_run4, write_run6};
use std::alloc::Global;
use std::fmt::Display;

/// Adds prefixes, one a line.
fn put_prefixes<T: Display>(alloc: Global, page: &mut Page, prefixes: &[T]) -> Result<(), Trouble> {
    for prefix in prefixes {
        page.put_value(alloc, prefix)?;
        page.put("\n")?;
    }
    Ok(())
}

/// Why a field isn't a run of prefixes.
fn put_fault(alloc: Global, fault: RunFault) -> Result<Page, Trouble> {
    if fault == RunFault::Memory {
        return Err(Trouble::Memory);
    }
    let mut page = Page::new(alloc);
    page.put_name(alloc, &fault)?;
    page.put("\n")?;
    Ok(page)
}

/// Writes IPv4 prefixes, and again after a failed allocation.
fn write4_again(page: &mut Page, prefixes: &[Prefix4], out: &mut Vec<u8>) -> Result<(), Trouble> {
    let before = out.len();
    if write_run4(prefixes, out).is_ok() {
        return Ok(());
    }
    if out.len() != before {
        page.put(CHANGED)?;
    }
    Ok(write_run4(prefixes, out)?)
}

/// Writes IPv6 prefixes, and again after a failed allocation.
fn write6_again(page: &mut Page, prefixes: &[Prefix6], out: &mut Vec<u8>) -> Result<(), Trouble> {
    let before = out.len();
    if write_run6(prefixes, out).is_ok() {
        return Ok(());
    }
    if out.len() != before {
        page.put(CHANGED)?;
    }
    Ok(write_run6(prefixes, out)?)
}

/// IPv4 prefixes, and the octets that are written for them.
fn put_four(alloc: Global, prefixes: &[Prefix4]) -> Result<Page, Trouble> {
    let mut page = Page::new(alloc);
    put_prefixes(alloc, &mut page, prefixes)?;
    let mut out = Vec::from_slice(alloc, &[7])?;
    write4_again(&mut page, prefixes, &mut out)?;
    put_behind(alloc, &mut page, out.as_slice())?;
    Ok(page)
}

/// IPv6 prefixes, and the octets that are written for them.
fn put_sixteen(alloc: Global, prefixes: &[Prefix6]) -> Result<Page, Trouble> {
    let mut page = Page::new(alloc);
    put_prefixes(alloc, &mut page, prefixes)?;
    let mut out = Vec::from_slice(alloc, &[7])?;
    write6_again(&mut page, prefixes, &mut out)?;
    put_behind(alloc, &mut page, out.as_slice())?;
    Ok(page)
}

/// The prefixes of a row's octets and what is written for them, or the first fault from the left.
pub fn put_run(alloc: Global, row: &Row<'_>) -> Result<Page, Trouble> {
    let mut octets = Octets::new();
    add_given(row, &mut octets)?;
    if row.kind == "run4" {
        return match read_run4(alloc, octets.as_slice()) {
            Ok(prefixes) => put_four(alloc, prefixes.as_slice()),
            Err(fault) => put_fault(alloc, fault),
        };
    }
    match read_run6(alloc, octets.as_slice()) {
        Ok(prefixes) => put_sixteen(alloc, prefixes.as_slice()),
        Err(fault) => put_fault(alloc, fault),
    }
}
