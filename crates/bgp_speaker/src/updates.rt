//! The UPDATEs of a file.

use bgp_msg::{OutcomeView, Step, front, view_frame};
use bgp_open::Context;
use bgp_update::{Update, UpdateView};
use std::alloc::{AllocError, Global};
use std::io::Read;
use std::{fs, io};

/// The greatest length of a file.
const FILE_MAX: u64 = 64 << 20;

/// The context in which a file's UPDATEs are read: both families, and 4-octet AS numbers.
const WIDE: Context = Context {
    internal: false,
    as4: true,
    ip4: true,
    ip6: true,
    hold: 0,
};

/// The UPDATEs of a file, or the offset of the first message that isn't one, is at fault, or isn't whole.
pub(crate) enum Reading {
    Updates(Vec<Update>),
    Bad(u64),
}

// The UPDATE that octets begin with, where it is accepted without a note, and the length of its message.
fn first_update(alloc: Global, octets: &[u8]) -> Result<Option<(usize, Update)>, AllocError> {
    let Step::Frame(frame) = front(octets) else {
        return Ok(None);
    };
    let len = frame.len as usize;
    let mut place = UpdateView::empty();
    let OutcomeView::Update(view) = view_frame(&WIDE, frame, &mut place) else {
        return Ok(None);
    };
    if view.notes().next().is_some() {
        return Ok(None);
    }
    Ok(Some((len, view.own(alloc)?)))
}

// Reads the UPDATEs of octets.
fn updates_of(alloc: Global, octets: &[u8]) -> Result<Reading, AllocError> {
    let mut updates = Vec::new(alloc);
    let mut rest = octets;
    let mut at: u64 = 0;
    for _turn in 0..u64::MAX {
        if rest.is_empty() {
            break;
        }
        let Some((len, update)) = first_update(alloc, rest)? else {
            return Ok(Reading::Bad(at));
        };
        updates.push(update)?;
        rest = rest.get(len..).unwrap_or(&[]);
        at = at.saturating_add(len as u64);
    }
    Ok(Reading::Updates(updates))
}

/// Reads the UPDATEs of a file.
pub(crate) fn read_updates(rt: &HostRuntime, path: &str) -> io::Result<Reading> {
    let mut octets = Vec::new(rt.alloc());
    fs::open(rt, path)?.take(FILE_MAX).read_to_end(&mut octets)?;
    Ok(updates_of(rt.alloc(), &octets)?)
}
