//! The outcomes of a stream of messages: whole, octet by octet, by `pull` from the caller's piece, and as views.

ghost use Rattle.std.specs.Prelude.{◌≡◌, IfOk, IfSome};

use crate::copies::{OTHERWISE, is_seen_copied};
use crate::engines::put_shown;
use crate::page::Page;
use crate::trouble::Trouble;
use bgp_frame::HeadFault;
use bgp_msg::{Decoder, End, Look, Next, Outcome, OutcomeView, Seen, decode_all};
use bgp_open::Context;
use bgp_update::UpdateView;
use std::alloc::Global;

/// The line for a decoder that a failed call changed.
const CHANGED: &str = "a decoder that lacked memory isn't as it was\n";

/// Adds the lines of all outcomes and of the end, and a line if they don't equal their copies.
fn put_seen(alloc: Global, ctx: &Context, page: &mut Page, seen: &Seen) -> Result<(), Trouble> {
    if !is_seen_copied(alloc, seen)? {
        page.put(OTHERWISE)?;
    }
    for (len, outcome) in seen.outs.iter() {
        page.put_outcome(alloc, ctx, *len, outcome)?;
    }
    page.put_end(seen.end)
}

/// The stream handed over in one piece.
fn whole(alloc: Global, ctx: &Context, stream: &[u8]) -> Result<Page, Trouble> {
    let mut page = Page::new(alloc);
    put_seen(alloc, ctx, &mut page, &decode_all(alloc, ctx, &[stream])?)?;
    Ok(page)
}

/// How a stream ended whose last outcome is of this length.
fn end_of(decoder: &Decoder, last: Option<u16>) -> End {
    match last {
        Some(0) => End::Head,
        _ if decoder.stopped() => End::Reset,
        _ => End::Wait(u16::try_from(decoder.held()).unwrap_or(u16::MAX)),
    }
}

/// What a call whose allocation failed must leave unchanged.
fn standing(decoder: &Decoder) -> (usize, bool) {
    (decoder.held(), decoder.stopped())
}

/// The outcome of the octets held, tried again after a failed allocation.
fn next_again(
    alloc: Global,
    decoder: &mut Decoder,
    page: &mut Page,
) -> Result<Option<(u16, Outcome)>, Trouble> {
    let before = standing(decoder);
    match decoder.next(alloc) {
        Ok(found) => return Ok(found),
        Err(_) if standing(decoder) != before => page.put(CHANGED)?,
        Err(_) => {}
    }
    Ok(decoder.next(alloc)?)
}

/// Adds the outcome of the octets held, if they are a whole message, and returns its length.
fn put_next(
    alloc: Global,
    ctx: &Context,
    decoder: &mut Decoder,
    page: &mut Page,
) -> Result<Option<u16>, Trouble> {
    let Some((len, outcome)) = next_again(alloc, decoder, page)? else {
        return Ok(None);
    };
    page.put_outcome(alloc, ctx, len, &outcome)?;
    Ok(Some(len))
}

/// The stream octet by octet, by `feed` and `next`: an octet that isn't accepted follows a message.
fn by_octets(alloc: Global, ctx: &Context, stream: &[u8]) -> Result<Page, Trouble> {
    let mut page = Page::new(alloc);
    let mut decoder = Decoder::new(*ctx);
    let mut last = None;
    for octet in stream {
        if decoder.feed(&[*octet]) == 0 {
            last = put_next(alloc, ctx, &mut decoder, &mut page)?.or(last);
            let _taken = decoder.feed(&[*octet]);
        }
    }
    last = put_next(alloc, ctx, &mut decoder, &mut page)?.or(last);
    page.put_end(end_of(&decoder, last))?;
    Ok(page)
}

/// The result of one call: the number of octets consumed of the piece, and the length of the message, if there was one.
type Taken = (usize, Option<u16>);

/// The result of one pull, tried again after a failed allocation.
fn pull_again(
    alloc: Global,
    decoder: &mut Decoder,
    piece: &[u8],
    page: &mut Page,
) -> Result<(usize, Option<(u16, Outcome)>), Trouble> {
    let before = standing(decoder);
    match decoder.pull(alloc, piece) {
        Ok(pulled) => return Ok(pulled),
        Err(_) if standing(decoder) != before => page.put(CHANGED)?,
        Err(_) => {}
    }
    Ok(decoder.pull(alloc, piece)?)
}

/// Adds the result of one pull.
fn put_pulled(
    alloc: Global,
    ctx: &Context,
    decoder: &mut Decoder,
    piece: &[u8],
    page: &mut Page,
) -> Result<Taken, Trouble> {
    let (taken, found) = pull_again(alloc, decoder, piece, page)?;
    let Some((len, outcome)) = found else {
        return Ok((taken, None));
    };
    page.put_outcome(alloc, ctx, len, &outcome)?;
    Ok((taken, Some(len)))
}

/// Adds what a view contains.
fn put_view(
    alloc: Global,
    ctx: &Context,
    len: u16,
    view: &OutcomeView<'_>,
    page: &mut Page,
) -> Result<(), Trouble> {
    let outcome = view.own(alloc)?;
    page.put_outcome(alloc, ctx, len, &outcome)
}

/// Adds the NOTIFICATION of a header's fault.
fn put_fault(
    alloc: Global,
    ctx: &Context,
    fault: HeadFault,
    page: &mut Page,
) -> Result<(), Trouble> {
    let outcome = Outcome::Reset(fault.notification());
    page.put_outcome(alloc, ctx, 0, &outcome)
}

/// Adds what `look` finds, as a view. Returns the number of octets consumed, the length of the message, and how the decoder continues.
fn put_found(
    alloc: Global,
    ctx: &Context,
    decoder: &Decoder,
    piece: &[u8],
    page: &mut Page,
) -> Result<Option<(usize, u16, Next)>, Trouble>
    ensures { IfOk result (λ found. IfSome found (λ it. it.2.from ≡ decoder.now)) }
{
    let mut place = UpdateView::empty();
    match decoder.look(piece, &mut place) {
        Look::Message(taken, len, view, next) => {
            put_view(alloc, ctx, len, &view, page)?;
            Ok(Some((taken, len, next)))
        }
        Look::Fault(taken, fault, next) => {
            put_fault(alloc, ctx, fault, page)?;
            Ok(Some((taken, 0, next)))
        }
        Look::Feed => Ok(None),
    }
}

/// Adds what `look` finds, as a view, and continues after it.
fn put_looked(
    alloc: Global,
    ctx: &Context,
    decoder: &mut Decoder,
    piece: &[u8],
    page: &mut Page,
) -> Result<Taken, Trouble> {
    let Some((taken, len, next)) = put_found(alloc, ctx, decoder, piece, page)? else {
        return Ok((decoder.feed(piece), None));
    };
    decoder.go(next);
    Ok((taken, Some(len)))
}

/// How a stream is read in pieces.
#[derive(Clone, Copy)]
enum Call {
    Pull,
    /// As views, by `look` and `go`.
    Look,
}

/// The stream in pieces of this size, or in one for 0.
fn in_pieces(
    alloc: Global,
    ctx: &Context,
    stream: &[u8],
    size: usize,
    call: Call,
) -> Result<Page, Trouble> {
    let mut page = Page::new(alloc);
    let mut decoder = Decoder::new(*ctx);
    let mut last = None;
    let mut rest = stream;
    for _ in 0..u16::MAX {
        let piece = match size {
            0 => rest,
            _ => rest.get(..size).unwrap_or(rest),
        };
        let (taken, found) = match call {
            Call::Pull => put_pulled(alloc, ctx, &mut decoder, piece, &mut page)?,
            Call::Look => put_looked(alloc, ctx, &mut decoder, piece, &mut page)?,
        };
        rest = rest.get(taken..).unwrap_or(&[]);
        match found {
            Some(_) => last = found,
            None if taken == 0 => break,
            None => {}
        }
    }
    page.put_end(end_of(&decoder, last))?;
    Ok(page)
}

/// Adds the result of another way, if it isn't the same.
fn compare(page: &mut Page, way: &str, other: &Page) -> Result<(), Trouble> {
    if page.text != other.text {
        page.put(way)?;
        page.put(other.text.as_str())?;
    }
    Ok(())
}

/// The ways to read a stream in pieces: each with its name, the call, and the size of a piece.
const WAYS: [(&str, Call, usize); 4] = [
    ("by pull:\n", Call::Pull, 0),
    ("by pull, in pieces of 20:\n", Call::Pull, 20),
    ("as views:\n", Call::Look, 0),
    ("as views, in pieces of 20:\n", Call::Look, 20),
];

/// The ways to show a stream: each with its name, and the number of octets that its reader gives at a time.
const SHOWN: [(&str, usize); 2] = [("by show:\n", 4096), ("by show, octet by octet:\n", 1)];

/// The outcomes of a stream, in all ways that the library reads it: if one differs, its lines are added under its name.
pub fn put_ways(alloc: Global, ctx: &Context, stream: &[u8]) -> Result<Page, Trouble> {
    let mut page = whole(alloc, ctx, stream)?;
    compare(
        &mut page,
        "octet by octet:\n",
        &by_octets(alloc, ctx, stream)?,
    )?;
    for (way, call, size) in WAYS {
        compare(&mut page, way, &in_pieces(alloc, ctx, stream, size, call)?)?;
    }
    Ok(page)
}

/// The outcomes of a stream, and what `show` writes for it.
pub fn put_messages(alloc: Global, ctx: &Context, stream: &[u8]) -> Result<Page, Trouble> {
    let mut page = put_ways(alloc, ctx, stream)?;
    for (way, step) in SHOWN {
        compare(&mut page, way, &put_shown(alloc, ctx, stream, step)?)?;
    }
    Ok(page)
}
