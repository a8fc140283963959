//! A message that is read in one context and written in another.

use crate::contexts::{CASES, Case, Contexts};
use crate::page::Page;
use crate::row::Row;
use crate::trouble::Trouble;
use bgp_msg::{Decoder, Message, Outcome, encode};
use bgp_open::Context;
use bgp_update::WriteFault;
use std::alloc::Global;

/// The line for a buffer that a refused or failed write changed.
pub(crate) const CHANGED: &str = "octets were appended by a call that failed\n";

/// Writes a message, and again after a failed allocation.
fn encode_again(
    page: &mut Page,
    ctx: &Context,
    message: &Message,
    out: &mut Vec<u8>,
) -> Result<Result<(), WriteFault>, Trouble> {
    let before = out.len();
    match encode(ctx, message, out) {
        Err(WriteFault::Memory) => {
            if out.len() != before {
                page.put(CHANGED)?;
            }
            Ok(encode(ctx, message, out))
        }
        answer => Ok(answer),
    }
}

/// Adds what was written after an octet that must not change.
pub(crate) fn put_behind(alloc: Global, page: &mut Page, out: &[u8]) -> Result<(), Trouble> {
    page.put_digits(alloc, out.get(1..).unwrap_or(&[]))?;
    page.put("\n")
}

/// Adds why a message isn't written.
fn put_refusal(alloc: Global, page: &mut Page, fault: WriteFault) -> Result<(), Trouble> {
    match fault {
        WriteFault::NotValid(why) => {
            page.put("not valid: ")?;
            page.put_name(alloc, &why)?;
        }
        WriteFault::TooLong => page.put("too long")?,
        WriteFault::Memory => return Err(Trouble::Memory),
    }
    page.put("\n")
}

/// The octets that are written for a message, after an octet that must not change, or why it isn't written.
fn write_message(alloc: Global, ctx: &Context, message: &Message) -> Result<Page, Trouble> {
    let mut page = Page::new(alloc);
    let mut out = Vec::from_slice(alloc, &[7])?;
    match encode_again(&mut page, ctx, message, &mut out)? {
        Ok(()) => put_behind(alloc, &mut page, out.as_slice())?,
        Err(fault) => {
            if out.as_slice() != &[7][..] {
                page.put(CHANGED)?;
            }
            put_refusal(alloc, &mut page, fault)?;
        }
    }
    Ok(page)
}

/// Why there is no message to write.
const NOT_TAKEN: Trouble = Trouble::Row("a message that is taken where it is read");

/// The outcome of a stream's first message.
fn first_outcome(alloc: Global, ctx: &Context, stream: &[u8]) -> Result<Outcome, Trouble> {
    let mut decoder = Decoder::new(*ctx);
    let (_taken, found) = decoder.pull(alloc, stream)?;
    match found {
        Some((_len, outcome)) => Ok(outcome),
        None => Err(NOT_TAKEN),
    }
}

/// The first message of a stream, which is accepted.
pub fn message_of(alloc: Global, ctx: &Context, stream: &[u8]) -> Result<Message, Trouble> {
    match first_outcome(alloc, ctx, stream)? {
        Outcome::Took(message, _notes) => Ok(message),
        _ => Err(NOT_TAKEN),
    }
}

/// The result of writing a message in these contexts: the first that isn't the one wanted, else the one that is.
fn put_message(
    alloc: Global,
    row: &Row<'_>,
    contexts: &Contexts,
    message: &Message,
) -> Result<Page, Trouble> {
    let mut page = Page::new(alloc);
    for number in 0..CASES / 2 {
        let case = Case::new(number);
        if contexts.allows(&case.context) {
            page = write_message(alloc, &case.context, message)?;
            if page.text.as_str().trim_end_matches('\n') != row.want {
                break;
            }
        }
    }
    Ok(page)
}

/// The result of writing a message, read in a context, in those of the row's line `write`.
pub fn put_written(
    alloc: Global,
    row: &Row<'_>,
    ctx: &Context,
    stream: &[u8],
) -> Result<Page, Trouble> {
    let contexts = Contexts::read(row.told("write").unwrap_or(""))?;
    let message = message_of(alloc, ctx, stream)?;
    put_message(alloc, row, &contexts, &message)
}
