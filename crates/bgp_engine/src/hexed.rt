//! The engine `to_hex`.

ghost use Rattle.std.specs.Prelude.{◌≡◌, ◌+◌, ◌≤◌, ◌++◌, ◌∷◌, [], false, length, OnOk};
ghost use Rattle.bgp_engine.specs.Below.{encode_lower, IsLength, message_in};
ghost use Rattle.bgp_engine.specs.Run.{Answers, io};
ghost use Rattle.bgp_engine.specs.ToHex.{Hexed, HexedWith, hex_line, refused_line, rest_line};

use crate::class::Class;
use crate::fault::ToolFault;
use crate::page::Page;
use crate::tally::Tally;
use crate::walk::{walk_stream, walk_under};
use bgp_frame::{Frame, HeadFault, Notification, head};
use bgp_refresh::{RefreshView, refresh_header};
use bgp_terms::{Refreshes, WideTerms};
use bgp_text::notification_text;
use hex::encode_to_slice;
use std::alloc::{AllocError, Global};
use std::io::{Read, Write};

// Appends octets as digits.
fn put_digits(text: &mut Vec<u8>, octets: &[u8]) -> Result<(), AllocError>
    requires { length octets.now ≤ 4096 }
    ensures { OnOk result (text.new.items ≡ text.old.items ++ encode_lower octets.now) }
{
    let from = text.len();
    text.resize(from + 2 * octets.len(), 0)?;
    let _fits = encode_to_slice(octets, &mut text[from..]);
    Ok(())
}

// A header and a body as a line of digits.
fn put_line(text: &mut Vec<u8>, header: &[u8], body: &[u8]) -> Result<(), AllocError>
    requires header { length header.now ≤ 4096 }
    requires body { length body.now ≤ 4096 }
    ensures { OnOk result (text.new.items ≡ text.old.items ++ (encode_lower (header.now ++ body.now) ++ 10 ∷ [])) }
{
    put_digits(text, header)?;
    put_digits(text, body)?;
    text.extend_from_slice(b"\n")
}

// A whole message as digits.
fn put_message(text: &mut Vec<u8>, frame: Frame<'_>) -> Result<(), AllocError>
    requires { IsLength frame.kind (19 + length frame.body.now) }
    ensures { OnOk result (text.new.items ≡ text.old.items ++ hex_line (message_in frame.entry)) }
{
    put_line(text, &head(frame.kind, frame.body.len() as u16), frame.body)
}

// The NOTIFICATION that answers a header or a message.
fn put_refused(alloc: Global, text: &mut Vec<u8>, why: &Notification) -> Result<(), AllocError>
    ensures { OnOk result (text.new.items ≡ text.old.items ++ refused_line why.now) }
{
    let told = notification_text(alloc, why)?;
    text.extend_from_slice(b"fault ")?;
    text.extend_from_slice(told.as_bytes())?;
    text.extend_from_slice(b"\n")
}

// The incomplete message, if there is one.
fn put_rest(alloc: Global, text: &mut Vec<u8>, waiting: &[u8]) -> Result<(), AllocError>
    ensures { OnOk result (text.new.items ≡ text.old.items ++ rest_line waiting.now) }
{
    if waiting.is_empty() {
        return Ok(());
    }
    let digits = hex::encode(alloc, waiting)?;
    text.extend_from_slice(b"rest ")?;
    text.extend_from_slice(digits.as_bytes())?;
    text.extend_from_slice(b"\n")
}

/// The messages as digits.
#[derive(Drop)]
struct HexPage {
    alloc: Global,
    text: Vec<u8>,
}

impl Page for HexPage {
    ghost use Rattle.bgp_engine.specs.Agree.{any_plain};
    ghost use Rattle.std.specs.Prelude.{refl};
    ghost use Rattle.std.specs.Prelude.{true};
    ghost use Rattle.bgp_engine.specs.ToHex.{Framed, hex_rules};
    ghost use Rattle.bgp_engine.specs.steps.Pages.{plain};

    ghost Outcome = { Framed };

    ghost rules = { λ _. hex_rules };

    ghost told = { λ page. page.text.items };

    ghost fits = { any_plain };

    ghost plan = { λ _ _. plain hex_rules };

    ghost plainly = { λ _. refl };

    fn reads_paths(&self) -> bool {
        false
    }

    fn agree(&mut self, _terms: &WideTerms) -> bool {
        true
    }

    fn first(&mut self, _frame: Frame<'_>) -> Result<bool, AllocError> {
        Ok(false)
    }

    fn message(&mut self, _place: u64, frame: Frame<'_>) -> Result<Class, AllocError> {
        put_message(&mut self.text, frame)?;
        Ok(Class::Took)
    }

    fn fault(&mut self, _place: u64, _header: &[u8], fault: HeadFault) -> Result<(), AllocError> {
        put_refused(self.alloc, &mut self.text, &fault.notification())
    }

    fn refresh(
        &mut self,
        _place: u64,
        len: u16,
        body: &[u8],
        _refresh: &RefreshView<'_>,
    ) -> Result<(), AllocError> {
        put_line(&mut self.text, &refresh_header(len), body)
    }

    fn refuse(
        &mut self,
        _place: u64,
        _len: u16,
        _body: &[u8],
        why: &Notification,
    ) -> Result<(), AllocError> {
        put_refused(self.alloc, &mut self.text, why)
    }

    fn last(&mut self, _tally: &Tally) -> Result<(), AllocError> {
        Ok(())
    }

    fn rest(&mut self, waiting: &[u8]) -> Result<(), AllocError> {
        put_rest(self.alloc, &mut self.text, waiting)
    }

    fn answer(&self, tally: Tally, _place: u64) -> Result<Tally, ToolFault> {
        Ok(tally)
    }

    fn told(&self) -> &[u8] {
        self.text.as_slice()
    }

    fn clear(&mut self) {
        self.text.clear();
    }
}

/// Prints each whole message of a stream as one line of hexadecimal digits, without judging its body; after them a
/// header's fault or an incomplete message. It reads as `show` does.
///
/// # Errors
/// `Memory`, `Read` and `Write` at once, without a second try. What was written before a fault remains.
pub fn to_hex<R: Read, W: Write>(
    alloc: Global,
    input: &mut R,
    output: &mut W,
) -> Result<Tally, ToolFault>
    ensures { Answers Hexed false (io R.remaining input.old input.new W.contents output.old output.new) result }
{
    to_hex_within(alloc, u32::MAX, input, output)
}

/// [`to_hex`], with a reader that is called at most `turns` times.
///
/// # Errors
/// As `to_hex`; `Read` too where that limit was reached before the reader ended.
pub fn to_hex_within<R: Read, W: Write>(
    alloc: Global,
    turns: u32,
    input: &mut R,
    output: &mut W,
) -> Result<Tally, ToolFault>
    ensures { Answers Hexed false (io R.remaining input.old input.new W.contents output.old output.new) result }
{
    let page = HexPage {
        alloc,
        text: Vec::new(alloc),
    };
    walk_stream(turns, false, page, input, output)
}

/// [`to_hex`] of a stream in which ROUTE-REFRESH may be a message (RFC 2918), as the reader accepts it.
///
/// # Errors
/// As `to_hex`.
pub fn to_hex_with<R: Read, W: Write>(
    alloc: Global,
    refreshes: Refreshes,
    input: &mut R,
    output: &mut W,
) -> Result<Tally, ToolFault>
    ensures { Answers (HexedWith refreshes) false (io R.remaining input.old input.new W.contents output.old output.new) result }
{
    let page = HexPage {
        alloc,
        text: Vec::new(alloc),
    };
    walk_under(u32::MAX, false, page, refreshes, input, output)
}
