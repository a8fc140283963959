//! The messages of a stream whose first one determines how it is read.

ghost use Rattle.std.specs.Prelude.{◌≡◌, ◌+◌, [], None, Some, length, IfOk};
ghost use Rattle.std.specs.Result.{result_map_both};
ghost use Rattle.bgp_engine.specs.Below.{Agreed, IsLength, Message, wide_terms};
ghost use Rattle.bgp_engine.specs.Prelude.{agreed, first_open, open_in, ReportedBy, IsReport, Answers, io, no_tally, wide_rules};

use crate::fault::{NoContext, ToolFault};
use crate::file::{first_open, open_in};
use crate::page::Page;
use crate::starting::start_stream;
use crate::tally::Tally;
use bgp_frame::Frame;
use bgp_open::{Open, agree_on_paths, agreed_context};
use bgp_terms::{Refreshes, WideTerms, offers_of, terms};
use std::alloc::{AllocError, Global};
use std::io::{Read, Write};

/// The stage of a stream.
#[derive(Clone, Copy, PartialEq, Eq)]
pub(crate) enum Stage {
    /// The first message is incomplete.
    First,
    /// How it is read is known.
    Agreed,
    /// There is none, whatever follows.
    Unagreed(NoContext),
}

// What was negotiated for the messages from the speaker of one OPEN to the other.
fn agreed(reads_paths: bool, ours: &Open, theirs: &Open) -> Result<WideTerms, NoContext>
    ensures { result_map_both wide_terms (λ why. why) result ≡ agreed reads_paths (Some ours.now) (Some theirs.now) }
{
    if !reads_paths && agree_on_paths(ours, theirs) {
        return Err(NoContext::Paths);
    }
    let sender = offers_of(ours);
    let reader = offers_of(theirs);
    Ok(WideTerms {
        context: agreed_context(&sender.peer, &reader.peer),
        ..terms(&reader, &sender)
    })
}

// What the first message and the other direction's agree on, where both are OPENs that are accepted.
pub(crate) fn terms_of(
    alloc: Global,
    reads_paths: bool,
    frame: Frame<'_>,
    theirs: &[u8],
) -> Result<Result<WideTerms, NoContext>, AllocError>
    requires { IsLength frame.kind (19 + length frame.body.now) }
    ensures { IfOk result (λ terms. result_map_both wide_terms (λ why. why) terms ≡ agreed reads_paths (open_in frame.entry.kind frame.entry.body.now) (first_open theirs.now)) }
{
    let Some(ours) = open_in(alloc, frame)? else {
        return Ok(Err(NoContext::NoOpen));
    };
    let Some(theirs) = first_open(alloc, theirs)? else {
        return Ok(Err(NoContext::NoOpen));
    };
    Ok(agreed(reads_paths, &ours, &theirs))
}

/// Runs a page over the messages of a stream, by what its first OPEN and that of the other direction agree on.
pub(crate) fn open_stream<P: Page + Drop, R: Read, W: Write>(
    alloc: Global,
    turns: u32,
    theirs: &[u8],
    hex: bool,
    page: P,
    input: &mut R,
    output: &mut W,
) -> Result<Tally, ToolFault>
    requires told { P.told page ≡ [] }
    requires plain { (terms : Agreed) (m : Message) → (P.plan page (Some terms)).first m ≡ None }
    ensures { Answers (ReportedBy P.fits theirs.now (λ terms. IsReport (wide_rules terms.refresh (P.plan page (Some terms)).rules) 0 no_tally)) hex (io R.remaining input.old input.new W.contents output.old output.new) result }
{
    start_stream(
        alloc,
        turns,
        Some(theirs),
        Refreshes::None,
        hex,
        page,
        input,
        output,
    )
    .0
}
