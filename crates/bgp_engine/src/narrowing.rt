//! The engine `narrow_stream`.

ghost use Rattle.std.specs.Prelude.{◌≡◌, ◌≤◌, ◌+◌, ◌++◌, true, false, length, IfOk, OnOk};
ghost use Rattle.bgp_engine.specs.Below.{octets_of, IsLength, message_in};
ghost use Rattle.bgp_engine.specs.Below.{out_of, narrowed_update, CanBeTold, update_value, with_as4};
ghost use Rattle.bgp_msg.specs.declared.message.Message.TheVariants as message;
ghost use Rattle.bgp_engine.specs.steps.PageSteps.{WritesNarrow};
ghost use Rattle.bgp_engine.specs.Below.{wide_terms};
ghost use Rattle.bgp_frame.specs.declared.kind.Kind.{Kind};
ghost use Rattle.bgp_paths.specs.Prelude.{body_with, field_numbers};
ghost use Rattle.bgp_engine.specs.Narrow.{Narrowed, NarrowedUnder, message_with, narrowed_body, narrowed_outcome, narrowed_with, written_in};
ghost use Rattle.bgp_engine.specs.Run.{Answers, io};

use crate::class::Class;
use crate::fault::ToolFault;
use crate::identified::{is_identified, no_paths};
use crate::page::Page;
use crate::tally::Tally;
use crate::walk::{walk_stream, walk_under};
use bgp_frame::{End, Frame, HeadFault, Kind, Notification, head};
use bgp_msg::{OutcomeView, encode_narrowed, view_frame};
use bgp_open::Context;
use bgp_paths::{PathBody, PathFamilies, PathRuns, PlainBody, TooLong, path_runs, view_received};
use bgp_refresh::{RefreshView, refresh_header};
use bgp_terms::WideTerms;
use bgp_update::{NarrowFault, UpdateView};
use bgp_wire::are_octets;
use std::alloc::{AllocError, Global};
use std::io::{Read, Write};

// Appends a message unchanged.
fn put_frame(octets: &mut Vec<u8>, frame: Frame<'_>) -> Result<(), AllocError>
    requires { IsLength frame.kind (19 + length frame.body.now) }
    ensures { OnOk result (octets.new.items ≡ octets.old.items ++ octets_of (message_in frame.entry)) }
{
    let header = head(frame.kind, frame.body.len() as u16);
    octets.extend_from_slice(&header)?;
    octets.extend_from_slice(frame.body)?;
    Ok(())
}

// Appends an accepted UPDATE as sent to a speaker with 2-octet AS numbers.
fn put_view(
    alloc: Global,
    ctx: &Context,
    octets: &mut Vec<u8>,
    view: &UpdateView<'_>,
) -> Result<Class, AllocError>
    requires { CanBeTold ctx.now (update_value view.now) }
    ensures { IfOk result (λ class. WritesNarrow octets.old.items octets.new.items (written_in (with_as4 false ctx.now) (message.Update (narrowed_update (update_value view.now)))) class) }
{
    match encode_narrowed(alloc, ctx, view, octets) {
        Ok(()) => Ok(Class::Took),
        Err(NarrowFault::Memory) => Err(AllocError),
        Err(NarrowFault::TooLong) => Ok(Class::Reset),
    }
}

// Appends a message as it is passed on. An UPDATE that is accepted with 4-octet AS numbers has neither AS4_PATH nor
// AS4_AGGREGATOR.
fn put_told(
    alloc: Global,
    ctx: &Context,
    octets: &mut Vec<u8>,
    frame: Frame<'_>,
) -> Result<Class, AllocError>
    requires wide { ctx.now.as4 ≡ true }
    requires long { IsLength frame.kind (19 + length frame.body.now) }
    ensures { IfOk result (λ class. WritesNarrow octets.old.items octets.new.items (narrowed_outcome ctx.now (message_in frame.entry) (out_of ctx.now (message_in frame.entry))) class) }
{
    are_octets(frame.body);
    let mut place = UpdateView::empty();
    match view_frame(ctx, frame, &mut place) {
        OutcomeView::Update(view) => put_view(alloc, ctx, octets, view),
        OutcomeView::Withdraw(_) | OutcomeView::Reset(_) => Ok(Class::Reset),
        OutcomeView::Open(_) | OutcomeView::Notification(_) | OutcomeView::Keepalive => {
            put_frame(octets, frame)?;
            Ok(Class::Took)
        }
    }
}

// Appends an UPDATE with this body, and these path identifiers before its routes.
fn put_body_with(
    families: PathFamilies,
    runs: &PathRuns<'_>,
    body: &[u8],
    room: &mut PathBody,
    octets: &mut Vec<u8>,
) -> Result<Class, AllocError>
    requires { 4 ≤ length body.now }
    ensures { IfOk result (λ class. WritesNarrow octets.old.items octets.new.items (message_with (body_with families (field_numbers runs.now) body.now)) class) }
{
    match room.fill(families, runs, body) {
        Ok(()) => {
            octets.extend_from_slice(&head(Kind::Update, room.count() as u16))?;
            octets.extend_from_slice(room.as_slice())?;
            Ok(Class::Took)
        }
        Err(TooLong) => Ok(Class::Reset),
    }
}

// Appends an accepted UPDATE as sent to a speaker with 2-octet AS numbers, with these path identifiers before its routes.
fn put_view_with(
    alloc: Global,
    ctx: &Context,
    families: PathFamilies,
    runs: &PathRuns<'_>,
    view: &UpdateView<'_>,
    narrowed: &mut Vec<u8>,
    room: &mut PathBody,
    octets: &mut Vec<u8>,
) -> Result<Class, AllocError>
    requires { CanBeTold ctx.now (update_value view.now) }
    ensures { IfOk result (λ class. WritesNarrow octets.old.items octets.new.items (narrowed_with families (field_numbers runs.now) ctx.now (update_value view.now)) class) }
{
    narrowed.clear();
    match view.write_narrowed(alloc, ctx, narrowed) {
        Ok(()) => put_body_with(families, runs, narrowed.as_slice(), room, octets),
        Err(NarrowFault::Memory) => Err(AllocError),
        Err(NarrowFault::TooLong) => Ok(Class::Reset),
    }
}

// Appends an UPDATE whose routes have path identifiers, as it is passed on.
fn put_identified(
    alloc: Global,
    ctx: &Context,
    families: PathFamilies,
    plain: &mut PlainBody,
    narrowed: &mut Vec<u8>,
    room: &mut PathBody,
    body: &[u8],
    octets: &mut Vec<u8>,
) -> Result<Class, AllocError>
    requires wide { ctx.now.as4 ≡ true }
    requires long { IsLength Kind.Update (19 + length body.now) }
    ensures { IfOk result (λ class. WritesNarrow octets.old.items octets.new.items (narrowed_body families ctx.now body.now) class) }
{
    plain.fill(families, body);
    are_octets(plain.as_slice());
    let mut place = UpdateView::empty();
    match view_received(ctx, body, plain.as_slice(), &mut place) {
        OutcomeView::Update(view) => {
            let runs = path_runs(families, body);
            put_view_with(alloc, ctx, families, &runs, view, narrowed, room, octets)
        }
        OutcomeView::Open(_)
        | OutcomeView::Withdraw(_)
        | OutcomeView::Notification(_)
        | OutcomeView::Keepalive
        | OutcomeView::Reset(_) => Ok(Class::Reset),
    }
}

/// The octets that are passed on, in a session with 4-octet AS numbers.
#[derive(Drop)]
pub(crate) struct NarrowPage {
    alloc: Global,
    ctx: Context,
    /// Whose routes have path identifiers.
    families: PathFamilies,
    /// The body of an UPDATE without them.
    plain: PlainBody,
    /// That body narrowed.
    narrowed: Vec<u8>,
    /// The narrowed body with them.
    room: PathBody,
    octets: Vec<u8>,
    ghost wide: { ctx.as4 ≡ true },
}

impl NarrowPage {
    ghost use Rattle.std.specs.Prelude.{[]};

    /// An empty page, of messages whose routes of these families have path identifiers.
    pub(crate) fn new(alloc: Global, ctx: Context, families: PathFamilies) -> NarrowPage
        requires { ctx.as4 ≡ true }
        ensures context { result.ctx ≡ ctx }
        ensures families { result.families ≡ families }
        ensures empty { result.octets.items ≡ [] }
    {
        NarrowPage {
            alloc,
            ctx,
            families,
            plain: PlainBody::new(),
            narrowed: Vec::new(alloc),
            room: PathBody::new(),
            octets: Vec::new(alloc),
        }
    }
}

impl Page for NarrowPage {
    ghost use Rattle.bgp_engine.specs.Agree.{any_as4};
    ghost use Rattle.std.specs.Prelude.{refl};
    ghost use Rattle.bgp_engine.specs.Below.{ℕ, List, Option};
    ghost use Rattle.bgp_engine.specs.Identified.{families_or};
    ghost use Rattle.bgp_engine.specs.Narrow.{narrow_path_rules};
    ghost use Rattle.bgp_engine.specs.steps.Pages.{context_or, plain};

    ghost Outcome = { Option (List ℕ) };

    ghost rules = { λ page. narrow_path_rules page.families page.ctx };

    ghost told = { λ page. page.octets.items };

    ghost fits = { any_as4 };

    ghost plan = { λ page terms. plain (narrow_path_rules (families_or page.families terms) (context_or page.ctx terms)) };

    ghost plainly = { λ _. refl };

    fn reads_paths(&self) -> bool {
        true
    }

    fn agree(&mut self, terms: &WideTerms) -> bool {
        if !terms.context.as4 {
            return false;
        }
        self.ctx = terms.context;
        self.families = PathFamilies::of(terms);
        true
    }

    fn first(&mut self, _frame: Frame<'_>) -> Result<bool, AllocError> {
        Ok(false)
    }

    fn message(&mut self, _place: u64, frame: Frame<'_>) -> Result<Class, AllocError> {
        if is_identified(self.families, frame.kind) {
            return put_identified(
                self.alloc,
                &self.ctx,
                self.families,
                &mut self.plain,
                &mut self.narrowed,
                &mut self.room,
                frame.body,
                &mut self.octets,
            );
        }
        put_told(self.alloc, &self.ctx, &mut self.octets, frame)
    }

    fn fault(&mut self, _place: u64, _header: &[u8], _fault: HeadFault) -> Result<(), AllocError> {
        Ok(())
    }

    fn refresh(
        &mut self,
        _place: u64,
        len: u16,
        body: &[u8],
        _refresh: &RefreshView<'_>,
    ) -> Result<(), AllocError> {
        self.octets.extend_from_slice(&refresh_header(len))?;
        self.octets.extend_from_slice(body)
    }

    fn refuse(
        &mut self,
        _place: u64,
        _len: u16,
        _body: &[u8],
        _why: &Notification,
    ) -> Result<(), AllocError> {
        Ok(())
    }

    fn last(&mut self, _tally: &Tally) -> Result<(), AllocError> {
        Ok(())
    }

    fn rest(&mut self, _waiting: &[u8]) -> Result<(), AllocError> {
        Ok(())
    }

    fn answer(&self, tally: Tally, place: u64) -> Result<Tally, ToolFault> {
        match tally.end {
            End::Wait(0) => Ok(tally),
            _ => Err(ToolFault::Narrow(place)),
        }
    }

    fn told(&self) -> &[u8] {
        self.octets.as_slice()
    }

    fn clear(&mut self) {
        self.octets.clear();
    }
}

/// Writes a stream of messages with 4-octet AS numbers as one for a 2-octet speaker (RFC 6793, section 4.2.2): each
/// UPDATE narrowed, every other message unchanged. It reads as `show` does, and each whole message counts as accepted.
///
/// # Errors
/// `Memory`, `Read` and `Write` at once, without a second try; `Narrow` with the offset of the first message that isn't
/// accepted, or that can't be written, of a header with a fault, or of an incomplete message. What was written before a
/// fault remains.
pub fn narrow_stream<R: Read, W: Write>(
    alloc: Global,
    ctx: &Context,
    input: &mut R,
    output: &mut W,
) -> Result<Tally, ToolFault>
    requires { ctx.now.as4 ≡ true }
    ensures { Answers (Narrowed ctx.now) false (io R.remaining input.old input.new W.contents output.old output.new) result }
{
    narrow_within(alloc, u32::MAX, ctx, input, output)
}

/// [`narrow_stream`], with a reader that is called at most `turns` times.
///
/// # Errors
/// As `narrow_stream`; `Read` too where that limit was reached before the reader ended.
pub fn narrow_within<R: Read, W: Write>(
    alloc: Global,
    turns: u32,
    ctx: &Context,
    input: &mut R,
    output: &mut W,
) -> Result<Tally, ToolFault>
    requires { ctx.now.as4 ≡ true }
    ensures { Answers (Narrowed ctx.now) false (io R.remaining input.old input.new W.contents output.old output.new) result }
{
    let page = NarrowPage::new(alloc, *ctx, no_paths());
    walk_stream(turns, false, page, input, output)
}

/// [`narrow_stream`] by what was negotiated: a ROUTE-REFRESH is passed on unchanged where the reader offers it, and routes keep their path identifiers where
/// the terms say that they have some. An UPDATE with them that would have more than 4096 octets can't be written.
///
/// # Errors
/// As `narrow_stream`.
pub fn narrow_under<R: Read, W: Write>(
    alloc: Global,
    terms: &WideTerms,
    input: &mut R,
    output: &mut W,
) -> Result<Tally, ToolFault>
    requires { (wide_terms terms.now).context.as4 ≡ true }
    ensures { Answers (NarrowedUnder (wide_terms terms.now)) false (io R.remaining input.old input.new W.contents output.old output.new) result }
{
    let page = NarrowPage::new(alloc, terms.context, PathFamilies::of(terms));
    walk_under(u32::MAX, false, page, terms.refresh, input, output)
}
