//! The engine `clean_stream`.

ghost use Rattle.std.specs.Prelude.{◌≡◌, ◌+◌, [], length, IfOk};
ghost use Rattle.bgp_engine.specs.Below.{wide_terms};
ghost use Rattle.bgp_engine.specs.Below.{has_octet, IsLength, message_in};
ghost use Rattle.bgp_frame.specs.declared.kind.Kind.TheVariants as kind;
ghost use Rattle.bgp_engine.specs.Clean.{CleanedBy, CleanedIn, CleanedUnder, without_words};
ghost use Rattle.bgp_engine.specs.Run.{Answers, io};
ghost use Rattle.bgp_engine.specs.steps.Cleaning.{clean_plan, page_rules};
ghost use Rattle.bgp_engine.specs.steps.Pages.{TakesFirst};

use crate::class::Class;
use crate::fault::{Stop, ToolFault};
use crate::opens::UNKNOWN;
use crate::page::Page;
use crate::starting::start_stream;
use crate::tally::Tally;
use bgp_clean::{CleanFault, Cleaned, Limits, clean, clean_refresh, clean_with};
use bgp_frame::{End, Frame, HeadFault, Kind, Notification};
use bgp_open::Context;
use bgp_refresh::RefreshView;
use bgp_terms::{Refreshes, WideTerms};
use bgp_wire::OctetSet;
use std::alloc::{AllocError, Global};
use std::io::{Read, Write};

/// The octets that are passed on.
#[derive(Drop)]
pub(crate) struct CleanPage {
    /// The ROUTE-REFRESH that an OPEN may offer.
    pub(crate) offers: Refreshes,
    pub(crate) ctx: Context,
    /// The unrecognised types that are left out.
    pub(crate) drops: OctetSet,
    /// Which announcements are withdrawn.
    pub(crate) limits: Limits,
    pub(crate) octets: Vec<u8>,
    /// Why nothing was passed on of the message where it ends.
    pub(crate) why: Option<CleanFault>,
}

impl CleanPage {
    /// An empty page.
    fn new(
        alloc: Global,
        offers: Refreshes,
        ctx: Context,
        drops: &OctetSet,
        limits: &Limits,
    ) -> CleanPage
        ensures offers { result.offers ≡ offers }
        ensures context { result.ctx ≡ ctx }
        ensures drops { result.drops ≡ drops.now }
        ensures limits { result.limits ≡ limits.now }
        ensures empty { result.octets.items ≡ [] }
    {
        CleanPage {
            offers,
            ctx,
            drops: *drops,
            limits: *limits,
            octets: Vec::new(alloc),
            why: None,
        }
    }

    /// Passes on an OPEN as the first message of the stream, where it can be.
    fn open(&mut self, frame: Frame<'_>) -> Result<bool, AllocError>
        requires length { IsLength frame.kind (19 + length frame.body.now) }
        requires kind { frame.kind ≡ kind.Open }
        ensures { IfOk result (λ taken. TakesFirst taken
            (clean_plan self.old.offers self.old.ctx (has_octet self.old.drops) self.old.limits) (page_rules self.new) (message_in frame.entry) self.old.octets.items self.new.octets.items) }
    {
        match clean_with(
            self.offers,
            &self.ctx,
            &self.drops,
            &self.limits,
            true,
            frame,
            &mut self.octets,
        )? {
            Cleaned::HandedOn => Ok(true),
            Cleaned::Ends(why) => {
                self.why = Some(why);
                Ok(false)
            }
        }
    }
}

// Why a header's fault ends the stream.
fn reason(fault: HeadFault) -> CleanFault {
    let said = fault.notification();
    CleanFault::Reset(said.code, said.subcode)
}

impl Page for CleanPage {
    ghost use Rattle.bgp_engine.specs.Agree.{any_plain};
    ghost use Rattle.std.specs.Prelude.{refl};
    ghost use Rattle.bgp_engine.specs.Below.{true, List, Result, has_octet, CleanFault};
    ghost use Rattle.bgp_msg.specs.declared.message.Message.{Message};
    ghost use Rattle.bgp_engine.specs.steps.Cleaning.{clean_plan, offers_or, page_rules};
    ghost use Rattle.bgp_engine.specs.steps.Pages.{context_or};

    ghost Outcome = { Result (List Message) CleanFault };

    ghost rules = { λ page. page_rules page };

    ghost told = { λ page. page.octets.items };

    ghost fits = { any_plain };

    ghost plan = { λ page terms. clean_plan (offers_or page.offers terms) (context_or page.ctx terms) (has_octet page.drops) page.limits };

    ghost plainly = { λ _. refl };

    fn reads_paths(&self) -> bool {
        false
    }

    fn agree(&mut self, terms: &WideTerms) -> bool {
        self.offers = terms.refresh;
        self.ctx = terms.context;
        true
    }

    // An OPEN as the first message is passed on by a separate rule.
    fn first(&mut self, frame: Frame<'_>) -> Result<bool, AllocError> {
        if frame.kind != Kind::Open {
            return Ok(false);
        }
        self.open(frame)
    }

    fn message(&mut self, _place: u64, frame: Frame<'_>) -> Result<Class, AllocError> {
        match clean(
            &self.ctx,
            &self.drops,
            &self.limits,
            false,
            frame,
            &mut self.octets,
        )? {
            Cleaned::HandedOn => Ok(Class::Took),
            Cleaned::Ends(why) => {
                // For the first message the reason may be known already.
                if self.why.is_none() {
                    self.why = Some(why);
                }
                Ok(Class::Reset)
            }
        }
    }

    fn fault(&mut self, _place: u64, _header: &[u8], fault: HeadFault) -> Result<(), AllocError> {
        self.why = Some(reason(fault));
        Ok(())
    }

    fn refresh(
        &mut self,
        _place: u64,
        _len: u16,
        _body: &[u8],
        refresh: &RefreshView<'_>,
    ) -> Result<(), AllocError> {
        clean_refresh(&self.ctx, refresh, &mut self.octets)
    }

    fn refuse(
        &mut self,
        _place: u64,
        _len: u16,
        _body: &[u8],
        why: &Notification,
    ) -> Result<(), AllocError> {
        self.why = Some(CleanFault::Reset(why.code, why.subcode));
        Ok(())
    }

    fn last(&mut self, _tally: &Tally) -> Result<(), AllocError> {
        Ok(())
    }

    fn rest(&mut self, _waiting: &[u8]) -> Result<(), AllocError> {
        Ok(())
    }

    fn answer(&self, tally: Tally, place: u64) -> Result<Tally, ToolFault> {
        match tally.end {
            End::Wait(0) => Ok(tally),
            End::Wait(_) => Err(ToolFault::Clean(place, Stop::Incomplete)),
            End::Reset | End::Head => Err(ToolFault::Clean(place, Stop::Unsaid)),
        }
    }

    fn told(&self) -> &[u8] {
        self.octets.as_slice()
    }

    fn clear(&mut self) {
        self.octets.clear();
    }
}

// The answer, with the reason why it ended before a message.
fn with_words(answer: Result<Tally, ToolFault>, why: Option<CleanFault>) -> Result<Tally, ToolFault>
    requires { without_words answer ≡ answer }
    ensures { without_words result ≡ answer }
{
    match (answer, why) {
        (Err(ToolFault::Clean(place, Stop::Unsaid)), Some(why)) => {
            Err(ToolFault::Clean(place, Stop::At(why)))
        }
        (other, _) => other,
    }
}

/// Writes what is passed on of each message of a stream, in a context: well formed messages, whatever arrives (RFC
/// 7606). An UPDATE that is accepted is passed on in its parts, in their written form, without what is discarded and
/// without the unrecognised attributes whose types are in `drops`; routes whose announcement `limits` refuse are
/// withdrawn, as are all routes of one that is treated as a withdrawal. It reads as `show` does, and each message that
/// is passed on counts as accepted.
///
/// # Errors
/// As `show`; `Clean` with the offset of the first message of which nothing is passed on, of a header with a fault, or
/// of an incomplete message, and why. What was written before a fault remains.
pub fn clean_stream<R: Read, W: Write>(
    alloc: Global,
    ctx: &Context,
    drops: &OctetSet,
    limits: &Limits,
    hex: bool,
    input: &mut R,
    output: &mut W,
) -> Result<Tally, ToolFault>
    ensures { Answers (CleanedIn ctx.now (has_octet drops.now) limits.now) hex (io R.remaining input.old input.new W.contents output.old output.new) (without_words result) }
{
    clean_within(alloc, u32::MAX, ctx, drops, limits, hex, input, output)
}

/// [`clean_stream`], with a reader that is called at most `turns` times.
///
/// # Errors
/// As `clean_stream`; `Read` too where that limit was reached before the reader ended.
pub fn clean_within<R: Read, W: Write>(
    alloc: Global,
    turns: u32,
    ctx: &Context,
    drops: &OctetSet,
    limits: &Limits,
    hex: bool,
    input: &mut R,
    output: &mut W,
) -> Result<Tally, ToolFault>
    ensures { Answers (CleanedIn ctx.now (has_octet drops.now) limits.now) hex (io R.remaining input.old input.new W.contents output.old output.new) (without_words result) }
{
    let page = CleanPage::new(alloc, Refreshes::None, *ctx, drops, limits);
    let (answer, starting) = start_stream(
        alloc,
        turns,
        None,
        Refreshes::None,
        hex,
        page,
        input,
        output,
    );
    with_words(answer, starting.walk.page.why)
}

/// [`clean_stream`] by what was negotiated: ROUTE-REFRESH is read where the reader offers it, and passed on in 23 octets
/// where both offer its family and what it is for is defined; a KEEPALIVE replaces any other. An OPEN that is passed on
/// keeps as much of its offer of ROUTE-REFRESH.
///
/// # Errors
/// As `clean_stream`.
pub fn clean_under<R: Read, W: Write>(
    alloc: Global,
    terms: &WideTerms,
    drops: &OctetSet,
    limits: &Limits,
    hex: bool,
    input: &mut R,
    output: &mut W,
) -> Result<Tally, ToolFault>
    ensures { Answers (CleanedUnder (wide_terms terms.now) (has_octet drops.now) limits.now) hex (io R.remaining input.old input.new W.contents output.old output.new) (without_words result) }
{
    let page = CleanPage::new(alloc, terms.refresh, terms.context, drops, limits);
    let (answer, starting) = start_stream(
        alloc,
        u32::MAX,
        None,
        terms.refresh,
        hex,
        page,
        input,
        output,
    );
    with_words(answer, starting.walk.page.why)
}

/// [`clean_stream`] in the context that the stream's first OPEN and that of the other direction agree on. `theirs` has
/// the octets of the other direction, from its first message on: that message is enough.
///
/// # Errors
/// As `clean_stream`; `NoContext` where the first message of the stream, or of `theirs`, isn't a complete, valid OPEN, or where both agree on path identifiers
/// for the stream's routes: nothing is written then.
pub fn clean_by_opens<R: Read, W: Write>(
    alloc: Global,
    theirs: &[u8],
    drops: &OctetSet,
    limits: &Limits,
    hex: bool,
    input: &mut R,
    output: &mut W,
) -> Result<Tally, ToolFault>
    ensures { Answers (CleanedBy theirs.now (has_octet drops.now) limits.now) hex (io R.remaining input.old input.new W.contents output.old output.new) (without_words result) }
{
    clean_by_opens_within(alloc, u32::MAX, theirs, drops, limits, hex, input, output)
}

/// [`clean_by_opens`], with a reader that is called at most `turns` times.
///
/// # Errors
/// As `clean_by_opens`; `Read` too where that limit was reached before the reader ended.
pub fn clean_by_opens_within<R: Read, W: Write>(
    alloc: Global,
    turns: u32,
    theirs: &[u8],
    drops: &OctetSet,
    limits: &Limits,
    hex: bool,
    input: &mut R,
    output: &mut W,
) -> Result<Tally, ToolFault>
    ensures { Answers (CleanedBy theirs.now (has_octet drops.now) limits.now) hex (io R.remaining input.old input.new W.contents output.old output.new) (without_words result) }
{
    let page = CleanPage::new(alloc, Refreshes::None, UNKNOWN, drops, limits);
    let (answer, starting) = start_stream(
        alloc,
        turns,
        Some(theirs),
        Refreshes::None,
        hex,
        page,
        input,
        output,
    );
    with_words(answer, starting.walk.page.why)
}
