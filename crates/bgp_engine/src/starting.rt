//! The messages of a stream whose first one may determine how it is read, or be handled by a separate rule.

ghost use Rattle.std.specs.Prelude.{◌≡◌, ◌+◌, [], None, Some, length, option_map, IfOk};
ghost use Rattle.bgp_engine.specs.Below.{IsLength, message_in};
ghost use Rattle.bgp_engine.specs.First.{ReportedFrom};
ghost use Rattle.bgp_engine.specs.Run.{Answers, io};
ghost use Rattle.bgp_engine.specs.steps.Starting.{Begins, SettlesOn, starts_of};

use crate::class::Class;
use crate::engine::Engine;
use crate::fault::{NoContext, ToolFault};
use crate::opening::{Stage, terms_of};
use crate::page::Page;
use crate::running::run;
use crate::tally::Tally;
use crate::walk::Walk;
use bgp_frame::{Frame, Framer, Step};
use bgp_terms::Refreshes;
use std::alloc::{AllocError, Global};
use std::io::{Read, Write};

/// How a stream begins.
#[derive(Clone, Copy, PartialEq, Eq)]
pub(crate) enum Begun {
    /// There is no context to read it in.
    Unagreed(NoContext),
    /// The first message is read as all others are, with this ROUTE-REFRESH.
    Plain(Refreshes),
    /// The first message was handled separately.
    Handed(Refreshes),
}

/// Holds the first message of a stream until it is whole, and walks over what follows it, or over all of them.
#[derive(Drop)]
pub(crate) struct Starting<'a, P> {
    alloc: Global,
    /// The octets of the other direction, where the terms are what both OPENs agree on.
    theirs: Option<&'a [u8]>,
    stage: Stage,
    /// The octets of the first message.
    front: Framer,
    pub(crate) walk: Walk<P>,
}

// Sets what was agreed on for the stream, where the octets of the other direction were given, by both first messages. Answers which
// ROUTE-REFRESH is accepted, or why nothing is agreed on.
fn settle<P: Page>(
    alloc: Global,
    theirs: Option<&[u8]>,
    page: &mut P,
    refreshes: Refreshes,
    frame: Frame<'_>,
) -> Result<Result<Refreshes, NoContext>, AllocError>
    requires { IsLength frame.kind (19 + length frame.body.now) }
    ensures settles { IfOk result (λ settled. SettlesOn settled
        (starts_of P.fits P.rules P.plan refreshes (option_map (λ t. t.now) theirs.entry) page.old (Some (message_in frame.entry))) (P.plan page.new None) (message_in frame.entry)) }
    ensures told { P.told page.new ≡ P.told page.old }
{
    let Some(theirs) = theirs else {
        return Ok(Ok(refreshes));
    };
    let terms = match terms_of(alloc, page.reads_paths(), frame, theirs)? {
        Ok(terms) => terms,
        Err(why) => return Ok(Err(why)),
    };
    if page.agree(&terms) {
        Ok(Ok(terms.refresh))
    } else {
        Ok(Err(NoContext::NoOpen))
    }
}

// Decides how a stream begins by its first message, which is whole and whose header has no fault, and handles that
// message by a separate rule where there is one.
fn begin<P: Page>(
    alloc: Global,
    theirs: Option<&[u8]>,
    page: &mut P,
    refreshes: Refreshes,
    frame: Frame<'_>,
) -> Result<Begun, AllocError>
    requires { IsLength frame.kind (19 + length frame.body.now) }
    ensures { IfOk result (λ begun. Begins begun
        (starts_of P.fits P.rules P.plan refreshes (option_map (λ t. t.now) theirs.entry) page.old (Some (message_in frame.entry))) (P.rules page.new) (P.told page.old) (P.told page.new)) }
{
    let refreshes = match settle(alloc, theirs, page, refreshes, frame)? {
        Ok(refreshes) => refreshes,
        Err(why) => return Ok(Begun::Unagreed(why)),
    };
    if page.first(frame)? {
        Ok(Begun::Handed(refreshes))
    } else {
        Ok(Begun::Plain(refreshes))
    }
}

impl<'a, P: Page> Starting<'a, P> {
    ghost use Rattle.std.specs.Prelude.{◌≡◌, ◌+◌, ◌<◌, ◌≤◌, ◌^◌, ◌++◌, [], None, Some, length, option_map, IfOk, OnOk, OnErr};
    ghost use Rattle.bgp_engine.specs.Below.{AreOctets};
    ghost use Rattle.bgp_engine.specs.declared.opening.Stage.TheVariants as stage;
    ghost use Rattle.bgp_engine.specs.steps.Engine.{Closes, IsTotal, Takes};
    ghost use Rattle.bgp_engine.specs.steps.Starting.{GoesOn, IsFirst, ReadyIn, Settles, reports_in, room_in, starting_of, starts_of};
    ghost use Rattle.bgp_engine.specs.steps.Walking.{IsFresh, IsReady, reports_of, room_of, walk_of};

    /// At the beginning of a stream.
    pub(crate) fn new(
        alloc: Global,
        theirs: Option<&'a [u8]>,
        page: P,
        refreshes: Refreshes,
    ) -> Starting<'a, P>
        ensures stage { result.stage ≡ stage.First }
        ensures theirs { result.theirs ≡ theirs.entry }
        ensures page { result.walk.page ≡ page }
        ensures refreshes { result.walk.refreshes ≡ refreshes }
        ensures front { result.front ≡ [] }
        ensures first { IsFirst result.front (walk_of P.rules result.walk) }
    {
        Starting {
            alloc,
            theirs,
            stage: Stage::First,
            front: Framer::new(),
            walk: Walk::new(page, refreshes),
        }
    }

    // Decides how the stream begins, where its first message is whole.
    fn begin(&mut self) -> Result<Stage, AllocError>
        requires octets { AreOctets self.old.front }
        requires ready { IsReady (walk_of P.rules self.old.walk) }
        requires fresh { IsFresh (walk_of P.rules self.old.walk) }
        ensures first { IfOk result (λ it. it ≡ stage.First → self.new ≡ self.old) }
        ensures theirs { self.new.theirs ≡ self.old.theirs }
        ensures room { OnOk result (self.new.walk.place + length self.new.walk.framer.octets + length self.new.front ≤ length self.old.front) }
        ensures settles { IfOk result (λ stage. Settles stage
            (starts_of P.fits P.rules P.plan self.old.walk.refreshes (option_map (λ t. t.now) self.old.theirs) self.old.walk.page) self.old.front
            (P.told self.old.walk.page) (P.told self.new.walk.page) self.new.front (walk_of P.rules self.new.walk)) }
    {
        match self.front.step() {
            Step::More => Ok(Stage::First),
            Step::Fault(_) if self.theirs.is_some() => Ok(Stage::Unagreed(NoContext::NoOpen)),
            Step::Fault(_) => Ok(Stage::Agreed),
            Step::Frame(frame) => {
                let len = frame.len;
                let refreshes = self.walk.refreshes;
                match begin(
                    self.alloc,
                    self.theirs,
                    &mut self.walk.page,
                    refreshes,
                    frame,
                )? {
                    Begun::Unagreed(why) => Ok(Stage::Unagreed(why)),
                    Begun::Plain(refreshes) => {
                        self.walk.accept(refreshes);
                        Ok(Stage::Agreed)
                    }
                    Begun::Handed(refreshes) => {
                        self.walk.accept(refreshes);
                        self.walk.count(len, Class::Took);
                        self.front.clear();
                        Ok(Stage::Agreed)
                    }
                }
            }
        }
    }

    // Consumes what is held of the first message, and what follows it.
    fn walk_on(&mut self, later: &[u8]) -> Result<bool, AllocError>
        requires octets { AreOctets self.old.front }
        requires ready { IsReady (walk_of P.rules self.old.walk) }
        requires room { length self.old.front + length later.now ≤ room_of (walk_of P.rules self.old.walk) }
        ensures takes { IfOk result (λ over. Takes
            (reports_of (walk_of P.rules self.old.walk)) (reports_of (walk_of P.rules self.new.walk)) (IsReady (walk_of P.rules self.new.walk))
            (P.told self.old.walk.page) (P.told self.new.walk.page) (self.old.front ++ later.now) over) }
        ensures ready { OnOk result (IsReady (walk_of P.rules self.new.walk)) }
        ensures room { OnOk result (room_of (walk_of P.rules self.old.walk) ≤ room_of (walk_of P.rules self.new.walk) + (length self.old.front + length later.now)) }
        ensures same { self.new ≡ record self.old { walk = self.new.walk } }
    {
        if self.walk.take(self.front.octets())? {
            return Ok(true);
        }
        self.walk.take(later)
    }

    // Consumes octets where the first message is incomplete.
    fn take_first(&mut self, octets: &[u8]) -> Result<bool, AllocError>
        requires stage { self.old.stage ≡ stage.First }
        requires first { IsFirst self.old.front (walk_of P.rules self.old.walk) }
        requires room { length self.old.front + length octets.now ≤ 2 ^ 60 }
        ensures takes { IfOk result (λ over. Takes
            (reports_in (starting_of P.fits P.rules P.plan self.old)) (reports_in (starting_of P.fits P.rules P.plan self.new))
            (GoesOn (starting_of P.fits P.rules P.plan self.new))
            (P.told self.old.walk.page) (P.told self.new.walk.page) octets.now over) }
        ensures ready { OnOk result (ReadyIn (starting_of P.fits P.rules P.plan self.new)) }
        ensures room { OnOk result (2 ^ 60 ≤ room_in (starting_of P.fits P.rules P.plan self.new) + (length self.old.front + length octets.now)) }
        ensures memory { OnErr result (IsTotal (reports_in (starting_of P.fits P.rules P.plan self.old))) }
    {
        let taken = self.front.feed(octets);
        self.stage = self.begin()?;
        match self.stage {
            Stage::First => Ok(false),
            Stage::Unagreed(_) => Ok(true),
            Stage::Agreed => {
                let (_, later) = octets.split_at(taken);
                self.walk_on(later)
            }
        }
    }

    // What remains to be done where the stream ends with an incomplete first message.
    fn finish_first(&mut self) -> Result<Tally, ToolFault>
        requires first { IsFirst self.old.front (walk_of P.rules self.old.walk) }
        requires stage { self.old.stage ≡ stage.First }
        requires known { self.old.theirs ≡ None }
        ensures { Closes (reports_in (starting_of P.fits P.rules P.plan self.old)) (P.told self.old.walk.page) (P.told self.new.walk.page) result }
    {
        self.walk.take(self.front.octets())?;
        self.walk.finish()
    }
}

impl<P: Page> Engine for Starting<'_, P> {
    ghost use Rattle.std.specs.Prelude.{◌⊎◌};
    ghost use Rattle.bgp_frame.specs.declared.kind.WideKind.{WideKind};
    ghost use Rattle.bgp_engine.specs.Refreshed.{Refreshed};
    ghost use Rattle.bgp_engine.specs.steps.Starting.{Starting, GoesOn, ReadyIn, reports_in, room_in, starting_of};

    ghost State = { Starting WideKind (P.Outcome ⊎ Refreshed) };

    ghost state = { λ s. starting_of P.fits P.rules P.plan s };

    ghost told = { λ s. P.told s.walk.page };

    ghost reports = { λ s. reports_in s };

    ghost going = { λ s. GoesOn s };

    ghost ready = { λ s. ReadyIn s };

    ghost room = { λ s. room_in s };

    fn take(&mut self, octets: &[u8]) -> Result<bool, AllocError> {
        match self.stage {
            Stage::First => self.take_first(octets),
            Stage::Agreed => self.walk.take(octets),
            Stage::Unagreed(_) => Ok(true),
        }
    }

    fn finish(&mut self) -> Result<Tally, ToolFault> {
        match self.stage {
            Stage::Agreed => self.walk.finish(),
            Stage::Unagreed(why) => Err(ToolFault::NoContext(why)),
            Stage::First if self.theirs.is_some() => Err(ToolFault::NoContext(NoContext::NoOpen)),
            Stage::First => self.finish_first(),
        }
    }

    fn told(&self) -> &[u8] {
        self.walk.told()
    }

    fn clear(&mut self) {
        self.walk.page.clear();
    }
}

/// Runs a page over the messages of a stream, as it is, with this ROUTE-REFRESH, or by what the first OPEN and that of the other direction agree on.
pub(crate) fn start_stream<'a, P: Page + Drop, R: Read, W: Write>(
    alloc: Global,
    turns: u32,
    theirs: Option<&'a [u8]>,
    refreshes: Refreshes,
    hex: bool,
    page: P,
    input: &mut R,
    output: &mut W,
) -> (Result<Tally, ToolFault>, Starting<'a, P>)
    requires { P.told page ≡ [] }
    ensures { Answers (ReportedFrom (starts_of P.fits P.rules P.plan refreshes (option_map (λ t. t.now) theirs.entry) page)) hex (io R.remaining input.old input.new W.contents output.old output.new) result.0 }
{
    let mut starting = Starting::new(alloc, theirs, page, refreshes);
    let answer = run(turns, hex, &mut starting, input, output);
    (answer, starting)
}
