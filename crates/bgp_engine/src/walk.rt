//! The messages of a stream that arrives block by block.

ghost use Rattle.std.specs.Prelude.{◌≡◌, [], ◌++◌, take};
ghost use Rattle.bgp_engine.specs.Below.{PullsIn, wide_types};
ghost use Rattle.bgp_engine.specs.Wide.{wide_rules};
ghost use Rattle.bgp_engine.specs.Rules.{IsReport};
ghost use Rattle.bgp_engine.specs.Run.{Answers, io};
ghost use Rattle.bgp_engine.specs.Tally.{no_tally};

use crate::class::Class;
use crate::engine::Engine;
use crate::fault::ToolFault;
use crate::page::Page;
use crate::refreshing::put_message;
use crate::running::run;
use crate::tally::Tally;
use bgp_frame::{End, FramerOf, Pull, WideGrammar};
use bgp_terms::Refreshes;
use bgp_wide::grammar_of;
use std::alloc::AllocError;
use std::io::{Read, Write};

/// Finds the messages of a stream, counts them and passes them to a page. A message that is whole in a block is judged
/// there.
#[derive(Drop)]
pub(crate) struct Walk<P> {
    pub(crate) page: P,
    /// Which ROUTE-REFRESH the reader accepts.
    pub(crate) refreshes: Refreshes,
    pub(crate) framer: FramerOf<WideGrammar, 4096>,
    /// The offset in the stream of the held octets.
    place: u64,
    tally: Tally,
    pub(crate) ended: Option<End>,
}

/// The octets that a look pulled: the held ones, or the first of the block where none are held.
fn pulled<'a>(framer: &'a FramerOf<WideGrammar, 4096>, octets: &'a [u8], taken: usize) -> &'a [u8]
    requires { PullsIn (wide_types framer.now.grammar) framer.now.octets octets.now taken }
    ensures { result.now ≡ framer.now.octets ++ take taken octets.now }
{
    if taken == 0 {
        framer.octets()
    } else {
        &octets[..taken]
    }
}

impl<P: Page> Walk<P> {
    ghost use Rattle.std.specs.Prelude.{◌≡◌, ◌+◌, ◌<◌, ◌≤◌, ◌^◌, [], None, Some, length, if◌then◌else◌, IfOk};
    ghost use Rattle.bgp_engine.specs.Below.{AreOctets};
    ghost use Rattle.bgp_frame.specs.declared.end.End.TheVariants as end;
    ghost use Rattle.bgp_engine.specs.declared.class.Class.TheVariants as class;
    ghost use Rattle.bgp_engine.specs.Refreshed.{grammar_of};
    ghost use Rattle.bgp_engine.specs.Rules.{counted};
    ghost use Rattle.bgp_engine.specs.Tally.{no_tally};
    ghost use Rattle.bgp_engine.specs.steps.Pages.{is_last};
    ghost use Rattle.bgp_engine.specs.steps.Walking.{Hears, IsCounting, IsFresh, IsJudged, IsReady, IsTyped, all_counts, reports_of, reset_if, walk_of};
    ghost use Rattle.bgp_engine.specs.steps.Engine.{Closes};

    /// A walk at the beginning of a stream.
    pub(crate) fn new(page: P, refreshes: Refreshes) -> Walk<P>
        ensures fresh { IsFresh (walk_of P.rules result) }
        ensures typed { IsTyped (walk_of P.rules result) }
        ensures page { result.page ≡ page }
        ensures refreshes { result.refreshes ≡ refreshes }
    {
        Walk {
            page,
            refreshes,
            framer: FramerOf::empty(grammar_of(refreshes)),
            place: 0,
            tally: Tally {
                messages: 0,
                took: 0,
                withdrawn: 0,
                resets: 0,
                end: End::Wait(0),
            },
            ended: None,
        }
    }

    /// Accepts these ROUTE-REFRESH from now on. Nothing is held then.
    pub(crate) fn accept(&mut self, refreshes: Refreshes)
        ensures { self.new ≡ record self.old { refreshes = refreshes; framer = record { grammar = grammar_of refreshes; octets = [] } } }
    {
        self.refreshes = refreshes;
        self.framer = FramerOf::empty(grammar_of(refreshes));
    }

    // Counts a message of length `len`.
    pub(crate) fn count(&mut self, len: u16, class: Class)
        requires place { self.old.place < 2 ^ 61 }
        requires counts { all_counts self.old.tally ≤ self.old.place }
        requires unended { self.old.ended ≡ None }
        requires some { 0 < len }
        ensures { self.new ≡ record self.old {
          place = self.old.place + (if is_last class then 0 else len);
          tally = counted self.old.tally len class;
          ended = reset_if (is_last class);
        } }
    {
        self.tally.messages += 1;
        match class {
            Class::Took => self.tally.took += 1,
            Class::Withdrawn => self.tally.withdrawn += 1,
            Class::Reset => {
                self.tally.resets += 1;
                self.ended = Some(End::Reset);
                return;
            }
        }
        self.place += u64::from(len);
    }

    // Counts a header's fault, after which nothing can be read.
    fn count_fault(&mut self)
        requires place { self.old.place < 2 ^ 61 }
        requires counts { all_counts self.old.tally ≤ self.old.place }
        ensures { self.new ≡ record self.old { tally = counted self.old.tally 0 class.Reset; ended = Some end.Head } }
    {
        self.tally.resets += 1;
        self.ended = Some(End::Head);
    }

    // Judges what is held, or what octets begin with where nothing is held. Answers the number of octets consumed,
    // where there was something to judge.
    pub(crate) fn judge(&mut self, octets: &[u8]) -> Result<Option<usize>, AllocError>
        requires unended { self.old.ended ≡ None }
        requires counting { IsCounting (walk_of P.rules self.old) }
        ensures { IfOk result (λ found. IsJudged
            (walk_of P.rules self.old) (walk_of P.rules self.new)
            (P.told self.old.page) (P.told self.new.page) octets.now found) }
    {
        match self.framer.look(octets) {
            Pull::Feed => Ok(None),
            Pull::Frame(taken, frame) => {
                let len = frame.len;
                let class = put_message(&mut self.page, self.refreshes, self.place, frame)?;
                self.count(len, class);
                self.framer.clear();
                Ok(Some(taken))
            }
            Pull::Fault(taken, fault) => {
                let header = pulled(&self.framer, octets, taken);
                self.page.fault(self.place, header, fault)?;
                self.count_fault();
                self.framer.clear();
                Ok(Some(taken))
            }
        }
    }

    // Consumes octets up to the end of a message, which is judged in place if it is whole there. Answers the number
    // consumed.
    fn step(&mut self, octets: &[u8]) -> Result<usize, AllocError>
        requires unended { self.old.ended ≡ None }
        requires ready { IsReady (walk_of P.rules self.old) }
        requires room { self.old.place + length self.old.framer.octets + length octets.now ≤ 2 ^ 60 }
        ensures hears { IfOk result (λ n. Hears
            (walk_of P.rules self.old) (walk_of P.rules self.new)
            (P.told self.old.page) (P.told self.new.page) octets.now n) }
        ensures octets { AreOctets octets.now }
        ensures within { IfOk result (λ n. n ≤ length octets.now) }
        ensures some { IfOk result (λ n. 0 < length octets.now → 0 < n) }
    {
        match self.judge(octets)? {
            Some(taken) => Ok(taken),
            None => {
                let taken = self.framer.feed(octets);
                self.judge(&[])?;
                Ok(taken)
            }
        }
    }

    // The answer to a stream without more octets.
    fn close(&mut self, end: End) -> Result<Tally, ToolFault>
        requires ended { self.old.ended ≡ Some end }
        requires ready { IsReady (walk_of P.rules self.old) }
        ensures { Closes (reports_of (walk_of P.rules self.old)) (P.told self.old.page) (P.told self.new.page) result }
    {
        let tally = Tally { end, ..self.tally };
        self.page.last(&tally)?;
        self.page.answer(tally, self.place)
    }

    // The answer to a stream that ends with an incomplete message.
    fn close_waiting(&mut self) -> Result<Tally, ToolFault>
        requires ended { self.old.ended ≡ None }
        requires ready { IsReady (walk_of P.rules self.old) }
        ensures { Closes (reports_of (walk_of P.rules self.old)) (P.told self.old.page) (P.told self.new.page) result }
    {
        let end = End::Wait(self.framer.held() as u16);
        let tally = Tally { end, ..self.tally };
        self.page.last(&tally)?;
        self.page.rest(self.framer.octets())?;
        self.page.answer(tally, self.place)
    }
}

impl<P: Page> Engine for Walk<P> {
    ghost use Rattle.std.specs.Prelude.{◌≡◌, ◌⊎◌, ◌+◌, ◌≤◌, [], None, length, IfOk};
    ghost use Rattle.bgp_frame.specs.declared.kind.WideKind.{WideKind};
    ghost use Rattle.bgp_engine.specs.Refreshed.{Refreshed};
    ghost use Rattle.bgp_engine.specs.steps.Walking.{Walking, IsReady, reports_of, room_of, walk_of};

    ghost State = { Walking WideKind (P.Outcome ⊎ Refreshed) };

    ghost state = { λ w. walk_of P.rules w };

    ghost told = { λ w. P.told w.page };

    ghost reports = { λ w. reports_of w };

    ghost going = { λ w. IsReady w };

    ghost ready = { λ w. IsReady w };

    ghost room = { λ w. room_of w };

    fn take(&mut self, octets: &[u8]) -> Result<bool, AllocError> {
        let mut rest = octets;
        'stream: while self.ended.is_none() {
            if rest.is_empty() {
                return Ok(false);
            }
            let taken = self.step(rest)?;
            let (_, later) = rest.split_at(taken);
            rest = later;
        }
        Ok(true)
    }

    fn finish(&mut self) -> Result<Tally, ToolFault> {
        match self.ended {
            Some(end) => self.close(end),
            None => self.close_waiting(),
        }
    }

    fn told(&self) -> &[u8] {
        self.page.told()
    }

    fn clear(&mut self) {
        self.page.clear();
    }
}

/// Runs a page over the messages of a stream, in which ROUTE-REFRESH may be a message.
pub(crate) fn walk_under<P: Page + Drop, R: Read, W: Write>(
    turns: u32,
    hex: bool,
    page: P,
    refreshes: Refreshes,
    input: &mut R,
    output: &mut W,
) -> Result<Tally, ToolFault>
    requires { P.told page ≡ [] }
    ensures { Answers (IsReport (wide_rules refreshes (P.rules page)) 0 no_tally) hex (io R.remaining input.old input.new W.contents output.old output.new) result }
{
    let mut walk = Walk::new(page, refreshes);
    run(turns, hex, &mut walk, input, output)
}

/// Runs a page over the messages of a stream: those of RFC 4271.
pub(crate) fn walk_stream<P: Page + Drop, R: Read, W: Write>(
    turns: u32,
    hex: bool,
    page: P,
    input: &mut R,
    output: &mut W,
) -> Result<Tally, ToolFault>
    requires { P.told page ≡ [] }
    ensures { Answers (IsReport (P.rules page) 0 no_tally) hex (io R.remaining input.old input.new W.contents output.old output.new) result }
{
    walk_under(turns, hex, page, Refreshes::None, input, output)
}
