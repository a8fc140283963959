//! What an engine writes of the messages of a stream.

ghost use Rattle.std.specs.Prelude.{ℕ, Bool, true, List, Option, None, Some, Ok, Err, ◌≡◌, ◌+◌, ◌≤◌, ◌++◌, [], length, IfOk, OnOk};
ghost use Rattle.bgp_engine.specs.Below.{Agreed, IsLength, Kind, message_in, refresh_header, refresh_value, wide_terms};
ghost use Rattle.bgp_engine.specs.Rules.{Rules};
ghost use Rattle.bgp_engine.specs.steps.Pages.{Plan, TakesFirst, Writes, WritesFault, IsAnswer};

use crate::class::Class;
use crate::fault::ToolFault;
use crate::tally::Tally;
use bgp_frame::{Frame, HeadFault, Notification};
use bgp_refresh::RefreshView;
use bgp_terms::WideTerms;
use std::alloc::AllocError;

/// Judges message by message, and collects what is written of each.
pub(crate) trait Page {
    ghost use Rattle.bgp_engine.specs.Below.{ℕ, Agreed, Bool, Kind, List, Option, plain};
    ghost use Rattle.std.specs.Prelude.{◌≡◌};
    ghost use Rattle.bgp_engine.specs.Rules.{Rules};
    ghost use Rattle.bgp_engine.specs.steps.Pages.{Plan};
    ghost use Rattle.bgp_engine.specs.Agree.{Fit};

    /// The outcome of a message.
    ghost Outcome: { Type 0 };

    ghost rules: { Self → Rules Outcome };
    /// What isn't written yet.
    ghost told: { Self → List ℕ };
    /// By which terms of both OPENs it can be written.
    ghost fits: { Fit };
    /// The rules by which it is written, the first message too: by what both OPENs agree on, or as it is.
    ghost plan: { Self → Option Agreed → Plan Kind Outcome };

    /// Whether it can be written of routes with path identifiers.
    fn reads_paths(&self) -> bool
        ensures { result ≡ fits.reads_paths };

    /// Sets what was agreed on for the stream, before its first message. Answers whether the page can be written so.
    fn agree(&mut self, terms: &WideTerms) -> bool
        ensures fits { result ≡ fits.suits (wide_terms terms.now) }
        ensures plan { result ≡ true → plan self.new None ≡ plan self.old (Some (wide_terms terms.now)) }
        ensures told { told self.new ≡ told self.old };

    /// Handles the first message of the stream by a separate rule, where there is one. Answers whether it did.
    fn first(&mut self, frame: Frame<'_>) -> Result<bool, AllocError>
        requires { IsLength frame.kind (19 + length frame.body.now) }
        ensures { IfOk result (λ taken. TakesFirst taken (plan self.old None) (rules self.new) (message_in frame.entry) (told self.old) (told self.new)) };

    /// Judges a whole message at an offset of the stream, and collects what is written of it.
    fn message(&mut self, place: u64, frame: Frame<'_>) -> Result<Class, AllocError>
        requires { IsLength frame.kind (19 + length frame.body.now) }
        ensures writes { IfOk result (λ class. Writes (rules self.old) (told self.old) (told self.new) place frame.entry.len (message_in frame.entry) class) }
        ensures rules { rules self.new ≡ rules self.old };

    /// Collects what is written of a header's fault, of its 19 octets.
    fn fault(&mut self, place: u64, header: &[u8], fault: HeadFault) -> Result<(), AllocError>
        requires { length header.now ≡ 19 }
        ensures writes { OnOk result (WritesFault (rules self.old) (told self.old) (told self.new) place header.now fault) }
        ensures rules { rules self.new ≡ rules self.old };

    /// Collects what is written of a ROUTE-REFRESH of this length and with this body, at an offset of the stream.
    fn refresh(
        &mut self,
        place: u64,
        len: u16,
        body: &[u8],
        refresh: &RefreshView<'_>,
    ) -> Result<(), AllocError>
        requires size { len ≡ 19 + length body.now }
        requires short { length body.now ≤ 4077 }
        ensures writes { OnOk result (told self.new ≡ told self.old
            ++ (rules self.old).refresh place len (refresh_header (19 + length body.now) ++ body.now) (Ok (refresh_value refresh.now))) }
        ensures rules { rules self.new ≡ rules self.old };

    /// Collects what is written of one that is answered by this NOTIFICATION.
    fn refuse(
        &mut self,
        place: u64,
        len: u16,
        body: &[u8],
        why: &Notification,
    ) -> Result<(), AllocError>
        requires size { len ≡ 19 + length body.now }
        requires short { length body.now ≤ 4077 }
        ensures writes { OnOk result (told self.new ≡ told self.old
            ++ (rules self.old).refresh place len (refresh_header (19 + length body.now) ++ body.now) (Err why.now)) }
        ensures rules { rules self.new ≡ rules self.old };

    /// Collects what is written last, by the counts and the end.
    fn last(&mut self, tally: &Tally) -> Result<(), AllocError>
        ensures writes { OnOk result (told self.new ≡ told self.old ++ (rules self.old).last tally.now) }
        ensures rules { rules self.new ≡ rules self.old };

    /// Collects what is written of an incomplete message.
    fn rest(&mut self, waiting: &[u8]) -> Result<(), AllocError>
        ensures writes { OnOk result (told self.new ≡ told self.old ++ (rules self.old).rest waiting.now) }
        ensures rules { rules self.new ≡ rules self.old };

    /// The answer, by the counts and the end, and the offset after all messages that let the stream continue.
    fn answer(&self, tally: Tally, place: u64) -> Result<Tally, ToolFault>
        ensures value { result ≡ (rules self.now).answer tally place }
        ensures kind { IsAnswer result };

    /// What was collected, and isn't written yet.
    fn told(&self) -> &[u8]
        ensures { result.now ≡ told self.now };

    /// Drops what was collected.
    fn clear(&mut self)
        ensures told { told self.new ≡ [] }
        ensures rules { rules self.new ≡ rules self.old }
        ensures plan { plan self.new ≡ plan self.old };

    /// It judges messages by the types of RFC 4271.
    ghost plainly: { (page : Self) → (rules page).types ≡ plain };
}
