//! The outcome of a schedule.

ghost use Rattle.std.specs.Prelude.{◌≡◌, IfOk};

use crate::side::Side;
use bgp_machine::{SendFault, State};
use bgp_update::{PathInfo, Routes, Update};
use bgp_wire::{List, TryCopy};
use std::alloc::{AllocError, Global};

/// What both sides sent and received over one connection, each in order.
#[derive(Drop, PartialEq)]
pub struct Round {
    /// The UPDATEs that were sent by A, as they were given.
    pub sent_a: List<Update>,
    /// The UPDATEs that were sent by B, as they were given.
    pub sent_b: List<Update>,
    /// What was announced to A.
    pub got_a: List<(Update, PathInfo)>,
    /// What was announced to B.
    pub got_b: List<(Update, PathInfo)>,
    /// The routes that A lost to messages that are treated as withdrawals.
    pub gone_a: List<Routes>,
    /// The routes that B lost to messages that are treated as withdrawals.
    pub gone_b: List<Routes>,
    /// The NOTIFICATIONs: the sender, the code and the subcode of each.
    pub notes: List<(Side, u8, u8)>,
}

/// The outcome of a schedule.
#[derive(Drop, PartialEq)]
pub struct Report {
    /// A round for each connection.
    pub rounds: List<Round>,
    /// The UPDATEs that weren't sent: whose, and why.
    pub refused: List<(Side, SendFault)>,
    /// The states of A and B at the end.
    pub states: (State, State),
    /// What the wire answered to each `join` and `pass`, in order.
    pub answers: List<bool>,
}

impl Round {
    /// An equal round, owned.
    ///
    /// # Errors
    /// `AllocError` where an allocation failed.
    pub fn copy(&self, alloc: Global) -> Result<Round, AllocError>
        ensures { IfOk result (λ copy. copy ≡ self.now) }
    {
        let sent_a = self.sent_a.copy(alloc)?;
        let sent_b = self.sent_b.copy(alloc)?;
        let got_a = self.got_a.copy(alloc)?;
        let got_b = self.got_b.copy(alloc)?;
        let gone_a = self.gone_a.copy(alloc)?;
        let gone_b = self.gone_b.copy(alloc)?;
        let notes = self.notes.copy(alloc)?;
        Ok(Round {
            sent_a,
            sent_b,
            got_a,
            got_b,
            gone_a,
            gone_b,
            notes,
        })
    }
}

impl TryCopy for Round {
    fn try_copy(&self, alloc: Global) -> Result<Round, AllocError> {
        self.copy(alloc)
    }
}

impl Report {
    /// An equal report, owned.
    ///
    /// # Errors
    /// `AllocError` where an allocation failed.
    pub fn copy(&self, alloc: Global) -> Result<Report, AllocError>
        ensures { IfOk result (λ copy. copy ≡ self.now) }
    {
        let rounds = self.rounds.copy(alloc)?;
        let refused = self.refused.copy(alloc)?;
        let answers = self.answers.copy(alloc)?;
        Ok(Report {
            rounds,
            refused,
            states: self.states,
            answers,
        })
    }
}
