//! What processes a stream between a reader and a writer.

ghost use Rattle.std.specs.Prelude.{ℕ, List, Bool, ◌≡◌, ◌+◌, ◌≤◌, [], length, IfOk, OnOk, OnErr};
ghost use Rattle.bgp_engine.specs.Report.{Report};
ghost use Rattle.bgp_engine.specs.steps.Engine.{Takes, IsTotal, Closes};

use crate::fault::ToolFault;
use crate::tally::Tally;
use std::alloc::AllocError;

/// Processes the octets of a stream block by block, and collects what is written for them.
pub(crate) trait Engine {
    ghost use Rattle.std.specs.Prelude.{ℕ, List};
    ghost use Rattle.bgp_engine.specs.Report.{Report};

    /// Its state in its stream.
    ghost State: { Type 0 };

    ghost state: { Self → State };
    /// What isn't written yet.
    ghost told: { Self → List ℕ };
    /// The report of the rest of the stream.
    ghost reports: { State → List ℕ → Report → Type 0 };
    /// The stream isn't over.
    ghost going: { State → Type 0 };
    /// It can be closed.
    ghost ready: { State → Type 0 };
    /// How many more octets can be counted.
    ghost room: { State → ℕ };

    /// Processes the next octets of the stream. Answers whether it is over.
    fn take(&mut self, octets: &[u8]) -> Result<bool, AllocError>
        requires going { going (state self.old) }
        requires room { length octets.now ≤ room (state self.old) }
        ensures takes { IfOk result (λ over. Takes (reports (state self.old)) (reports (state self.new)) (going (state self.new)) (told self.old) (told self.new) octets.now over) }
        ensures ready { OnOk result (ready (state self.new)) }
        ensures room { OnOk result (room (state self.old) ≤ room (state self.new) + length octets.now) }
        ensures memory { OnErr result (IsTotal (reports (state self.old))) };

    /// Collects what is written last, and gives the answer.
    fn finish(&mut self) -> Result<Tally, ToolFault>
        requires { ready (state self.old) }
        ensures { Closes (reports (state self.old)) (told self.old) (told self.new) result };

    /// What was collected, and isn't written yet.
    fn told(&self) -> &[u8]
        ensures { result.now ≡ told self.now };

    /// Drops what was collected.
    fn clear(&mut self)
        ensures told { told self.new ≡ [] }
        ensures state { state self.new ≡ state self.old };
}
