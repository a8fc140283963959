//! Why a text isn't a script.

ghost use Rattle.std.specs.Prelude.{◌≡◌};
ghost use Rattle.bgp_script.specs.declared.script_fault.ScriptFault.TheVariants.{Memory};

use std::alloc::AllocError;

/// What is wrong with a script.
#[derive(Clone, Copy, Debug, PartialEq, Eq)]
pub enum ScriptFault {
    /// The first faulty line, counted from 1: where a speaker is missing, the line after the last.
    Line(u32),
    /// An allocation failed.
    Memory,
}

impl From<AllocError> for ScriptFault {
    ghost from_gives = { λ _ fault. fault ≡ Memory };

    fn from(_error: AllocError) -> ScriptFault {
        ScriptFault::Memory
    }
}
