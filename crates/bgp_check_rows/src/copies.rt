//! Whether copies equal their sources.

use bgp_session::{Action, Move, Report};
use std::alloc::{AllocError, Global};

/// Whether an action equals its copy.
pub(crate) fn is_action_copied(alloc: Global, action: &Action) -> Result<bool, AllocError> {
    Ok(action.copy(alloc)? == *action)
}

/// Whether a move equals its copy.
fn is_move_copied(alloc: Global, one: &Move) -> Result<bool, AllocError> {
    Ok(one.copy(alloc)? == *one)
}

/// Whether each move equals its copy.
pub(crate) fn are_moves_copied(alloc: Global, moves: &[Move]) -> Result<bool, AllocError> {
    for one in moves {
        if !is_move_copied(alloc, one)? {
            return Ok(false);
        }
    }
    Ok(true)
}

/// Whether a report equals its copy.
pub(crate) fn is_report_copied(alloc: Global, report: &Report) -> Result<bool, AllocError> {
    Ok(report.copy(alloc)? == *report)
}
