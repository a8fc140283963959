//! Whether copies equal their sources.

use bgp_attr::Judged;
use bgp_msg::Seen;
use bgp_update::Update;
use std::alloc::{AllocError, Global};

/// The line for a value that doesn't equal its copy.
pub const OTHERWISE: &str = "otherwise as a copy:\n";

/// Whether a judgement equals its copy.
pub fn is_judged_copied(alloc: Global, judged: &Judged) -> Result<bool, AllocError> {
    Ok(judged.copy(alloc)? == *judged)
}

/// Whether an UPDATE equals its copy.
pub fn is_update_copied(alloc: Global, update: &Update) -> Result<bool, AllocError> {
    Ok(update.copy(alloc)? == *update)
}

/// Whether the outcomes of a stream equal their copy.
pub fn is_seen_copied(alloc: Global, seen: &Seen) -> Result<bool, AllocError> {
    Ok(seen.copy(alloc)? == *seen)
}
