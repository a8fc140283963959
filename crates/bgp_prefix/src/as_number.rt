//! Numbers of autonomous systems.

use bgp_wire::TryCopy;
use std::alloc::{AllocError, Global};

/// The number of an autonomous system, of four octets (RFC 6793).
#[derive(Clone, Copy, Debug, PartialEq, Eq, PartialOrd, Ord)]
pub struct AsNumber(pub u32);

/// The number in a field of two octets instead of one above 65535 (RFC 6793, section 9).
pub const AS_TRANS: AsNumber = AsNumber(bgp_numbers::AS_TRANS as u32);

impl TryCopy for AsNumber {
    fn try_copy(&self, _alloc: Global) -> Result<AsNumber, AllocError> {
        Ok(*self)
    }
}
