//! AS paths.

ghost use Rattle.std.specs.Prelude.{◌≡◌, IfOk};

use bgp_prefix::AsNumber;
use bgp_wire::{List, TryCopy};
use std::alloc::{AllocError, Global};

/// The type of a segment (RFC 4271, section 4.3).
#[derive(Clone, Copy, Debug, PartialEq, Eq)]
pub enum SegKind {
    /// AS_SET: in no order.
    Set = 1,
    /// AS_SEQUENCE: in the order of the path, the nearest first.
    Seq = 2,
}

/// A segment of a path (RFC 4271, section 4.3).
#[derive(Drop, PartialEq)]
pub struct Segment {
    /// Whether its numbers are in order.
    pub kind: SegKind,
    /// The AS numbers: 1 to 255 in what is read.
    pub numbers: List<AsNumber>,
}

impl Segment {
    /// An equal segment, with memory of its own.
    ///
    /// # Errors
    /// `AllocError` where an allocation failed.
    pub fn copy(&self, alloc: Global) -> Result<Segment, AllocError>
        ensures { IfOk result (λ copy. copy ≡ self.now) }
    {
        let numbers = self.numbers.copy(alloc)?;
        Ok(Segment {
            kind: self.kind,
            numbers,
        })
    }
}

impl TryCopy for Segment {
    fn try_copy(&self, alloc: Global) -> Result<Segment, AllocError> {
        self.copy(alloc)
    }
}

/// AS_PATH: the ASes that the route passed (RFC 4271, section 5.1.2).
#[derive(Drop, PartialEq)]
pub struct AsPath {
    /// The segments, the nearest first: possibly none.
    pub segments: List<Segment>,
}

impl AsPath {
    /// An equal path, with memory of its own.
    ///
    /// # Errors
    /// `AllocError` where an allocation failed.
    pub fn copy(&self, alloc: Global) -> Result<AsPath, AllocError>
        ensures { IfOk result (λ copy. copy ≡ self.now) }
    {
        let segments = self.segments.copy(alloc)?;
        Ok(AsPath { segments })
    }
}

/// AS4_PATH: the path as speakers with AS numbers of four octets built it, passed on by others (RFC 6793, section 3).
#[derive(Drop, PartialEq)]
pub struct As4Path {
    /// The Partial bit.
    pub partial: bool,
    /// The path, of at least one segment in what is read.
    pub path: AsPath,
}

impl As4Path {
    /// An equal value, with memory of its own.
    ///
    /// # Errors
    /// `AllocError` where an allocation failed.
    pub fn copy(&self, alloc: Global) -> Result<As4Path, AllocError>
        ensures { IfOk result (λ copy. copy ≡ self.now) }
    {
        let path = self.path.copy(alloc)?;
        Ok(As4Path {
            partial: self.partial,
            path,
        })
    }
}
