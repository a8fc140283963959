//! Attributes of types that aren't recognised.

ghost use Rattle.std.specs.Prelude.{◌≡◌, IfOk};

use bgp_wire::{List, TryCopy};
use std::alloc::{AllocError, Global};

/// An optional attribute of a type that isn't recognised: its value is kept unchanged (RFC 4271, section 5).
#[derive(Drop, PartialEq)]
pub struct Opaque {
    /// The type.
    pub kind: u8,
    /// The Transitive bit: it is passed on.
    pub transitive: bool,
    /// The Partial bit.
    pub partial: bool,
    /// The octets of the value.
    pub value: List<u8>,
}

/// An attribute of a type that isn't recognised, borrowed.
#[derive(Clone, Copy)]
pub struct OpaqueView<'a> {
    /// The type.
    pub kind: u8,
    /// The Transitive bit.
    pub transitive: bool,
    /// The Partial bit.
    pub partial: bool,
    /// The octets of the value.
    pub value: &'a [u8],
}

impl Opaque {
    /// An equal value, with memory of its own.
    ///
    /// # Errors
    /// `AllocError` where an allocation failed.
    pub fn copy(&self, alloc: Global) -> Result<Opaque, AllocError>
        ensures { IfOk result (λ copy. copy ≡ self.now) }
    {
        let value = self.value.copy(alloc)?;
        Ok(Opaque {
            kind: self.kind,
            transitive: self.transitive,
            partial: self.partial,
            value,
        })
    }
}

impl TryCopy for Opaque {
    fn try_copy(&self, alloc: Global) -> Result<Opaque, AllocError> {
        self.copy(alloc)
    }
}

impl OpaqueView<'_> {
    ghost use Rattle.bgp_attr.specs.AttrView.{opaque_value};

    /// The value, with memory of its own.
    ///
    /// # Errors
    /// `AllocError` where an allocation failed.
    pub fn own(self, alloc: Global) -> Result<Opaque, AllocError>
        ensures { IfOk result (λ o. o ≡ opaque_value self.entry) }
    {
        let value = List::from_vec(Vec::from_slice(alloc, self.value)?);
        Ok(Opaque {
            kind: self.kind,
            transitive: self.transitive,
            partial: self.partial,
            value,
        })
    }
}
