//! Copies whose allocation may fail.

ghost use Rattle.std.specs.Prelude.{◌≡◌, IfOk};

use std::alloc::{AllocError, Global};

/// A value that copies into memory of its own.
pub trait TryCopy: Sized {
    /// An equal value.
    ///
    /// # Errors
    /// `AllocError` where an allocation failed.
    fn try_copy(&self, alloc: Global) -> Result<Self, AllocError>
        ensures { IfOk result (λ copy. copy ≡ self.now) };
}

impl TryCopy for u8 {
    fn try_copy(&self, _alloc: Global) -> Result<u8, AllocError> {
        Ok(*self)
    }
}

impl TryCopy for u32 {
    fn try_copy(&self, _alloc: Global) -> Result<u32, AllocError> {
        Ok(*self)
    }
}

impl<const N: usize> TryCopy for [u32; N] {
    fn try_copy(&self, _alloc: Global) -> Result<[u32; N], AllocError> {
        Ok(*self)
    }
}

impl TryCopy for u16 {
    fn try_copy(&self, _alloc: Global) -> Result<u16, AllocError> {
        Ok(*self)
    }
}

impl TryCopy for bool {
    fn try_copy(&self, _alloc: Global) -> Result<bool, AllocError> {
        Ok(*self)
    }
}

impl<A: TryCopy + Drop, B: TryCopy + Drop> TryCopy for (A, B) {
    fn try_copy(&self, alloc: Global) -> Result<(A, B), AllocError> {
        let first = self.0.try_copy(alloc)?;
        let second = self.1.try_copy(alloc)?;
        Ok((first, second))
    }
}

impl<A: TryCopy + Drop, B: TryCopy + Drop, C: TryCopy + Drop> TryCopy for (A, B, C) {
    fn try_copy(&self, alloc: Global) -> Result<(A, B, C), AllocError> {
        let first = self.0.try_copy(alloc)?;
        let second = self.1.try_copy(alloc)?;
        let third = self.2.try_copy(alloc)?;
        Ok((first, second, third))
    }
}
