//! Where octets are written, one after another.

ghost use Rattle.std.specs.Prelude.{◌≡◌, ◌≤◌, ◌<◌, ◌+◌, ◌++◌, length, take, drop, OnOk, OnErr};
ghost use Rattle.std.specs.List.{insert};

use std::alloc::AllocError;

/// Octets that grow at their end: in a vector, or in a buffer of fixed size.
pub trait Output {
    ghost use Rattle.std.specs.Prelude.{ℕ, List};

    /// The octets written.
    ghost written: { Self → List ℕ };

    /// The number of octets that always have room: an error means that there would have been more.
    ghost room: { ℕ };

    /// The number of octets written.
    fn len(&self) -> usize
        ensures { result ≡ length (written self.now) };

    /// Appends octets.
    ///
    /// # Errors
    /// `AllocError` where there is no room for them; nothing has changed then.
    fn put(&mut self, octets: &[u8]) -> Result<(), AllocError>
        ensures ok { OnOk result (written self.new ≡ written self.old ++ octets.now) }
        ensures err { OnErr result (written self.new ≡ written self.old) }
        ensures full { OnErr result (room < length (written self.old) + length octets.now) };

    /// Inserts an octet in front of those from `start` on.
    ///
    /// # Errors
    /// `AllocError` where there is no room for it; nothing has changed then.
    fn insert(&mut self, start: usize, octet: u8) -> Result<(), AllocError>
        requires { start ≤ length (written self.old) }
        ensures ok { OnOk result (written self.new ≡ insert (written self.old) start octet) }
        ensures err { OnErr result (written self.new ≡ written self.old) }
        ensures full { OnErr result (room < length (written self.old) + 1) };

    /// Overwrites octets from `start` on.
    fn replace(&mut self, start: usize, octets: &[u8])
        requires { start + length octets.now ≤ length (written self.old) }
        ensures { written self.new ≡ take start (written self.old) ++ (octets.now ++ drop (start + length octets.now) (written self.old)) };

    /// Keeps the first `len` octets only.
    fn truncate(&mut self, len: usize)
        ensures { written self.new ≡ take len (written self.old) };
}

impl Output for Vec<u8> {
    ghost written = { λ v. v.items };

    ghost room = { 0 };

    #[inline(always)]
    fn len(&self) -> usize {
        Vec::len(self)
    }

    #[inline(always)]
    fn put(&mut self, octets: &[u8]) -> Result<(), AllocError> {
        self.extend_from_slice(octets)
    }

    #[inline(always)]
    fn insert(&mut self, start: usize, octet: u8) -> Result<(), AllocError> {
        Vec::insert(self, start, octet)?;
        Ok(())
    }

    #[inline(always)]
    fn replace(&mut self, start: usize, octets: &[u8]) {
        let end = start + octets.len();
        self[start..end].copy_from_slice(octets);
    }

    #[inline(always)]
    fn truncate(&mut self, len: usize) {
        Vec::truncate(self, len);
    }
}
