//! Copying octets into the caller's buffer.

ghost use Rattle.std.specs.Prelude.{◌≡◌, length, nat_le};
ghost use Rattle.ristulva_c.specs.Prelude.{copied};

/// Copies octets to the beginning of a buffer, where it has room. Answers whether it had.
pub(crate) fn copy_into(octets: &[u8], buffer: &mut [u8]) -> bool
    ensures fits { result ≡ nat_le (length octets.now) (length buffer.old) }
    ensures copied { buffer.new ≡ copied octets.now buffer.old }
{
    // Most messages have nothing to be copied.
    if octets.is_empty() {
        return true;
    }
    if octets.len() > buffer.len() {
        return false;
    }
    let (front, _) = buffer.split_at_mut(octets.len());
    front.copy_from_slice(octets);
    true
}
