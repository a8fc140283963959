//! The text of a peer that shuts a session down (RFC 9003, section 2).

ghost use Rattle.std.specs.Prelude.{◌≡◌};
ghost use Rattle.bgp_text.specs.Shutdown.{counted_text, is_shutdown, shutdown_text};

use bgp_numbers::error;
use std::str::from_utf8;

/// The octets after their length in one octet.
fn counted_text(info: &[u8]) -> &[u8]
    ensures { result.now ≡ counted_text info.now }
{
    match info.split_first() {
        Some((len, text)) if usize::from(*len) == text.len() => text,
        _ => &[],
    }
}

/// Whether a NOTIFICATION is one by which an operator ends a session.
fn is_shutdown(code: u8, subcode: u8) -> bool
    ensures { result ≡ is_shutdown code subcode }
{
    code == error::CEASE
        && (subcode == error::ADMINISTRATIVE_SHUTDOWN || subcode == error::ADMINISTRATIVE_RESET)
}

#[tactic(auto, using(crate::proofs::Escapes::is_text, crate::proofs::Escapes::is_no_text))]
/// The text of a NOTIFICATION that shuts a session down: empty if its length is wrong or it isn't UTF-8.
pub(crate) fn shutdown_text(code: u8, subcode: u8, info: &[u8]) -> &str
    ensures { result.now ≡ shutdown_text code subcode info.now }
{
    if !is_shutdown(code, subcode) {
        return "";
    }
    match from_utf8(counted_text(info)) {
        Ok(text) => text,
        Err(_) => "",
    }
}
