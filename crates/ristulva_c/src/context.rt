//! What a session agreed on, in C's form.

ghost use Rattle.std.specs.Prelude.{◌≡◌};
ghost use Rattle.ristulva_c.specs.Prelude.{context_of};

use bgp_open::Context;

/// What both speakers of a session do. Each is 0 for no, and any other number for yes.
#[repr(C)]
#[derive(Clone, Copy)]
pub struct SessionContext {
    /// Both have the same AS number.
    pub internal: u8,
    /// Both offer 4-octet AS numbers (RFC 6793).
    pub as4: u8,
    /// Both offer IPv4 unicast (RFC 4760).
    pub ip4: u8,
    /// Both offer IPv6 unicast (RFC 4760).
    pub ip6: u8,
}

/// The context for the libraries' calls. No verdict depends on the Hold Time.
pub(crate) fn context_of(said: &SessionContext) -> Context
    ensures { result ≡ context_of said.now }
{
    Context {
        internal: said.internal != 0,
        as4: said.as4 != 0,
        ip4: said.ip4 != 0,
        ip6: said.ip6 != 0,
        hold: 0,
    }
}
