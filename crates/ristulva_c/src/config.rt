//! The settings of a speaker, in C's form.

ghost use Rattle.std.specs.Prelude.{◌≡◌};
ghost use Rattle.bgp_open.specs.Prelude.{config_of};
ghost use Rattle.ristulva_c.specs.Prelude.{settings_of};

use bgp_open::{BadConfig, Config, Speaker};

/// The settings of one speaker of a session.
#[repr(C)]
#[derive(Clone, Copy)]
pub struct SpeakerConfig {
    /// Its own AS number.
    pub local_as: u32,
    /// The AS number that the peer has to have.
    pub peer_as: u32,
    /// Its BGP Identifier.
    pub id: [u8; 4],
    /// The Hold Time that it proposes, in seconds: 0 for none.
    pub hold: u16,
    /// Whether it offers 4-octet AS numbers (RFC 6793): 0 for no.
    pub as4: u8,
    /// Whether it offers IPv4 unicast (RFC 4760): 0 for no.
    pub ip4: u8,
    /// Whether it offers IPv6 unicast (RFC 4760): 0 for no.
    pub ip6: u8,
}

/// The configuration for the libraries' calls, where it is allowed.
pub(crate) fn config_of(said: &SpeakerConfig) -> Result<Config, BadConfig>
    ensures { result ≡ config_of (settings_of said.now) }
{
    Config::of(Speaker {
        local_as: said.local_as,
        peer_as: said.peer_as,
        id: said.id,
        hold: said.hold,
        as4: said.as4 != 0,
        ip4: said.ip4 != 0,
        ip6: said.ip6 != 0,
    })
}
