//! The settings of a speaker.

use crate::field::{is_short_hold, is_wide, is_zero_id};
use std::marker::Model;

/// Why a configuration is refused: the first reason in this order.
#[derive(Clone, Copy, Debug, PartialEq, Eq)]
pub enum BadConfig {
    /// The speaker's own AS number is 0 (RFC 7607).
    LocalAs,
    /// The peer's AS number is 0 (RFC 7607).
    PeerAs,
    /// The BGP Identifier is zero (RFC 6286, section 2.1).
    Identifier,
    /// The Hold Time is 1 or 2 seconds (RFC 4271, section 4.2).
    Hold,
    /// The speaker's own AS number is above 65535, and AS numbers of four octets aren't offered (RFC 6793, section 4.1).
    AsWidth,
}

/// The settings of a speaker by names: a [`Config`] is one of these that was accepted.
#[derive(Clone, Copy, Debug, PartialEq, Eq)]
pub struct Speaker {
    /// Its own AS number.
    pub local_as: u32,
    /// The AS number that the peer must have.
    pub peer_as: u32,
    /// Its BGP Identifier.
    pub id: [u8; 4],
    /// The Hold Time that it proposes, in seconds: 0 for none.
    pub hold: u16,
    /// Whether it offers AS numbers of four octets (RFC 6793).
    pub as4: bool,
    /// Whether it offers IPv4 unicast (RFC 4760, section 8).
    pub ip4: bool,
    /// Whether it offers IPv6 unicast (RFC 4760, section 8).
    pub ip6: bool,
}

/// The settings of one speaker of a session.
#[derive(Clone, Copy, Debug, PartialEq, Eq)]
pub struct Config {
    local_as: u32,
    peer_as: u32,
    id: [u8; 4],
    hold: u16,
    as4: bool,
    ip4: bool,
    ip6: bool,
}

impl Model for Config {
    ghost use Rattle.bgp_open.specs.Config.{Settings, IsAllowed};

    ghost Value = { Settings };

    ghost view = { λ c. record { local_as = c.local_as; peer_as = c.peer_as; id = c.id; hold = c.hold; as4 = c.as4; ip4 = c.ip4; ip6 = c.ip6 } };

    ghost invariant = { λ c. IsAllowed (record { local_as = c.local_as; peer_as = c.peer_as; id = c.id; hold = c.hold; as4 = c.as4; ip4 = c.ip4; ip6 = c.ip6 }) };

    ghost inverse = { λ s. record { local_as = s.local_as; peer_as = s.peer_as; id = s.id; hold = s.hold; as4 = s.as4; ip4 = s.ip4; ip6 = s.ip6 } };
}

impl Config {
    ghost use Rattle.std.specs.Prelude.{◌≡◌, length};
    ghost use Rattle.bgp_open.specs.Config.{IsAllowed, config_of};

    /// A speaker with these AS numbers, its own and its peer's, this BGP Identifier and Hold Time in seconds, which offers
    /// AS numbers of four octets, IPv4 unicast and IPv6 unicast where `as4`, `ip4` and `ip6` are set.
    ///
    /// # Errors
    /// The first [`BadConfig`] that applies.
    pub fn new(
        local_as: u32,
        peer_as: u32,
        id: [u8; 4],
        hold: u16,
        as4: bool,
        ip4: bool,
        ip6: bool,
    ) -> Result<Config, BadConfig>
        ensures { result ≡ config_of (record { local_as = local_as; peer_as = peer_as; id = id; hold = hold; as4 = as4; ip4 = ip4; ip6 = ip6 }) }
    {
        if local_as == 0 {
            return Err(BadConfig::LocalAs);
        }
        if peer_as == 0 {
            return Err(BadConfig::PeerAs);
        }
        if is_zero_id(id) {
            return Err(BadConfig::Identifier);
        }
        if is_short_hold(hold) {
            return Err(BadConfig::Hold);
        }
        if is_wide(local_as) && !as4 {
            return Err(BadConfig::AsWidth);
        }
        Ok(Config {
            local_as,
            peer_as,
            id,
            hold,
            as4,
            ip4,
            ip6,
        })
    }

    /// As [`new`](Config::new), from named values.
    ///
    /// # Errors
    /// The first [`BadConfig`] that applies.
    pub fn of(speaker: Speaker) -> Result<Config, BadConfig>
        ensures { result ≡ config_of (record { local_as = speaker.local_as; peer_as = speaker.peer_as; id = speaker.id; hold = speaker.hold; as4 = speaker.as4; ip4 = speaker.ip4; ip6 = speaker.ip6 }) }
    {
        Config::new(
            speaker.local_as,
            speaker.peer_as,
            speaker.id,
            speaker.hold,
            speaker.as4,
            speaker.ip4,
            speaker.ip6,
        )
    }

    /// The speaker's own AS number.
    pub fn local_as(&self) -> u32
        ensures value { result ≡ self.now.local_as }
        ensures allowed { IsAllowed self.now }
    {
        self.local_as
    }

    /// The AS number that the peer must have.
    pub fn peer_as(&self) -> u32
        ensures { result ≡ self.now.peer_as }
    {
        self.peer_as
    }

    /// The speaker's BGP Identifier.
    pub fn id(&self) -> [u8; 4]
        ensures value { result ≡ self.now.id }
        ensures four { length result ≡ 4 }
    {
        self.id
    }

    /// The Hold Time that the speaker proposes, in seconds: 0 for none.
    pub fn hold(&self) -> u16
        ensures { result ≡ self.now.hold }
    {
        self.hold
    }

    /// Whether AS numbers of four octets are offered.
    pub fn as4(&self) -> bool
        ensures { result ≡ self.now.as4 }
    {
        self.as4
    }

    /// Whether IPv4 unicast is offered.
    pub fn ip4(&self) -> bool
        ensures { result ≡ self.now.ip4 }
    {
        self.ip4
    }

    /// Whether IPv6 unicast is offered.
    pub fn ip6(&self) -> bool
        ensures { result ≡ self.now.ip6 }
    {
        self.ip6
    }
}
