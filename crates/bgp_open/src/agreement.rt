//! What two speakers agree on.

ghost use Rattle.std.specs.Prelude.{◌≡◌};
ghost use Rattle.bgp_open.specs.Prelude.{agreement, agreement_with, said_of};

use crate::config::Config;
use crate::context::Context;
use crate::fault::open_error;
use crate::message::Open;
use crate::peer::Peer;
use bgp_frame::{Notification, NotificationView};
use bgp_numbers::error;

/// Why a peer isn't accepted: the first reason in this order (RFC 4271, section 6.2).
#[derive(Clone, Copy, Debug, PartialEq, Eq)]
pub enum PeerFault {
    /// Its AS number isn't the configured one (Bad Peer AS).
    PeerAs,
    /// It is in the speaker's own AS and has the speaker's own identifier (Bad BGP Identifier; RFC 6286, section 2.2).
    Identifier,
}

impl PeerFault {
    ghost use Rattle.std.specs.Prelude.{◌≡◌};
    ghost use Rattle.bgp_frame.specs.Notification.{notification_of_view};
    ghost use Rattle.bgp_open.specs.Agreement.{peer_notification};

    /// The NOTIFICATION of the fault, of code 2 (OPEN Message Error), without data.
    pub fn notification(self) -> Notification
        ensures { result ≡ peer_notification self }
    {
        self.answer().own()
    }

    /// The fault in words.
    pub fn answer(self) -> NotificationView<'static>
        ensures { notification_of_view result ≡ peer_notification self }
    {
        match self {
            PeerFault::PeerAs => open_error(error::BAD_PEER_AS, &[]),
            PeerFault::Identifier => open_error(error::BAD_IDENTIFIER, &[]),
        }
    }
}

/// What the speaker agrees on with a peer of these OPEN parameters.
///
/// # Errors
/// The first [`PeerFault`] that applies.
pub fn agree_with(config: &Config, peer: &Peer) -> Result<Context, PeerFault>
    ensures { result ≡ agreement_with config.now (said_of peer.now) }
{
    if peer.as_number() != config.peer_as() {
        return Err(PeerFault::PeerAs);
    }
    let internal = config.local_as() == config.peer_as();
    if internal && peer.id == config.id() {
        return Err(PeerFault::Identifier);
    }
    Ok(Context {
        internal,
        as4: config.as4() && peer.as4.is_some(),
        ip4: config.ip4() && peer.ip4,
        ip6: config.ip6() && peer.ip6,
        hold: config.hold().min(peer.hold),
    })
}

/// What the speaker agrees on with a peer that sent this OPEN, without memory.
///
/// # Errors
/// The first [`PeerFault`] that applies.
pub fn agree(config: &Config, peer: &Open) -> Result<Context, PeerFault>
    ensures { result ≡ agreement config.now peer.now }
{
    agree_with(config, &peer.peer())
}
