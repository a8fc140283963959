//! The two speakers of a script.

ghost use Rattle.std.specs.Prelude.{◌≡◌};
ghost use Rattle.bgp_script.specs.Move.{context_of, speaker_at};

use bgp_open::{Config, Context};
use bgp_session::Side;

/// Both speakers.
#[derive(Clone, Copy)]
pub(crate) struct Speakers {
    pub(crate) a: Config,
    pub(crate) b: Config,
}

impl Speakers {
    /// The speaker of a side.
    pub(crate) fn at(&self, side: Side) -> &Config
        ensures { result.now ≡ speaker_at self.now side }
    {
        match side {
            Side::A => &self.a,
            Side::B => &self.b,
        }
    }
}

/// The context in which UPDATEs of a speaker are read.
pub(crate) fn context_of(speaker: &Config) -> Context
    ensures { result ≡ context_of speaker.now }
{
    Context {
        internal: speaker.local_as() == speaker.peer_as(),
        as4: true,
        ip4: true,
        ip6: true,
        hold: 0,
    }
}
