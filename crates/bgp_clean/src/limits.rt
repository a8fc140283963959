//! The limits of a cleaned stream: announcements beyond them are withdrawn.

/// Which announcements aren't passed on, though they are well formed: their routes are withdrawn (treat-as-withdraw).
#[derive(Clone, Copy, Debug, PartialEq, Eq)]
pub struct Limits {
    /// Those by a next hop that isn't a host address (RFC 4271, section 6.3; RFC 2545, section 3).
    pub host_next_hops: bool,
    /// Those without LOCAL_PREF (RFC 4271, section 5.1.5).
    pub local_pref: bool,
    /// Those whose AS_PATH doesn't begin with a sequence from this AS number (RFC 4271, section 6.3).
    pub first_as: Option<u32>,
    /// Those whose AS_PATH has more AS numbers.
    pub longest_path: Option<u16>,
    /// Those whose COMMUNITIES has more communities.
    pub most_communities: Option<u16>,
    /// Those whose message leaves fewer of 4096 octets free, for what the receiver adds when it passes the routes on.
    pub room: u16,
}

impl Limits {
    ghost use Rattle.std.specs.Prelude.{◌≡◌};
    ghost use Rattle.bgp_clean.specs.Limits.{no_limits};

    /// Nothing is refused.
    pub fn none() -> Limits
        ensures { result ≡ no_limits }
    {
        Limits {
            host_next_hops: false,
            local_pref: false,
            first_as: None,
            longest_path: None,
            most_communities: None,
            room: 0,
        }
    }
}
