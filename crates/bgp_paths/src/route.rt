//! Prefixes with path identifiers.

ghost use Rattle.std.specs.Prelude.{◌≡◌, option_map};
ghost use Rattle.bgp_paths.specs.Route.{one_path_prefix, path_prefix_value};

use bgp_prefix::{Prefix, first_prefix};

/// A prefix, and the path identifier before it (RFC 7911, section 3).
#[derive(Clone, Copy, PartialEq, Eq)]
pub struct PathPrefix<const W: usize> {
    /// The path identifier: any number.
    pub path: u32,
    /// The prefix.
    pub prefix: Prefix<W>,
}

/// The first prefix of octets with its path identifier, and what follows it (RFC 7911, section 3). None where fewer than four octets are
/// left, or no prefix follows these.
#[tactic(auto, unfolding(crate::specs::Route::one_path_prefix))]
#[inline(always)]
pub fn first_path_prefix<const W: usize>(octets: &[u8]) -> Option<(PathPrefix<W>, &[u8])>
    ensures { option_map (λ x. (path_prefix_value x.0, x.1.now)) result ≡ one_path_prefix W octets.now }
{
    let [a, b, c, d, behind @ ..] = octets else {
        return None;
    };
    let path = u32::from_be_bytes([*a, *b, *c, *d]);
    match first_prefix::<W>(behind) {
        None => None,
        Some((prefix, after)) => Some((PathPrefix { path, prefix }, after)),
    }
}
