//! UPDATEs whose routes have path identifiers (RFC 7911).

ghost use Rattle.std.specs.Prelude.{◌≡◌, []};
ghost use Rattle.bgp_paths.specs.Prelude.{numbers4, numbers6, path_numbers};
ghost use Rattle.bgp_engine.specs.Identified.{is_identified, is_update, no_paths, used_numbers};

use bgp_frame::Kind;
use bgp_paths::{PathFamilies, PathRun, PathRuns};

/// Routes of no family have path identifiers.
pub(crate) fn no_paths() -> PathFamilies
    ensures { result ≡ no_paths }
{
    PathFamilies {
        ip4: false,
        ip6: false,
    }
}

fn is_update(kind: Kind) -> bool
    ensures { result ≡ is_update kind }
{
    match kind {
        Kind::Update => true,
        Kind::Open | Kind::Notification | Kind::Keepalive => false,
    }
}

/// Whether some routes have path identifiers, and a message of this type is an UPDATE.
pub(crate) fn is_identified(families: PathFamilies, kind: Kind) -> bool
    ensures { result ≡ is_identified families kind }
{
    (families.ip4 || families.ip6) && is_update(kind)
}

/// Those of an attribute but for IPv4.
fn without_ip4(run: PathRun<'_>) -> PathRun<'_>
    ensures ip4 { numbers4 result ≡ [] }
    ensures ip6 { numbers6 result ≡ numbers6 run.entry }
{
    match run {
        PathRun::Ip6(octets) => PathRun::Ip6(octets),
        PathRun::Empty | PathRun::Ip4(_) => PathRun::Empty,
    }
}

/// The routes with path identifiers that are in use: those of IPv4 in attributes where `ip4` is set.
pub(crate) fn used_runs(ip4: bool, runs: PathRuns<'_>) -> PathRuns<'_>
    ensures { path_numbers result ≡ used_numbers ip4 (path_numbers runs.entry) }
{
    if ip4 {
        return runs;
    }
    PathRuns {
        unreached: without_ip4(runs.unreached),
        reached: without_ip4(runs.reached),
        ..runs
    }
}
