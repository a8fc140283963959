//! The path identifiers of a message's routes.

ghost use Rattle.std.specs.Prelude.{◌≡◌, ◌≤◌, ◌∷◌, [], MatchOption, Some};
ghost use Rattle.bgp_paths.specs.Route.{path_prefixes};
ghost use Rattle.bgp_attr.specs.Prelude.{tlv_value};
ghost use Rattle.bgp_update.specs.Prelude.{parts_of};
ghost use Rattle.bgp_paths.specs.declared.families.Width.TheVariants as width;
ghost use Rattle.bgp_paths.specs.Numbers.{attribute_numbers, numbers4, numbers6, numbers_in, path_numbers};
ghost use Rattle.bgp_paths.specs.PathBody.{field_numbers, fields_in};
ghost use Rattle.bgp_paths.specs.Places.{first_tlv};
ghost use Rattle.bgp_paths.specs.Runs.{AreRuns, attribute_run, field_run, numbers_of, run_of_type, runs_value};

use crate::changing::head_length;
use crate::families::{PathFamilies, Width};
use crate::places::first_of_type;
use crate::plain_body::split_body;
use crate::route::first_path_prefix;
use bgp_attr::Tlv;
use bgp_numbers::attribute::{MP_REACH_NLRI, MP_UNREACH_NLRI};

/// Routes with path identifiers, or none.
#[derive(Clone, Copy)]
pub enum PathRun<'a> {
    /// None.
    Empty,
    /// Those of IPv4 that octets begin with.
    Ip4(&'a [u8]),
    /// Those of IPv6.
    Ip6(&'a [u8]),
}

/// The routes of a message with path identifiers, by their part of the message.
#[derive(Clone, Copy)]
pub struct PathRuns<'a> {
    /// Those of Withdrawn Routes.
    pub withdrawn: PathRun<'a>,
    /// Those of the first MP_UNREACH_NLRI.
    pub unreached: PathRun<'a>,
    /// Those of the first MP_REACH_NLRI.
    pub reached: PathRun<'a>,
    /// Those of Network Layer Reachability Information.
    pub nlri: PathRun<'a>,
}

/// The first path identifier of routes, and the octets of the routes after it.
fn first_path<const W: usize>(octets: &[u8]) -> Option<(u32, &[u8])>
    requires { W ≤ 16 }
    ensures { MatchOption result (numbers_of (path_prefixes W octets.entry.now) ≡ [])
        (λ x. numbers_of (path_prefixes W octets.entry.now) ≡ x.0 ∷ numbers_of (path_prefixes W x.1.now)) }
{
    match first_path_prefix::<W>(octets) {
        None => None,
        Some((route, after)) => Some((route.path, after)),
    }
}

impl<'a> PathRun<'a> {
    ghost use Rattle.std.specs.Iterator.{YieldsFirst};
    ghost use Rattle.bgp_paths.specs.Runs.{first_or_zero, later_of, numbers_left};

    /// The path identifier of the next route, which is no longer one of them.
    pub fn next_number(&mut self) -> Option<u32>
        ensures { YieldsFirst numbers_left self.old result self.new }
    {
        match self {
            PathRun::Empty => None,
            PathRun::Ip4(octets) => {
                let (path, after) = first_path::<4>(octets)?;
                *octets = after;
                Some(path)
            }
            PathRun::Ip6(octets) => {
                let (path, after) = first_path::<16>(octets)?;
                *octets = after;
                Some(path)
            }
        }
    }

    /// The path identifier of the next route, which is no longer one of them: 0 where there is none.
    pub fn step(&mut self) -> u32
        ensures number { result ≡ first_or_zero (numbers_left self.old) }
        ensures later { numbers_left self.new ≡ later_of (numbers_left self.old) }
    {
        match self.next_number() {
            None => 0,
            Some(path) => path,
        }
    }

    /// Those of IPv4.
    pub fn of_ip4(self) -> PathRun<'a>
        ensures { numbers_left result ≡ numbers4 self.entry }
    {
        match self {
            PathRun::Ip4(octets) => PathRun::Ip4(octets),
            PathRun::Empty | PathRun::Ip6(_) => PathRun::Empty,
        }
    }

    /// Those of IPv6.
    pub fn of_ip6(self) -> PathRun<'a>
        ensures { numbers_left result ≡ numbers6 self.entry }
    {
        match self {
            PathRun::Ip6(octets) => PathRun::Ip6(octets),
            PathRun::Empty | PathRun::Ip4(_) => PathRun::Empty,
        }
    }
}

/// A run of IPv4 routes outside of attributes.
fn field_run(paths: bool, octets: &[u8]) -> PathRun<'_>
    ensures { runs_value result ≡ field_run paths octets.entry.now }
{
    if paths {
        PathRun::Ip4(octets)
    } else {
        PathRun::Empty
    }
}

/// The routes of an attribute.
fn attribute_run<'a>(families: PathFamilies, tlv: &Tlv<'a>) -> PathRun<'a>
    ensures value { runs_value result ≡ attribute_run families (tlv_value tlv.now) }
    ensures ip4 { numbers4 result ≡ attribute_numbers width.Ip4 families (Some (tlv_value tlv.now)) }
    ensures ip6 { numbers6 result ≡ attribute_numbers width.Ip6 families (Some (tlv_value tlv.now)) }
{
    let Some(head) = head_length(tlv) else {
        return PathRun::Empty;
    };
    let Some((_, routes)) = tlv.value.split_at_checked(head) else {
        return PathRun::Empty;
    };
    match families.identified(tlv.value) {
        None => PathRun::Empty,
        Some(Width::Ip4) => PathRun::Ip4(routes),
        Some(Width::Ip6) => PathRun::Ip6(routes),
    }
}

/// The routes of the first attribute of a type.
fn first_run(families: PathFamilies, field: &[u8], kind: u8) -> PathRun<'_>
    ensures value { runs_value result ≡ run_of_type families field.entry.now kind }
    ensures ip4 { numbers4 result ≡ attribute_numbers width.Ip4 families (first_tlv kind field.entry.now) }
    ensures ip6 { numbers6 result ≡ attribute_numbers width.Ip6 families (first_tlv kind field.entry.now) }
{
    match first_of_type(field, kind) {
        None => PathRun::Empty,
        Some(tlv) => attribute_run(families, &tlv),
    }
}

/// The routes of the body of an UPDATE that have path identifiers, where those of these families do. Where a verdict on the body lets the session
/// continue, there is at most one MP_REACH_NLRI and one MP_UNREACH_NLRI (RFC 7606, section 3, item g).
pub fn path_runs(families: PathFamilies, body: &[u8]) -> PathRuns<'_>
    ensures runs { AreRuns families body.entry.now result }
    ensures numbers { path_numbers result ≡ numbers_in families (parts_of body.entry.now) }
    ensures fields { field_numbers result ≡ fields_in families (parts_of body.entry.now) }
{
    match split_body(body) {
        None => PathRuns {
            withdrawn: PathRun::Empty,
            unreached: PathRun::Empty,
            reached: PathRun::Empty,
            nlri: PathRun::Empty,
        },
        Some((withdrawn, attributes, nlri)) => PathRuns {
            withdrawn: field_run(families.ip4, withdrawn),
            unreached: first_run(families, attributes, MP_UNREACH_NLRI),
            reached: first_run(families, attributes, MP_REACH_NLRI),
            nlri: field_run(families.ip4, nlri),
        },
    }
}
