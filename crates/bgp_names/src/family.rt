//! Address families.

ghost use Rattle.std.specs.Prelude.{◌≡◌};
ghost use Rattle.bgp_names.specs.Families.{afi_name, safi_name};

/// The name of an address family in the registry "Address Family Numbers" of IANA: empty where it has none here.
#[tactic(auto, unfolding(crate::specs::Families::afi_name))]
pub fn afi_name(afi: u16) -> &'static str
    ensures { result.now ≡ afi_name afi }
{
    match afi {
        1 => "IPv4",
        2 => "IPv6",
        25 => "L2VPN",
        16388 => "BGP-LS",
        _ => "",
    }
}

/// The name of a subsequent address family in the registry "Subsequent Address Family Identifiers (SAFI) Parameters" of IANA: empty where it has none here.
#[tactic(auto, unfolding(crate::specs::Families::safi_name))]
pub fn safi_name(safi: u8) -> &'static str
    ensures { result.now ≡ safi_name safi }
{
    match safi {
        1 => "unicast",
        2 => "multicast",
        4 => "MPLS labels",
        5 => "MCAST-VPN",
        65 => "VPLS",
        70 => "EVPN",
        71 => "BGP-LS",
        72 => "BGP-LS-VPN",
        73 => "SR Policy",
        128 => "MPLS-labeled VPN",
        129 => "multicast VPN",
        132 => "Route Target constraints",
        133 => "Flow Specification",
        134 => "Flow Specification VPN",
        _ => "",
    }
}
