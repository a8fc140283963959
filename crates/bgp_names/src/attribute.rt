//! Path attributes: types, ORIGIN's values, types of segments.

ghost use Rattle.std.specs.Prelude.{◌≡◌};
ghost use Rattle.bgp_names.specs.Attributes.{attribute_name, origin_name, segment_name};

/// The name of a type of path attribute in the registry "BGP Path Attributes" of IANA: empty where it has none here.
#[tactic(auto, unfolding(crate::specs::Attributes::attribute_name))]
pub fn attribute_name(kind: u8) -> &'static str
    ensures { result.now ≡ attribute_name kind }
{
    match kind {
        1 => "ORIGIN",
        2 => "AS_PATH",
        3 => "NEXT_HOP",
        4 => "MULTI_EXIT_DISC",
        5 => "LOCAL_PREF",
        6 => "ATOMIC_AGGREGATE",
        7 => "AGGREGATOR",
        8 => "COMMUNITY",
        9 => "ORIGINATOR_ID",
        10 => "CLUSTER_LIST",
        14 => "MP_REACH_NLRI",
        15 => "MP_UNREACH_NLRI",
        16 => "EXTENDED COMMUNITIES",
        17 => "AS4_PATH",
        18 => "AS4_AGGREGATOR",
        22 => "PMSI_TUNNEL",
        23 => "Tunnel Encapsulation",
        25 => "IPv6 Address Specific Extended Community",
        26 => "AIGP",
        29 => "BGP-LS Attribute",
        32 => "LARGE_COMMUNITY",
        33 => "BGPsec_Path",
        35 => "Only to Customer (OTC)",
        36 => "BGP Domain Path (D-PATH)",
        40 => "BGP Prefix-SID",
        128 => "ATTR_SET",
        _ => "",
    }
}

/// The name of a value of ORIGIN (RFC 4271, section 5.1.1): empty where it has none here.
#[tactic(auto, unfolding(crate::specs::Attributes::origin_name))]
pub fn origin_name(value: u8) -> &'static str
    ensures { result.now ≡ origin_name value }
{
    match value {
        0 => "IGP",
        1 => "EGP",
        2 => "INCOMPLETE",
        _ => "",
    }
}

/// The name of a type of AS_PATH segment in the registry "BGP AS_PATH Segment Types" of IANA: empty where it has none here.
#[tactic(auto, unfolding(crate::specs::Attributes::segment_name))]
pub fn segment_name(kind: u8) -> &'static str
    ensures { result.now ≡ segment_name kind }
{
    match kind {
        1 => "AS_SET",
        2 => "AS_SEQUENCE",
        3 => "AS_CONFED_SEQUENCE",
        4 => "AS_CONFED_SET",
        _ => "",
    }
}
