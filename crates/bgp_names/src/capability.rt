//! OPENs: capabilities and optional parameters.

ghost use Rattle.std.specs.Prelude.{◌≡◌};
ghost use Rattle.bgp_names.specs.Capabilities.{capability_name, parameter_name};

/// The name of a capability in the registry "Capability Codes" of IANA: empty where it has none here.
#[tactic(auto, unfolding(crate::specs::Capabilities::capability_name))]
pub fn capability_name(code: u8) -> &'static str
    ensures { result.now ≡ capability_name code }
{
    match code {
        1 => "Multiprotocol Extensions for BGP-4",
        2 => "Route Refresh Capability for BGP-4",
        3 => "Outbound Route Filtering Capability",
        5 => "Extended Next Hop Encoding",
        6 => "BGP Extended Message",
        7 => "BGPsec Capability",
        8 => "Multiple Labels Capability",
        9 => "BGP Role",
        64 => "Graceful Restart Capability",
        65 => "Support for 4-octet AS number capability",
        67 => "Support for Dynamic Capability (capability specific)",
        68 => "Multisession BGP Capability",
        69 => "ADD-PATH Capability",
        70 => "Enhanced Route Refresh Capability",
        71 => "Long-Lived Graceful Restart (LLGR) Capability",
        72 => "Routing Policy Distribution",
        73 => "FQDN Capability",
        75 => "Software Version Capability",
        76 => "PATHS-LIMIT Capability",
        128 => "Prestandard Route Refresh (deprecated)",
        _ => "",
    }
}

/// The name of a type of optional parameter of an OPEN in the registry "BGP OPEN Optional Parameter Types" of IANA: empty where it has none here.
#[tactic(auto, unfolding(crate::specs::Capabilities::parameter_name))]
pub fn parameter_name(kind: u8) -> &'static str
    ensures { result.now ≡ parameter_name kind }
{
    match kind {
        1 => "Authentication (deprecated)",
        2 => "Capabilities",
        255 => "Extended Length",
        _ => "",
    }
}
