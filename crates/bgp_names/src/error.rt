//! NOTIFICATIONs: codes and subcodes.

ghost use Rattle.std.specs.Prelude.{◌≡◌};
ghost use Rattle.bgp_names.specs.Errors.{error_name, header_error_name, open_error_name, update_error_name, state_error_name, cease_error_name, refresh_error_name, subcode_name};

/// The name of a code of a NOTIFICATION in the registry "BGP Error (Notification) Codes" of IANA: empty where it has none here.
#[tactic(auto, unfolding(crate::specs::Errors::error_name))]
pub fn error_name(code: u8) -> &'static str
    ensures { result.now ≡ error_name code }
{
    match code {
        1 => "Message Header Error",
        2 => "OPEN Message Error",
        3 => "UPDATE Message Error",
        4 => "Hold Timer Expired",
        5 => "Finite State Machine Error",
        6 => "Cease",
        7 => "ROUTE-REFRESH Message Error",
        8 => "Send Hold Timer Expired",
        _ => "",
    }
}

/// The name of a subcode of Message Header Error: empty where it has none here.
#[tactic(auto, unfolding(crate::specs::Errors::header_error_name))]
fn header_error_name(subcode: u8) -> &'static str
    ensures { result.now ≡ header_error_name subcode }
{
    match subcode {
        1 => "Connection Not Synchronized",
        2 => "Bad Message Length",
        3 => "Bad Message Type",
        _ => "",
    }
}

/// The name of a subcode of OPEN Message Error: empty where it has none here.
#[tactic(auto, unfolding(crate::specs::Errors::open_error_name))]
fn open_error_name(subcode: u8) -> &'static str
    ensures { result.now ≡ open_error_name subcode }
{
    match subcode {
        1 => "Unsupported Version Number",
        2 => "Bad Peer AS",
        3 => "Bad BGP Identifier",
        4 => "Unsupported Optional Parameter",
        6 => "Unacceptable Hold Time",
        7 => "Unsupported Capability",
        11 => "Role Mismatch",
        _ => "",
    }
}

/// The name of a subcode of UPDATE Message Error: empty where it has none here.
#[tactic(auto, unfolding(crate::specs::Errors::update_error_name))]
fn update_error_name(subcode: u8) -> &'static str
    ensures { result.now ≡ update_error_name subcode }
{
    match subcode {
        1 => "Malformed Attribute List",
        2 => "Unrecognized Well-known Attribute",
        3 => "Missing Well-known Attribute",
        4 => "Attribute Flags Error",
        5 => "Attribute Length Error",
        6 => "Invalid ORIGIN Attribute",
        8 => "Invalid NEXT_HOP Attribute",
        9 => "Optional Attribute Error",
        10 => "Invalid Network Field",
        11 => "Malformed AS_PATH",
        _ => "",
    }
}

/// The name of a subcode of Finite State Machine Error: empty where it has none here.
#[tactic(auto, unfolding(crate::specs::Errors::state_error_name))]
fn state_error_name(subcode: u8) -> &'static str
    ensures { result.now ≡ state_error_name subcode }
{
    match subcode {
        1 => "Receive Unexpected Message in OpenSent State",
        2 => "Receive Unexpected Message in OpenConfirm State",
        3 => "Receive Unexpected Message in Established State",
        _ => "",
    }
}

/// The name of a subcode of Cease: empty where it has none here.
#[tactic(auto, unfolding(crate::specs::Errors::cease_error_name))]
fn cease_error_name(subcode: u8) -> &'static str
    ensures { result.now ≡ cease_error_name subcode }
{
    match subcode {
        1 => "Maximum Number of Prefixes Reached",
        2 => "Administrative Shutdown",
        3 => "Peer De-configured",
        4 => "Administrative Reset",
        5 => "Connection Rejected",
        6 => "Other Configuration Change",
        7 => "Connection Collision Resolution",
        8 => "Out of Resources",
        9 => "Hard Reset",
        10 => "BFD Down",
        _ => "",
    }
}

/// The name of a subcode of ROUTE-REFRESH Message Error: empty where it has none here.
#[tactic(auto, unfolding(crate::specs::Errors::refresh_error_name))]
fn refresh_error_name(subcode: u8) -> &'static str
    ensures { result.now ≡ refresh_error_name subcode }
{
    match subcode {
        1 => "Invalid Message Length",
        _ => "",
    }
}

/// The name of a subcode of a NOTIFICATION, by its code (RFC 4271, section 4.5; RFC 4486; RFC 6608): empty where it has none here.
#[tactic(auto, unfolding(crate::specs::Errors::subcode_name))]
pub fn subcode_name(code: u8, subcode: u8) -> &'static str
    ensures { result.now ≡ subcode_name code subcode }
{
    match code {
        1 => header_error_name(subcode),
        2 => open_error_name(subcode),
        3 => update_error_name(subcode),
        5 => state_error_name(subcode),
        6 => cease_error_name(subcode),
        7 => refresh_error_name(subcode),
        _ => "",
    }
}
