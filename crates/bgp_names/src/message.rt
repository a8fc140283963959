//! Types of messages.

ghost use Rattle.std.specs.Prelude.{◌≡◌};
ghost use Rattle.bgp_names.specs.Messages.{message_name};

/// The name of a type of message in the registry "BGP Message Types" of IANA: empty where it has none here.
#[tactic(auto, unfolding(crate::specs::Messages::message_name))]
pub fn message_name(kind: u8) -> &'static str
    ensures { result.now ≡ message_name kind }
{
    match kind {
        1 => "OPEN",
        2 => "UPDATE",
        3 => "NOTIFICATION",
        4 => "KEEPALIVE",
        5 => "ROUTE-REFRESH",
        _ => "",
    }
}
