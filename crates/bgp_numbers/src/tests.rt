use super::*;
use std::test::*;

// The values are those of the IANA registries, written down again; each registry's name is above its numbers.
#[test]
fn numbers_are_those_of_the_registries(rt: HostRuntime) {
    // The version in an OPEN (RFC 4271); Special-Purpose AS Numbers: AS_TRANS (RFC 6793).
    assert!(rt; VERSION == 4);
    assert!(rt; AS_TRANS == 23456);
    // BGP Message Types (RFC 4271, RFC 2918).
    assert!(rt;
        [
            message::OPEN,
            message::UPDATE,
            message::NOTIFICATION,
            message::KEEPALIVE,
            message::ROUTE_REFRESH
        ] == [1, 2, 3, 4, 5]
    );
    // Address Family Numbers; Subsequent Address Family Identifiers (RFC 4760).
    assert!(rt; [afi::IPV4, afi::IPV6] == [1, 2]);
    assert!(rt; safi::UNICAST == 1);
    // BGP OPEN Optional Parameter Types (RFC 5492); Capability Codes (RFC 4760, RFC 2918, RFC 8950, RFC 8654, RFC 6793, RFC 7911, RFC 7313).
    assert!(rt; parameter::CAPABILITIES == 2);
    assert!(rt;
        [
            capability::MULTIPROTOCOL,
            capability::ROUTE_REFRESH,
            capability::EXTENDED_NEXT_HOP,
            capability::EXTENDED_MESSAGE,
            capability::FOUR_OCTET_AS,
            capability::ADD_PATH,
            capability::ENHANCED_ROUTE_REFRESH
        ] == [1, 2, 5, 6, 65, 69, 70]
    );
    // BGP Error Codes; Route Refresh Error subcodes (RFC 7313).
    assert!(rt; error::ROUTE_REFRESH_MESSAGE == 7 && error::INVALID_REFRESH_LENGTH == 1);
    // BGP AS_PATH Segment Types (RFC 4271, RFC 5065).
    assert!(rt;
        [
            segment::SET,
            segment::SEQUENCE,
            segment::CONFED_SEQUENCE,
            segment::CONFED_SET
        ] == [1, 2, 3, 4]
    );
}

#[test]
fn errors_are_those_of_the_registries(rt: HostRuntime) {
    // BGP Error (Notification) Codes (RFC 4271).
    assert!(rt;
        [
            error::MESSAGE_HEADER,
            error::OPEN_MESSAGE,
            error::UPDATE_MESSAGE
        ] == [1, 2, 3]
    );
    assert!(rt;
        [
            error::HOLD_TIMER_EXPIRED,
            error::FINITE_STATE_MACHINE,
            error::CEASE
        ] == [4, 5, 6]
    );
    // Message Header Error subcodes (RFC 4271); 0 is Unspecific in each registry of subcodes.
    assert!(rt; error::UNSPECIFIC == 0);
    assert!(rt;
        [
            error::NOT_SYNCHRONIZED,
            error::BAD_MESSAGE_LENGTH,
            error::BAD_MESSAGE_TYPE
        ] == [1, 2, 3]
    );
    // OPEN Message Error subcodes (RFC 4271).
    assert!(rt;
        [
            error::UNSUPPORTED_VERSION,
            error::BAD_PEER_AS,
            error::BAD_IDENTIFIER
        ] == [1, 2, 3]
    );
    assert!(rt; [error::UNSUPPORTED_PARAMETER, error::UNACCEPTABLE_HOLD_TIME] == [4, 6]);
    // UPDATE Message Error subcodes (RFC 4271).
    assert!(rt;
        [
            error::MALFORMED_ATTRIBUTE_LIST,
            error::UNRECOGNIZED_WELL_KNOWN,
            error::OPTIONAL_ATTRIBUTE,
            error::INVALID_NETWORK_FIELD
        ] == [1, 2, 9, 10]
    );
    // BGP Finite State Machine Error Subcodes (RFC 6608).
    assert!(rt;
        [
            error::UNEXPECTED_IN_OPEN_SENT,
            error::UNEXPECTED_IN_OPEN_CONFIRM,
            error::UNEXPECTED_IN_ESTABLISHED
        ] == [1, 2, 3]
    );
    // BGP Cease NOTIFICATION message subcodes (RFC 4486).
    assert!(rt;
        [
            error::ADMINISTRATIVE_SHUTDOWN,
            error::ADMINISTRATIVE_RESET,
            error::CONNECTION_REJECTED
        ] == [2, 4, 5]
    );
}
