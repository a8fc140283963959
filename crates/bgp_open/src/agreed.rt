//! What two speakers agree on, by the OPEN parameters of both.

ghost use Rattle.std.specs.Prelude.{◌≡◌};
ghost use Rattle.bgp_open.specs.Prelude.{agreed_with, is_one_as, said_of};

use crate::context::Context;
use crate::peer::Peer;
use bgp_numbers::AS_TRANS;

/// Whether both are in one AS. Where only one speaker has AS numbers of four octets, the other knows it by its My Autonomous System
/// (RFC 6793, section 4.1).
fn is_one_as(ours: &Peer, theirs: &Peer) -> bool
    ensures { result ≡ is_one_as (said_of ours.now) (said_of theirs.now) }
{
    let same_number = ours.as_number() == theirs.as_number();
    if ours.as4.is_some() && theirs.as4.is_some() {
        same_number
    } else {
        ours.as_field == theirs.as_field && (same_number || ours.as_field != AS_TRANS)
    }
}

/// The context of a session, as both speakers find it from the two OPENs, without memory. Neither is refused: what both offer, whether they
/// are in one AS, and the smaller Hold Time.
pub fn agreed_context(ours: &Peer, theirs: &Peer) -> Context
    ensures { result ≡ agreed_with (said_of ours.now) (said_of theirs.now) }
{
    Context {
        internal: is_one_as(ours, theirs),
        as4: ours.as4.is_some() && theirs.as4.is_some(),
        ip4: ours.ip4 && theirs.ip4,
        ip6: ours.ip6 && theirs.ip6,
        hold: ours.hold.min(theirs.hold),
    }
}
