//! The lines of COMMUNITIES and LARGE_COMMUNITY.

ghost use Rattle.std.specs.Prelude.{◌≡◌, ◌++◌, OnOk};
ghost use Rattle.bgp_text.specs.Below.{string_bytes, triples_left, communities_left};
ghost use Rattle.bgp_text.specs.CommunityLines.{communities_line, community_name, large_line};

use crate::short::{Short, put_row};
use crate::word::Word;
use bgp_attr::{CommIter, LargeCommIter};
use std::alloc::AllocError;

/// A community: after a space its upper and its lower 16 bits.
impl Short for u32 {
    ghost use Rattle.bgp_text.specs.CommunityLines.{community_text};

    ghost text = { community_text };

    ghost most = { 22 };

    #[inline(always)]
    fn put(self, word: &mut Word) {
        word.marked(b':', self % 65536);
        word.marked(b' ', self / 65536);
    }
}

/// A large community: after a space its three numbers.
impl Short for [u32; 3] {
    ghost use Rattle.bgp_text.specs.CommunityLines.{large_text};

    ghost text = { large_text };

    ghost most = { 33 };

    fn put(self, word: &mut Word) {
        let [global, first, second] = self;
        word.marked(b':', second);
        word.marked(b':', first);
        word.marked(b' ', global);
    }
}

/// Adds the line of communities.
pub(crate) fn put_communities(
    text: &mut String,
    communities: CommIter<'_>,
) -> Result<(), AllocError>
    ensures { OnOk result (string_bytes text.new ≡ string_bytes text.old ++ communities_line (communities_left communities.entry)) }
{
    text.push_str("  communities")?;
    put_row(text, communities)?;
    text.push_str("\n")
}

/// Adds the line of large communities.
pub(crate) fn put_large(text: &mut String, communities: LargeCommIter<'_>) -> Result<(), AllocError>
    ensures { OnOk result (string_bytes text.new ≡ string_bytes text.old ++ large_line (triples_left communities.entry)) }
{
    text.push_str("  large")?;
    put_row(text, communities)?;
    text.push_str("\n")
}

/// The name of a well-known community.
#[tactic(auto, unfolding(crate::specs::CommunityLines::community_name))]
pub(crate) fn community_name(community: u32) -> &'static str
    ensures { result.now ≡ community_name community }
{
    match community {
        4294901760 => "GRACEFUL_SHUTDOWN",
        4294901761 => "ACCEPT_OWN",
        4294901766 => "LLGR_STALE",
        4294901767 => "NO_LLGR",
        4294902426 => "BLACKHOLE",
        4294967041 => "NO_EXPORT",
        4294967042 => "NO_ADVERTISE",
        4294967043 => "NO_EXPORT_SUBCONFED",
        4294967044 => "NOPEER",
        _ => "",
    }
}
