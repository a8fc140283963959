//! The line of a speaker.

ghost use Rattle.std.specs.Prelude.{◌≡◌};
ghost use Rattle.bgp_script.specs.Pieces.{words_of};
ghost use Rattle.bgp_script.specs.Speaker.{flags_of, settings_of, speaker_of};

use crate::pieces::Pieces;
use bgp_open::Config;

/// What a speaker offers.
struct Flags {
    as4: bool,
    ip4: bool,
    ip6: bool,
}

// The flags, and nothing else.
fn read_flags(words: &mut Pieces<'_>) -> Option<Flags>
    ensures { result ≡ flags_of words.old }
{
    let as4 = words.take_flag(b"as4");
    let ip4 = words.take_flag(b"ip4");
    let ip6 = words.take_flag(b"ip6");
    if words.is_done() {
        Some(Flags { as4, ip4, ip6 })
    } else {
        None
    }
}

// The settings of a speaker, in the words after its side.
#[tactic(auto, unfolding(crate::specs::Speaker::settings_of))]
fn read_settings(words: &mut Pieces<'_>) -> Option<Config>
    ensures { result ≡ settings_of words.old }
{
    let local_as = words.take_number_behind(b"as", u32::MAX)?;
    let peer_as = words.take_number_behind(b"peer", u32::MAX)?;
    let id = words.take_address_behind(b"id")?;
    let hold = words.take_number_behind(b"hold", u32::from(u16::MAX))?;
    let Flags { as4, ip4, ip6 } = read_flags(words)?;
    Config::new(local_as, peer_as, id, hold as u16, as4, ip4, ip6).ok()
}

/// The speaker of a line: None if the line is faulty.
pub(crate) fn read_speaker(side: &[u8], line: &[u8]) -> Option<Config>
    ensures { result ≡ speaker_of side.now (words_of line.now) }
{
    let mut words = Pieces::words(line);
    words.take_word(side)?;
    read_settings(&mut words)
}
