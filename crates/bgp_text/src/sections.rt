//! The sections of the RFCs by which messages are judged.

ghost use Rattle.std.specs.Prelude.{◌≡◌};
ghost use Rattle.bgp_text.specs.Sections.{cause_section, note_section, value_section};

use bgp_attr::Why;
use bgp_fields::Cause;

/// The section by which the value of an attribute type is judged.
#[tactic(auto, unfolding(crate::specs::Sections::value_section))]
fn value_section(kind: u8) -> &'static str
    ensures { result.now ≡ value_section kind }
{
    match kind {
        1 => "RFC 7606, section 7.1",
        2 => "RFC 7606, section 7.2",
        3 => "RFC 7606, section 7.3",
        4 => "RFC 7606, section 7.4",
        5 => "RFC 7606, section 7.5",
        6 => "RFC 7606, section 7.6",
        7 => "RFC 7606, section 7.7",
        8 => "RFC 7606, section 7.8",
        17 => "RFC 6793, section 6",
        18 => "RFC 6793, section 6",
        32 => "RFC 8092, section 6",
        _ => "",
    }
}

/// The section of an RFC by which an attribute of a type is discarded, or its message treated as a withdrawal, for a reason.
#[tactic(auto, unfolding(crate::specs::Sections::note_section))]
pub fn note_section(kind: u8, why: Why) -> &'static str
    ensures { result.now ≡ note_section kind why }
{
    match why {
        Why::Flags => "RFC 7606, section 3, item c",
        Why::Missing => "RFC 7606, section 3, item d",
        Why::Repeated => "RFC 7606, section 3, item g",
        Why::Cut => "RFC 7606, section 4",
        Why::AsZero => "RFC 7607, section 2",
        Why::FourOctet => "RFC 6793, section 4.1",
        Why::Family => "RFC 4760, section 8",
        Why::Unneeded => "RFC 4760, section 3",
        _ => value_section(kind),
    }
}

/// The section of an RFC by which a message causes a NOTIFICATION, or that this is a rule of our own.
#[tactic(auto, unfolding(crate::specs::Sections::cause_section))]
pub fn cause_section(cause: Cause) -> &'static str
    ensures { result.now ≡ cause_section cause }
{
    match cause {
        Cause::Header => "RFC 4271, section 6.1",
        Cause::Open => "RFC 4271, section 6.2",
        Cause::Lengths => "RFC 4271, section 6.3",
        Cause::Prefix => "RFC 4271, section 6.3",
        Cause::WellKnown => "RFC 4271, section 6.3",
        Cause::SecondRoutes => "RFC 7606, section 3, item g",
        Cause::CutRoutes => "own rule",
        Cause::RouteFlags => "own rule",
        Cause::RouteLength => "RFC 7606, section 5.3",
        Cause::NextHop => "RFC 7606, section 7.11",
        Cause::RoutePrefix => "RFC 7606, section 5.3",
        Cause::NothingAnnounced => "RFC 7606, section 5.2",
    }
}
