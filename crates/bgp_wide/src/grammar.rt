//! The types of message that are read by the terms of a session.

ghost use Rattle.std.specs.Prelude.{◌≡◌};
ghost use Rattle.bgp_frame.specs.Prelude.{ShowsFrontIn};
ghost use Rattle.bgp_terms.specs.Prelude.{wide_terms};
ghost use Rattle.bgp_wide.specs.Outcome.{grammar_of, is_offered, types_in};

use bgp_frame::{Step, WideGrammar, WideKind, front_of};
use bgp_terms::{Refreshes, WideTerms};

/// Whether the reader offers ROUTE-REFRESH.
fn is_offered(refreshes: Refreshes) -> bool
    ensures { result ≡ is_offered refreshes }
{
    match refreshes {
        Refreshes::None => false,
        Refreshes::Plain | Refreshes::Enhanced => true,
    }
}

/// The types of message that a reader accepts, of at most 4096 octets: those of RFC 4271, and ROUTE-REFRESH where it offers that.
pub fn grammar_of(refreshes: Refreshes) -> WideGrammar
    ensures { result ≡ grammar_of refreshes }
{
    WideGrammar {
        refresh: is_offered(refreshes),
        long: false,
    }
}

/// What a piece of a stream begins with, by these terms (RFC 4271, sections 4.1 and 6.1; RFC 2918). Octets after a whole message, or after a header
/// with a fault, have no effect.
pub fn front_in<'a>(terms: &WideTerms, piece: &'a [u8]) -> Step<'a, WideKind>
    ensures { ShowsFrontIn (types_in (wide_terms terms.now)) piece.entry.now result }
{
    front_of(grammar_of(terms.refresh), piece)
}
