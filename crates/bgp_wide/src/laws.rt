//! Laws of streams by the terms of a session. Each is the contract of a function that does nothing.

ghost use Rattle.std.specs.Prelude.{◌≡◌, ◌==◌, ◌++◌, List, ℕ, false};
ghost use Rattle.std.specs.List.{flat_map};
ghost use Rattle.bgp_wire.specs.Prelude.{AreOctets, Row};
ghost use Rattle.bgp_numbers.specs.declared.message.TheConstants.{ROUTE_REFRESH};
ghost use Rattle.bgp_frame.specs.declared.end.End.{End};
ghost use Rattle.bgp_frame.specs.declared.kind.WideKind.{WideKind};
ghost use Rattle.bgp_frame.specs.Prelude.{EndsByIn, Gives, HasOneReadingIn, IsFrameIn, MessageIn, CanBeHeard, Run, all_octets, octets_of, type_field};
ghost use Rattle.bgp_msg.specs.Prelude.{stream_rules};
ghost use Rattle.bgp_terms.specs.Prelude.{Agreed};
ghost use Rattle.bgp_wide.specs.Decoder.{Decoding, fresh};
ghost use Rattle.bgp_wide.specs.Pieces.{ArePulled, AreOutcomes, by_pull};
ghost use Rattle.bgp_wide.specs.Outcome.{WideOutcome, rules_in, types_in};
ghost use Rattle.bgp_wide.specs.Without.{AreAccepted, base_outcomes, bases};

/// Each stream of octets has exactly one list of outcomes and one end, by each terms.
pub fn streams_have_one_reading()
    ensures { (terms : Agreed) (stream : List ℕ) → AreOctets stream → HasOneReadingIn (types_in terms) (rules_in terms) stream }
{}

/// However a stream is cut into pieces, what is pulled from them, call after call on each until one consumes nothing and finds nothing, is exactly the
/// outcomes of the stream in their order, up to the first reset, each with the number of octets that its header says.
pub fn pieces_have_the_outcomes_of_their_stream()
    ensures { (terms : Agreed) (runs : List Run) (outcomes : List (ℕ × WideOutcome)) (d : Decoding) → AreOctets (all_octets runs)
        → ArePulled terms runs outcomes d → AreOutcomes terms (all_octets runs) outcomes }
{}

/// A stream can be pulled in whatever pieces it arrives.
pub fn any_pieces_can_be_pulled()
    ensures { (terms : Agreed) (pieces : List (List ℕ)) → AreOctets (flat_map (λ piece. piece) pieces) → CanBeHeard (by_pull terms) (fresh terms) pieces }
{}

/// A stream without its ROUTE-REFRESH messages, each of which was accepted, has the same other outcomes, in the context of the terms, and the same end:
/// of a stream of these messages and a rest, which is no part of a ROUTE-REFRESH.
pub fn a_stream_without_its_refreshes_has_the_same_other_outcomes()
    ensures { (terms : Agreed) (messages : List (MessageIn WideKind)) (row rest : List ℕ) (outcomes : List (ℕ × WideOutcome)) (e : End)
        → Row (IsFrameIn (types_in terms)) messages row → EndsByIn (types_in terms) (rules_in terms) messages rest outcomes e
        → AreAccepted outcomes → (type_field rest == ROUTE_REFRESH) ≡ false
        → Gives (stream_rules terms.context) (flat_map octets_of (bases messages) ++ rest) (base_outcomes outcomes) e }
{}
