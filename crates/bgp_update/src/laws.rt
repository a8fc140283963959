//! Laws over the definitions alone: these functions do nothing, and their contracts are what is proved.

ghost use Rattle.std.specs.Prelude.{◌≡◌, ◌==◌, ◌≤◌, ℕ, Bool, true, false, List, [], ◌∷◌, ◌++◌, length, Some, None};
ghost use Rattle.std.specs.List.{find};
ghost use Rattle.bgp_wire.specs.Prelude.{AreOctets};
ghost use Rattle.bgp_open.specs.declared.context.Context.{Context};
ghost use Rattle.bgp_attr.specs.Prelude.{PlacedTlv, type_of};
ghost use Rattle.bgp_update.specs.declared.attrs.Attrs.{Attrs};
ghost use Rattle.bgp_update.specs.declared.note.Note.{Note};
ghost use Rattle.bgp_update.specs.declared.update.Update.{Update};
ghost use Rattle.bgp_update.specs.declared.verdict.Verdict.TheVariants.{Take};
ghost use Rattle.bgp_update.specs.Prelude.{Parts, IsBody, parts_of, cut, marks_of, placed_tlvs, kept_of, attrs_of, present, slot, verdict_of, written_body, invalid_of, rise, HasUpdateRanges, CanBeWritten, IsRepeated, HasMarkBehind, HasNoAs4, narrowed, narrowed_update, rebuilt, with_as4};

/// What is sent to a 2-octet-AS peer gives back the path and the aggregator.
pub fn narrowed_paths_are_rebuilt()
    ensures { (a : Attrs) → HasNoAs4 a
        → rebuilt (narrowed a) ≡ record { path = a.as_path; aggregator = a.aggregator } }
{}

/// A body splits into its parts in exactly one way, which is what the reader finds.
pub fn bodies_split_in_one_way()
    ensures found { (body : List ℕ) (p : Parts)
        → AreOctets body → parts_of body ≡ Some p → IsBody p body }
    ensures only { (body : List ℕ) (p : Parts) → IsBody p body → parts_of body ≡ Some p }
{}

/// A valid UPDATE that is written, in no more octets than a message can have, is accepted unchanged.
pub fn a_valid_update_is_taken_as_itself()
    ensures { (ctx : Context) (u : Update)
        → HasUpdateRanges u → invalid_of ctx u ≡ None → length (written_body ctx u) ≤ 4077
        → verdict_of ctx (written_body ctx u) ≡ Take u [] }
{}

/// An accepted UPDATE can be written where it was read, in no more octets.
pub fn a_taken_update_can_be_written()
    ensures { (ctx : Context) (body : List ℕ) (u : Update) (notes : List Note)
        → AreOctets body → verdict_of ctx body ≡ Take u notes → CanBeWritten ctx u body }
{}

/// A valid UPDATE of a session with AS numbers of four octets has neither AS4_PATH nor AS4_AGGREGATOR.
pub fn an_update_with_four_octets_has_no_as4()
    ensures { (ctx : Context) (u : Update)
        → ctx.as4 ≡ true → invalid_of ctx u ≡ None → HasNoAs4 u.attrs }
{}

/// What is sent of a valid UPDATE to a 2-octet-AS peer is valid in the same session with AS numbers of two octets.
pub fn a_narrowed_update_is_valid()
    ensures { (ctx : Context) (u : Update)
        → ctx.as4 ≡ true → invalid_of ctx u ≡ None
        → invalid_of (with_as4 false ctx) (narrowed_update u) ≡ None }
{}

/// The attributes of an accepted message have for each type the first that was kept of it, and none where none was;
/// those of types that aren't recognised are ascending by type.
pub fn each_slot_holds_the_first_of_its_type()
    ensures slots { (ctx : Context) (p : Parts) (kind : ℕ)
        → AreOctets p.attributes
        → slot (attrs_of (kept_of (marks_of ctx p))) kind
        ≡ present (λ a. a) (find (λ a. type_of a == kind) (kept_of (marks_of ctx p))) }
    ensures others { (ctx : Context) (p : Parts)
        → AreOctets p.attributes → rise (attrs_of (kept_of (marks_of ctx p))).others ≡ true }
{}

/// A whole attribute is discarded as a repeated one exactly where a whole one of its type precedes it, and its type is neither MP_REACH_NLRI nor
/// MP_UNREACH_NLRI: the session is reset for a second one of these, by 3/1. One that is cut off is never a repeated one (RFC 7606, section 3, item g).
pub fn an_attribute_is_repeated_behind_one_of_its_type()
    ensures whole { (ctx : Context) (has_nlri : Bool) (field : List ℕ) (before later : List PlacedTlv) (p : PlacedTlv)
        → placed_tlvs field ≡ before ++ p ∷ later → HasMarkBehind ctx has_nlri field before p }
    ensures cut { (rest : List ℕ) → IsRepeated (cut rest) → ⊥ }
{}
