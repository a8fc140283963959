//! Laws over the definitions alone: these functions do nothing, and their contracts are what is proved.

ghost use Rattle.std.specs.Prelude.{◌≡◌, ℕ, ◌≤◌, false, List, length, Ok};
ghost use Rattle.bgp_wire.specs.Prelude.{IsPrefixFree, Splits, Reads, pieces};
ghost use Rattle.bgp_open.specs.declared.capability.Capability.{Capability};
ghost use Rattle.bgp_open.specs.declared.message.Open.{Open};
ghost use Rattle.bgp_open.specs.Prelude.{canonical, is_bad, HasRanges, Settings, IsAllowed, own_of, agreement, IsCapability, one_capability, IsParameter, one_parameter, open_fault, reading_of, HasValueOrFault};
ghost use Rattle.bgp_open.specs.declared.context.Context.{Context};

/// No capability is the beginning of another, and the octets of each have one meaning (RFC 5492, section 4).
pub fn capabilities_are_prefix_free()
    ensures { IsPrefixFree IsCapability }
{}

/// The reader of capabilities finds each one at the front of octets, and nothing else.
pub fn readings_are_capabilities()
    ensures { Reads IsCapability one_capability }
{}

/// No parameter is the beginning of another, and the octets of each hold one list of capabilities (RFC 4271, section 4.2).
pub fn parameters_are_prefix_free()
    ensures { IsPrefixFree IsParameter }
{}

/// The reader of parameters finds each one at the front of octets, and nothing else.
pub fn readings_are_parameters()
    ensures { Reads IsParameter one_parameter }
{}

/// Octets split into parameters and a rest that begins with none in exactly one way, which is what the reader finds.
pub fn parameters_split_in_one_way()
    ensures splits { (b : List ℕ) → Splits IsParameter b (pieces one_parameter b).0 (pieces one_parameter b).1 }
    ensures only { (b : List ℕ) (parameters : List (List Capability)) (rest : List ℕ)
        → Splits IsParameter b parameters rest → pieces one_parameter b ≡ (parameters, rest) }
{}

/// Each body of at least ten octets spells one OPEN and has no fault, or has a fault and spells none.
pub fn an_open_has_one_reading()
    ensures { (body : List ℕ) → 10 ≤ length body → HasValueOrFault body (open_fault body) }
{}

/// The body that is written for an OPEN that isn't bad is read as this OPEN.
pub fn a_written_open_is_read_back()
    ensures { (o : Open) → HasRanges o → is_bad o ≡ false → reading_of (canonical o) ≡ Ok o }
{}

/// Where two speakers accept each other, both find one context.
pub fn both_sides_agree()
    ensures { (a b : Settings) (x y : Context) → IsAllowed a → IsAllowed b
        → agreement a (own_of b) ≡ Ok x → agreement b (own_of a) ≡ Ok y → x ≡ y }
{}
