//! Laws over the definitions alone: these functions do nothing, and their contracts are what is proved.

ghost use Rattle.std.specs.Prelude.{◌≡◌, ℕ, Bool, true, List};
ghost use Rattle.bgp_wire.specs.Prelude.{AreOctets, IsPrefixFree, Splits, Reads};
ghost use Rattle.bgp_open.specs.declared.context.Context.{Context};
ghost use Rattle.bgp_attr.specs.declared.attr.Attr.{Attr};
ghost use Rattle.bgp_attr.specs.declared.path_form.PathForm.{PathForm};
ghost use Rattle.bgp_attr.specs.Prelude.{TlvValue, IsTlv, one_tlv, tlvs_of, IsNumber, one_number, IsTriple, one_triple, IsSegment, one_segment, judgement, Spells, written_tlv, canonical, is_writable, Belongs, HasRanges, CanBeWritten};
ghost use Rattle.bgp_attr.specs.declared.judged.Judged.TheVariants.{Keep};

/// The readers of attributes, of segments of paths, of numbers and of large communities find each
/// one at the front of octets, and nothing else.
pub fn readings_are_spellings()
    ensures attributes { Reads IsTlv one_tlv }
    ensures segments { (form : PathForm) → Reads (IsSegment form) (one_segment form) }
    ensures numbers { (wide : Bool) → Reads (IsNumber wide) (one_number wide) }
    ensures triples { Reads IsTriple one_triple }
{}

/// No attribute is the beginning of another, and the octets of each have one value; and so it is
/// with segments of paths, numbers and large communities.
pub fn spellings_are_prefix_free()
    ensures attributes { IsPrefixFree IsTlv }
    ensures segments { (form : PathForm) → IsPrefixFree (IsSegment form) }
    ensures numbers { (wide : Bool) → IsPrefixFree (IsNumber wide) }
    ensures triples { IsPrefixFree IsTriple }
{}

/// Octets split into attributes and a rest that begins with none in exactly one way, which is what
/// the reader finds.
pub fn fields_split_in_one_way()
    ensures splits { (b : List ℕ) → Splits IsTlv b (tlvs_of b).0 (tlvs_of b).1 }
    ensures only { (b : List ℕ) (tlvs : List TlvValue) (rest : List ℕ)
        → Splits IsTlv b tlvs rest → tlvs_of b ≡ (tlvs, rest) }
{}

/// A kept attribute is one that its octets spell, and they spell no other.
pub fn what_is_kept_is_spelled()
    ensures spelled { (ctx : Context) (has_nlri : Bool) (t : TlvValue) (a : Attr)
        → AreOctets t.value → judgement ctx has_nlri t ≡ Keep a → Spells ctx t a }
    ensures only { (ctx : Context) (has_nlri : Bool) (t : TlvValue) (a b : Attr)
        → judgement ctx has_nlri t ≡ Keep a → Spells ctx t b → b ≡ a }
{}

/// A kept attribute can be written where it was read, in no more octets than it had.
pub fn kept_attributes_are_writable()
    ensures { (ctx : Context) (has_nlri : Bool) (t : TlvValue) (a : Attr) (b : List ℕ)
        → IsTlv t b → AreOctets b → judgement ctx has_nlri t ≡ Keep a
        → CanBeWritten ctx has_nlri a b }
{}

/// The octets written for an attribute are one whole attribute, and are kept as this value in
/// each message where it belongs.
pub fn written_attributes_are_kept()
    ensures octets { (ctx : Context) (a : Attr)
        → HasRanges a → is_writable ctx a ≡ true → AreOctets (canonical ctx a) }
    ensures whole { (ctx : Context) (a : Attr)
        → is_writable ctx a ≡ true → IsTlv (written_tlv ctx a) (canonical ctx a) }
    ensures kept { (ctx : Context) (has_nlri : Bool) (a : Attr)
        → HasRanges a → is_writable ctx a ≡ true → Belongs ctx has_nlri a
        → judgement ctx has_nlri (written_tlv ctx a) ≡ Keep a }
{}
