//! Laws of prefixes and runs, for addresses of any width: 4 octets are IPv4, 16 are IPv6.

ghost use Rattle.std.specs.Prelude.{◌≡◌, ◌⊎◌, ℕ, ◌+◌, ◌*◌, ◌<◌, ◌≤◌, Some, All};
ghost use Rattle.std.specs.Prelude.{List, [], ◌∷◌, ◌++◌, length};
ghost use Rattle.std.specs.List.{flat_map};
ghost use Rattle.bgp_wire.specs.Prelude.{AreOctets, Row, IsPrefixFree, Splits, Reads};
ghost use Rattle.bgp_prefix.specs.declared.fault.RunFault.TheVariants.{TooLong, PastEnd};
ghost use Rattle.bgp_prefix.specs.Prelude.{octets_for, PrefixValue, IsValid, IsPrefix, HasFirstBits, one_prefix, spelling_of, run_of, run_fault};

/// No encoding of a prefix is the beginning of another, and each has one value.
pub fn spellings_are_prefix_free()
    ensures { (width : ℕ) → IsPrefixFree (IsPrefix width) }
{}

/// The reader of one prefix finds each encoding at the front of octets, and nothing else.
pub fn readings_are_spellings()
    ensures { (width : ℕ) → Reads (IsPrefix width) (one_prefix width) }
{}

/// An address has the first bits of the octets after the length octet, up to the length, and
/// zeros past them; and octets that give these bits encode the prefix.
pub fn addresses_are_first_bits()
    ensures kept { (width : ℕ) (p : PrefixValue) (b : List ℕ)
        → IsPrefix width p b → HasFirstBits width p b }
    ensures only { (width : ℕ) (p : PrefixValue) (read : List ℕ)
        → AreOctets p.addr → AreOctets read → p.len ≤ 8 * width → length read ≡ octets_for p.len
        → HasFirstBits width p (p.len ∷ read) → IsPrefix width p (p.len ∷ read) }
{}

/// Octets split into their prefixes and a rest that begins with none, in one way only.
pub fn octets_have_one_split()
    ensures split { (width : ℕ) (b : List ℕ)
        → Splits (IsPrefix width) b (run_of width b).0 (run_of width b).1 }
    ensures only { (width : ℕ) (b : List ℕ) (prefixes : List PrefixValue) (rest : List ℕ)
        → Splits (IsPrefix width) b prefixes rest → run_of width b ≡ (prefixes, rest) }
{}

/// A fault says what is wrong with the first length that has no prefix: it is above that of an
/// address, or the octets end before it.
pub fn faults_say_why()
    ensures { (width : ℕ) (b : List ℕ) (prefixes : List PrefixValue) (l : ℕ) (rest : List ℕ)
        → run_of width b ≡ (prefixes, l ∷ rest)
        → ((8 * width < l) × (run_fault width (l ∷ rest) ≡ Some TooLong))
        ⊎ ((l ≤ 8 * width) × (length rest < octets_for l)
        × (run_fault width (l ∷ rest) ≡ Some PastEnd)) }
{}

/// What is written is read back, and nothing is left.
pub fn written_runs_are_read()
    ensures { (width : ℕ) (prefixes : List PrefixValue) → All (IsValid width) prefixes
        → run_of width (flat_map spelling_of prefixes) ≡ (prefixes, []) }
{}

/// The prefixes of a run, written again, are a run of the same length with the same prefixes.
pub fn runs_are_rewritten()
    ensures row { (width : ℕ) (prefixes : List PrefixValue) (b : List ℕ)
        → AreOctets b → Row (IsPrefix width) prefixes b
        → Row (IsPrefix width) prefixes (flat_map spelling_of prefixes) }
    ensures len { (width : ℕ) (prefixes : List PrefixValue) (b : List ℕ)
        → AreOctets b → Row (IsPrefix width) prefixes b
        → length (flat_map spelling_of prefixes) ≡ length b }
{}
