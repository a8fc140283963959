//! Laws of the command line. Each is the contract of a function that does nothing.

ghost use Rattle.std.specs.Prelude.{◌≡◌, ℕ, Bool, List, [], ◌∷◌, codes, true, false, Some};
ghost use Rattle.clap.specs.Words.{Text};
ghost use Rattle.clap.specs.declared.error.kind.ErrorKind.TheVariants as error;
ghost use Rattle.bgp_wire.specs.Prelude.{also, none_of_them};
ghost use Rattle.bgp_terms.specs.declared.refreshes.Refreshes.TheVariants as refreshes;
ghost use Rattle.bgp_words.specs.declared.request.Request.TheVariants.{Show, Explain, Check, Narrow, ToHex, FromHex, Loop};
ghost use Rattle.bgp_words.specs.declared.request.Session.TheVariants.{Opens};
ghost use Rattle.bgp_words.specs.CommandLine.{drops_of, faults_of};
ghost use Rattle.bgp_words.specs.TypeList.{all_but};
ghost use Rattle.bgp_words.specs.Laws.{AreUnrecognised, CanBeCleaned, CanBeDone, CanBeDoneWith, by_flags, flags, session_with};

/// The command line of each command, without flags and with all of them.
pub fn words_have_one_meaning()
    ensures show { CanBeDone (codes "show" ∷ []) (Show (by_flags false false) false false false) }
    ensures show_hex { CanBeDone (codes "show" ∷ codes "--hex" ∷ codes "--as4" ∷ codes "--ip4" ∷ codes "--ip6" ∷ codes "--internal" ∷ codes "--refresh" ∷ codes "--enhanced-refresh" ∷ []) (Show (by_flags true true) true false false) }
    ensures show_json { CanBeDone (codes "show" ∷ codes "--json" ∷ codes "--hex" ∷ []) (Show (by_flags false false) true true false) }
    ensures show_refresh { CanBeDone (codes "show" ∷ codes "--refresh" ∷ []) (Show (session_with (flags false false) refreshes.Plain false false) false false false) }
    ensures show_enhanced { CanBeDone (codes "show" ∷ codes "--enhanced-refresh" ∷ []) (Show (session_with (flags false false) refreshes.Enhanced false false) false false false) }
    ensures show_paths { CanBeDone (codes "show" ∷ codes "--paths" ∷ codes "ip4" ∷ []) (Show (session_with (flags false false) refreshes.None true false) false false false) }
    ensures show_all { CanBeDone (codes "show" ∷ codes "--paths=ip4,ip6" ∷ codes "--hex" ∷ codes "--as4" ∷ codes "--ip4" ∷ codes "--ip6" ∷ codes "--internal" ∷ codes "--refresh" ∷ codes "--enhanced-refresh" ∷ codes "--json" ∷ codes "--only-faults" ∷ []) (Show (session_with (flags true true) refreshes.Enhanced true true) true true true) }
    ensures show_faults { CanBeDone (codes "show" ∷ codes "--only-faults" ∷ codes "--json" ∷ []) (Show (by_flags false false) false true true) }
    ensures explain { CanBeDone (codes "explain" ∷ []) (Explain (by_flags false false) false false false) }
    ensures explain_all { CanBeDone (codes "explain" ∷ codes "--only-faults" ∷ codes "--hex" ∷ codes "--as4" ∷ codes "--ip4" ∷ codes "--ip6" ∷ codes "--internal" ∷ codes "--refresh" ∷ codes "--enhanced-refresh" ∷ []) (Explain (by_flags true true) true false true) }
    ensures explain_json { CanBeDone (codes "explain" ∷ codes "--json" ∷ codes "--only-faults" ∷ []) (Explain (by_flags false false) false true true) }
    ensures explain_paths { CanBeDone (codes "explain" ∷ codes "--paths" ∷ codes "ip4" ∷ []) (Explain (session_with (flags false false) refreshes.None true false) false false false) }
    ensures explain_opens { CanBeDoneWith (codes "explain" ∷ codes "--opens" ∷ codes "theirs" ∷ []) (Explain Opens false false false) (codes "theirs") }
    ensures check { CanBeDone (codes "check" ∷ []) (Check (by_flags false false) false) }
    ensures check_hex { CanBeDone (codes "check" ∷ codes "--enhanced-refresh" ∷ codes "--internal" ∷ codes "--ip6" ∷ codes "--ip4" ∷ codes "--as4" ∷ codes "--hex" ∷ []) (Check (by_flags true true) true) }
    ensures check_paths { CanBeDone (codes "check" ∷ codes "--paths" ∷ codes "ip6" ∷ codes "--ip6" ∷ []) (Check (session_with (record (flags false false) { ip6 = true }) refreshes.None false true) false) }
    ensures check_both { CanBeDone (codes "check" ∷ codes "--refresh" ∷ codes "--paths" ∷ codes "ip6,ip4" ∷ []) (Check (session_with (flags false false) refreshes.Plain true true) false) }
    ensures narrow { CanBeDone (codes "narrow" ∷ []) (Narrow (by_flags true false)) }
    ensures narrow_paths { CanBeDone (codes "narrow" ∷ codes "--paths" ∷ codes "ip4,ip6" ∷ []) (Narrow (session_with (flags true false) refreshes.None true true)) }
    ensures narrow_all { CanBeDone (codes "narrow" ∷ codes "--ip4" ∷ codes "--ip6" ∷ codes "--internal" ∷ codes "--refresh" ∷ codes "--enhanced-refresh" ∷ []) (Narrow (by_flags true true)) }
    ensures show_opens { CanBeDoneWith (codes "show" ∷ codes "--opens" ∷ codes "theirs" ∷ codes "--hex" ∷ []) (Show Opens true false false) (codes "theirs") }
    ensures check_opens { CanBeDoneWith (codes "check" ∷ codes "--opens=theirs" ∷ []) (Check Opens false) (codes "theirs") }
    ensures narrow_opens { CanBeDoneWith (codes "narrow" ∷ codes "--opens" ∷ codes "theirs" ∷ []) (Narrow Opens) (codes "theirs") }
    ensures no_name { CanBeDoneWith (codes "show" ∷ codes "--opens" ∷ [] ∷ []) (Show Opens false false false) [] }
    ensures clean { CanBeCleaned (codes "clean" ∷ []) (by_flags false false) false [] none_of_them }
    ensures clean_all { CanBeCleaned (codes "clean" ∷ codes "--hex" ∷ codes "--as4" ∷ codes "--ip4" ∷ codes "--ip6" ∷ codes "--internal" ∷ codes "--refresh" ∷ codes "--enhanced-refresh" ∷ []) (by_flags true true) true [] none_of_them }
    ensures clean_opens { CanBeCleaned (codes "clean" ∷ codes "--opens" ∷ codes "theirs" ∷ []) Opens false (codes "theirs") none_of_them }
    ensures clean_types { CanBeCleaned (codes "clean" ∷ codes "--drop" ∷ codes "0,16,255" ∷ []) (by_flags false false) false [] (also 255 (also 16 (also 0 none_of_them))) }
    ensures clean_again { CanBeCleaned (codes "clean" ∷ codes "--drop=16,35,0016" ∷ codes "--hex" ∷ []) (by_flags false false) true [] (also 16 (also 35 (also 16 none_of_them))) }
    ensures clean_unknown { CanBeCleaned (codes "clean" ∷ codes "--drop-unknown" ∷ []) (by_flags false false) false [] (all_but none_of_them) }
    ensures clean_but { CanBeCleaned (codes "clean" ∷ codes "--pass" ∷ codes "16,35" ∷ codes "--drop-unknown" ∷ codes "--opens=theirs" ∷ []) Opens false (codes "theirs") (all_but (also 35 (also 16 none_of_them))) }
    ensures to_hex { CanBeDone (codes "to-hex" ∷ []) (ToHex false) }
    ensures to_hex_refresh { CanBeDone (codes "to-hex" ∷ codes "--refresh" ∷ []) (ToHex true) }
    ensures from_hex { CanBeDone (codes "from-hex" ∷ []) FromHex }
    ensures runs { CanBeDoneWith (codes "loop" ∷ codes "two.script" ∷ []) (Loop false false) (codes "two.script") }
    ensures runs_tcp { CanBeDoneWith (codes "loop" ∷ codes "--tcp" ∷ codes "two.script" ∷ []) (Loop true false) (codes "two.script") }
    ensures runs_traced { CanBeDoneWith (codes "loop" ∷ codes "two.script" ∷ codes "--trace" ∷ []) (Loop false true) (codes "two.script") }
    ensures runs_both { CanBeDoneWith (codes "loop" ∷ codes "--trace" ∷ codes "--tcp" ∷ codes "two.script" ∷ []) (Loop true true) (codes "two.script") }
{}

/// At least one word is needed, `--help` requests help and `--version` the version, a flag belongs to its commands, the session isn't given
/// by both OPENs and flags too, a list of types is numbers from 0 to 255 with commas between, of types that aren't recognised, and a list of
/// families has `ip4`, `ip6`, or each of them once.
pub fn words_can_be_wrong()
    ensures nothing { faults_of [] ≡ error.MissingSubcommand ∷ [] }
    ensures help { faults_of (codes "--help" ∷ []) ≡ error.DisplayHelp ∷ [] }
    ensures version { faults_of (codes "--version" ∷ []) ≡ error.DisplayVersion ∷ [] }
    ensures no_flag { faults_of (codes "narrow" ∷ codes "--hex" ∷ []) ≡ error.UnknownArgument ∷ [] }
    ensures no_json { faults_of (codes "check" ∷ codes "--json" ∷ []) ≡ error.UnknownArgument ∷ [] }
    ensures both_explain { faults_of (codes "explain" ∷ codes "--opens" ∷ codes "theirs" ∷ codes "--ip6" ∷ []) ≡ error.ArgumentConflict ∷ [] }
    ensures both { faults_of (codes "show" ∷ codes "--opens" ∷ codes "theirs" ∷ codes "--as4" ∷ []) ≡ error.ArgumentConflict ∷ [] }
    ensures both_narrow { faults_of (codes "narrow" ∷ codes "--internal" ∷ codes "--opens" ∷ codes "theirs" ∷ []) ≡ error.ArgumentConflict ∷ [] }
    ensures both_refresh { faults_of (codes "check" ∷ codes "--refresh" ∷ codes "--opens" ∷ codes "theirs" ∷ []) ≡ error.ArgumentConflict ∷ [] }
    ensures both_enhanced { faults_of (codes "clean" ∷ codes "--opens" ∷ codes "theirs" ∷ codes "--enhanced-refresh" ∷ []) ≡ error.ArgumentConflict ∷ [] }
    ensures no_enhanced { faults_of (codes "to-hex" ∷ codes "--enhanced-refresh" ∷ []) ≡ error.UnknownArgument ∷ [] }
    ensures both_paths { faults_of (codes "show" ∷ codes "--paths" ∷ codes "ip4" ∷ codes "--opens" ∷ codes "theirs" ∷ []) ≡ error.ArgumentConflict ∷ [] }
    ensures both_bad { faults_of (codes "check" ∷ codes "--opens" ∷ codes "theirs" ∷ codes "--paths" ∷ codes "x" ∷ []) ≡ error.ArgumentConflict ∷ [] }
    ensures paths_twice { faults_of (codes "show" ∷ codes "--paths" ∷ codes "ip4" ∷ codes "--paths" ∷ codes "ip6" ∷ []) ≡ error.ArgumentConflict ∷ [] }
    ensures no_families { faults_of (codes "show" ∷ codes "--paths" ∷ []) ≡ error.InvalidValue ∷ [] }
    ensures empty_families { faults_of (codes "check" ∷ codes "--paths" ∷ [] ∷ []) ≡ error.InvalidValue ∷ [] }
    ensures no_family { faults_of (codes "show" ∷ codes "--paths" ∷ codes "ip5" ∷ []) ≡ error.InvalidValue ∷ [] }
    ensures family_twice { faults_of (codes "check" ∷ codes "--paths=ip4,ip4" ∷ []) ≡ error.InvalidValue ∷ [] }
    ensures families_apart { faults_of (codes "show" ∷ codes "--paths" ∷ codes "ip4, ip6" ∷ []) ≡ error.InvalidValue ∷ [] }
    ensures paths_clean { faults_of (codes "clean" ∷ codes "--paths" ∷ codes "ip4" ∷ []) ≡ error.UnknownArgument ∷ [] }
    ensures paths_to_hex { faults_of (codes "to-hex" ∷ codes "--paths" ∷ codes "ip4" ∷ []) ≡ error.UnknownArgument ∷ [] }
    ensures no_value { faults_of (codes "check" ∷ codes "--opens" ∷ []) ≡ error.InvalidValue ∷ [] }
    ensures no_file { faults_of (codes "loop" ∷ []) ≡ error.MissingRequiredArgument ∷ [] }
    ensures both_clean { faults_of (codes "clean" ∷ codes "--opens" ∷ codes "theirs" ∷ codes "--ip4" ∷ []) ≡ error.ArgumentConflict ∷ [] }
    ensures no_drop { faults_of (codes "check" ∷ codes "--drop" ∷ codes "16" ∷ []) ≡ error.UnknownArgument ∷ [] }
    ensures drop_twice { faults_of (codes "clean" ∷ codes "--drop" ∷ codes "16" ∷ codes "--drop-unknown" ∷ []) ≡ error.ArgumentConflict ∷ [] }
    ensures pass_alone { faults_of (codes "clean" ∷ codes "--pass" ∷ codes "16" ∷ []) ≡ error.MissingRequiredArgument ∷ [] }
    ensures no_list { faults_of (codes "clean" ∷ codes "--drop" ∷ []) ≡ error.InvalidValue ∷ [] }
    ensures empty { faults_of (codes "clean" ∷ codes "--drop" ∷ [] ∷ []) ≡ error.InvalidValue ∷ [] }
    ensures no_number { faults_of (codes "clean" ∷ codes "--drop" ∷ codes "x" ∷ []) ≡ error.InvalidValue ∷ [] }
    ensures sign { faults_of (codes "clean" ∷ codes "--drop" ∷ codes "+16" ∷ []) ≡ error.InvalidValue ∷ [] }
    ensures space { faults_of (codes "clean" ∷ codes "--drop" ∷ codes "16, 35" ∷ []) ≡ error.InvalidValue ∷ [] }
    ensures too_large { faults_of (codes "clean" ∷ codes "--drop" ∷ codes "256" ∷ []) ≡ error.InvalidValue ∷ [] }
    ensures empty_word { faults_of (codes "clean" ∷ codes "--drop" ∷ codes "16,,35" ∷ []) ≡ error.InvalidValue ∷ [] }
    ensures recognised { faults_of (codes "clean" ∷ codes "--drop" ∷ codes "16,32" ∷ []) ≡ error.InvalidValue ∷ [] }
    ensures pass_recognised { faults_of (codes "clean" ∷ codes "--drop-unknown" ∷ codes "--pass" ∷ codes "1" ∷ []) ≡ error.InvalidValue ∷ [] }
{}

/// Whatever the command line, nothing that is recognised is left out.
pub fn nothing_recognised_is_left_out()
    ensures { (words : List Text) (types : ℕ → Bool) → drops_of words ≡ Some types → AreUnrecognised types }
{}
