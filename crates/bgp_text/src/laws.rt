//! Laws over the definitions alone: these functions do nothing, and their contracts are what is proved.

ghost use Rattle.std.specs.Prelude.{◌≡◌, ◌++◌, ℕ, List, codes, map};
ghost use Rattle.bgp_paths.specs.Prelude.{PathPrefixValue, numbers_of};
ghost use Rattle.bgp_text.specs.Below.{Notification, Context, out_of, of_fault, refresh_notification};
ghost use Rattle.bgp_frame.specs.declared.fault.HeadFault.{HeadFault};
ghost use Rattle.bgp_frame.specs.declared.kind.Kind.TheVariants as kind;
ghost use Rattle.bgp_refresh.specs.declared.fault.RefreshFault.TheVariants as refresh_fault;
ghost use Rattle.bgp_msg.specs.declared.outcome.Outcome.TheVariants as outcome;
ghost use Rattle.bgp_text.specs.Beside.{beside, numbers_by_part, numbers_ip4, numbers_ip6, prefixes_of, received};
ghost use Rattle.bgp_text.specs.Outcome.{reset_name};

/// A reset is printed under the name of what causes it, which its code determines: a header, an OPEN, an UPDATE or a ROUTE-REFRESH.
pub fn resets_are_named_for_what_they_answer()
    ensures header { (fault : HeadFault) (n : Notification)
        → of_fault fault ≡ outcome.Reset n → reset_name n.code ≡ codes "HEADER" }
    ensures opens { (ctx : Context) (body : List ℕ) (n : Notification)
        → out_of ctx (record { kind = kind.Open; body = body }) ≡ outcome.Reset n → reset_name n.code ≡ codes "OPEN" }
    ensures updates { (ctx : Context) (body : List ℕ) (n : Notification)
        → out_of ctx (record { kind = kind.Update; body = body }) ≡ outcome.Reset n → reset_name n.code ≡ codes "UPDATE" }
    ensures refreshes { (body : List ℕ)
        → reset_name (refresh_notification refresh_fault.Length body).code ≡ codes "ROUTE-REFRESH" }
{}

/// Each route has its own path identifier beside it (RFC 7911, section 3): those of a run, and those of all parts of an UPDATE one after the other, as they
/// are withdrawn where it is treated as a withdrawal.
pub fn routes_have_their_own_identifiers_beside_them()
    ensures run { (rs : List PathPrefixValue) → beside (prefixes_of rs) (numbers_of rs) ≡ map received rs }
    ensures ip4 { (withdrawn unreached4 unreached6 reached4 reached6 nlri : List PathPrefixValue)
        → beside
        (prefixes_of withdrawn ++ (prefixes_of unreached4 ++ (prefixes_of reached4 ++ prefixes_of nlri)))
        (numbers_ip4 (numbers_by_part withdrawn unreached4 unreached6 reached4 reached6 nlri))
        ≡ map received withdrawn ++ (map received unreached4 ++ (map received reached4 ++ map received nlri)) }
    ensures ip6 { (withdrawn unreached4 unreached6 reached4 reached6 nlri : List PathPrefixValue)
        → beside
        (prefixes_of unreached6 ++ prefixes_of reached6)
        (numbers_ip6 (numbers_by_part withdrawn unreached4 unreached6 reached4 reached6 nlri))
        ≡ map received unreached6 ++ map received reached6 }
{}
