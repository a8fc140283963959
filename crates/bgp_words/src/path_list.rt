//! Lists of families whose routes have path identifiers.

ghost use Rattle.std.specs.Prelude.{◌≡◌};
ghost use Rattle.bgp_words.specs.PathList.{are_families, names_both, names_ip4, names_ip6};

/// The families whose routes have path identifiers (ADD-PATH, RFC 7911), by the flags.
#[derive(Clone, Copy, PartialEq, Eq)]
pub struct PathFlags {
    /// IPv4 unicast.
    pub ip4: bool,
    /// IPv6 unicast.
    pub ip6: bool,
}

// Whether a list names both families.
fn names_both(list: &str) -> bool
    ensures { result ≡ names_both list.now }
{
    list == "ip4,ip6" || list == "ip6,ip4"
}

/// Whether a list names IPv4 unicast.
pub(crate) fn names_ip4(list: &str) -> bool
    ensures { result ≡ names_ip4 list.now }
{
    list == "ip4" || names_both(list)
}

/// Whether a list names IPv6 unicast.
pub(crate) fn names_ip6(list: &str) -> bool
    ensures { result ≡ names_ip6 list.now }
{
    list == "ip6" || names_both(list)
}

/// Whether a list is one family, or both.
pub(crate) fn are_families(list: &str) -> bool
    ensures { result ≡ are_families list.now }
{
    names_ip4(list) || names_ip6(list)
}
