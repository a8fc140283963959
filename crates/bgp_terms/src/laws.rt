//! Laws over the definitions alone: these functions do nothing, and their contracts are what is proved.

ghost use Rattle.std.specs.Prelude.{◌≡◌, ◌&&◌, ◌||◌};
ghost use Rattle.bgp_open.specs.Prelude.{agree_on_paths};
ghost use Rattle.bgp_open.specs.declared.message.Open.{Open};
ghost use Rattle.bgp_terms.specs.Prelude.{terms_of, terms_sent};

/// What one end finds for what it reads is what the other end finds for what it sends, each by its own OPEN and the other's.
pub fn both_ends_find_the_same_terms()
    ensures { (a b : Open) → terms_of a b ≡ terms_sent b a }
{}

/// By the terms of two OPENs, routes have path identifiers exactly where `bgp_open` finds so: those of IPv4 unicast, or those of IPv6 unicast where
/// both offer it.
pub fn agree_on_paths_finds_the_same_identifiers()
    ensures { (sender reader : Open) → agree_on_paths sender reader
        ≡ ((terms_of reader sender).paths4 || ((terms_of reader sender).context.ip6 && (terms_of reader sender).paths6)) }
{}
