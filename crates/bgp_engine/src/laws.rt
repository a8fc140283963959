//! Laws of what two OPENs agree on. Each is the contract of a function that does nothing.

ghost use Rattle.std.specs.Prelude.{◌≡◌, Ok};
ghost use Rattle.bgp_engine.specs.Below.{Context, agreement, Settings, IsAllowed, own_of, agreed_context};

/// Where a speaker accepts another's OPEN, the context that it finds is what its own OPEN and the other's agree on.
pub fn opens_agree_as_speakers_do()
    ensures { (a b : Settings) (x : Context) → IsAllowed a → agreement a (own_of b) ≡ Ok x → agreed_context (own_of a) (own_of b) ≡ x }
{}
