//! Laws of ROUTE-REFRESH. Each is the contract of a function that does nothing.

ghost use Rattle.std.specs.Prelude.{◌≡◌, Bool, true, Ok};
ghost use Rattle.bgp_frame.specs.Prelude.{IsFrameIn, wide_types};
ghost use Rattle.bgp_frame.specs.declared.kind.WideKind.TheVariants as wide;
ghost use Rattle.bgp_terms.specs.declared.refreshes.Refreshes.TheVariants as refreshes;
ghost use Rattle.bgp_refresh.specs.Refresh.{Refresh, IsCanonical, refresh_body, refresh_octets, refresh_of};

/// A ROUTE-REFRESH that is written is read back, where enhanced refresh is agreed on.
pub fn written_is_read_back()
    ensures { (r : Refresh) → IsCanonical r → refresh_of refreshes.Enhanced (refresh_body r) ≡ Ok r }
{}

/// What is written is a whole message of type 5, in each grammar that has it.
pub fn written_is_a_frame()
    ensures { (long : Bool) (r : Refresh) → IsCanonical r → IsFrameIn (wide_types (record { refresh = true; long = long })) (record { kind = wide.Refresh; body = refresh_body r }) (refresh_octets r) }
{}
