//! The settings of a guard.

use bgp_clean::Limits;
use bgp_wire::OctetSet;

/// The settings of a guard.
#[derive(Clone, Copy)]
pub struct Rules {
    /// Unrecognised attributes of these types are left out.
    pub drops: OctetSet,
    /// Which announcements of the outer peer are withdrawn, though they are well formed; LOCAL_PREF is required only on
    /// internal sessions.
    pub limits: Limits,
    /// Whether announcements of an external neighbour are withdrawn whose AS_PATH doesn't begin with its own AS number; that of the limits decides where both are set.
    pub first_as: bool,
    /// Whether the inner speaker's routes stay inside: none of its UPDATEs is passed on.
    pub one_way: bool,
}

impl Rules {
    ghost use Rattle.std.specs.Prelude.{◌≡◌};
    ghost use Rattle.bgp_guard.specs.declared.side.Side.TheVariants as side;
    ghost use Rattle.bgp_guard.specs.Guard.{rules_of};

    /// The settings for the guarded speaker's own messages: no announcement is refused.
    pub(crate) fn of_inner(&self) -> Rules
        ensures { result ≡ rules_of side.Inner self.now }
    {
        Rules {
            drops: self.drops,
            limits: Limits::none(),
            first_as: false,
            one_way: self.one_way,
        }
    }
}
