//! Which attributes a guard passes on.

ghost use Rattle.ristulva_c.specs.Prelude.{IsSetTo};

use crate::cleaning::set_of;
use bgp_clean::Limits;
use bgp_guard::Rules;

/// The settings of a guard that passes unrecognised attributes of these types on.
pub(crate) fn rules_of(pass: &[u8], one_way: u8) -> Rules
    ensures { IsSetTo pass.now one_way result }
{
    Rules {
        drops: set_of(pass).others(),
        limits: Limits::none(),
        first_as: false,
        one_way: one_way != 0,
    }
}
