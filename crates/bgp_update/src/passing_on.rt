//! What is passed on of an UPDATE.

ghost use Rattle.std.specs.Prelude.{◌≡◌};
ghost use Rattle.std.specs.List.{filter};
ghost use Rattle.bgp_update.specs.Prelude.{onward_of};

use crate::update::Update;
use bgp_attr::Opaque;
use bgp_wire::List;

/// Those that are transitive, in their order.
fn transitive(others: List<Opaque>) -> List<Opaque>
    ensures { result ≡ filter (λ o. o.transitive) others }
{
    let mut kept = others.into_vec();
    kept.retain(|other| other.transitive);
    List::from_vec(kept)
}

/// The UPDATE as it is passed on: of the attributes of unrecognised types only the transitive ones remain, in their
/// order (RFC 4271, section 5). It allocates nothing.
pub fn onward(update: Update) -> Update
    ensures { result ≡ onward_of update }
{
    let mut told = update;
    let mut attrs = told.attrs;
    attrs.others = transitive(attrs.others);
    told.attrs = attrs;
    told
}
