//! Counts of what is left out of a message.

ghost use Rattle.std.specs.Prelude.{◌≡◌, ◌-◌, length};
ghost use Rattle.std.specs.List.{filter};
ghost use Rattle.bgp_wire.specs.Prelude.{has_octet};
ghost use Rattle.bgp_attr.specs.Prelude.{attr_value};
ghost use Rattle.bgp_open.specs.Prelude.{open_value};
ghost use Rattle.bgp_update.specs.Prelude.{update_value};
ghost use Rattle.bgp_clean.specs.Prelude.{understood};
ghost use Rattle.ristulva_c.specs.Prelude.{is_left_out};

use bgp_attr::AttrView;
use bgp_clean::count_understood;
use bgp_open::OpenView;
use bgp_update::UpdateView;
use bgp_wire::OctetSet;

/// Whether an attribute is of a type that isn't recognised, and among these.
fn is_left_out(drops: &OctetSet, attr: &AttrView<'_>) -> bool
    ensures { result ≡ is_left_out (has_octet drops.now) (attr_value attr.now) }
{
    match attr {
        AttrView::Opaque(opaque) => drops.contains(opaque.kind),
        _ => false,
    }
}

/// The number of unrecognised attributes of the types that are kept.
pub(crate) fn others_left_out(drops: &OctetSet, view: &UpdateView<'_>) -> usize
    ensures { result ≡ length (filter (λ o. has_octet drops.now o.kind) (update_value view.now).attrs.others) }
{
    let mut count = 0;
    let mut left = view.attrs();
    'kept: while let Some(attr) = left.next() {
        if is_left_out(drops, &attr) {
            count += 1;
        }
    }
    count
}

/// The number of capabilities of an OPEN.
fn count_caps(view: OpenView<'_>) -> usize
    ensures { result ≡ length (open_value view.entry).caps }
{
    let mut count = 0;
    let mut left = view.capabilities();
    'row: while let Some(_) = left.next() {
        count += 1;
    }
    count
}

/// The number of capabilities of an OPEN that aren't passed on.
#[tactic(auto, using(crate::proofs::LeftOut::fewer))]
pub(crate) fn caps_left_out(view: &OpenView<'_>) -> usize
    ensures { result ≡ length (open_value view.now).caps - length (understood (open_value view.now).caps) }
{
    count_caps(*view) - count_understood(view)
}
