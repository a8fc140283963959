//! Counting the kept attributes of unrecognised types.

ghost use Rattle.std.specs.Prelude.{◌≡◌, ◌≤◌, length};
ghost use Rattle.bgp_attr.specs.Prelude.{attr_value};
ghost use Rattle.bgp_update.specs.Prelude.{is_opaque, update_value};

use bgp_attr::AttrView;
use bgp_update::UpdateView;

/// Whether an attribute is of a type that isn't recognised.
fn is_opaque(attr: &AttrView<'_>) -> bool
    ensures { result ≡ is_opaque (attr_value attr.now) }
{
    match attr {
        AttrView::Opaque(_) => true,
        _ => false,
    }
}

/// The number of attributes of unrecognised types that are kept.
pub(crate) fn count_others(view: &UpdateView<'_>) -> usize
    ensures count { result ≡ length (update_value view.now).attrs.others }
    ensures few { result ≤ 1358 }
{
    let mut count = 0;
    let mut left = view.attrs();
    'kept: while let Some(attr) = left.next() {
        if is_opaque(&attr) {
            count += 1;
        }
    }
    count
}
