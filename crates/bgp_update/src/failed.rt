//! What keeps the attributes of a message from being written, found in one pass over them.

ghost use Rattle.std.specs.Prelude.{◌≡◌, []};
ghost use Rattle.bgp_attr.specs.Prelude.{ref_value};
ghost use Rattle.bgp_update.specs.Prelude.{failed_by, also_failed, first_of, attr_list};

use crate::attrs::{Attrs, slot};
use crate::invalid::Invalid;
use crate::order::types_of;
use bgp_attr::unwritable::{has_as_zero, is_as4, is_empty, is_too_wide, stands_twice};
use bgp_attr::{AttrRef, is_out_of_place};
use bgp_open::Context;

/// Which tests are failed by some attribute.
#[derive(Clone, Copy)]
pub(crate) struct Failed {
    /// An AS number doesn't fit its two octets.
    pub(crate) too_wide: bool,
    /// AS4_PATH or AS4_AGGREGATOR is present.
    pub(crate) as4: bool,
    /// Routes are of an address family that isn't in use.
    pub(crate) other_family: bool,
    /// Something is empty that can't be.
    pub(crate) empty: bool,
    /// An AS number is 0.
    pub(crate) as_zero: bool,
    /// A large community is there twice.
    pub(crate) twice: bool,
}

impl Failed {
    /// No attribute fails.
    fn none(ctx: &Context) -> Failed
        ensures { result ≡ failed_by ctx.now [] }
    {
        let _ = ctx;
        Failed {
            too_wide: false,
            as4: false,
            other_family: false,
            empty: false,
            as_zero: false,
            twice: false,
        }
    }

    /// Adds the tests that one more attribute fails.
    fn also(&self, ctx: &Context, attr: AttrRef<'_>) -> Failed
        ensures { result ≡ also_failed self.now ctx.now (ref_value attr.entry) }
    {
        Failed {
            too_wide: self.too_wide | is_too_wide(ctx, attr),
            as4: self.as4 | is_as4(attr),
            other_family: self.other_family | is_out_of_place(ctx, attr),
            empty: self.empty | is_empty(attr),
            as_zero: self.as_zero | has_as_zero(attr),
            twice: self.twice | stands_twice(attr),
        }
    }

    /// The tests that the attributes of a message fail.
    pub(crate) fn of(ctx: &Context, attrs: &Attrs) -> Failed
        ensures { result ≡ failed_by ctx.now (attr_list attrs.now) }
    {
        let mut failed = Failed::none(ctx);
        let kinds = types_of(attrs);
        'types: for kind in kinds {
            if let Some(attr) = slot(attrs, *kind) {
                failed = failed.also(ctx, attr);
            }
        }
        failed
    }

    /// The first reason among the failed tests.
    pub(crate) fn first(&self, as4: bool, bad_others: bool) -> Option<Invalid>
        ensures { result ≡ first_of self.now as4 bad_others }
    {
        if self.too_wide {
            Some(Invalid::AsWidth)
        } else if as4 && self.as4 {
            Some(Invalid::As4)
        } else if self.other_family {
            Some(Invalid::Family)
        } else if self.empty {
            Some(Invalid::Empty)
        } else if bad_others {
            Some(Invalid::Others)
        } else if self.as_zero {
            Some(Invalid::AsZero)
        } else if self.twice {
            Some(Invalid::Twice)
        } else {
            None
        }
    }
}
