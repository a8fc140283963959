//! The members of an UPDATE, in one order for each form in which they are printed.

ghost use Rattle.std.specs.Prelude.{◌≡◌, ◌++◌, OnOk};
ghost use Rattle.bgp_text.specs.Below.{flat_map, string_bytes, known_value, slot, update_value};
ghost use Rattle.bgp_text.specs.Members.{printed, printed_attributes};

use bgp_attr::{AttrView, OpaqueView};
use bgp_numbers::attribute;
use bgp_prefix::PrefixIter4;
use bgp_update::{KeptView, UpdateView};
use std::alloc::{AllocError, Global};

/// A form in which the members of an UPDATE are printed.
pub(crate) trait Form {
    ghost use Rattle.std.specs.Prelude.{◌≡◌, ◌++◌, map, OnOk};
    ghost use Rattle.bgp_text.specs.Below.{string_bytes, attr_value, opaque_value, prefixes_left};
    ghost use Rattle.bgp_text.specs.Members.{Shown};

    /// How each member is printed.
    ghost shown: { Self → Shown };

    /// Adds the Withdrawn Routes.
    fn put_withdrawn(&self, text: &mut String, routes: PrefixIter4<'_>) -> Result<(), AllocError>
        ensures { OnOk result (string_bytes text.new ≡ string_bytes text.old ++ (shown self.now).withdrawn (prefixes_left routes.entry)) };

    /// Adds an attribute of a recognised type.
    fn put_attribute(
        &self,
        alloc: Global,
        text: &mut String,
        attr: &AttrView<'_>,
    ) -> Result<(), AllocError>
        ensures { OnOk result (string_bytes text.new ≡ string_bytes text.old ++ (shown self.now).attribute (attr_value attr.now)) };

    /// Adds the attributes of all other types.
    fn put_others(
        &self,
        alloc: Global,
        text: &mut String,
        others: &[OpaqueView<'_>],
    ) -> Result<(), AllocError>
        ensures { OnOk result (string_bytes text.new ≡ string_bytes text.old ++ (shown self.now).others (map opaque_value others.now)) };

    /// Adds the NLRI field.
    fn put_nlri(&self, text: &mut String, routes: PrefixIter4<'_>) -> Result<(), AllocError>
        ensures { OnOk result (string_bytes text.new ≡ string_bytes text.old ++ (shown self.now).nlri (prefixes_left routes.entry)) };
}

/// Adds the attribute of a recognised type, if it is present.
#[inline(always)]
fn put_slot<F: Form>(
    form: &F,
    alloc: Global,
    text: &mut String,
    kept: &KeptView<'_>,
    kind: u8,
) -> Result<(), AllocError>
    ensures { OnOk result (string_bytes text.new ≡ string_bytes text.old ++ flat_map (F.shown form.now).attribute (slot (known_value kept.now) kind)) }
{
    match kept.attr(kind) {
        None => Ok(()),
        Some(attr) => form.put_attribute(alloc, text, &attr),
    }
}

/// Adds the attributes of recognised types.
#[tactic(auto, unfolding(crate::specs::Members::printed_attributes))]
fn put_attributes<F: Form>(
    form: &F,
    alloc: Global,
    text: &mut String,
    kept: &KeptView<'_>,
) -> Result<(), AllocError>
    ensures { OnOk result (string_bytes text.new ≡ string_bytes text.old ++ printed_attributes (F.shown form.now).attribute (known_value kept.now)) }
{
    put_slot(form, alloc, text, kept, attribute::MP_REACH_NLRI)?;
    put_slot(form, alloc, text, kept, attribute::MP_UNREACH_NLRI)?;
    put_slot(form, alloc, text, kept, attribute::ORIGIN)?;
    put_slot(form, alloc, text, kept, attribute::AS_PATH)?;
    put_slot(form, alloc, text, kept, attribute::NEXT_HOP)?;
    put_slot(form, alloc, text, kept, attribute::MULTI_EXIT_DISC)?;
    put_slot(form, alloc, text, kept, attribute::LOCAL_PREF)?;
    put_slot(form, alloc, text, kept, attribute::ATOMIC_AGGREGATE)?;
    put_slot(form, alloc, text, kept, attribute::AGGREGATOR)?;
    put_slot(form, alloc, text, kept, attribute::COMMUNITIES)?;
    put_slot(form, alloc, text, kept, attribute::LARGE_COMMUNITY)?;
    put_slot(form, alloc, text, kept, attribute::AS4_PATH)?;
    put_slot(form, alloc, text, kept, attribute::AS4_AGGREGATOR)
}

/// Adds the members of an UPDATE.
pub(crate) fn put_members<F: Form>(
    form: &F,
    alloc: Global,
    text: &mut String,
    view: &UpdateView<'_>,
) -> Result<(), AllocError>
    ensures { OnOk result (string_bytes text.new ≡ string_bytes text.old ++ printed (F.shown form.now) (update_value view.now)) }
{
    let others = view.others(alloc)?;
    form.put_withdrawn(text, view.withdrawn())?;
    put_attributes(form, alloc, text, view.kept())?;
    form.put_others(alloc, text, others.as_slice())?;
    form.put_nlri(text, view.nlri())
}
