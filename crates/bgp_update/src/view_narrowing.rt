//! Writing an UPDATE for a 2-octet-AS peer, from its view.

ghost use Rattle.std.specs.Prelude.{◌≡◌, ◌++◌, false, true, length, IfOk, OnOk, OnErr, IsTrue, IsErrOf};
ghost use Rattle.std.specs.List.{AllByRecursion};
ghost use Rattle.bgp_wire.specs.Prelude.{Extends};
ghost use Rattle.bgp_attr.specs.Prelude.{is_writable};
ghost use Rattle.bgp_update.specs.As4.{narrowed, narrowed_update};
ghost use Rattle.bgp_update.specs.ByType.{IsByType};
ghost use Rattle.bgp_update.specs.Slots.{attr_list};
ghost use Rattle.bgp_update.specs.Told.{CanBeTold};
ghost use Rattle.bgp_update.specs.View.{update_value};
ghost use Rattle.bgp_update.specs.Widths.{with_as4};
ghost use Rattle.bgp_update.specs.Written.{attributes_octets, is_too_long, written_body};
ghost use Rattle.bgp_update.specs.steps.Layout.{LaysOutBody};
ghost use Rattle.bgp_update.specs.declared.view_narrowing.NarrowFault.TheVariants.{TooLong, Memory};

use crate::by_type::ByType;
use crate::laying::{LONGEST_BODY, Places, put_room, set_lengths};
use crate::narrow_writing::put_told_attrs;
use crate::sorted_others::{FEW, SortedOthers};
use crate::view::UpdateView;
use bgp_open::Context;
use std::alloc::{AllocError, Global};

/// Why an UPDATE that was accepted isn't written for a 2-octet-AS peer.
#[derive(Clone, Copy, Debug, PartialEq, Eq)]
pub enum NarrowFault {
    /// The message would have more than 4096 octets (RFC 4271, section 4.1).
    TooLong,
    /// An allocation failed.
    Memory,
}

impl From<AllocError> for NarrowFault {
    ghost from_gives = { λ _ e. e ≡ Memory };

    fn from(_refused: AllocError) -> NarrowFault {
        NarrowFault::Memory
    }
}

/// The same session, except for the width of its AS numbers.
fn two_octets(ctx: &Context) -> Context
    ensures { result ≡ with_as4 false ctx.now }
{
    Context { as4: false, ..*ctx }
}

/// The attributes of types that aren't recognised, by type.
#[inline(never)]
fn by_type<'a>(view: &UpdateView<'a>) -> ByType<'a>
    ensures { IsByType result (update_value view.now).attrs.others }
{
    let mut place = ByType::new();
    view.sort_others(&mut place);
    place
}

/// Appends the attributes as they are sent; after an error some octets may remain.
fn put_told(
    alloc: Global,
    ctx: &Context,
    view: &UpdateView<'_>,
    out: &mut Vec<u8>,
) -> Result<(), AllocError>
    requires narrow { ctx.now.as4 ≡ false }
    requires writable { AllByRecursion (λ a. is_writable ctx.now a ≡ true) (attr_list (narrowed (update_value view.now).attrs)) }
    ensures ok { OnOk result (out.new.items ≡ out.old.items ++ attributes_octets ctx.now (narrowed (update_value view.now).attrs)) }
    ensures err { OnErr result (Extends out.old.items out.new.items) }
{
    let others = view.others(alloc)?;
    let by_type = if others.len() > FEW {
        Some(by_type(view))
    } else {
        None
    };
    let sorted = SortedOthers::new(others.as_slice(), by_type.as_ref());
    put_told_attrs(ctx, view.kept(), &sorted, out)
}

/// Appends the parts of a body, and room for the lengths of the first two; after an error some octets may remain.
fn put_parts(
    alloc: Global,
    ctx: &Context,
    view: &UpdateView<'_>,
    out: &mut Vec<u8>,
) -> Result<Places, AllocError>
    requires narrow { ctx.now.as4 ≡ false }
    requires writable { AllByRecursion (λ a. is_writable ctx.now a ≡ true) (attr_list (narrowed (update_value view.now).attrs)) }
    ensures ok { IfOk result (λ p. LaysOutBody ctx.now (narrowed_update (update_value view.now)) (length out.old.items) out.old.items out.new.items p) }
    ensures err { OnErr result (Extends out.old.items out.new.items) }
{
    put_room(out)?;
    view.withdrawn().write(out)?;
    let attributes = out.len();
    put_room(out)?;
    put_told(alloc, ctx, view, out)?;
    let nlri = out.len();
    view.nlri().write(out)?;
    Ok(Places { attributes, nlri })
}

impl UpdateView<'_> {
    /// Appends the body of the UPDATE as sent to a 2-octet-AS peer (RFC 6793, section 4.2.2), in its one written form: what
    /// [`narrow_update`](crate::narrow_update) and then [`write_update`](crate::write_update) would append in the same session with two octets. No
    /// list of what it holds is made, and nothing is tested again; only attributes of types that aren't recognised need an allocation.
    ///
    /// # Errors
    /// `TooLong` where the message would have more than 4096 octets, `Memory` where an allocation failed; nothing is appended then.
    pub fn write_narrowed(
        &self,
        alloc: Global,
        ctx: &Context,
        out: &mut Vec<u8>,
    ) -> Result<(), NarrowFault>
        requires { CanBeTold ctx.now (update_value self.now) }
        ensures too_long { IsErrOf result TooLong → IsTrue (is_too_long (with_as4 false ctx.now) (narrowed_update (update_value self.now))) }
        ensures fits { OnOk result (is_too_long (with_as4 false ctx.now) (narrowed_update (update_value self.now)) ≡ false) }
        ensures ok { OnOk result (out.new.items ≡ out.old.items ++ written_body (with_as4 false ctx.now) (narrowed_update (update_value self.now))) }
        ensures err { OnErr result (out.new.items ≡ out.old.items) }
    {
        let start = out.len();
        let narrow = two_octets(ctx);
        let Ok(places) = put_parts(alloc, &narrow, self, out) else {
            out.truncate(start);
            return Err(NarrowFault::Memory);
        };
        if out.len() - start > LONGEST_BODY {
            out.truncate(start);
            return Err(NarrowFault::TooLong);
        }
        set_lengths(start, places, out);
        Ok(())
    }
}
