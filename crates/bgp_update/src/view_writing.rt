//! Writing an UPDATE from its view, with attributes of types that aren't recognised that a caller chooses.

ghost use Rattle.std.specs.Prelude.{◌≡◌, ◌<◌, ◌+◌, ◌≤◌, ℕ, List, [], ◌∷◌, ◌++◌, if◌then◌else◌, true, length, IfOk, OnOk, OnErr};
ghost use Rattle.std.specs.List.{flat_map, AllByRecursion};
ghost use Rattle.bgp_wire.specs.Prelude.{Extends};
ghost use Rattle.bgp_attr.specs.declared.attr.Attr.TheVariants as attr;
ghost use Rattle.bgp_attr.specs.Prelude.{attr_value, canonical, is_writable, run_octets};
ghost use Rattle.bgp_update.specs.Prelude.{with_others, attr_list, slot, update_among, attributes_octets, written_body, LaysOut};
ghost use Rattle.bgp_update.specs.declared.attrs.TheConstants.{RECOGNISED};
ghost use Rattle.bgp_update.specs.steps.Progress.{IsSoFar};
ghost use Rattle.bgp_prefix.specs.Prelude.{prefixes_left};

use crate::attrs::RECOGNISED;
use crate::chosen::Chosen;
use crate::kept_view::KeptView;
use crate::laying::{Places, put_room, set_lengths};
use crate::slot_iter::{OfType, view_slot};
use crate::view::UpdateView;
use bgp_attr::{AttrView, write_attr_view};
use bgp_open::Context;
use bgp_prefix::PrefixIter4;
use bgp_wire::Output;
use std::alloc::AllocError;

/// Appends an attribute. A call of its own keeps its callers, which look up the attributes, small.
#[inline(never)]
fn put_view<O: Output>(ctx: &Context, view: &AttrView<'_>, out: &mut O) -> Result<(), AllocError>
    requires { is_writable ctx.now (attr_value view.now) ≡ true }
    ensures ok { OnOk result (O.written out.new ≡ O.written out.old ++ canonical ctx.now (attr_value view.now)) }
    ensures err { OnErr result (O.written out.new ≡ O.written out.old) }
    ensures full { OnErr result (O.room < length (O.written out.old) + length (canonical ctx.now (attr_value view.now))) }
{
    write_attr_view(ctx, view, out)
}

/// Appends the attribute of a type, where there is one.
#[inline(always)]
fn put_slot<'a, S: OfType<'a>, O: Output>(
    ctx: &Context,
    kept: &KeptView<'a>,
    others: &S,
    kind: u8,
    out: &mut O,
) -> Result<(), AllocError>
    requires { AllByRecursion (λ a. is_writable ctx.now a ≡ true) (slot (with_others kept.now (S.others others.now)) kind) }
    ensures ok { OnOk result (O.written out.new ≡ O.written out.old ++ flat_map (canonical ctx.now) (slot (with_others kept.now (S.others others.now)) kind)) }
    ensures err { OnErr result (Extends (O.written out.old) (O.written out.new)) }
    ensures full { OnErr result (O.room < length (O.written out.old) + length (flat_map (canonical ctx.now) (slot (with_others kept.now (S.others others.now)) kind))) }
{
    match view_slot(kept, others, kind) {
        None => Ok(()),
        Some(attr) => put_view(ctx, &attr, out),
    }
}

/// Appends the attribute of the next of the recognised types, where there was room for those before.
#[inline(always)]
fn put_next<'a, const AT: usize, S: OfType<'a>, O: Output>(
    before: Result<(), AllocError>,
    ctx: &Context,
    kept: &KeptView<'a>,
    others: &S,
    out: &mut O,
) -> Result<(), AllocError>
    requires at { AT < length RECOGNISED }
    requires writable { AllByRecursion (λ a. is_writable ctx.now a ≡ true) (flat_map (slot (with_others kept.now (S.others others.now))) RECOGNISED) }
    ensures { (start : List ℕ) → IsSoFar (canonical ctx.now) (slot (with_others kept.now (S.others others.now))) RECOGNISED O.room start AT (O.written out.old) before
        → IsSoFar (canonical ctx.now) (slot (with_others kept.now (S.others others.now))) RECOGNISED O.room start (AT + 1) (O.written out.new) result }
{
    before?;
    put_slot(ctx, kept, others, RECOGNISED[AT], out)
}

/// Appends the attributes of the recognised types, each by a call of its own, in which the type is a constant.
fn put_recognised<'a, S: OfType<'a>, O: Output>(
    ctx: &Context,
    kept: &KeptView<'a>,
    others: &S,
    out: &mut O,
) -> Result<(), AllocError>
    requires { AllByRecursion (λ a. is_writable ctx.now a ≡ true) (flat_map (slot (with_others kept.now (S.others others.now))) RECOGNISED) }
    ensures { IsSoFar (canonical ctx.now) (slot (with_others kept.now (S.others others.now))) RECOGNISED O.room (O.written out.old) (length RECOGNISED) (O.written out.new) result }
{
    let mut put = put_next::<0, S, O>(Ok(()), ctx, kept, others, out);
    put = put_next::<1, S, O>(put, ctx, kept, others, out);
    put = put_next::<2, S, O>(put, ctx, kept, others, out);
    put = put_next::<3, S, O>(put, ctx, kept, others, out);
    put = put_next::<4, S, O>(put, ctx, kept, others, out);
    put = put_next::<5, S, O>(put, ctx, kept, others, out);
    put = put_next::<6, S, O>(put, ctx, kept, others, out);
    put = put_next::<7, S, O>(put, ctx, kept, others, out);
    put = put_next::<8, S, O>(put, ctx, kept, others, out);
    put = put_next::<9, S, O>(put, ctx, kept, others, out);
    put = put_next::<10, S, O>(put, ctx, kept, others, out);
    put = put_next::<11, S, O>(put, ctx, kept, others, out);
    put = put_next::<12, S, O>(put, ctx, kept, others, out);
    put
}

/// Appends the attributes; after an error some octets may remain.
fn put_attrs<'a, S: OfType<'a>, O: Output>(
    ctx: &Context,
    kept: &KeptView<'a>,
    others: &S,
    out: &mut O,
) -> Result<(), AllocError>
    requires { AllByRecursion (λ a. is_writable ctx.now a ≡ true) (attr_list (with_others kept.now (S.others others.now))) }
    ensures ok { OnOk result (O.written out.new ≡ O.written out.old ++ attributes_octets ctx.now (with_others kept.now (S.others others.now))) }
    ensures err { OnErr result (Extends (O.written out.old) (O.written out.new)) }
    ensures full { OnErr result (O.room < length (O.written out.old) + length (attributes_octets ctx.now (with_others kept.now (S.others others.now)))) }
{
    if others.are_none() {
        return put_recognised(ctx, kept, others, out);
    }
    let kinds = others.types();
    'types: for kind in kinds {
        put_slot(ctx, kept, others, *kind, out)?;
    }
    Ok(())
}

/// Appends the parts of a body, and room for the lengths of the first two; after an error some octets may remain.
fn put_parts<'a, S: OfType<'a>, O: Output>(
    ctx: &Context,
    withdrawn: PrefixIter4<'a>,
    kept: &KeptView<'a>,
    others: &S,
    nlri: PrefixIter4<'a>,
    out: &mut O,
) -> Result<Places, AllocError>
    requires { AllByRecursion (λ a. is_writable ctx.now a ≡ true) (attr_list (with_others kept.now (S.others others.now))) }
    ensures ok { IfOk result (λ p. LaysOut (run_octets (prefixes_left withdrawn.entry)) (attributes_octets ctx.now (with_others kept.now (S.others others.now))) (run_octets (prefixes_left nlri.entry)) (length (O.written out.old)) (O.written out.old) (O.written out.new) p) }
    ensures err { OnErr result (Extends (O.written out.old) (O.written out.new) × (O.room < length (O.written out.old) + (4 + length (run_octets (prefixes_left withdrawn.entry)) + length (attributes_octets ctx.now (with_others kept.now (S.others others.now))) + length (run_octets (prefixes_left nlri.entry))))) }
{
    put_room(out)?;
    withdrawn.write(out)?;
    let attributes = out.len();
    put_room(out)?;
    put_attrs(ctx, kept, others, out)?;
    let begin = out.len();
    nlri.write(out)?;
    Ok(Places {
        attributes,
        nlri: begin,
    })
}

/// Appends a body.
fn put_body<'a, S: OfType<'a>, O: Output>(
    ctx: &Context,
    view: &UpdateView<'a>,
    others: &S,
    out: &mut O,
) -> Result<(), AllocError>
    requires writable { AllByRecursion (λ a. is_writable ctx.now a ≡ true) (attr_list (update_among view.now (S.others others.now)).attrs) }
    requires short { length (written_body ctx.now (update_among view.now (S.others others.now))) ≤ 4077 }
    ensures ok { OnOk result (O.written out.new ≡ O.written out.old ++ written_body ctx.now (update_among view.now (S.others others.now))) }
    ensures err { OnErr result (O.written out.new ≡ O.written out.old) }
    ensures full { OnErr result (O.room < length (O.written out.old) + length (written_body ctx.now (update_among view.now (S.others others.now)))) }
{
    let start = out.len();
    match put_parts(
        ctx,
        view.withdrawn(),
        &view.summary.kept,
        others,
        view.nlri(),
        out,
    ) {
        Ok(places) => {
            set_lengths(start, places, out);
            Ok(())
        }
        Err(refused) => {
            out.truncate(start);
            Err(refused)
        }
    }
}

impl Chosen<'_, '_> {
    ghost use Rattle.bgp_update.specs.Chosen.{chosen_update};

    /// Appends the body of the UPDATE with these attributes in its one written form, as [`write_update`](crate::write_update) does. No list of what
    /// it holds is made, and nothing is tested again: it is for what was accepted in the context.
    ///
    /// # Errors
    /// `AllocError` where there was no room; nothing is appended then.
    pub fn write<O: Output>(&self, ctx: &Context, out: &mut O) -> Result<(), AllocError>
        requires writable { AllByRecursion (λ a. is_writable ctx.now a ≡ true) (attr_list (chosen_update self.now).attrs) }
        requires short { length (written_body ctx.now (chosen_update self.now)) ≤ 4077 }
        ensures ok { OnOk result (O.written out.new ≡ O.written out.old ++ written_body ctx.now (chosen_update self.now)) }
        ensures err { OnErr result (O.written out.new ≡ O.written out.old) }
        ensures full { OnErr result (O.room < length (O.written out.old) + length (written_body ctx.now (chosen_update self.now))) }
    {
        put_body(ctx, self.view, self, out)
    }
}
