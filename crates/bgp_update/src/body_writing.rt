//! Writing the body of an UPDATE from its routes and from any source of its attributes by type.

ghost use Rattle.std.specs.Prelude.{◌≡◌, ◌<◌, ◌+◌, ◌≤◌, ◌++◌, true, length, IfOk, OnOk, OnErr};
ghost use Rattle.std.specs.List.{flat_map, AllByRecursion};
ghost use Rattle.bgp_wire.specs.Prelude.{Extends};
ghost use Rattle.bgp_attr.specs.Prelude.{canonical, is_writable, run_octets};
ghost use Rattle.bgp_update.specs.Prelude.{attr_list, attributes_octets, body_octets, slot, LaysOut};
ghost use Rattle.bgp_prefix.specs.Prelude.{prefixes_left};

use crate::laying::{Places, put_room, set_lengths};
use bgp_attr::{AttrView, write_attr_view};
use bgp_open::Context;
use bgp_prefix::PrefixIter4;
use bgp_wire::Output;
use std::alloc::AllocError;

/// A source of the attributes of an UPDATE, each by its type.
pub trait HasAttributes<'a> {
    ghost use Rattle.std.specs.Prelude.{◌≡◌};
    ghost use Rattle.std.specs.List.{flat_map};
    ghost use Rattle.bgp_attr.specs.AttrView.{attr_value};
    ghost use Rattle.bgp_update.specs.declared.attrs.Attrs.{Attrs};
    ghost use Rattle.bgp_update.specs.Fields.{present};
    ghost use Rattle.bgp_update.specs.Slots.{slot, attr_list};

    /// The attributes.
    ghost attrs: { Self → Attrs };

    /// The attribute of a type.
    fn attribute(&self, kind: u8) -> Option<AttrView<'a>>
        ensures { present attr_value result ≡ slot (attrs self.now) kind };

    /// The types to look at, in the order in which they are written: each attribute has one of them.
    fn types(&self) -> &'static [u8]
        ensures { flat_map (slot (attrs self.now)) result.now ≡ attr_list (attrs self.now) };
}

/// The routes of an UPDATE in its classic fields: two runs of withdrawn routes, one after the other, and the NLRI (RFC 4271, section 4.3).
#[derive(Clone, Copy)]
pub struct ClassicRoutes<'a> {
    /// Withdrawn routes.
    pub withdrawn: PrefixIter4<'a>,
    /// More withdrawn routes.
    pub gone: PrefixIter4<'a>,
    /// Announced routes.
    pub nlri: PrefixIter4<'a>,
}

/// Appends the attribute of a type, where there is one.
fn put_attribute<'a, S: HasAttributes<'a>, O: Output>(
    ctx: &Context,
    attrs: &S,
    kind: u8,
    out: &mut O,
) -> Result<(), AllocError>
    requires { AllByRecursion (λ a. is_writable ctx.now a ≡ true) (slot (S.attrs attrs.now) kind) }
    ensures ok { OnOk result (O.written out.new ≡ O.written out.old ++ flat_map (canonical ctx.now) (slot (S.attrs attrs.now) kind)) }
    ensures err { OnErr result (Extends (O.written out.old) (O.written out.new)) }
    ensures full { OnErr result (O.room < length (O.written out.old) + length (flat_map (canonical ctx.now) (slot (S.attrs attrs.now) kind))) }
{
    match attrs.attribute(kind) {
        None => Ok(()),
        Some(attr) => write_attr_view(ctx, &attr, out),
    }
}

/// Appends the attributes; after an error some octets may remain.
fn put_attributes<'a, S: HasAttributes<'a>, O: Output>(
    ctx: &Context,
    attrs: &S,
    out: &mut O,
) -> Result<(), AllocError>
    requires { AllByRecursion (λ a. is_writable ctx.now a ≡ true) (attr_list (S.attrs attrs.now)) }
    ensures ok { OnOk result (O.written out.new ≡ O.written out.old ++ attributes_octets ctx.now (S.attrs attrs.now)) }
    ensures err { OnErr result (Extends (O.written out.old) (O.written out.new)) }
    ensures full { OnErr result (O.room < length (O.written out.old) + length (attributes_octets ctx.now (S.attrs attrs.now))) }
{
    let kinds = attrs.types();
    'types: for kind in kinds {
        put_attribute(ctx, attrs, *kind, out)?;
    }
    Ok(())
}

/// Appends the withdrawn routes.
fn put_withdrawn<O: Output>(routes: &ClassicRoutes<'_>, out: &mut O) -> Result<(), AllocError>
    ensures ok { OnOk result (O.written out.new ≡ O.written out.old ++ run_octets (prefixes_left routes.now.withdrawn ++ prefixes_left routes.now.gone)) }
    ensures err { OnErr result (Extends (O.written out.old) (O.written out.new)
        × (O.room < length (O.written out.old) + length (run_octets (prefixes_left routes.now.withdrawn ++ prefixes_left routes.now.gone)))) }
{
    routes.withdrawn.write(out)?;
    routes.gone.write(out)
}

/// Appends the parts of a body, and room for the lengths of the first two; after an error some octets may remain.
fn put_parts<'a, S: HasAttributes<'a>, O: Output>(
    ctx: &Context,
    routes: &ClassicRoutes<'a>,
    attrs: &S,
    out: &mut O,
) -> Result<Places, AllocError>
    requires { AllByRecursion (λ a. is_writable ctx.now a ≡ true) (attr_list (S.attrs attrs.now)) }
    ensures ok { IfOk result (λ p. LaysOut (run_octets (prefixes_left routes.now.withdrawn ++ prefixes_left routes.now.gone)) (attributes_octets ctx.now (S.attrs attrs.now))
        (run_octets (prefixes_left routes.now.nlri)) (length (O.written out.old)) (O.written out.old) (O.written out.new) p) }
    ensures err { OnErr result (Extends (O.written out.old) (O.written out.new)
        × (O.room < length (O.written out.old) + (4 + length (run_octets (prefixes_left routes.now.withdrawn ++ prefixes_left routes.now.gone))
        + length (attributes_octets ctx.now (S.attrs attrs.now)) + length (run_octets (prefixes_left routes.now.nlri))))) }
{
    put_room(out)?;
    put_withdrawn(routes, out)?;
    let attributes = out.len();
    put_room(out)?;
    put_attributes(ctx, attrs, out)?;
    let nlri = out.len();
    routes.nlri.write(out)?;
    Ok(Places { attributes, nlri })
}

/// Appends the body of an UPDATE with these routes and attributes in its one written form. Nothing is tested again: it is for what was accepted in the context.
///
/// # Errors
/// `AllocError` where there was no room; nothing is appended then.
pub fn write_body<'a, S: HasAttributes<'a>, O: Output>(
    ctx: &Context,
    routes: &ClassicRoutes<'a>,
    attrs: &S,
    out: &mut O,
) -> Result<(), AllocError>
    requires writable { AllByRecursion (λ a. is_writable ctx.now a ≡ true) (attr_list (S.attrs attrs.now)) }
    requires short { length (body_octets (run_octets (prefixes_left routes.now.withdrawn ++ prefixes_left routes.now.gone)) (attributes_octets ctx.now (S.attrs attrs.now))
        (run_octets (prefixes_left routes.now.nlri))) ≤ 4077 }
    ensures ok { OnOk result (O.written out.new ≡ O.written out.old ++ body_octets (run_octets (prefixes_left routes.now.withdrawn ++ prefixes_left routes.now.gone))
        (attributes_octets ctx.now (S.attrs attrs.now)) (run_octets (prefixes_left routes.now.nlri))) }
    ensures err { OnErr result (O.written out.new ≡ O.written out.old) }
    ensures full { OnErr result (O.room < length (O.written out.old) + length (body_octets (run_octets (prefixes_left routes.now.withdrawn ++ prefixes_left routes.now.gone))
        (attributes_octets ctx.now (S.attrs attrs.now)) (run_octets (prefixes_left routes.now.nlri)))) }
{
    let start = out.len();
    match put_parts(ctx, routes, attrs, out) {
        Ok(places) => {
            set_lengths(start, places, out);
            Ok(())
        }
        Err(refused) => {
            out.truncate(start);
            Err(refused)
        }
    }
}
