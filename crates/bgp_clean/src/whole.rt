//! A whole message that is passed on: room for a header comes first, then the body, then the header.

ghost use Rattle.std.specs.Prelude.{◌≡◌, ◌+◌, ◌<◌, ◌≤◌, ◌++◌, length, OnOk, OnErr};
ghost use Rattle.bgp_frame.specs.Prelude.{octets_of, IsLength};
ghost use Rattle.bgp_clean.specs.steps.Bodies.{kind_in, octets_in, message_of, IsWritable};

use crate::part::PartView;
use bgp_frame::Kind;
use bgp_msg::put_header;
use bgp_open::Context;
use bgp_update::{Chosen, UpdateView};
use bgp_wire::Output;
use std::alloc::AllocError;

/// A body that is passed on.
#[derive(Clone, Copy)]
pub(crate) enum Body<'c, 'b, 'a> {
    /// Of a part of an UPDATE.
    Part(&'c PartView<'c, 'b, 'a>),
    /// Of an UPDATE, with these attributes.
    Update(&'c Chosen<'b, 'a>),
    /// Of the UPDATE that withdraws the routes of one.
    Withdrawal(&'c UpdateView<'a>),
    /// Of a message of this kind, unchanged.
    Same(Kind, &'c [u8]),
}

/// The kind of the message.
fn kind_of(body: &Body<'_, '_, '_>) -> Kind
    ensures { result ≡ kind_in body.now }
{
    match body {
        Body::Part(_) | Body::Update(_) | Body::Withdrawal(_) => Kind::Update,
        Body::Same(kind, _) => *kind,
    }
}

/// Appends a body.
fn put_body<O: Output>(
    ctx: &Context,
    body: &Body<'_, '_, '_>,
    out: &mut O,
) -> Result<(), AllocError>
    requires writable { IsWritable ctx.now body.now }
    requires allowed { IsLength (kind_in body.now) (19 + length (octets_in ctx.now body.now)) }
    ensures ok { OnOk result (O.written out.new ≡ O.written out.old ++ octets_in ctx.now body.now) }
    ensures err { OnErr result (O.written out.new ≡ O.written out.old) }
    ensures full { OnErr result (O.room < length (O.written out.old) + length (octets_in ctx.now body.now)) }
{
    match body {
        Body::Part(part) => part.write(ctx, out),
        Body::Update(chosen) => chosen.write(ctx, out),
        Body::Withdrawal(view) => view.write_withdrawal(out),
        Body::Same(_, octets) => out.put(octets),
    }
}

/// Appends a whole message.
pub(crate) fn put_whole<O: Output>(
    ctx: &Context,
    body: &Body<'_, '_, '_>,
    out: &mut O,
) -> Result<(), AllocError>
    requires writable { IsWritable ctx.now body.now }
    requires allowed { IsLength (kind_in body.now) (19 + length (octets_in ctx.now body.now)) }
    ensures ok { OnOk result (O.written out.new ≡ O.written out.old ++ octets_of (message_of ctx.now body.now)) }
    ensures most { OnOk result (length (O.written out.new) ≤ length (O.written out.old) + 4096) }
    ensures err { OnErr result (O.written out.new ≡ O.written out.old) }
    ensures full { OnErr result (O.room < length (O.written out.old) + 4096) }
{
    let start = out.len();
    out.put(&[255; 19])?;
    match put_body(ctx, body, out) {
        Ok(()) => {
            put_header(kind_of(body), start, out);
            Ok(())
        }
        Err(refused) => {
            out.truncate(start);
            Err(refused)
        }
    }
}
