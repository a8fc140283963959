//! The fields of a message, and the octets of its faults.

ghost use Rattle.std.specs.Prelude.{◌≡◌, ◌≤◌, ◌++◌, length, map, take, drop, nat_le};
ghost use Rattle.bgp_fields.specs.Prelude.{fields_left};
ghost use Rattle.ristulva_c.specs.Context.{context_of};
ghost use Rattle.ristulva_c.specs.Fields.{group_at, group_code, field_told, fields_told, IsFilled, AreFields};

use crate::context::{SessionContext, context_of};
use crate::field_kinds::number_of_kind;
use crate::status::{INCOMPLETE, OK, ROOM};
use bgp_fields::{Field, FieldIter, Group, Listed};
use bgp_frame::{Step, front};

/// A field of a message: octets with one meaning.
#[repr(C)]
#[derive(Clone, Copy)]
pub struct ToldField {
    /// Its offset in the message.
    pub at: u16,
    /// Its length: at least one octet.
    pub len: u16,
    /// The offset of its attribute, parameter or capability; 0 for none.
    pub group: u16,
    /// What it is: 1 to 44.
    pub kind: u8,
    /// The type or code of its attribute, parameter or capability; 0 for none.
    pub code: u8,
}

/// The first `len` octets.
pub(crate) fn first(octets: &[u8], len: usize) -> &[u8]
    ensures { result.now ≡ take len octets.now }
{
    let (front, _) = octets.split_at(len.min(octets.len()));
    front
}

/// Where a group begins.
fn group_at(group: Option<Group>) -> u16
    ensures { result ≡ group_at group }
{
    match group {
        None => 0,
        Some(group) => group.at,
    }
}

/// The type or code of a group.
fn group_code(group: Option<Group>) -> u8
    ensures { result ≡ group_code group }
{
    match group {
        None => 0,
        Some(group) => group.code,
    }
}

impl Listed for ToldField {
    ghost told = { field_told };

    #[inline(always)]
    fn of(field: Field) -> ToldField {
        ToldField {
            at: field.at,
            len: field.len,
            group: group_at(field.group),
            kind: number_of_kind(field.kind),
            code: group_code(field.group),
        }
    }
}

/// The number of fields.
fn count_fields(fields: FieldIter<'_>) -> usize
    requires { length (fields_left fields) ≤ 4096 }
    ensures { result ≡ length (fields_left fields.entry) }
{
    let mut count = 0;
    let mut left = fields;
    'fields: while left.next().is_some() {
        count += 1;
    }
    count
}

/// Whether there is room for all fields of this number of octets, each of at least one.
fn fit(octets: usize, fields: FieldIter<'_>, room: usize) -> bool
    requires fields { length (fields_left fields) ≤ octets }
    requires octets { octets ≤ 4096 }
    ensures { result ≡ nat_le (length (fields_left fields.entry)) room }
{
    octets <= room || count_fields(fields) <= room
}

/// Lists the fields of a whole message, or of a header with a fault.
fn fill(ctx: &SessionContext, message: &[u8], list: &mut [ToldField], written: &mut usize) -> u32
    requires { length message.now ≤ 4096 }
    ensures { IsFilled (fields_told (context_of ctx.now) message.now) (record { status = result; before = list.old; behind = list.new; written_before = written.old; written_behind = written.new }) }
{
    let fields = FieldIter::new(&context_of(ctx), message);
    if !fit(message.len(), fields, list.len()) {
        return ROOM;
    }
    *written = fields.list(list);
    OK
}

/// Lists all fields of the message that octets begin with, or of a header with a fault, where the list has room for them.
#[unsafe(no_mangle)]
pub extern "C" fn ristulva_fields(
    ctx: &SessionContext,
    octets: &[u8],
    list: &mut [ToldField],
    written: &mut usize,
) -> u32
    ensures { AreFields (context_of ctx.now) octets.now (record { status = result; before = list.old; behind = list.new; written_before = written.old; written_behind = written.new }) }
{
    match front(octets) {
        Step::More => INCOMPLETE,
        Step::Frame(frame) => fill(ctx, first(octets, frame.len as usize), list, written),
        Step::Fault(_) => fill(ctx, first(octets, 19), list, written),
    }
}
