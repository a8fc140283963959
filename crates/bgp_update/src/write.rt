//! Writing an UPDATE.

ghost use Rattle.std.specs.Prelude.{◌≡◌, ◌<◌, ◌≤◌, ◌+◌, ◌++◌, ◌↔◌, [], false, true, None, Some, length, IsTrue, IsErrOf, IfOk, OnOk, OnErr};
ghost use Rattle.std.specs.List.{AllByRecursion};
ghost use Rattle.bgp_wire.specs.Prelude.{Extends};
ghost use Rattle.bgp_attr.specs.Prelude.{is_empty, run_octets};
ghost use Rattle.bgp_update.specs.declared.verdict.Verdict.TheVariants.{Take};
ghost use Rattle.bgp_update.specs.declared.invalid.Invalid.{Invalid};
ghost use Rattle.bgp_update.specs.declared.write.WriteFault.TheVariants.{NotValid, TooLong, Memory};
ghost use Rattle.bgp_update.specs.steps.Layout.{HasPartRanges, LaysOutBody};
ghost use Rattle.bgp_update.specs.Slots.{attr_list};
ghost use Rattle.bgp_update.specs.Verdict.{verdict_of};
ghost use Rattle.bgp_update.specs.Written.{attributes_octets, written_body, invalid_of, is_valid, is_too_long, HasUpdateRanges};

use crate::invalid::Invalid;
use crate::laying::{LONGEST_BODY, Places, put_room, set_lengths};
use crate::put::put_attributes;
use crate::refusal::first_reason;
use crate::update::Update;
use bgp_open::Context;
use bgp_prefix::write_run;
use bgp_wire::{Counter, Output, Page};
use std::alloc::AllocError;

/// Why a message isn't written: the first of these that holds.
#[derive(Clone, Copy, Debug, PartialEq, Eq)]
pub enum WriteFault {
    /// It isn't valid in the context, for the first of the reasons.
    NotValid(Invalid),
    /// The message would have more than 4096 octets (RFC 4271, section 4.1).
    TooLong,
    /// An allocation failed.
    Memory,
}

impl From<AllocError> for WriteFault {
    ghost from_gives = { λ _ e. e ≡ Memory };

    fn from(_refused: AllocError) -> WriteFault {
        WriteFault::Memory
    }
}

/// Appends the parts of a body, and room for the lengths of the first two; after an error some octets may remain.
fn put_parts<O: Output>(ctx: &Context, update: &Update, out: &mut O) -> Result<Places, AllocError>
    requires filled { AllByRecursion (λ a. is_empty a ≡ false) (attr_list update.now.attrs) }
    requires room { O.room ≤ 65535 }
    ensures ok { IfOk result (λ p. LaysOutBody ctx.now update.now (length (O.written out.old)) (O.written out.old) (O.written out.new) p) }
    ensures ranges { OnOk result (HasPartRanges update.now) }
    ensures err { OnErr result (Extends (O.written out.old) (O.written out.new) × (O.room < length (O.written out.old) + (4 + length (run_octets update.now.withdrawn) + length (attributes_octets ctx.now update.now.attrs) + length (run_octets update.now.nlri)))) }
{
    put_room(out)?;
    write_run(&update.withdrawn, out)?;
    let attributes = out.len();
    put_room(out)?;
    put_attributes(ctx, &update.attrs, out)?;
    let nlri = out.len();
    write_run(&update.nlri, out)?;
    Ok(Places { attributes, nlri })
}

/// Whether the body is longer than a message holds: it is written to a counter with room for that length.
fn is_too_long(ctx: &Context, update: &Update) -> bool
    requires { AllByRecursion (λ a. is_empty a ≡ false) (attr_list update.now.attrs) }
    ensures { result ≡ is_too_long ctx.now update.now }
{
    let mut counter: Counter<LONGEST_BODY> = Counter::new();
    let put = put_parts(ctx, update, &mut counter);
    // For the proof: at most LONGEST_BODY octets were counted.
    let _ = counter.count();
    put.is_err()
}

/// Appends the body of an UPDATE that is valid and fits.
fn append_body(ctx: &Context, update: &Update, out: &mut Vec<u8>) -> Result<(), AllocError>
    requires filled { AllByRecursion (λ a. is_empty a ≡ false) (attr_list update.now.attrs) }
    requires short { length (written_body ctx.now update.now) ≤ 4077 }
    ensures ok { OnOk result (out.new.items ≡ out.old.items ++ written_body ctx.now update.now) }
    ensures ranges { OnOk result (HasPartRanges update.now) }
    ensures err { OnErr result (out.new.items ≡ out.old.items) }
{
    let start = out.len();
    match put_parts(ctx, update, out) {
        Ok(places) => {
            set_lengths(start, places, out);
            Ok(())
        }
        Err(refused) => {
            out.truncate(start);
            Err(refused)
        }
    }
}

/// Most bodies fit in this length: they are written to a buffer of it and copied. Others are measured first.
const SHORT_BODY: usize = 1024;

/// Appends the body of an UPDATE where it is short, and returns true; else appends nothing and returns false.
fn append_short(ctx: &Context, update: &Update, out: &mut Vec<u8>) -> Result<bool, AllocError>
    requires { AllByRecursion (λ a. is_empty a ≡ false) (attr_list update.now.attrs) }
    ensures short { IfOk result (λ short. short ≡ true → (length (written_body ctx.now update.now) ≤ 4077) × (out.new.items ≡ out.old.items ++ written_body ctx.now update.now) × HasPartRanges update.now) }
    ensures long { IfOk result (λ short. short ≡ false → out.new.items ≡ out.old.items) }
    ensures lacks { OnErr result (length (written_body ctx.now update.now) ≤ 4077) }
    ensures err { OnErr result (out.new.items ≡ out.old.items) }
{
    let mut page: Page<SHORT_BODY> = Page::new();
    let Ok(places) = put_parts(ctx, update, &mut page) else {
        return Ok(false);
    };
    // For the proof: at most SHORT_BODY octets are in the page.
    let _ = page.count();
    set_lengths(0, places, &mut page);
    out.extend_from_slice(page.as_slice())?;
    Ok(true)
}

/// Appends the body of an UPDATE that is valid, where it fits.
fn append_valid(ctx: &Context, update: &Update, out: &mut Vec<u8>) -> Result<(), WriteFault>
    requires { AllByRecursion (λ a. is_empty a ≡ false) (attr_list update.now.attrs) }
    ensures valid { (why : Invalid) → IsErrOf result (NotValid why) → ⊥ }
    ensures too_long { IsErrOf result TooLong ↔ IsTrue (is_too_long ctx.now update.now) }
    ensures ok { OnOk result (out.new.items ≡ out.old.items ++ written_body ctx.now update.now) }
    ensures fits { OnOk result ((is_too_long ctx.now update.now ≡ false) × HasPartRanges update.now) }
    ensures err { OnErr result (out.new.items ≡ out.old.items) }
{
    if append_short(ctx, update, out)? {
        return Ok(());
    }
    if is_too_long(ctx, update) {
        return Err(WriteFault::TooLong);
    }
    append_body(ctx, update, out)?;
    Ok(())
}

/// Appends the body of an UPDATE in its one written form (RFC 4271, section 4.3): the shortest lengths, MP_REACH_NLRI and
/// MP_UNREACH_NLRI first (RFC 7606, section 5.1), all other attributes ascending by type.
///
/// # Errors
/// `NotValid` for the first reason why it isn't valid in the context, else `TooLong`, else `Memory` where an allocation failed; nothing
/// is appended then.
pub fn write_update(ctx: &Context, update: &Update, out: &mut Vec<u8>) -> Result<(), WriteFault>
    ensures not_valid { (why : Invalid) → IsErrOf result (NotValid why) ↔ (invalid_of ctx.now update.now ≡ Some why) }
    ensures too_long { IsErrOf result TooLong ↔ (IsTrue (is_valid ctx.now update.now) × IsTrue (is_too_long ctx.now update.now)) }
    ensures ok { OnOk result (out.new.items ≡ out.old.items ++ written_body ctx.now update.now) }
    // What is written is accepted as the UPDATE, without notes.
    ensures taken { OnOk result (verdict_of ctx.now (written_body ctx.now update.now) ≡ Take update.now []) }
    // Each number of it is within its field.
    ensures ranges { OnOk result (HasUpdateRanges update.now) }
    ensures err { OnErr result (out.new.items ≡ out.old.items) }
{
    if let Some(why) = first_reason(ctx, update) {
        return Err(WriteFault::NotValid(why));
    }
    append_valid(ctx, update, out)
}
