//! Attributes for 2-octet-AS peers.

ghost use Rattle.std.specs.Prelude.{◌≡◌, option_map, IfOk, OnOk, OnErr};
ghost use Rattle.std.specs.List.{list_any};
ghost use Rattle.bgp_attr.specs.Prelude.{any_number, is_above_two_octets};
ghost use Rattle.bgp_update.specs.Prelude.{HasNoAs4, narrow_number, narrow_segment, narrow_path, wide_path, narrow_aggregator, wide_aggregator, narrowed, narrowed_update};

use crate::attrs::Attrs;
use crate::update::Update;
use bgp_attr::{Aggregator, As4Path, AsPath, Segment};
use bgp_numbers::AS_TRANS;
use bgp_prefix::AsNumber;
use bgp_wire::List;
use std::alloc::{AllocError, Global};
use std::mem;

/// A number that fits two octets, or AS_TRANS.
pub(crate) fn narrow_number(number: AsNumber) -> AsNumber
    ensures { result ≡ narrow_number number }
{
    if number.0 > 65535 {
        AsNumber(u32::from(AS_TRANS))
    } else {
        number
    }
}

/// A segment of such numbers.
fn narrow_segment(alloc: Global, segment: &Segment) -> Result<Segment, AllocError>
    ensures { IfOk result (λ narrow. narrow ≡ narrow_segment segment.now) }
{
    let mut numbers = List::new(alloc);
    'row: for number in segment.numbers.iter() {
        numbers.push(narrow_number(*number))?;
    }
    Ok(Segment {
        kind: segment.kind,
        numbers,
    })
}

/// A path of such numbers.
fn narrow_path(alloc: Global, path: &AsPath) -> Result<AsPath, AllocError>
    ensures { IfOk result (λ narrow. narrow ≡ narrow_path path.now) }
{
    let mut segments = List::new(alloc);
    'path: for segment in path.segments.iter() {
        segments.push(narrow_segment(alloc, segment)?)?;
    }
    Ok(AsPath { segments })
}

/// Whether a number of the segment needs four octets.
fn has_wide_number(segment: &Segment) -> bool
    ensures { result ≡ list_any (λ n. is_above_two_octets n.0) segment.now.numbers }
{
    segment.numbers.iter().any(|n| n.0 > 65535)
}

/// Whether a number of the path needs four octets.
fn is_wide_path(path: &AsPath) -> bool
    ensures { result ≡ any_number is_above_two_octets path.now }
{
    path.segments.iter().any(|segment| has_wide_number(segment))
}

/// Narrows a path to AS numbers of two octets, and returns the AS4_PATH that accompanies it: one exactly where a number needs four.
///
/// # Errors
/// `AllocError` where an allocation failed: nothing has changed then.
#[tactic(auto, using(crate::proofs::Narrowing::path_same))]
fn split_path(alloc: Global, path: &mut Option<AsPath>) -> Result<Option<As4Path>, AllocError>
    ensures wide { IfOk result (λ wide. wide ≡ wide_path path.old) }
    ensures narrow { OnOk result (path.new ≡ option_map narrow_path path.old) }
    ensures err { OnErr result (path.new ≡ path.old) }
{
    let narrow = match path {
        None => return Ok(None),
        Some(whole) if is_wide_path(whole) => narrow_path(alloc, whole)?,
        Some(_) => return Ok(None),
    };
    match mem::replace(path, Some(narrow)) {
        None => Ok(None),
        Some(path) => Ok(Some(As4Path {
            partial: false,
            path,
        })),
    }
}

/// AGGREGATOR.
pub(crate) fn narrow_aggregator(aggregator: Option<Aggregator>) -> Option<Aggregator>
    ensures { result ≡ option_map narrow_aggregator aggregator }
{
    let whole = aggregator?;
    let addr = whole.addr;
    Some(Aggregator {
        asn: narrow_number(whole.asn),
        addr,
        partial: whole.partial,
    })
}

/// AS4_AGGREGATOR, where the number needs four octets.
pub(crate) fn wide_aggregator(aggregator: Option<Aggregator>) -> Option<Aggregator>
    ensures { result ≡ wide_aggregator aggregator }
{
    let whole = aggregator?;
    if whole.asn.0 > 65535 {
        Some(whole)
    } else {
        None
    }
}

/// Changes the attributes to those sent to a 2-octet-AS peer: each number that needs four octets becomes 23456, and
/// AS4_PATH and AS4_AGGREGATOR accompany AS_PATH and AGGREGATOR exactly where one does (RFC 6793, section 4.2.2). All else is unchanged.
///
/// # Errors
/// `AllocError` where an allocation failed: nothing has changed then.
pub fn narrow_in_place(alloc: Global, attrs: &mut Attrs) -> Result<(), AllocError>
    requires { HasNoAs4 attrs.old }
    ensures ok { OnOk result (attrs.new ≡ narrowed attrs.old) }
    ensures err { OnErr result (attrs.new ≡ attrs.old) }
{
    let aggregator = attrs.aggregator;
    attrs.as4_path = split_path(alloc, &mut attrs.as_path)?;
    attrs.aggregator = narrow_aggregator(aggregator);
    attrs.as4_aggregator = wide_aggregator(aggregator);
    Ok(())
}

/// [`narrow_in_place`] of attributes passed by value.
///
/// # Errors
/// `AllocError` where an allocation failed.
pub fn into_narrowed(alloc: Global, attrs: Attrs) -> Result<Attrs, AllocError>
    requires { HasNoAs4 attrs }
    ensures { IfOk result (λ it. it ≡ narrowed attrs) }
{
    let mut told = attrs;
    narrow_in_place(alloc, &mut told)?;
    Ok(told)
}

/// [`narrow_in_place`] of a copy.
///
/// # Errors
/// `AllocError` where an allocation failed.
pub fn narrow(alloc: Global, attrs: &Attrs) -> Result<Attrs, AllocError>
    requires { HasNoAs4 attrs.now }
    ensures { IfOk result (λ it. it ≡ narrowed attrs.now) }
{
    into_narrowed(alloc, attrs.copy(alloc)?)
}

/// The UPDATE as sent to a 2-octet-AS peer: its attributes as by [`narrow`], and its routes unchanged.
///
/// # Errors
/// `AllocError` where an allocation failed.
pub fn narrow_update(alloc: Global, update: &Update) -> Result<Update, AllocError>
    requires { HasNoAs4 update.now.attrs }
    ensures { IfOk result (λ it. it ≡ narrowed_update update.now) }
{
    let withdrawn = update.withdrawn.copy(alloc)?;
    let nlri = update.nlri.copy(alloc)?;
    let attrs = narrow(alloc, &update.attrs)?;
    Ok(Update {
        withdrawn,
        attrs,
        nlri,
    })
}
