//! Reading an OPEN.

ghost use Rattle.std.specs.Prelude.{◌≡◌, ◌≢◌, ◌≤◌, length, IfOk, IfErr, Ok};
ghost use Rattle.bgp_open.specs.declared.fault.OpenFault.TheVariants.{Memory};
ghost use Rattle.bgp_open.specs.declared.message.Open.{Open};
ghost use Rattle.bgp_open.specs.Prelude.{IsOpen, open_fault, reading_of, IsReadAs, IsViewedAs};

use crate::fault::OpenFault;
use crate::field::{is_short_hold, is_zero_id};
use crate::message::Open;
use crate::open_view::OpenView;
use crate::parameter::parameters_fault;
use bgp_numbers::VERSION;
use std::alloc::Global;

/// The first fault of a body of at least 10 octets, without memory.
#[tactic(auto, unfolding(crate::specs::OpenFault::open_fault))]
fn open_fault(body: &[u8]) -> Option<OpenFault>
    requires { 10 ≤ length body.now }
    ensures { result ≡ open_fault body.now }
{
    if body[0] != VERSION {
        return Some(OpenFault::Version);
    }
    let parameters = &body[10..];
    if body[9] as usize != parameters.len() {
        return Some(OpenFault::Parameter);
    }
    if let Some(fault) = parameters_fault(parameters) {
        return Some(fault);
    }
    if is_short_hold(u16::from_be_bytes([body[3], body[4]])) {
        return Some(OpenFault::Hold);
    }
    if is_zero_id([body[5], body[6], body[7], body[8]]) {
        return Some(OpenFault::Identifier);
    }
    None
}

/// The view of the body of an OPEN: the octets after the header, at least 10 in a complete OPEN. It allocates nothing.
///
/// # Errors
/// The first fault, by the tests in the order of [`OpenFault`]; never `Memory`.
pub fn view_open(body: &[u8]) -> Result<OpenView<'_>, OpenFault>
    requires { 10 ≤ length body.now }
    ensures value { IsViewedAs result (reading_of body.entry.now) }
    ensures fault { IfErr result (λ fault. fault ≢ Memory) }
{
    match open_fault(body) {
        Some(fault) => Err(fault),
        None => Ok(OpenView::new(body)),
    }
}

/// The value or the first fault, in one clause from which those of [`read_open`] follow.
#[tactic(auto, using(crate::proofs::Readings::fails_as))]
fn reading(alloc: Global, body: &[u8]) -> Result<Open, OpenFault>
    requires { 10 ≤ length body.now }
    ensures { IsReadAs result (reading_of body.now) }
{
    let view = view_open(body)?;
    Ok(view.own(alloc)?)
}

/// Reads the body of an OPEN (RFC 4271, section 4.2): the octets after the header, at least 10 in a complete OPEN.
///
/// # Errors
/// The first fault, by the tests in the order of [`OpenFault`]; `Memory` only where there is none and an allocation failed.
pub fn read_open(alloc: Global, body: &[u8]) -> Result<Open, OpenFault>
    requires { 10 ≤ length body.now }
    // What is read is spelled by the body.
    ensures found { IfOk result (λ o. IsOpen o body.now) }
    // Each OPEN that the body spells is read, unless memory runs out.
    ensures only { (o : Open) → IsOpen o body.now → IsReadAs result (Ok o) }
    // Which fault is the first, and that memory runs out only where there is a value.
    ensures exact { IsReadAs result (reading_of body.now) }
{
    reading(alloc, body)
}
