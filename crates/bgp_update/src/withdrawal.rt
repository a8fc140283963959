//! Writing the UPDATE that withdraws the routes of an UPDATE.

ghost use Rattle.std.specs.Prelude.{◌≡◌, ◌<◌, ◌+◌, ◌≤◌, ◌++◌, [], true, false, length, IfOk, OnOk, OnErr};
ghost use Rattle.bgp_attr.specs.Prelude.{run_octets};
ghost use Rattle.bgp_attr.specs.declared.mp.MpUnreach.TheVariants as mp_unreach;
ghost use Rattle.bgp_wire.specs.Prelude.{Extends};
ghost use Rattle.bgp_numbers.specs.declared.afi.TheConstants.{IPV6};
ghost use Rattle.bgp_update.specs.Prelude.{routes_value, gone_octets, whole_unreach, withdrawal_octets, LaysOut};
ghost use Rattle.bgp_update.specs.steps.RoutesView.{all_routes};

use crate::laying::{Places, put_room, set_lengths};
use crate::routes_view::RoutesView;
use crate::view::UpdateView;
use bgp_attr::{AttrView, MpUnreachView, begin_attr, finish_attr};
use bgp_numbers::{afi, safi};
use bgp_prefix::PrefixIter6;
use bgp_wire::Output;
use std::alloc::AllocError;

/// Appends all IPv4 routes.
fn put_ip4<O: Output>(routes: &RoutesView<'_>, out: &mut O) -> Result<(), AllocError>
    ensures ok { OnOk result (O.written out.new ≡ O.written out.old ++ run_octets (all_routes routes.now).ip4) }
    ensures err { OnErr result (Extends (O.written out.old) (O.written out.new) × (O.room < length (O.written out.old) + length (run_octets (all_routes routes.now).ip4))) }
{
    routes.withdrawn.write(out)?;
    routes.gone.ip4.write(out)?;
    routes.reached.ip4.write(out)?;
    routes.nlri.write(out)
}

/// Appends all IPv6 routes.
fn put_ip6<O: Output>(routes: &RoutesView<'_>, out: &mut O) -> Result<(), AllocError>
    ensures ok { OnOk result (O.written out.new ≡ O.written out.old ++ run_octets (all_routes routes.now).ip6) }
    ensures err { OnErr result (Extends (O.written out.old) (O.written out.new) × (O.room < length (O.written out.old) + length (run_octets (all_routes routes.now).ip6))) }
{
    routes.gone.ip6.write(out)?;
    routes.reached.ip6.write(out)
}

/// Whether there are IPv6 routes.
fn has_ip6(routes: &RoutesView<'_>) -> bool
    ensures some { result ≡ true → gone_octets (all_routes routes.now).ip6 ≡ whole_unreach (mp_unreach.Ip6 (all_routes routes.now).ip6) }
    ensures none { result ≡ false → (all_routes routes.now).ip6 ≡ [] }
{
    routes.gone.ip6.has_next() || routes.reached.ip6.has_next()
}

/// Appends MP_UNREACH_NLRI with all IPv6 routes, where there are some.
fn put_gone<O: Output>(routes: &RoutesView<'_>, out: &mut O) -> Result<(), AllocError>
    requires { length (run_octets (all_routes routes.now).ip6) ≤ 4077 }
    ensures ok { OnOk result (O.written out.new ≡ O.written out.old ++ gone_octets (all_routes routes.now).ip6) }
    ensures err { OnErr result (Extends (O.written out.old) (O.written out.new) × (O.room < length (O.written out.old) + length (gone_octets (all_routes routes.now).ip6))) }
{
    if !has_ip6(routes) {
        return Ok(());
    }
    let start = out.len();
    begin_attr(out)?;
    let [high, low] = afi::IPV6.to_be_bytes();
    out.put(&[high, low, safi::UNICAST])?;
    put_ip6(routes, out)?;
    let named = AttrView::MpUnreach(MpUnreachView::Ip6(PrefixIter6::new(&[])));
    finish_attr(&named, start, out)
}

/// Appends the parts of a body, and room for the lengths of the first two; after an error some octets may remain.
fn put_parts<O: Output>(routes: RoutesView<'_>, out: &mut O) -> Result<Places, AllocError>
    requires { length (withdrawal_octets (all_routes routes)) ≤ 4077 }
    ensures ok { IfOk result (λ p. LaysOut (run_octets (all_routes routes.entry).ip4) (gone_octets (all_routes routes.entry).ip6) [] (length (O.written out.old)) (O.written out.old) (O.written out.new) p) }
    ensures err { OnErr result (Extends (O.written out.old) (O.written out.new) × (O.room < length (O.written out.old) + length (withdrawal_octets (all_routes routes.entry)))) }
{
    put_room(out)?;
    put_ip4(&routes, out)?;
    let attributes = out.len();
    put_room(out)?;
    put_gone(&routes, out)?;
    let nlri = out.len();
    Ok(Places { attributes, nlri })
}

impl UpdateView<'_> {
    /// Appends the body of the UPDATE that withdraws all routes of this one: IPv4 routes in Withdrawn Routes, those of Withdrawn Routes first, then those
    /// of MP_UNREACH_NLRI, MP_REACH_NLRI and NLRI; IPv6 routes in MP_UNREACH_NLRI, none where there are none. No list of them is made.
    ///
    /// # Errors
    /// `AllocError` where there was no room; nothing is appended then.
    pub fn write_withdrawal<O: Output>(&self, out: &mut O) -> Result<(), AllocError>
        requires { length (withdrawal_octets (routes_value self.now)) ≤ 4077 }
        ensures ok { OnOk result (O.written out.new ≡ O.written out.old ++ withdrawal_octets (routes_value self.now)) }
        ensures err { OnErr result (O.written out.new ≡ O.written out.old) }
        ensures full { OnErr result (O.room < length (O.written out.old) + length (withdrawal_octets (routes_value self.now))) }
    {
        let start = out.len();
        match put_parts(RoutesView::of(self), out) {
            Ok(places) => {
                set_lengths(start, places, out);
                Ok(())
            }
            Err(refused) => {
                out.truncate(start);
                Err(refused)
            }
        }
    }
}
