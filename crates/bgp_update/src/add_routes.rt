//! Prefixes, collected.

ghost use Rattle.std.specs.Prelude.{◌≡◌, ◌++◌, IfOk, OnOk};
ghost use Rattle.bgp_prefix.specs.Prelude.{prefixes_left};

use bgp_prefix::{Prefix, PrefixIter};
use bgp_wire::List;
use std::alloc::{AllocError, Global};

/// Appends prefixes.
pub(crate) fn add_routes<const W: usize>(
    routes: PrefixIter<'_, W>,
    to: &mut Vec<Prefix<W>>,
) -> Result<(), AllocError>
    ensures { OnOk result (to.new.items ≡ to.old.items ++ prefixes_left routes.entry) }
{
    let mut left = routes;
    'run: while let Some(prefix) = left.next() {
        to.push(prefix)?;
    }
    Ok(())
}

/// Prefixes in a list of their own, with the capacity for exactly these.
pub(crate) fn own_routes<const W: usize>(
    alloc: Global,
    routes: PrefixIter<'_, W>,
) -> Result<List<Prefix<W>>, AllocError>
    ensures { IfOk result (λ owned. owned ≡ prefixes_left routes.entry) }
{
    let mut owned = Vec::with_capacity(alloc, routes.left())?;
    add_routes(routes, &mut owned)?;
    Ok(List::from_vec(owned))
}
