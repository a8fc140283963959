//! The line of a ROUTE-REFRESH.

ghost use Rattle.std.specs.Prelude.{◌≡◌, ◌++◌, OnOk};
ghost use Rattle.bgp_text.specs.Below.{string_bytes, refresh_value};
ghost use Rattle.bgp_text.specs.RefreshLine.{mark_text, refresh_line};

use bgp_refresh::{RefreshMark, RefreshView};
use std::alloc::AllocError;

/// Adds what a ROUTE-REFRESH is for.
fn put_mark(text: &mut String, mark: RefreshMark) -> Result<(), AllocError>
    ensures { OnOk result (string_bytes text.new ≡ string_bytes text.old ++ mark_text mark) }
{
    match mark {
        RefreshMark::Request => text.push_str("request"),
        RefreshMark::Begin => text.push_str("begin"),
        RefreshMark::End => text.push_str("end"),
        RefreshMark::Ignored(subtype) => write!(text, "ignored {subtype}"),
    }
}

/// Adds the line of a ROUTE-REFRESH: its offset in the stream, its length, what it is for, and its family.
///
/// # Errors
/// `AllocError` where an allocation failed.
pub fn put_refresh(
    text: &mut String,
    place: u64,
    len: u16,
    refresh: &RefreshView<'_>,
) -> Result<(), AllocError>
    ensures { OnOk result (string_bytes text.new ≡ string_bytes text.old ++ refresh_line place len (refresh_value refresh.now)) }
{
    let afi = refresh.afi;
    let safi = refresh.safi;
    write!(text, "{place} {len} ROUTE-REFRESH ")?;
    put_mark(text, refresh.mark)?;
    write!(text, " {afi} {safi}\n")
}
