//! The object of a ROUTE-REFRESH.

ghost use Rattle.std.specs.Prelude.{◌≡◌, ◌++◌, OnOk};
ghost use Rattle.bgp_text.specs.Below.{string_bytes, refresh_value};
ghost use Rattle.bgp_text.specs.JsonRefresh.{refresh_json, refresh_members};

use crate::json::{put_line_end, put_number_member};
use crate::json_outcome::put_judged;
use bgp_refresh::RefreshView;
use std::alloc::AllocError;

/// Adds the members of a ROUTE-REFRESH.
pub(crate) fn put_refresh_members(
    text: &mut String,
    place: u64,
    len: u16,
    refresh: &RefreshView<'_>,
) -> Result<(), AllocError>
    ensures { OnOk result (string_bytes text.new ≡ string_bytes text.old ++ refresh_members place len (refresh_value refresh.now)) }
{
    put_judged(text, place, len, "ROUTE-REFRESH", "take")?;
    put_number_member(text, "afi", u32::from(refresh.afi))?;
    put_number_member(text, "safi", u32::from(refresh.safi))?;
    put_number_member(text, "subtype", u32::from(refresh.mark.subtype()))
}

/// Adds a ROUTE-REFRESH as a JSON object on a line: its offset in the stream, its length, its family and its subtype.
///
/// # Errors
/// `AllocError` where an allocation failed.
pub fn put_refresh_json(
    text: &mut String,
    place: u64,
    len: u16,
    refresh: &RefreshView<'_>,
) -> Result<(), AllocError>
    ensures { OnOk result (string_bytes text.new ≡ string_bytes text.old ++ refresh_json place len (refresh_value refresh.now)) }
{
    put_refresh_members(text, place, len, refresh)?;
    put_line_end(text)
}
