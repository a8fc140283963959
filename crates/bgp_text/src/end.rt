//! The line of a stream's end.

ghost use Rattle.std.specs.Prelude.{◌≡◌, ◌++◌, OnOk};
ghost use Rattle.bgp_text.specs.Below.{string_bytes};
ghost use Rattle.bgp_text.specs.End.{end_line};

use bgp_frame::End;
use std::alloc::AllocError;

/// Adds the line that says how a stream ended.
///
/// # Errors
/// `AllocError` where an allocation failed.
pub fn put_end(text: &mut String, end: End) -> Result<(), AllocError>
    ensures { OnOk result (string_bytes text.new ≡ string_bytes text.old ++ end_line end) }
{
    match end {
        End::Reset => text.push_str("end reset\n"),
        End::Head => text.push_str("end head\n"),
        End::Wait(count) => write!(text, "end wait {count}\n"),
    }
}
