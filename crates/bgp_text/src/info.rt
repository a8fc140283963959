//! The data of NOTIFICATIONs, and NOTIFICATIONs, as text.

ghost use Rattle.std.specs.Prelude.{◌≡◌, ◌++◌, IfOk, OnOk};
ghost use Rattle.bgp_text.specs.Below.{string_bytes};
ghost use Rattle.bgp_text.specs.Info.{info_text, notification_text};

use bgp_frame::Notification;
use std::alloc::{AllocError, Global};

/// Octets as hexadecimal text, or a dash where there are none.
///
/// # Errors
/// `AllocError` where an allocation failed.
#[tactic(auto, unfolding(crate::specs::Info::info_text))]
pub fn info_text(alloc: Global, info: &[u8]) -> Result<String, AllocError>
    ensures { IfOk result (λ text. string_bytes text ≡ info_text info.now) }
{
    if info.is_empty() {
        return "-".to_string(alloc);
    }
    hex::encode(alloc, info)
}

/// Adds octets as [`info_text`] prints them, without an allocation where there are none.
#[tactic(auto, unfolding(crate::specs::Info::info_text))]
pub(crate) fn put_info(alloc: Global, text: &mut String, info: &[u8]) -> Result<(), AllocError>
    ensures { OnOk result (string_bytes text.new ≡ string_bytes text.old ++ info_text info.now) }
{
    if info.is_empty() {
        return text.push_str("-");
    }
    let digits = hex::encode(alloc, info)?;
    text.push_str(digits.as_str())
}

/// A NOTIFICATION's code, subcode and data, while they are borrowed.
#[tactic(auto, unfolding(crate::specs::Info::notification_text))]
pub(crate) fn told_text(
    alloc: Global,
    code: u8,
    subcode: u8,
    info: &[u8],
) -> Result<String, AllocError>
    ensures { IfOk result (λ text. string_bytes text ≡ notification_text (record { code = code; subcode = subcode; info = record { items = info.now } })) }
{
    let info = info_text(alloc, info)?;
    let mut text = String::new(alloc);
    write!(text, "{code}/{subcode} {info}")?;
    Ok(text)
}

/// A NOTIFICATION's code, subcode and data, as in `1/2 0012`.
///
/// # Errors
/// `AllocError` where an allocation failed.
pub fn notification_text(alloc: Global, told: &Notification) -> Result<String, AllocError>
    ensures { IfOk result (λ text. string_bytes text ≡ notification_text told.now) }
{
    told_text(alloc, told.code, told.subcode, &told.info)
}
