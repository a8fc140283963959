//! Lists of JSON.

ghost use Rattle.std.specs.Prelude.{◌≡◌, ◌++◌, OnOk};
ghost use Rattle.bgp_text.specs.Below.{flat_map, string_bytes};
ghost use Rattle.bgp_text.specs.Json.{member, behind_comma, joined, listed};

use crate::json::put_name;
use crate::source::Source;
use std::alloc::AllocError;

/// A value in a list.
pub(crate) trait Element: Copy {
    ghost use Rattle.std.specs.Prelude.{◌≡◌, ◌++◌, ℕ, List, OnOk};
    ghost use Rattle.bgp_text.specs.Below.{string_bytes};

    /// Its JSON text.
    ghost json: { Self → List ℕ };

    /// Adds it.
    fn put_json(&self, text: &mut String) -> Result<(), AllocError>
        ensures { OnOk result (string_bytes text.new ≡ string_bytes text.old ++ json self.now) };
}

/// Adds a value after a comma.
fn put_behind_comma<T: Element>(text: &mut String, value: &T) -> Result<(), AllocError>
    ensures { OnOk result (string_bytes text.new ≡ string_bytes text.old ++ behind_comma T.json value.now) }
{
    text.push_str(",")?;
    value.put_json(text)
}

/// Adds values, each after a comma.
pub(crate) fn put_further<T: Element, S: Source<Item = T>>(
    text: &mut String,
    values: S,
) -> Result<(), AllocError>
    ensures { OnOk result (string_bytes text.new ≡ string_bytes text.old ++ flat_map (behind_comma T.json) (S.left values)) }
{
    let mut left = values;
    'row: while let Some(value) = left.step() {
        put_behind_comma(text, &value)?;
    }
    Ok(())
}

/// Adds values with commas between them.
#[tactic(auto, unfolding(crate::specs::Json::joined))]
pub(crate) fn put_joined<T: Element, S: Source<Item = T>>(
    text: &mut String,
    values: S,
) -> Result<(), AllocError>
    ensures { OnOk result (string_bytes text.new ≡ string_bytes text.old ++ joined T.json (S.left values)) }
{
    let mut left = values;
    let Some(first) = left.step() else {
        return Ok(());
    };
    first.put_json(text)?;
    put_further(text, left)
}

/// Adds a list.
pub(crate) fn put_list<T: Element, S: Source<Item = T>>(
    text: &mut String,
    values: S,
) -> Result<(), AllocError>
    ensures { OnOk result (string_bytes text.new ≡ string_bytes text.old ++ listed T.json (S.left values)) }
{
    text.push_str("[")?;
    put_joined(text, values)?;
    text.push_str("]")
}

/// Adds a member that is a list.
pub(crate) fn put_list_member<T: Element, S: Source<Item = T>>(
    text: &mut String,
    name: &str,
    values: S,
) -> Result<(), AllocError>
    ensures { OnOk result (string_bytes text.new ≡ string_bytes text.old ++ member name.now (listed T.json) (S.left values)) }
{
    put_name(text, name)?;
    put_list(text, values)
}
