//! Values whose texts are short, and rows and lines of them.

ghost use Rattle.std.specs.Prelude.{true, ◌≡◌, ◌+◌, ◌≤◌, ◌∷◌, ◌++◌, [], length, OnOk};
ghost use Rattle.bgp_text.specs.Below.{is_ascii, flat_map, list_all, string_bytes};
ghost use Rattle.bgp_text.specs.Lines.{line_of};

use crate::digits::Digits;
use crate::source::Source;
use crate::word::Word;
use std::alloc::AllocError;

/// A value whose text is short enough for a word.
pub(crate) trait Short: Copy {
    ghost use Rattle.std.specs.Prelude.{ℕ, List, ◌≡◌, ◌+◌, ◌≤◌, ◌++◌, length};

    /// Its text.
    ghost text: { Self → List ℕ };

    /// The greatest length of the text.
    ghost most: { ℕ };

    /// Writes its text before a word. Two more octets may be overwritten: a number's digits are written three at a time.
    fn put(self, word: &mut Word)
        requires { length word.old + (most + 2) ≤ 72 }
        ensures value { word.new ≡ text self ++ word.old }
        ensures len { length word.new ≤ length word.old + most };
}

/// A number in decimal digits.
#[derive(Clone, Copy)]
pub(crate) struct Decimal<N>(pub(crate) N);

impl<N: Digits> Short for Decimal<N> {
    ghost use Rattle.std.specs.Fmt.{decimal};

    ghost text = { λ number. decimal (N.value number.0) };

    ghost most = { N.most };

    #[inline(always)]
    fn put(self, word: &mut Word) {
        word.number(self.0);
    }
}

/// Adds a value.
pub(crate) fn put_one<T: Short>(text: &mut String, value: T) -> Result<(), AllocError>
    requires { T.most + 2 ≤ 72 }
    ensures { OnOk result (string_bytes text.new ≡ string_bytes text.old ++ T.text value) }
{
    let mut word = Word::new();
    value.put(&mut word);
    text.push_str(word.text())
}

/// Adds two values in one go.
#[inline(always)]
fn put_two<T: Short>(text: &mut String, first: T, second: T) -> Result<(), AllocError>
    requires { T.most + T.most + 2 ≤ 72 }
    ensures { OnOk result (string_bytes text.new ≡ string_bytes text.old ++ (T.text first ++ T.text second)) }
{
    let mut word = Word::new();
    second.put(&mut word);
    first.put(&mut word);
    text.push_str(word.text())
}

/// Adds values one after another.
pub(crate) fn put_row<T: Short, S: Source<Item = T>>(
    text: &mut String,
    values: S,
) -> Result<(), AllocError>
    requires { T.most + T.most + 2 ≤ 72 }
    ensures { OnOk result (string_bytes text.new ≡ string_bytes text.old ++ flat_map T.text (S.left values)) }
{
    let mut left = values;
    'row: while let Some(first) = left.step() {
        let Some(second) = left.step() else {
            return put_one(text, first);
        };
        put_two(text, first, second)?;
    }
    Ok(())
}

/// Adds a line of a value, after a label of ASCII.
#[inline(always)]
pub(crate) fn put_line<T: Short>(text: &mut String, label: &str, value: T) -> Result<(), AllocError>
    requires room { length label.now + (T.most + 3) ≤ 72 }
    requires ascii { list_all is_ascii label.now ≡ true }
    ensures { OnOk result (string_bytes text.new ≡ string_bytes text.old ++ line_of label.now T.text value) }
{
    let mut word = Word::new();
    word.character(b'\n');
    value.put(&mut word);
    word.label(label);
    text.push_str(word.text())
}

/// Adds a line of each value, after a label of ASCII. It is inlined, so that a short label is stored, not copied by
/// a call.
#[inline(always)]
pub(crate) fn put_lines<T: Short, S: Source<Item = T>>(
    text: &mut String,
    label: &str,
    values: S,
) -> Result<(), AllocError>
    requires room { length label.now + (T.most + 3) ≤ 72 }
    requires ascii { list_all is_ascii label.now ≡ true }
    ensures { OnOk result (string_bytes text.new ≡ string_bytes text.old ++ flat_map (line_of label.now T.text) (S.left values)) }
{
    let mut left = values;
    'run: while let Some(value) = left.step() {
        put_line(text, label, value)?;
    }
    Ok(())
}
