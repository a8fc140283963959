//! The lines of a script.

ghost use Rattle.std.specs.Prelude.{◌≡◌};
ghost use Rattle.bgp_script.specs.Lines.{is_skipped};

use crate::cut::cut_line;
use crate::script::SCRIPT_MAX;
use std::marker::Model;

/// A line that isn't skipped.
#[derive(Clone, Copy)]
pub(crate) struct Line<'a> {
    /// Counted from 1.
    pub(crate) number: u32,
    pub(crate) text: &'a [u8],
}

/// The lines that are left, without those that are skipped.
#[derive(Drop)]
pub(crate) struct Lines<'a> {
    /// The number of lines read.
    count: u32,
    rest: &'a [u8],
}

impl<'a> Model for Lines<'a> {
    ghost use Rattle.std.specs.Prelude.{◌+◌, ◌≤◌, length};
    ghost use Rattle.bgp_script.specs.Lines.{Left, left_behind};

    ghost Value = { Left };

    ghost view = { λ l. left_behind l.count l.rest.now };

    ghost invariant = { λ l. l.count + length l.rest.now ≤ 1048576 };
}

// An empty line, or a remark.
fn is_skipped(line: &[u8]) -> bool
    ensures { result ≡ is_skipped line.now }
{
    match line.first() {
        None => true,
        Some(first) => *first == b'#',
    }
}

impl<'a> Lines<'a> {
    ghost use Rattle.std.specs.Prelude.{◌≤◌, length};
    ghost use Rattle.std.specs.Result.{result_map_both};
    ghost use Rattle.bgp_script.specs.Lines.{left_behind, next_told};
    ghost use Rattle.bgp_script.specs.steps.Cursor.{line_value};

    /// The lines of a text.
    pub(crate) fn new(text: &'a [u8]) -> Lines<'a>
        requires { length text.now ≤ SCRIPT_MAX }
        ensures { result ≡ left_behind 0 text.now }
    {
        Lines {
            count: 0,
            rest: text,
        }
    }

    /// Reads the next line.
    ///
    /// # Errors
    /// The number of the line after the last, if none is left.
    pub(crate) fn take(&mut self) -> Result<Line<'a>, u32>
        ensures { result_map_both (λ line. (line_value line, self.new)) (λ number. number) result ≡ next_told self.old }
    {
        'lines: while !self.rest.is_empty() {
            let (text, rest) = cut_line(self.rest);
            self.rest = rest;
            self.count += 1;
            if !is_skipped(text) {
                return Ok(Line {
                    number: self.count,
                    text,
                });
            }
        }
        Err(self.count + 1)
    }
}
