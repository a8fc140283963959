//! A row of a rows file: its name, its input and the lines that it wants.

/// A row: a paragraph of lines. The first is `row` and a name, the second its kind with settings; the wanted lines follow `want`.
#[derive(Clone, Copy)]
pub struct Row<'a> {
    pub name: &'a str,
    pub kind: &'a str,
    pub settings: &'a str,
    /// The lines between the kind and `want`.
    pub given: &'a str,
    pub want: &'a str,
    /// The whole file, for the octets that it names.
    pub file: &'a str,
}

/// A line's first word, and what follows it.
pub fn split_word(line: &str) -> (&str, &str) {
    line.split_once(' ').unwrap_or((line, ""))
}

/// The text of a paragraph's first line, and the lines after it.
fn split_line(text: &str) -> (&str, &str) {
    text.split_once('\n').unwrap_or((text, ""))
}

impl<'a> Row<'a> {
    /// The row of a paragraph; None if it isn't one.
    pub fn read(paragraph: &'a str, file: &'a str) -> Option<Row<'a>> {
        let (given, want) = paragraph.split_once("\nwant\n")?;
        let (first, rest) = split_line(given);
        let (second, given) = split_line(rest);
        let name = first.strip_prefix("row ")?;
        let (kind, settings) = split_word(second);
        Some(Row {
            name,
            kind,
            settings,
            given,
            want: want.trim_end_matches('\n'),
            file,
        })
    }

    /// What follows this word in the first input line that begins with it.
    pub fn told(&self, word: &str) -> Option<&'a str> {
        for line in self.given.split('\n') {
            let (first, rest) = split_word(line);
            if first == word {
                return Some(rest);
            }
        }
        None
    }
}
