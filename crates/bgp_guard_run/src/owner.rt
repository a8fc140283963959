//! The owner's commands on standard input, where the program was asked to read it.

use bgp_guard_net::has_input;
use std::io;
use std::io::Read;

/// The descriptor of standard input.
const INPUT: i32 = 0;

/// The longest word that is recognised.
const WORD: usize = 16;

/// What the owner asks for.
#[derive(Clone, Copy, PartialEq, Eq)]
pub(crate) enum Order {
    /// The file of neighbours is read again.
    Reload,
    /// Each session ends, and the program.
    Stop,
    /// A line with another text.
    Unknown,
}

/// Standard input, line by line.
#[derive(Drop)]
pub(crate) struct Owner {
    /// The first octets of an incomplete line.
    word: [u8; WORD],
    len: usize,
    /// It has ended.
    is_over: bool,
}

// What a line asks for: none where it is empty.
fn order_of(line: &[u8]) -> Option<Order> {
    match line {
        b"" => None,
        b"reload" => Some(Order::Reload),
        b"stop" => Some(Order::Stop),
        _ => Some(Order::Unknown),
    }
}

// The more important of two.
fn or_else(first: Option<Order>, second: Option<Order>) -> Option<Order> {
    match (first, second) {
        (Some(Order::Stop), _) | (_, None) => first,
        _ => second,
    }
}

impl Owner {
    /// No command yet; where standard input isn't to be read, there will be none.
    pub(crate) fn new(is_read: bool) -> Owner {
        Owner {
            word: [0; WORD],
            len: 0,
            is_over: !is_read,
        }
    }

    // Processes one octet. Answers what a line asks for where the octet ends it.
    fn take(&mut self, octet: u8) -> Option<Order> {
        if octet != b'\n' {
            if let Some(free) = self.word.get_mut(self.len) {
                *free = octet;
            }
            self.len = self.len.saturating_add(1);
            return None;
        }
        let order = match self.word.get(..self.len) {
            Some(line) => order_of(line),
            None => Some(Order::Unknown),
        };
        self.len = 0;
        order
    }

    /// The command that has arrived, read once where there is input: the end of standard input asks to stop, and of
    /// several lines the last one counts, or the one that asks to stop.
    ///
    /// # Errors
    /// That of the system: nothing more is read then.
    pub(crate) fn order<R: Read>(&mut self, from: &mut R) -> io::Result<Option<Order>> {
        if self.is_over || !has_input(INPUT) {
            return Ok(None);
        }
        let mut said = [0_u8; 256];
        let count = match from.read(&mut said) {
            Ok(count) => count,
            Err(error) => {
                self.is_over = true;
                return Err(error);
            }
        };
        if count == 0 {
            self.is_over = true;
            return Ok(Some(Order::Stop));
        }
        let mut found = None;
        for octet in said.iter().take(count) {
            found = or_else(found, self.take(*octet));
        }
        Ok(found)
    }
}
