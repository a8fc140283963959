//! Encodes messages of a stream that are accepted.

use crate::stream::{CONTEXT, See, decode};
use bgp_msg::{Message, Outcome, encode};
use bgp_update::WriteFault;
use std::alloc::{AllocError, Global};
use std::io;

/// How many messages are kept. Each has room for 4 KB: with more of them, the cache would be measured.
const RING: usize = 500;

/// The first messages that are accepted, and their number in the stream.
#[derive(Drop)]
struct Kept {
    messages: Vec<Message>,
    count: usize,
}

impl See for Kept {
    fn see(&mut self, alloc: Global, _len: u16, outcome: &Outcome) -> Result<(), AllocError> {
        if let Outcome::Took(message, _) = outcome {
            self.count = self.count.saturating_add(1);
            if self.messages.len() < RING {
                self.messages.push(message.copy(alloc)?)?;
            }
        }
        Ok(())
    }
}

/// The number of messages written, and of their octets.
#[derive(Clone, Copy)]
struct Written {
    messages: u64,
    octets: u64,
}

impl Written {
    fn none() -> Written {
        Written {
            messages: 0,
            octets: 0,
        }
    }

    /// Writes each message into a buffer that the next one overwrites. One that can't be written isn't counted.
    fn encode_each(
        &mut self,
        messages: &[Message],
        buffer: &mut Vec<u8>,
    ) -> Result<(), AllocError> {
        for message in messages {
            buffer.clear();
            match encode(&CONTEXT, message, buffer) {
                Ok(()) => {
                    self.messages = self.messages.saturating_add(1);
                    self.octets = self.octets.saturating_add(buffer.len() as u64);
                }
                Err(WriteFault::Memory) => return Err(AllocError),
                Err(_) => {}
            }
        }
        Ok(())
    }
}

/// Writes the number of messages that the stream has: those that are kept, again and again.
fn encode_round(kept: &Kept, buffer: &mut Vec<u8>) -> Result<Written, AllocError> {
    let mut written = Written::none();
    for _ring in 0..kept.count / RING {
        written.encode_each(&kept.messages, buffer)?;
    }
    let last = kept.messages.get(..kept.count % RING).unwrap_or(&[]);
    written.encode_each(last, buffer)?;
    Ok(written)
}

/// Encodes, `rounds` times, the number of messages accepted in the stream, and prints the counts of one round.
pub(crate) fn run(rt: &(impl Print + AllocGlobal), octets: &[u8], rounds: u32) -> io::Result<()> {
    let mut kept = Kept {
        messages: Vec::new(rt.alloc()),
        count: 0,
    };
    decode(rt.alloc(), octets, &mut kept)?;
    let mut buffer = Vec::new(rt.alloc());
    let mut written = Written::none();
    for _round in 0..rounds {
        written = encode_round(&kept, &mut buffer)?;
    }
    println!(rt; "messages {} octets {}", written.messages, written.octets)
}
