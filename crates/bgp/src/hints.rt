//! Hints: a line on standard error about input that isn't in the expected format, after the fault or alone.

use crate::record::Record;
use bgp_engine::{Tally, ToolFault, from_hex};
use bgp_frame::{Frame, Kind, Step, front};
use bgp_loop::read_file;
use bgp_open::{Context, Peer, view_open};
use bgp_words::{Asked, Look, Request, Session, dump_of, is_printed, left_unsaid, look_of};
use std::alloc::Global;
use std::fs::{self, Files};
use std::io::Write;

/// The length of the longest message.
const MESSAGE_MAX: u64 = 4096;

/// A reader that has kept what hints are made of.
pub(crate) trait Recorded {
    /// What was read.
    fn record(&self) -> &Record;
}

// The name of a request's command.
fn command_of(request: &Request) -> &'static str {
    match request {
        Request::Show { .. } => "show",
        Request::Explain { .. } => "explain",
        Request::Check { .. } => "check",
        Request::Narrow { .. } => "narrow",
        Request::Clean { .. } => "clean",
        Request::ToHex { .. } => "to-hex",
        Request::FromHex => "from-hex",
        Request::Loop { .. } => "loop",
    }
}

// Whether it reads hexadecimal text.
fn is_of_text(request: &Request) -> bool {
    match request {
        Request::Show { hex, .. }
        | Request::Explain { hex, .. }
        | Request::Check { hex, .. }
        | Request::Clean { hex, .. } => *hex,
        Request::FromHex => true,
        Request::Narrow { .. } | Request::ToHex { .. } | Request::Loop { .. } => false,
    }
}

// Whether it could, by `--hex`.
fn has_hex(request: &Request) -> bool {
    match request {
        Request::Show { .. }
        | Request::Explain { .. }
        | Request::Check { .. }
        | Request::Clean { .. } => true,
        Request::Narrow { .. } | Request::ToHex { .. } | Request::FromHex | Request::Loop { .. } =>
            false,
    }
}

// What determines the context of a session.
fn session_of(request: &Request) -> Option<Session> {
    match request {
        Request::Show { session, .. }
        | Request::Explain { session, .. }
        | Request::Check { session, .. }
        | Request::Narrow { session }
        | Request::Clean { session, .. } => Some(*session),
        Request::ToHex { .. } | Request::FromHex | Request::Loop { .. } => None,
    }
}

// Whether the stream begins with a faulty header.
fn is_no_header(request: &Request, octets: &[u8]) -> bool {
    match request {
        Request::FromHex | Request::Loop { .. } => false,
        _ => matches!(front(octets), Step::Fault(_)),
    }
}

// Prints what the input looks like, and what reads that, after what was printed of it.
fn tell_look<E: Write>(errors: &mut E, request: &Request, look: Look) {
    let command = command_of(request);
    let _ = write!(errors, "the input looks like ");
    let _ = match look {
        Look::Pcap => write!(errors, "packets (pcap): contrib/from-pcap FILE\n"),
        Look::PcapNg => write!(errors, "packets (pcapng): contrib/from-pcap FILE\n"),
        Look::Mrt => write!(errors, "an archive (MRT): contrib/from-mrt FILE\n"),
        Look::Gzip => write!(
            errors,
            "gzip: gunzip < FILE, or contrib/from-mrt FILE for an archive (MRT)\n"
        ),
        Look::Bzip2 => write!(
            errors,
            "bzip2: bunzip2 < FILE, or contrib/from-mrt FILE for an archive (MRT)\n"
        ),
        Look::Bmp => write!(errors, "BMP (RFC 7854), which isn't read\n"),
        Look::Xxd => write!(errors, "the output of xxd: xxd -r FILE | bgp {command}\n"),
        Look::HexdumpC if has_hex(request) => write!(
            errors,
            "the output of hexdump -C: cut -c10-58 FILE | bgp {command} --hex\n"
        ),
        Look::HexdumpC => write!(
            errors,
            "the output of hexdump -C: cut -c10-58 FILE | bgp from-hex\n"
        ),
        Look::Words => write!(
            errors,
            "the output of hexdump or od: print the octets by xxd -p FILE\n"
        ),
        Look::Digits if has_hex(request) => {
            write!(errors, "hexadecimal text: bgp {command} --hex\n")
        }
        Look::Digits => write!(
            errors,
            "hexadecimal text: bgp from-hex < FILE | bgp {command}\n"
        ),
        Look::Text => write!(
            errors,
            "text: {command} reads the octets that one side of a session sent\n"
        ),
    };
}

// Prints what input with a faulty first header looks like: for text that is read as digits, by an offset before each line.
fn tell_no_header<E: Write>(errors: &mut E, request: &Request, first: &[u8]) {
    let found = if is_of_text(request) {
        dump_of(first)
    } else {
        look_of(first)
    };
    if let Some(found) = found {
        let _ = write!(errors, "bgp: ");
        tell_look(errors, request, found);
    }
}

// Prints what a bad character is, and how to remove it.
fn tell_character<E: Write>(errors: &mut E, command: &str, before: Option<u8>, character: u8) {
    let shown = char::from(character);
    let _ = match character {
        b'0'..=b'9' | b'a'..=b'f' | b'A'..=b'F' => { write!(errors, "a digit without its pair\n") }
        b' ' | b'\r' | b'\n' => write!(errors, "a blank inside a pair of digits\n"),
        b'\t' => write!(errors, "a tab: tr -d '\\t' < FILE | bgp {command}\n"),
        b'x' | b'X' if before == Some(b'0') => write!(
            errors,
            "'0{shown}': sed 's/0{shown}//g' FILE | bgp {command}\n"
        ),
        b':' | b'-' | b',' | b'.' => write!(
            errors,
            "'{shown}': tr -d '{shown}' < FILE | bgp {command}\n"
        ),
        33..=126 => write!(errors, "'{shown}' is no hexadecimal digit\n"),
        _ => write!(errors, "an octet that is no text\n"),
    };
}

// The words of a command that reads hexadecimal text.
fn words_of(request: &Request) -> &'static str {
    match request {
        Request::Show { .. } => "show --hex",
        Request::Explain { .. } => "explain --hex",
        Request::Check { .. } => "check --hex",
        Request::Clean { .. } => "clean --hex",
        _ => "from-hex",
    }
}

// Prints what is at a bad character, or what the whole input looks like, and what reads it.
fn tell_wrong<E: Write>(
    errors: &mut E,
    request: &Request,
    first: &[u8],
    before: Option<u8>,
    character: u8,
) {
    match look_of(first) {
        Some(Look::Digits | Look::Text) => tell_character(
            errors,
            words_of(request),
            before,
            character,
        ),
        Some(found) => tell_look(errors, request, found),
        None if has_hex(request) && !is_printed(character) => {
            let command = command_of(request);
            let _ = write!(
                errors,
                "the input looks like octets: bgp {command} without --hex\n"
            );
        }
        None => tell_character(errors, words_of(request), before, character),
    }
}

// Prints where a bad character is, and what is wrong there.
fn tell_bad_hex<E: Write>(errors: &mut E, request: &Request, record: &Record, at: u64) {
    if let Some((spot, before, character)) = record.spot(at) {
        let line = spot.line;
        let column = spot.column;
        let _ = write!(errors, "bgp: line {line}, column {column}: ");
        tell_wrong(errors, request, record.first(), before, character);
    }
}

// Prints why a file couldn't be opened. One whose opening may block for a writer isn't opened again.
fn tell_file<H: Files, E: Write>(rt: &H, errors: &mut E, file: &str) {
    let name = if file.is_empty() { "''" } else { file };
    match fs::metadata(rt, file) {
        Err(error) => {
            let _ = write!(errors, "bgp: {name}: {error}\n");
        }
        Ok(found) if found.is_dir() => {
            let _ = write!(errors, "bgp: {name}: Is a directory\n");
        }
        Ok(found) if found.is_file() => {
            if let Err(error) = fs::open(rt, file) {
                let _ = write!(errors, "bgp: {name}: {error}\n");
            }
        }
        Ok(_) => {}
    }
}

// The octets that were read first: of hexadecimal text those of its pairs.
fn octets_of(alloc: Global, is_text: bool, first: &[u8]) -> Vec<u8> {
    let mut octets = Vec::new(alloc);
    if is_text {
        let mut text = first;
        let _ = from_hex(alloc, &mut text, &mut octets);
    } else {
        let _ = octets.extend_from_slice(first);
    }
    octets
}

// The parameters of the first OPEN, where the first message is one that is accepted.
fn speaker_of(octets: &[u8]) -> Option<Peer> {
    match front(octets) {
        Step::Frame(frame) => speaker_in(frame),
        Step::More | Step::Fault(_) => None,
    }
}

fn speaker_in(frame: Frame<'_>) -> Option<Peer> {
    if frame.kind != Kind::Open || frame.body.len() < 10 {
        return None;
    }
    match view_open(frame.body) {
        Ok(open) => Some(open.peer()),
        Err(_) => None,
    }
}

// Prints what the first OPEN offers and the flags don't say: without those its routes are misread, or left out.
fn tell_offer<E: Write>(errors: &mut E, ctx: &Context, peer: &Peer) {
    let unsaid = left_unsaid(ctx, peer);
    let names = match (unsaid.as4, unsaid.ip4, unsaid.ip6) {
        (false, false, false) => return,
        (true, true, true) => "AS numbers of four octets, IPv4 and IPv6: --as4 --ip4 --ip6",
        (true, true, false) => "AS numbers of four octets and IPv4: --as4 --ip4",
        (true, false, true) => "AS numbers of four octets and IPv6: --as4 --ip6",
        (true, false, false) => "AS numbers of four octets: --as4",
        (false, true, true) => "IPv4 and IPv6: --ip4 --ip6",
        (false, true, false) => "IPv4: --ip4",
        (false, false, true) => "IPv6: --ip6",
    };
    let _ = write!(
        errors,
        "bgp: this side offers {names}? Or --opens FILE for what both agree on\n"
    );
}

// Prints that a file begins with the stream's own OPEN.
fn tell_same<H: Files, E: Write>(rt: &H, alloc: Global, errors: &mut E, file: &str, octets: &[u8]) {
    match fs::metadata(rt, file) {
        Ok(found) if found.is_file() => {}
        _ => return,
    }
    let Ok(theirs) = read_file(rt, alloc, file, MESSAGE_MAX) else {
        return;
    };
    let (Step::Frame(one), Step::Frame(other)) = (front(octets), front(&theirs)) else {
        return;
    };
    if one.kind == Kind::Open && other.kind == Kind::Open && one.body == other.body {
        let _ = write!(
            errors,
            "bgp: {file} begins with this stream's OPEN: it has to have the other direction\n"
        );
    }
}

// Prints what is odd about the OPENs of a session.
fn tell_opens<H: Files, E: Write>(
    rt: &H,
    alloc: Global,
    errors: &mut E,
    asked: Asked<'_>,
    octets: &[u8],
) {
    match session_of(&asked.request) {
        Some(Session::Flags(flags)) => {
            if let Some(peer) = speaker_of(octets) {
                tell_offer(errors, &flags.context, &peer);
            }
        }
        Some(Session::Opens) => tell_same(rt, alloc, errors, asked.file, octets),
        None => {}
    }
}

// Whether a request names a file.
fn has_file(request: &Request) -> bool {
    match request {
        Request::Loop { .. } => true,
        _ => matches!(session_of(request), Some(Session::Opens)),
    }
}

// Prints what may be wrong with a stream, by its first octets.
fn tell_stream<H: Files, E: Write>(
    rt: &H,
    alloc: Global,
    errors: &mut E,
    asked: Asked<'_>,
    first: &[u8],
) {
    let octets = octets_of(alloc, is_of_text(&asked.request), first);
    if is_no_header(&asked.request, &octets) {
        tell_no_header(errors, &asked.request, first);
    }
    tell_opens(rt, alloc, errors, asked, &octets);
}

/// Prints what may be wrong with the input, where something is, by what was read of it and the outcome. A failed write
/// has no effect.
pub(crate) fn hint<H: Files, E: Write>(
    rt: &H,
    alloc: Global,
    asked: Asked<'_>,
    outcome: &Result<Tally, ToolFault>,
    record: &Record,
    errors: &mut E,
) {
    match outcome {
        Err(ToolFault::Memory | ToolFault::Write | ToolFault::Net | ToolFault::Script(_)) => {}
        Err(ToolFault::Read) => {
            if has_file(&asked.request) {
                tell_file(rt, errors, asked.file);
            }
        }
        Err(ToolFault::BadHex(at)) => tell_bad_hex(errors, &asked.request, record, *at),
        Ok(_) | Err(ToolFault::Narrow(_) | ToolFault::Clean(..) | ToolFault::NoContext(_)) => {
            tell_stream(rt, alloc, errors, asked, record.first());
        }
    }
}
