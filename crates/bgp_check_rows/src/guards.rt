//! What happens to a guard, and what it wants from its owner.

use bgp_clean::Limits;
use bgp_frame::WideKind;
use bgp_guard::{Came, Guard, Rules, Side};
use bgp_rows::octets::{Octets, add_octets};
use bgp_rows::page::Page;
use bgp_rows::row::{Row, split_word};
use bgp_rows::trouble::Trouble;
use bgp_wire::OctetSet;
use std::alloc::Global;

const SIDES: [(Side, &str); 2] = [(Side::Outer, "outer"), (Side::Inner, "inner")];

const NO_EVENT: Trouble = Trouble::Row("a side and an event, or tick");

/// How octets are handed to a guard, and what is sent.
#[derive(Clone, Copy)]
struct Way {
    /// Octets come one by one.
    by_octets: bool,
    /// Octets on their way to a side stay there until the row says that they are sent.
    is_slow: bool,
}

/// The AS number of a word `first-as=AS`, with which paths begin.
fn first_as_of(word: &str) -> Option<u32> {
    word.strip_prefix("first-as=")?.parse::<u32>().ok()
}

/// The rules of a row's words: `one-way`, `first-as`, `first-as=AS`, and types of attributes that are left out.
fn rules_of(settings: &str) -> Rules {
    let mut rules = Rules {
        drops: OctetSet::new(),
        limits: Limits::none(),
        first_as: false,
        one_way: false,
    };
    for word in settings.split_whitespace() {
        match word {
            "one-way" => rules.one_way = true,
            "first-as" => rules.first_as = true,
            _ => {
                if let Ok(kind) = word.parse::<u8>() {
                    rules.drops.insert(kind);
                } else if let Some(number) = first_as_of(word) {
                    rules.limits.first_as = Some(number);
                }
            }
        }
    }
    rules
}

fn side_of(word: &str) -> Option<Side> {
    match word {
        "outer" => Some(Side::Outer),
        "inner" => Some(Side::Inner),
        _ => None,
    }
}

/// Adds the kind of a message.
fn put_kind(alloc: Global, page: &mut Page, kind: WideKind) -> Result<(), Trouble> {
    match kind {
        WideKind::Base(kind) => page.put_name(alloc, &kind),
        WideKind::Refresh => page.put("Refresh"),
    }
}

/// Adds the outcome of octets.
fn put_came(alloc: Global, page: &mut Page, came: Came) -> Result<(), Trouble> {
    match came {
        Came::Nothing => Ok(()),
        Came::Dropped { kind } => {
            page.put("drops ")?;
            put_kind(alloc, page, kind)?;
            page.put("\n")
        }
        Came::HandedOn { kind, same } => {
            page.put("hands on ")?;
            put_kind(alloc, page, kind)?;
            page.put(if same { "\n" } else { " changed\n" })
        }
        Came::Answered { code, subcode } => {
            page.put("answers ")?;
            page.put_value(alloc, &code)?;
            page.put("/")?;
            page.put_value(alloc, &subcode)?;
            page.put("\n")
        }
    }
}

/// Hands octets over until none is accepted.
fn hear(
    alloc: Global,
    guard: &mut Guard,
    side: Side,
    octets: &[u8],
    page: &mut Page,
) -> Result<(), Trouble> {
    let mut rest = octets;
    for _ in 0..u16::MAX {
        let (taken, came) = guard.hear(side, rest);
        rest = rest.get(taken..).unwrap_or(&[]);
        put_came(alloc, page, came)?;
        if taken == 0 {
            break;
        }
    }
    if !rest.is_empty() {
        page.put("isn't read\n")?;
    }
    Ok(())
}

/// Hands octets over, at once or one by one.
fn hear_all(
    alloc: Global,
    guard: &mut Guard,
    side: Side,
    octets: &[u8],
    way: Way,
    page: &mut Page,
) -> Result<(), Trouble> {
    if !way.by_octets {
        return hear(alloc, guard, side, octets, page);
    }
    for octet in octets {
        if !guard.listens(side) {
            return page.put("isn't read\n");
        }
        hear(alloc, guard, side, &[*octet], page)?;
    }
    Ok(())
}

/// Seconds pass.
fn tick(guard: &mut Guard, count: &str) -> Result<(), Trouble> {
    let Ok(count) = count.parse::<u16>() else {
        return Err(NO_EVENT);
    };
    for _ in 0..count {
        guard.tick();
    }
    Ok(())
}

/// Adds the number of seconds for which octets may make no progress.
fn put_stall(alloc: Global, guard: &Guard, page: &mut Page) -> Result<(), Trouble> {
    page.put("behind ")?;
    page.put_value(alloc, &(guard.stall_seconds() as u64))?;
    page.put(" seconds\n")
}

/// An event of a side that brings octets, or takes some.
fn pass(
    alloc: Global,
    row: &Row<'_>,
    guard: &mut Guard,
    side: Side,
    told: &str,
    way: Way,
    page: &mut Page,
) -> Result<(), Trouble> {
    match split_word(told) {
        ("sends", rest) => {
            let mut octets = Octets::new();
            add_octets(row, rest, &mut octets)?;
            hear_all(alloc, guard, side, octets.as_slice(), way, page)
        }
        ("takes", count) => {
            let count = count.parse::<usize>().map_err(|_| NO_EVENT)?;
            guard.sent(side, count);
            Ok(())
        }
        _ => Err(NO_EVENT),
    }
}

/// Carries out a line.
fn make(
    alloc: Global,
    row: &Row<'_>,
    guard: &mut Guard,
    line: &str,
    way: Way,
    page: &mut Page,
) -> Result<(), Trouble> {
    let (word, told) = split_word(line);
    if word == "tick" {
        return tick(guard, told);
    }
    if line == "stops" {
        guard.stop();
        return Ok(());
    }
    if line == "stalls when" {
        return put_stall(alloc, guard, page);
    }
    let side = side_of(word).ok_or(NO_EVENT)?;
    match told {
        "stalls" => guard.stalled(side),
        "stands" => guard.stood(side),
        "can't be reached" => guard.unreachable(side),
        "closes" => guard.closed(side),
        _ => return pass(alloc, row, guard, side, told, way, page),
    }
    Ok(())
}

/// Adds the octets on their way to a side, which are sent then, or their number.
fn put_way(
    alloc: Global,
    guard: &mut Guard,
    side: Side,
    name: &str,
    way: Way,
    page: &mut Page,
) -> Result<(), Trouble> {
    let count = guard.way(side).len();
    if count == 0 {
        return Ok(());
    }
    page.put("to ")?;
    page.put(name)?;
    page.put(" ")?;
    if way.is_slow {
        page.put_value(alloc, &(count as u64))?;
        page.put(" octets")?;
    } else {
        page.put_digits(alloc, guard.way(side))?;
        guard.sent(side, count);
    }
    page.put("\n")
}

/// Adds what the guard wants from its owner.
fn put_asked(alloc: Global, guard: &mut Guard, way: Way, page: &mut Page) -> Result<(), Trouble> {
    for (side, name) in SIDES {
        put_way(alloc, guard, side, name, way, page)?;
    }
    for (side, name) in SIDES {
        if guard.closes(side) {
            page.put("close ")?;
            page.put(name)?;
            page.put("\n")?;
        }
    }
    Ok(())
}

/// What a guard does for a row's lines, where octets come in one way: the result of the lines `after` isn't printed.
fn put_life(alloc: Global, row: &Row<'_>, way: Way) -> Result<Page, Trouble> {
    let mut guard = Guard::new(alloc, rules_of(row.settings))?;
    let mut page = Page::new(alloc);
    for line in row.given.split('\n') {
        let mut unread = Page::new(alloc);
        if let Some(line) = line.strip_prefix("after ") {
            make(alloc, row, &mut guard, line, way, &mut unread)?;
            put_asked(alloc, &mut guard, way, &mut unread)?;
        } else if let Some(line) = line.strip_prefix("do ") {
            let before = page.text.len();
            make(alloc, row, &mut guard, line, way, &mut page)?;
            put_asked(alloc, &mut guard, way, &mut page)?;
            if page.text.len() == before {
                page.put("nothing\n")?;
            }
        }
    }
    Ok(page)
}

/// What a guard does for a row's lines, with octets at once and one by one.
pub(crate) fn put_guard(alloc: Global, row: &Row<'_>) -> Result<Page, Trouble> {
    let is_slow = row.settings.split_whitespace().any(|word| word == "slow");
    let mut page = put_life(
        alloc,
        row,
        Way {
            by_octets: false,
            is_slow,
        },
    )?;
    let other = put_life(
        alloc,
        row,
        Way {
            by_octets: true,
            is_slow,
        },
    )?;
    if other.text != page.text {
        page.put("octet by octet:\n")?;
        page.put(other.text.as_str())?;
    }
    Ok(page)
}
