//! Two speakers that make a script's moves over memory.

use crate::copies::{are_moves_copied, is_report_copied};
use bgp_open::Config;
use bgp_rows::copies::OTHERWISE;
use bgp_rows::page::Page;
use bgp_rows::row::Row;
use bgp_rows::trouble::Trouble;
use bgp_script::{SCRIPT_MAX, Script, ScriptFault, put_report, read_script};
use bgp_session::{MemoryWire, Report, run_pair};
use std::alloc::Global;

/// The script of a row: its lines that begin with `|` and a space, without these.
fn text_of(alloc: Global, row: &Row<'_>) -> Result<Page, Trouble> {
    let mut page = Page::new(alloc);
    for line in row.given.split('\n') {
        if let Some(line) = line.strip_prefix('|') {
            page.put(line.strip_prefix(' ').unwrap_or(line))?;
            page.put("\n")?;
        }
    }
    Ok(page)
}

/// Reads a script: its moves, or its lowest faulty line.
fn read(alloc: Global, text: &str) -> Result<Result<Script, u32>, Trouble> {
    if text.len() > SCRIPT_MAX {
        return Err(Trouble::Row("a script of more than 1,048,576 octets"));
    }
    match read_script(alloc, text.as_bytes()) {
        Ok(script) => Ok(Ok(script)),
        Err(ScriptFault::Line(number)) => Ok(Err(number)),
        Err(ScriptFault::Memory) => Err(Trouble::Memory),
    }
}

/// The speaker of a configuration as scripts write it.
pub(crate) fn config_of(alloc: Global, settings: &str) -> Result<Config, Trouble> {
    let mut page = Page::new(alloc);
    for side in ["a ", "b "] {
        page.put(side)?;
        page.put(settings)?;
        page.put("\n")?;
    }
    match read(alloc, page.text.as_str())? {
        Ok(script) => Ok(script.a),
        Err(_) => Err(Trouble::Row("a speaker as scripts write it")),
    }
}

/// Adds a report, and a line if it doesn't equal its copy.
fn put_reported(alloc: Global, page: &mut Page, report: &Report) -> Result<(), Trouble> {
    if !is_report_copied(alloc, report)? {
        page.put(OTHERWISE)?;
    }
    Ok(put_report(&mut page.text, report)?)
}

/// Adds the report of a script's moves, and a line if one doesn't equal its copy.
fn put_moves(alloc: Global, page: &mut Page, script: &Script) -> Result<(), Trouble> {
    let moves = script.moves.as_slice();
    if !are_moves_copied(alloc, moves)? {
        page.put(OTHERWISE)?;
    }
    let report = run_pair(alloc, script.a, script.b, moves, &mut MemoryWire)?;
    put_reported(alloc, page, &report)
}

/// The report of a row's script, or its lowest faulty line.
pub(crate) fn put_script(alloc: Global, row: &Row<'_>) -> Result<Page, Trouble> {
    let text = text_of(alloc, row)?;
    let mut page = Page::new(alloc);
    match read(alloc, text.text.as_str())? {
        Ok(script) => put_moves(alloc, &mut page, &script)?,
        Err(number) => {
            page.put("script line ")?;
            page.put_value(alloc, &number)?;
            page.put("\n")?;
        }
    }
    Ok(page)
}
