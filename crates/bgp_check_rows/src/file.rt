//! All rows of a file.

use crate::guards::put_guard;
use crate::scripts::put_script;
use crate::sessions::put_session;
use crate::speakers::put_speaker;
use bgp_rows::attributes::put_attributes;
use bgp_rows::changes::put_changes;
use bgp_rows::contexts::{CASES, Case, Contexts};
use bgp_rows::engines::put_engine;
use bgp_rows::messages::put_messages;
use bgp_rows::octets::{Octets, add_given};
use bgp_rows::one_attribute::put_each;
use bgp_rows::page::Page;
use bgp_rows::paths::put_paths;
use bgp_rows::row::Row;
use bgp_rows::runs::put_run;
use bgp_rows::trouble::Trouble;
use bgp_rows::written::put_written;
use std::alloc::Global;
use std::io;

/// The result of a row's octets in one case.
fn put_case(alloc: Global, row: &Row<'_>, case: &Case, octets: &[u8]) -> Result<Page, Trouble> {
    match row.kind {
        "messages" => put_messages(alloc, &case.context, octets),
        "attributes" => put_attributes(alloc, &case.context, case.has_nlri, octets),
        "attribute" => put_each(alloc, &case.context, case.has_nlri, octets),
        "written" => put_written(alloc, row, &case.context, octets),
        "path" => put_paths(alloc, &case.context, octets),
        "changes" => put_changes(alloc, &case.context, octets),
        "show"
        | "explain"
        | "reasons"
        | "faults"
        | "check"
        | "to-hex"
        | "from-hex"
        | "narrow"
        | "clean" => put_engine(alloc, row, &case.context, octets),
        _ => Err(Trouble::Row("its kind is none that there is")),
    }
}

/// The result of a row with octets, in each case that it includes: the first that isn't the one wanted, else the one that is.
fn put_cases(alloc: Global, row: &Row<'_>) -> Result<Page, Trouble> {
    let contexts = Contexts::read(row.told("context").unwrap_or(""))?;
    let mut octets = Octets::new();
    add_given(row, &mut octets)?;
    let mut page = Page::new(alloc);
    let mut is_first = true;
    for number in 0..CASES {
        let case = Case::new(number);
        let is_new = is_first || case.has_nlri == false || row.kind.starts_with("attribute");
        if contexts.allows_case(&case) && is_new {
            is_first = false;
            page = put_case(alloc, row, &case, octets.as_slice())?;
            if page.text.as_str().trim_end_matches('\n') != row.want {
                break;
            }
        }
    }
    Ok(page)
}

/// The result of a row.
fn put_row(alloc: Global, row: &Row<'_>) -> Result<Page, Trouble> {
    match row.kind {
        "speaker" => put_speaker(alloc, row),
        "session" => put_session(alloc, row),
        "script" => put_script(alloc, row),
        "guard" => put_guard(alloc, row),
        "run4" | "run6" => put_run(alloc, row),
        _ => put_cases(alloc, row),
    }
}

/// The result of a row, or after a failed allocation that of the second try.
fn put_again(alloc: Global, row: &Row<'_>) -> Result<Page, Trouble> {
    match put_row(alloc, row) {
        Err(Trouble::Memory) => put_row(alloc, row),
        answer => answer,
    }
}

/// Prints the result that differs from the wanted lines.
fn print_difference(rt: &impl Print, row: &Row<'_>, came: &str) -> io::Result<()> {
    println!(rt; "row {}", row.name)?;
    println!(rt; "came")?;
    println!(rt; "{came}")?;
    println!(rt; "want")?;
    println!(rt; "{}", row.want)?;
    println!(rt; "")
}

/// Checks a row, and prints it where it fails.
fn check_row(rt: &(impl Print + AllocGlobal), row: &Row<'_>) -> io::Result<bool> {
    match put_again(rt.alloc(), row) {
        Ok(page) => {
            let came = page.text.as_str().trim_end_matches('\n');
            if came == row.want {
                return Ok(true);
            }
            print_difference(rt, row, came)?;
        }
        Err(Trouble::Memory) => print_difference(rt, row, "allocation failed twice")?,
        Err(Trouble::Row(why)) => print_difference(rt, row, why)?,
    }
    Ok(false)
}

/// Checks a paragraph: a row, or a remark. A paragraph that has a line `want` or begins with `row` but can't be read as a row fails.
fn check_paragraph(
    rt: &(impl Print + AllocGlobal),
    paragraph: &str,
    file: &str,
) -> io::Result<Option<bool>> {
    if let Some(row) = Row::read(paragraph, file) {
        return Ok(Some(check_row(rt, &row)?));
    }
    if paragraph.starts_with('#') || paragraph.starts_with("name ") || paragraph.is_empty() {
        return Ok(None);
    }
    println!(rt; "no row, no remark and no name:")?;
    println!(rt; "{paragraph}")?;
    println!(rt; "")?;
    Ok(Some(false))
}

/// Checks the rows of a file: the number that passed, and the number that failed.
pub(crate) fn check_file(rt: &(impl Print + AllocGlobal), file: &str) -> io::Result<(u64, u64)> {
    let mut passed = 0u64;
    let mut failed = 0u64;
    for paragraph in file.split("\n\n") {
        let paragraph = paragraph.trim_matches('\n');
        match check_paragraph(rt, paragraph, file)? {
            Some(true) => passed = passed.saturating_add(1),
            Some(false) => failed = failed.saturating_add(1),
            None => {}
        }
    }
    Ok((passed, failed))
}
