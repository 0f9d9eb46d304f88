//! The files of the conformance set, and the cases of each.

use crate::case::Case;
use crate::notation::bad_case;
use std::rt::Files;
use std::{fs, io};

/// The files of the set where the program runs, in order.
pub(crate) fn files_of<R: Files + AllocGlobal + Clone + Drop>(rt: &R) -> io::Result<Vec<String>> {
    let mut files = Vec::new(rt.alloc());
    for entry in fs::read_dir(rt, "conformance")? {
        files.push(format!(in rt.alloc(); "conformance/{}", entry?.file_name())?)?;
    }
    files.sort()?;
    Ok(files)
}

/// The case of a file that has what is printed of another one.
fn case_beside<R: Files + AllocGlobal>(
    rt: &R,
    title: &str,
    command: &str,
    input: &str,
    printed: &str,
) -> io::Result<Vec<Case>> {
    let case = Case::new(
        rt.alloc(),
        title,
        command,
        fs::read(rt, input)?,
        fs::read(rt, printed)?,
    )?;
    Ok(vec![in rt.alloc(); case]?)
}

/// The cases of a file that has many.
fn cases_in<R: Files + AllocGlobal>(rt: &R, name: &str) -> io::Result<Vec<Case>> {
    let text = fs::read_to_string(rt, name)?;
    let mut cases: Vec<Case> = Vec::new(rt.alloc());
    for lines in text.split("\n== ").skip(1) {
        let case = match cases.last() {
            Some(before) => Case::of_lines(rt.alloc(), lines, &before.input)?,
            None => Case::of_lines(rt.alloc(), lines, b"")?,
        };
        cases.push(case)?;
    }
    Ok(cases)
}

/// The cases that a file has, none where it has what another one is given or answers.
pub(crate) fn cases_of<R: Files + AllocGlobal>(rt: &R, name: &str) -> io::Result<Vec<Case>> {
    let Some((base, kind)) = name.rsplit_once('.') else {
        return Ok(Vec::new(rt.alloc()));
    };
    match kind {
        "cases" => cases_in(rt, name),
        "replay" => {
            let input = format!(in rt.alloc(); "{base}.capture")?;
            case_beside(rt, base, kind, input.as_str(), name)
        }
        "shown" | "json" | "stats" => {
            let input = format!(in rt.alloc(); "{base}.history")?;
            case_beside(rt, base, kind, input.as_str(), name)
        }
        _ => Ok(Vec::new(rt.alloc())),
    }
}
