//! Binds the timetable that is typed on standard input into book.img, and tells what it then reads there.
#![tactic(auto)]

mod blame;
mod draft;
mod ending;
mod excess;
mod lined;
mod listing;
mod messages;

use crate::draft::*;
use crate::ending::without_ending;
use crate::listing::list_book;
use crate::messages::Failure;
use anyhow::anyhow;
use binder::bind::bind;
use books::opened::Opened;
use booktext::line::read_line;
use std::fs;
use std::io::{BufRead, BufReader};
use std::process::ExitCode;

const LONGEST_IMAGE: usize = 53264;

// Reads the lines up to the end of the input. It ends at a line that cannot be read, or that is one entry too many.
fn read_draft(rt: &HostRuntime) -> anyhow::Result<Draft> {
    let mut input = BufReader::new(rt.alloc(), rt.stdin())?;
    let mut line: Vec<u8> = Vec::new(rt.alloc());
    let mut draft = Draft::new(rt.alloc());
    // no split at byte 10: byte 13 before it is left out only where byte 10 stands, which a part does not show
    for number in 1..u64::MAX {
        line.clear();
        if input.read_until(b'\n', &mut line)? == 0 {
            break;
        }
        let said = read_line(without_ending(line.as_slice())).map_err(|fault| {
            Failure::Unreadable {
                line: number,
                fault,
            }
        })?;
        if let Some(entry) = said {
            draft.add(number, entry)?;
            draft.fits().map_err(|excess| Failure::Overfull {
                line: number,
                excess,
            })?;
        }
    }
    Ok(draft)
}

fn bind_draft(rt: &HostRuntime, draft: &Draft) -> anyhow::Result<Vec<u8>> {
    let quays = all_told(draft.quays.as_slice(), rt.alloc())?;
    let sailings = all_told(draft.sailings.as_slice(), rt.alloc())?;
    let mut image = vec![in rt.alloc(); 0u8; LONGEST_IMAGE]?;
    let len = bind(quays.as_slice(), sailings.as_slice(), image.as_mut_slice()).map_err(
        |unbound| Failure::Refused {
            line: draft.line_of(unbound),
            unbound,
        },
    )?;
    image.truncate(len);
    Ok(image)
}

fn run(rt: &HostRuntime) -> anyhow::Result<()> {
    let draft = read_draft(rt)?;
    let image = bind_draft(rt, &draft)?;
    // a write that fails half way leaves the old book.img
    fs::write(rt, "book.img.new", image.as_slice())?;
    fs::rename(rt, "book.img.new", "book.img")?;
    let written = fs::read(rt, "book.img")?;
    match Opened::open(written.as_slice()) {
        Ok(Opened::Printed(book)) if written.as_slice() == image.as_slice() => {
            list_book(rt, &book, written.len())
        }
        _ => Err(anyhow!("book.img does not hold what was written to it")),
    }
}

// Each program has a main of its own, since what it tells of an error begins with its name.
fn main(rt: HostRuntime) -> ExitCode {
    match run(&rt) {
        Ok(()) => ExitCode::SUCCESS,
        Err(error) => {
            // where this cannot be written either, the status alone tells
            let _ = eprintln!(rt; "bindbook: {error}");
            ExitCode::FAILURE
        }
    }
}
