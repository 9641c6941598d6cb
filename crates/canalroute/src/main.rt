//! Answers the commands on standard input over the book in book.img: notices, thinnings and routes.
#![tactic(auto)]

mod answers;
mod desk;

use crate::answers::print_text;
use crate::desk::serve;
use anyhow::Context;
use books::opened::Opened;
use std::fs;
use std::process::ExitCode;
use typed::text::Text;

fn run(rt: &HostRuntime) -> anyhow::Result<()> {
    let image = fs::read(rt, "book.img").context("book.img")?;
    match Opened::open(image.as_slice()) {
        Ok(Opened::Printed(book)) => serve(rt, book),
        Ok(Opened::ClockFace(book)) => serve(rt, book),
        Err(fault) => print_text(
            rt,
            Text::BadImage {
                number: fault.refusal.number(),
                byte: fault.byte,
            },
        ),
    }
}

// Each program has a main of its own, since what it tells of an error begins with its name.
fn main(rt: HostRuntime) -> ExitCode {
    match run(&rt) {
        Ok(()) => ExitCode::SUCCESS,
        Err(error) => {
            // where this cannot be written either, the status alone tells
            let _ = eprintln!(rt; "canalroute: {error:#}");
            ExitCode::FAILURE
        }
    }
}
