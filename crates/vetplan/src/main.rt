//! Vets the plan on standard input against the book in book.img: is it a journey for its query?
#![tactic(auto)]

mod desk;

use crate::desk::serve;
use anyhow::Context;
use books::opened::Opened;
use std::fs;
use std::process::ExitCode;

fn run(rt: &HostRuntime) -> anyhow::Result<()> {
    let image = fs::read(rt, "book.img").context("book.img")?;
    match Opened::open(image.as_slice()) {
        Ok(Opened::Printed(book)) => serve(rt, book),
        Ok(Opened::ClockFace(book)) => serve(rt, book),
        Err(fault) => {
            let number = fault.refusal.number();
            println!(rt; "E {number} {}", fault.byte)?;
            Ok(())
        }
    }
}

// Each program has a main of its own, since what it tells of an error begins with its name.
fn main(rt: HostRuntime) -> ExitCode {
    match run(&rt) {
        Ok(()) => ExitCode::SUCCESS,
        Err(error) => {
            // where this cannot be written either, the status alone tells
            let _ = eprintln!(rt; "vetplan: {error:#}");
            ExitCode::FAILURE
        }
    }
}
