//! What stands in a book.
use books::printed::Printed;
use std::fmt;
use std::fmt::Write;
use timetable::book::Book;
use timetable::sailing::Sailing;

// A minute of the day, as HH:MM.
#[derive(Clone, Copy)]
struct Clock {
    minute: u16,
}

impl fmt::Display for Clock {
    fn fmt<W: fmt::Write>(&self, f: &mut fmt::Formatter<W>) -> fmt::Result {
        let hours = self.minute / 60;
        let minutes = self.minute % 60;
        write!(f, "{hours:02}:{minutes:02}")
    }
}

// The letters of a name.
#[derive(Clone, Copy)]
struct Name<'a> {
    letters: &'a [u8],
}

impl<'a> fmt::Display for Name<'a> {
    fn fmt<W: fmt::Write>(&self, f: &mut fmt::Formatter<W>) -> fmt::Result {
        for letter in self.letters {
            f.write_char(char::from(*letter))?;
        }
        Ok(())
    }
}

fn list_quay(rt: &HostRuntime, book: &Printed, quay: u16) -> anyhow::Result<()> {
    if let (Ok(change), Ok(letters)) = (book.change(quay), book.name(quay)) {
        let name = Name { letters };
        println!(rt; "quay {quay}: \"{name}\", change {change}")?;
    }
    Ok(())
}

fn list_sailing(rt: &HostRuntime, place: u16, s: Sailing) -> anyhow::Result<()> {
    let Sailing {
        run,
        leg,
        from,
        to,
        dep,
        arr,
    } = s;
    let leaves = Clock { minute: dep };
    let arrives = Clock { minute: arr };
    let length = s.length();
    println!(rt;
        "place {place}: run {run}, leg {leg}, quay {from} to {to}, {leaves} to {arrives}, {length} minutes"
    )?;
    Ok(())
}

pub(crate) fn list_book(rt: &HostRuntime, book: &Printed, bytes: usize) -> anyhow::Result<()> {
    let quays = book.quays();
    let places = book.places();
    println!(rt; "bound {quays} quays and {places} sailings into book.img: {bytes} bytes")?;
    // a book has no list to go over: it is asked by number
    for quay in 0..quays {
        list_quay(rt, book, quay)?;
    }
    for place in 0..places {
        if let Some(sailing) = book.sailing_at(place) {
            list_sailing(rt, place, sailing)?;
        }
    }
    Ok(())
}
