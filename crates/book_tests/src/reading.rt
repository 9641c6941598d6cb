//! A second reading of images, written from the words of the layout alone: its own types, and no code of the crates under test.

// What is wrong with an image, in numbers.
#[derive(Clone, Copy, PartialEq, Debug)]
pub struct Told {
    pub number: u8,
    pub byte: usize,
    pub part: u8,
    pub row: usize,
}

impl Told {
    pub(crate) fn new(number: u8, byte: usize, part: u8, row: usize) -> Told {
        Told {
            number,
            byte,
            part,
            row,
        }
    }
}

// The forms of images, with the numbers of their headings.
#[derive(Clone, Copy, PartialEq, Debug)]
pub enum Form {
    Printed = 1,
    ClockFace = 2,
}

// A record that is due: the image, where the record begins, and its row in its part.
#[derive(Clone, Copy)]
struct Due<'a> {
    bytes: &'a [u8],
    start: usize,
    part: u8,
    row: usize,
}

// What the entries before the one due have come to.
#[derive(Clone, Copy)]
struct Before {
    from: u16,
    places: u32,
}

impl<'a> Due<'a> {
    fn told(self, number: u8, offset: usize) -> Told {
        Told::new(
            number,
            self.start.saturating_add(offset),
            self.part,
            self.row,
        )
    }

    fn byte(self, offset: usize) -> u8 {
        self.bytes
            .get(self.start.saturating_add(offset))
            .copied()
            .unwrap_or(0)
    }

    fn number(self, offset: usize) -> u16 {
        u16::from_le_bytes([self.byte(offset), self.byte(offset.saturating_add(1))])
    }

    fn within(self, n: u16, offset: usize, low: u16, high: u16) -> Result<(), Told> {
        if n < low || n > high {
            Err(self.told(3, offset))
        } else {
            Ok(())
        }
    }

    fn limit(self, offset: usize, low: u16, high: u16) -> Result<(), Told> {
        self.within(self.number(offset), offset, low, high)
    }

    fn limit_byte(self, offset: usize, low: u16, high: u16) -> Result<(), Told> {
        self.within(u16::from(self.byte(offset)), offset, low, high)
    }

    // The record is whole, and has the length and the kind due.
    fn frame(self, length: u16, kind: u16) -> Result<(), Told> {
        let end = self
            .start
            .saturating_add(2)
            .saturating_add(usize::from(length));
        if self.bytes.len() < end {
            return Err(self.told(1, 0));
        }
        if self.number(0) != length {
            return Err(self.told(2, 0));
        }
        if self.number(2) != kind {
            return Err(self.told(2, 2));
        }
        Ok(())
    }

    fn heading(self, form: Form) -> Result<(), Told> {
        self.frame(14, form as u16)?;
        self.limit(4, 1, 256)?;
        let most = match form {
            Form::Printed => 3072,
            Form::ClockFace => 512,
        };
        self.limit(6, 0, most)?;
        for offset in 8..16usize {
            self.limit_byte(offset, 0, 0)?;
        }
        Ok(())
    }

    fn quay(self) -> Result<(), Told> {
        self.frame(14, 3)?;
        self.limit(4, 0, 1439)?;
        for offset in 6..16usize {
            self.limit_byte(offset, 32, 126)?;
        }
        Ok(())
    }

    // Where an entry leaves from and goes to.
    fn ends(self, quays: u16, before: Before) -> Result<(), Told> {
        let from = self.number(8);
        let to = self.number(10);
        if from >= quays {
            return Err(self.told(3, 8));
        }
        if from < before.from {
            return Err(self.told(4, 8));
        }
        if to >= quays || from == to {
            return Err(self.told(3, 10));
        }
        Ok(())
    }

    // A sailing takes one place.
    fn sailing(self, quays: u16, before: Before) -> Result<u32, Told> {
        self.frame(14, 4)?;
        self.ends(quays, before)?;
        self.limit(12, 0, 1439)?;
        self.limit(14, 0, 1439)?;
        Ok(1)
    }

    // Whether every member of a series leaves on the first day, has a run and finds a place.
    fn fits(self, before: Before) -> bool {
        let mut dep = u32::from(self.number(12));
        let mut run = u32::from(self.number(4));
        let mut places = before.places;
        for _ in 0..self.number(16) {
            places = places.saturating_add(1);
            if dep > 1439 || run > 65535 || places > 3072 {
                return false;
            }
            dep = dep.saturating_add(u32::from(self.number(14)));
            run = run.saturating_add(1);
        }
        true
    }

    // A series takes a place for each of its members.
    fn series(self, quays: u16, before: Before) -> Result<u32, Told> {
        self.frame(18, 5)?;
        self.ends(quays, before)?;
        self.limit(12, 0, 1439)?;
        self.limit(14, 1, 1439)?;
        self.limit(16, 1, 1440)?;
        if !self.fits(before) {
            return Err(self.told(6, 16));
        }
        self.limit(18, 0, 1439)?;
        Ok(u32::from(self.number(16)))
    }

    fn entry(self, form: Form, quays: u16, before: Before) -> Result<u32, Told> {
        match form {
            Form::Printed => self.sailing(quays, before),
            Form::ClockFace => self.series(quays, before),
        }
    }
}

// Reads the entries, and tells where they end.
fn entries_end(
    bytes: &[u8],
    form: Form,
    quays: u16,
    entries: u16,
    first: usize,
) -> Result<usize, Told> {
    let size = match form {
        Form::Printed => 16usize,
        Form::ClockFace => 20,
    };
    let mut before = Before { from: 0, places: 0 };
    let mut start = first;
    // rows are counted, since records lie in bytes
    for row in 0..usize::from(entries) {
        let due = Due {
            bytes,
            start,
            part: 3,
            row,
        };
        let taken = due.entry(form, quays, before)?;
        before = Before {
            from: due.number(8),
            places: before.places.saturating_add(taken),
        };
        start = start.saturating_add(size);
    }
    Ok(start)
}

// Reads the bytes as an image of this form.
pub(crate) fn read_as(bytes: &[u8], form: Form) -> Result<(), Told> {
    let heading = Due {
        bytes,
        start: 0,
        part: 1,
        row: 0,
    };
    heading.heading(form)?;
    let quays = heading.number(4);
    let mut start = 16usize;
    for row in 0..usize::from(quays) {
        Due {
            bytes,
            start,
            part: 2,
            row,
        }
        .quay()?;
        start = start.saturating_add(16);
    }
    let end = entries_end(bytes, form, quays, heading.number(6), start)?;
    if bytes.len() > end {
        return Err(Told::new(5, end, 4, 0));
    }
    Ok(())
}

// Reads the bytes as an image of the form that they name, and tells that form.
pub(crate) fn read_image(bytes: &[u8]) -> Result<Form, Told> {
    let heading = Due {
        bytes,
        start: 0,
        part: 1,
        row: 0,
    };
    let form = if bytes.len() >= 4 && heading.number(2) == Form::ClockFace as u16 {
        Form::ClockFace
    } else {
        Form::Printed
    };
    read_as(bytes, form)?;
    Ok(form)
}
