//! How many calls of each kind were compared.
use board::calls::Answer;
use std::io;
use timetable::refusal::Refusal;

#[derive(Drop)]
pub(crate) struct Tally {
    boards: u32,
    notices: u32,
    thins: u32,
    marked: u32,
    routes: u32,
    journeys: u32,
    none: u32,
    legs: u32,
    longest: u16,
    // by the number of the refusal, which is what is printed; a map could run out of memory while it counts
    refused: [u32; 64],
}

fn add(count: &mut u32, more: u16) {
    *count = count.saturating_add(u32::from(more));
}

impl Tally {
    pub(crate) fn new() -> Tally {
        Tally {
            boards: 0,
            notices: 0,
            thins: 0,
            marked: 0,
            routes: 0,
            journeys: 0,
            none: 0,
            legs: 0,
            longest: 0,
            refused: [0; 64],
        }
    }

    pub(crate) fn count_board(&mut self) {
        add(&mut self.boards, 1);
    }

    fn count_refusal(&mut self, refusal: Refusal) {
        if let Some(count) = self.refused.get_mut(usize::from(refusal.number())) {
            add(count, 1);
        }
    }

    pub(crate) fn count(&mut self, answer: Answer) {
        match answer {
            Answer::Notice(_) => add(&mut self.notices, 1),
            Answer::Count(marked) => {
                add(&mut self.thins, 1);
                add(&mut self.marked, marked);
            }
            Answer::Told(_) => add(&mut self.routes, 1),
        }
        match answer {
            Answer::Notice(Err(refusal)) | Answer::Told(Err(refusal)) => {
                self.count_refusal(refusal);
            }
            Answer::Told(Ok(None)) => add(&mut self.none, 1),
            Answer::Told(Ok(Some(found))) => {
                add(&mut self.journeys, 1);
                add(&mut self.legs, found.legs);
                self.longest = self.longest.max(found.legs);
            }
            Answer::Notice(Ok(())) | Answer::Count(_) => {}
        }
    }

    pub(crate) fn print(&self, rt: &HostRuntime) -> io::Result<()> {
        let calls = self
            .notices
            .saturating_add(self.thins)
            .saturating_add(self.routes);
        println!(rt;
            "{} boards, {} calls: {} notices, {} thins, {} routes",
            self.boards, calls, self.notices, self.thins, self.routes
        )?;
        println!(rt;
            "{} sailings marked, {} journeys of {} legs, the longest of {}, and {} times none",
            self.marked, self.journeys, self.legs, self.longest, self.none
        )?;
        for (number, count) in self.refused.iter().enumerate() {
            if *count > 0 {
                println!(rt; "refused with {number}: {count}")?;
            }
        }
        println!(rt; "all as computed")
    }
}
