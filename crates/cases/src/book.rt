//! The worked book, for whoever runs the cases.
ghost use Rattle.std.specs.Prelude.{◌≡◌};
ghost use Rattle.cases.specs.Mill.{mill, placed, sail};

use timetable::sailing::Sailing;

fn sailing(run: u16, leg: u16, from: u16, to: u16, dep: u16, arr: u16) -> Sailing
    ensures { result ≡ sail run leg from to dep arr }
{
    Sailing {
        run,
        leg,
        from,
        to,
        dep,
        arr,
    }
}

// The sailings of the worked book, place by place.
pub fn worked_sailings() -> [Sailing; 6]
    ensures { placed result ≡ (mill 30).places }
{
    [
        sailing(7, 0, 0, 1, 480, 500),
        sailing(9, 0, 0, 1, 470, 490),
        sailing(7, 1, 1, 2, 505, 540),
        sailing(8, 0, 1, 2, 515, 530),
        sailing(6, 0, 1, 2, 510, 540),
        sailing(5, 0, 2, 3, 1430, 10),
    ]
}

// The change times of its quays, with the one of quay 1 as a case has it.
pub fn worked_changes(change: u16) -> [u16; 4]
    ensures { result ≡ (mill change).changes }
{
    [5, change, 10, 5]
}
