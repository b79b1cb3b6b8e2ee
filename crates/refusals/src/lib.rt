// What any call refuses: the one table of refusals, below every crate that gives one. A number that is retired is never used again.
#![tactic(auto)]

ghost use Rattle.std.specs.Prelude.{◌≡◌};
ghost use Rattle.refusals.specs.Table.{reading_number, told_of, told_by};

// Which of an interval's readings: the series that it stands in.
#[derive(Clone, Copy)]
pub enum Column {
    Flow,
    Content,
    Temp,
    Press,
    Status,
}

// What is refused, with the device and the place where the rules name one.
#[derive(Clone, Copy)]
pub enum Refusal {
    Intervals,
    Devices,
    Lengths,
    Mine,
    Kind(usize),
    Misplaced(usize),
    Check(usize, usize),
    Fuel(usize),
    NoSheet(usize),
    ShortBuffer(usize),
    Line(usize),
    Room,
    ExportLength,
    SampleQuality(usize),
    SampleReading(usize),
    Reading(Column, usize, usize),
    Inlet(usize, usize),
    Exhaust(usize, usize),
}

// A refusal as it is given: its number, and the device and the place of the first offender.
#[derive(Clone, Copy)]
pub struct Told {
    pub number: u64,
    pub device: usize,
    pub place: usize,
}

impl Told {
    fn at(number: u64, device: usize, place: usize) -> Told
        ensures { result ≡ record { number = number; device = device; place = place } }
    {
        Told {
            number,
            device,
            place,
        }
    }
}

// The number of a wrong reading's refusal. Ruled out: one number for all; the pressure's for the temperature's.
impl From<Column> for u64 {
    ghost from_gives = { λ column n. n ≡ reading_number column };

    fn from(column: Column) -> u64 {
        match column {
            Column::Flow => 17,
            Column::Content => 18,
            Column::Temp => 19,
            Column::Press => 20,
            Column::Status => 21,
        }
    }
}

// Ruled out: 6 for 5; the device given as the place.
impl From<Refusal> for Told {
    ghost from_gives = { λ refusal t. t ≡ told_of refusal };

    fn from(refusal: Refusal) -> Told {
        match refusal {
            Refusal::Intervals => Told::at(1, 0, 0),
            Refusal::Devices => Told::at(2, 0, 0),
            Refusal::Lengths => Told::at(3, 0, 0),
            Refusal::Mine => Told::at(4, 0, 0),
            Refusal::Kind(device) => Told::at(5, device, 0),
            Refusal::Misplaced(device) => Told::at(6, device, 0),
            Refusal::Check(device, check) => Told::at(7, device, check),
            Refusal::Fuel(line) => Told::at(9, 0, line),
            Refusal::NoSheet(offset) => Told::at(10, 0, offset),
            Refusal::ShortBuffer(needed) => Told::at(11, 0, needed),
            Refusal::Line(line) => Told::at(12, 0, line),
            Refusal::Room => Told::at(13, 0, 0),
            Refusal::ExportLength => Told::at(14, 0, 0),
            Refusal::SampleQuality(sample) => Told::at(15, 0, sample),
            Refusal::SampleReading(sample) => Told::at(16, 0, sample),
            Refusal::Reading(column, device, interval) => Told::at(
                u64::from(column),
                device,
                interval,
            ),
            Refusal::Inlet(device, interval) => Told::at(22, device, interval),
            Refusal::Exhaust(device, interval) => Told::at(23, device, interval),
        }
    }
}

// What is told of an answer, whatever it gives where nothing is refused: three zeros then. Ruled out: a number for a clean call; a
// refusal told as none.
impl<T: Copy> From<Result<T, Refusal>> for Told {
    ghost from_gives = { λ answer t. t ≡ told_by answer };

    fn from(answer: Result<T, Refusal>) -> Told {
        match answer {
            Ok(_) => Told::at(0, 0, 0),
            Err(refusal) => Told::from(refusal),
        }
    }
}
