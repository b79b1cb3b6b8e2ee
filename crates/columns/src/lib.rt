// What a record lends, each group as one thing: the series, the checks, the fuel lines, and the streams of ventilation air. A part of one
// is one of the same kind. None has an invariant on its lengths: a host may lend any, and refusal 3 says which is wrong.
#![tactic(auto)]

ghost use Rattle.std.specs.Prelude.{◌+◌, ◌≤◌, ◌≡◌};
ghost use Rattle.columns.specs.Series.{Room, ChecksRoom, series_cut, checks_part};
ghost use Rattle.columns.specs.Streams.{AirRoom, EachOf, stream_cut, air_cut};
ghost use Rattle.columns.specs.Lent.{series_in, checks_in, stream_in, air_in};

use protocol::DEVICE_CHECKS;

// The five series of drainage gas (rule 3.3), of a device or of all devices one after the other.
#[derive(Clone, Copy)]
pub struct Series<'a> {
    pub flow: &'a [u16],
    pub content: &'a [u16],
    pub temp: &'a [i16],
    pub press: &'a [u32],
    pub status: &'a [u8],
}

// The checks (rule 3.12): of each device the flow instrument first, a count and 32 places for positions and for drifts.
#[derive(Clone, Copy)]
pub struct Checks<'a> {
    pub counts: &'a [u32],
    pub positions: &'a [u32],
    pub drifts: &'a [i32],
}

// The fuel lines' quantities and factors (rule 3.10).
#[derive(Clone, Copy)]
pub struct Fuel<'a> {
    pub quantity: &'a [u32],
    pub factor: &'a [u32],
}

// The four series of one stream of ventilation air (rule 19.1).
#[derive(Clone, Copy)]
pub struct Stream<'a> {
    pub flow: &'a [u16],
    pub ppm: &'a [u16],
    pub temp: &'a [i16],
    pub press: &'a [u32],
}

// The nine series of ventilation air.
#[derive(Clone, Copy)]
pub struct Air<'a> {
    pub inlet: Stream<'a>,
    pub exhaust: Stream<'a>,
    pub status: &'a [u8],
}

impl<'a> Series<'a> {
    // The entries from a up to, and without, e. Ruled out: one series cut elsewhere than the others; the entry at e taken along.
    pub fn part(&self, a: usize, e: usize) -> Series<'a>
        requires { (a ≤ e) × Room (series_in self.now) e }
        ensures { series_in result ≡ series_cut (series_in self.now) a e }
    {
        Series {
            flow: &self.flow[a..e],
            content: &self.content[a..e],
            temp: &self.temp[a..e],
            press: &self.press[a..e],
            status: &self.status[a..e],
        }
    }
}

impl<'a> Checks<'a> {
    // Device d's checks. Ruled out: one instrument's; positions that begin with the other device's.
    pub fn part(&self, d: usize) -> Checks<'a>
        requires { ChecksRoom (checks_in self.now) (d + 1) }
        ensures { checks_in result ≡ checks_part (checks_in self.now) d }
    {
        let c = d * 2;
        let p = d * DEVICE_CHECKS;
        Checks {
            counts: &self.counts[c..c + 2],
            positions: &self.positions[p..p + DEVICE_CHECKS],
            drifts: &self.drifts[p..p + DEVICE_CHECKS],
        }
    }
}

impl<'a> Stream<'a> {
    // The entries from a up to, and without, e. Ruled out: one series cut elsewhere than the others; the entry at e taken along.
    pub fn part(&self, a: usize, e: usize) -> Stream<'a>
        requires { (a ≤ e) × EachOf (λ l. e ≤ l) (stream_in self.now) }
        ensures { stream_in result ≡ stream_cut (stream_in self.now) a e }
    {
        Stream {
            flow: &self.flow[a..e],
            ppm: &self.ppm[a..e],
            temp: &self.temp[a..e],
            press: &self.press[a..e],
        }
    }
}

impl<'a> Air<'a> {
    // The entries from a up to, and without, e. Ruled out: the streams exchanged; the status of other entries.
    pub fn part(&self, a: usize, e: usize) -> Air<'a>
        requires { (a ≤ e) × AirRoom (air_in self.now) e }
        ensures { air_in result ≡ air_cut (air_in self.now) a e }
    {
        Air {
            inlet: self.inlet.part(a, e),
            exhaust: self.exhaust.part(a, e),
            status: &self.status[a..e],
        }
    }
}
