// One oxidiser's row: the outcome of each interval, and the device's account.
#![tactic(auto)]

ghost use Rattle.std.specs.Prelude.{◌<◌, ◌≡◌, true, length};
ghost use Rattle.columns.specs.Streams.{gas_missing, gas_right, gas_at, EachOf};
ghost use Rattle.columns.specs.Lent.{stream_in, air_in};
ghost use Rattle.ventilation_device.specs.Outcomes.{gas_in, entry_of};
ghost use Rattle.ventilation_device.specs.Device.{Right, Filled};

use accounts::{Account, OUTCOMES};
use columns::{Air, Stream};
use protocol::MISSING;
use volume::Gas;

// An interval's outcome, and the methane litres that it counts for, those that enter and those that leave.
#[derive(Clone, Copy)]
pub struct Entry {
    pub outcome: u8,
    pub inlet: u64,
    pub exhaust: u64,
}

impl Entry {
    // An interval that counts for nothing.
    fn excluded(outcome: u8) -> Entry
        ensures { result ≡ record { outcome = outcome; inlet = 0; exhaust = 0 } }
    {
        Entry {
            outcome,
            inlet: 0,
            exhaust: 0,
        }
    }
}

// Whether one of a stream's readings is missing. Ruled out: a pressure of 0 taken for a reading; CH4 of 0 ppm taken for missing.
fn lacks(g: Gas) -> bool
    ensures { result ≡ gas_missing (gas_in g) }
{
    g.flow == MISSING || g.content == MISSING || protocol::temp_missing(g.temp) || g.press == 0
}

// One interval. Status and outcome are numbers, as in the rows that C lends and reads, and `outcome_of` speaks of every number. Ruled
// out: the inlet's flow used for the exhaust; an exhaust that is missing taken for none; as much out as in excluded.
#[tactic(auto, unfolding(crate::specs::Outcomes::entry_of, crate::specs::Outcomes::outcome_of))]
pub fn settle(inlet: Gas, exhaust: Gas, status: u8) -> Entry
    requires { (gas_right (gas_in inlet) ≡ true) × (gas_right (gas_in exhaust) ≡ true) }
    ensures { result ≡ entry_of (gas_in inlet) (gas_in exhaust) status }
{
    if status == 0 {
        return Entry::excluded(3);
    }
    if status == 3 {
        return Entry::excluded(4);
    }
    if lacks(inlet) || lacks(exhaust) {
        return Entry::excluded(5);
    }
    let supplied = inlet.litres();
    let left = exhaust.litres_up();
    if supplied < left {
        return Entry::excluded(6);
    }
    Entry {
        outcome: 0,
        inlet: supplied,
        exhaust: left,
    }
}

// One interval's readings of a stream, whose ppm are the content of its gas.
fn gas(s: &Stream<'_>, i: usize) -> Gas
    requires { EachOf (λ l. i < l) (stream_in s.now) }
    ensures { gas_in result ≡ gas_at (stream_in s.now) i }
{
    Gas {
        flow: s.flow[i],
        content: s.ppm[i],
        temp: s.temp[i],
        press: s.press[i],
    }
}

// The outcome row of one device, and its account. Ruled out: a row left as it was; the exhaust of an excluded interval counted.
pub fn fill_row(air: &Air<'_>, outcome: &mut [u8]) -> Account
    requires { Right (air_in air.now) × (length outcome.old ≡ length air.now.status.now) }
    ensures { Filled (air_in air.now) outcome.new result }
{
    let Air {
        inlet,
        exhaust,
        status,
    } = *air;
    let mut outcomes = [0u64; OUTCOMES];
    let mut supplied: u64 = 0;
    let mut left: u64 = 0;
    for i in 0..status.len() {
        let e = settle(gas(&inlet, i), gas(&exhaust, i), status[i]);
        outcome[i] = e.outcome;
        outcomes[e.outcome as usize] += 1;
        supplied += e.inlet;
        left += e.exhaust;
    }
    Account {
        outcomes,
        methane: supplied,
        destroyed: supplied - left,
        uncombusted: left,
    }
}
