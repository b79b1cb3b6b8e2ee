// The last pass over one device's row: outcomes, values used, counts and methane litres.
#![tactic(auto)]

ghost use Rattle.std.specs.Prelude.{ℕ, ◌≤◌, ◌<◌, ◌≡◌, eqb, length};
ghost use Rattle.rows.specs.Rows.{pick, either};
ghost use Rattle.protocol.specs.Ranges.{temp_missing, press_missing};
ghost use Rattle.columns.specs.Lent.{series_in};
ghost use Rattle.drainage_outcomes.specs.Rows.{rows_in, rows_left};
ghost use Rattle.drainage_outcomes.specs.Outcomes.{
  outcome_of,
  all_measured,
  held_outcome,
  entry_of,
  sums_of,
  held_by,
  Ready,
  ReadyAt,
  Finished,
};

use accounts::OUTCOMES;
use columns::Series;
use drainage_runs::EXCLUDING;
use protocol::MISSING;
use volume::Gas;

// The result rows of a device, or of all devices one after the other (rule 3.11): outcomes, and the flow and CH4 content used.
#[derive(Drop)]
pub struct Rows<'a> {
    pub outcome: &'a mut [u8],
    pub flow: &'a mut [u16],
    pub content: &'a mut [u16],
}

// One interval as recorded.
// The status stays a number: the series that C lends has it so, and rule 3.4 names it so.
#[derive(Clone, Copy)]
pub struct Readings {
    pub flow: u16,
    pub content: u16,
    pub temp: i16,
    pub press: u32,
    pub status: u8,
}

// The outcome stays a number: the row that C reads holds it, and gaps hold it above EXCLUDING.
#[derive(Clone, Copy)]
pub struct Entry {
    pub outcome: u8,
    pub flow: u16,
    pub content: u16,
    pub litres: u64,
}

#[derive(Clone, Copy)]
pub struct Sums {
    pub outcomes: [u64; OUTCOMES],
    pub methane: u64,
}

// Status and outcome are numbers, as the rows hold them. Ruled out: outcomes 5 and 6 exchanged; a missing reading counted under status 1.
#[tactic(auto, unfolding(crate::specs::Outcomes::outcome_of))]
pub fn outcome(
    status: u8,
    lacking: bool,
    no_flow: bool,
    no_content: bool,
    by_flow: u8,
    by_content: u8,
) -> u8
    ensures { result ≡ outcome_of status lacking no_flow no_content by_flow by_content }
{
    if status == 0 {
        return 3;
    }
    if status == 3 {
        return 4;
    }
    if lacking {
        return 5;
    }
    if no_flow {
        return replaced(status, no_content, by_flow);
    }
    if no_content {
        return replaced(status, false, by_content);
    }
    0
}

// The outcome of an interval without flow or content.
fn replaced(status: u8, both_missing: bool, by: u8) -> u8
    ensures { result ≡ pick both_missing 6 (pick (eqb status 1) 7 by) }
{
    if both_missing {
        return 6;
    }
    if status == 1 {
        return 7;
    }
    by
}

// What a missing reading comes to.
fn held_outcome(counted: u8, held: u16) -> u8
    ensures { result ≡ held_outcome counted held }
{
    if EXCLUDING < held {
        (held - EXCLUDING) as u8
    } else {
        counted
    }
}

impl Readings {
    // Temperature or pressure missing.
    fn lacks(self) -> bool
        ensures { result ≡ either (temp_missing self.temp) (press_missing self.press) }
    {
        protocol::temp_missing(self.temp) || self.press == 0
    }

    // Whether an interval is counted as outcome 0: the device ran and nothing is missing. Ruled out: status 3 taken for running; a
    // pressure of 0 taken for a reading.
    #[tactic(auto, unfolding(crate::specs::Outcomes::all_measured))]
    fn all_measured(self) -> bool
        ensures { result ≡ all_measured self.flow self.content self.temp self.press self.status }
    {
        !(self.status == 0
            || self.status == 3
            || self.lacks()
            || self.flow == MISSING
            || self.content == MISSING)
    }

    // One interval. Ruled out: an excluded interval with a value; litres without the content.
    pub fn settle(self, flow_held: u16, content_held: u16) -> Entry
        requires { Ready self.flow self.content self.temp self.press flow_held content_held }
        ensures { result ≡ entry_of self.flow self.content self.temp self.press self.status flow_held content_held }
    {
        let o = outcome(
            self.status,
            self.lacks(),
            self.flow == MISSING,
            self.content == MISSING,
            held_outcome(1, flow_held),
            held_outcome(2, content_held),
        );
        if o < 3 {
            let gas = Gas {
                flow: flow_held,
                content: content_held,
                temp: self.temp,
                press: self.press,
            };
            Entry {
                outcome: o,
                flow: flow_held,
                content: content_held,
                litres: gas.litres(),
            }
        } else {
            Entry {
                outcome: o,
                flow: 0,
                content: 0,
                litres: 0,
            }
        }
    }
}

// Every interval's outcome and values used, in place of what the rows held. Ruled out: a count that is not counted; a row
// left as it was after its first entry.
pub fn finish(series: &Series<'_>, rows: Rows<'_>) -> Sums
    requires { ReadyAt (held_by (series_in series.now) (rows_in rows)) (length series.now.flow.now)
        × (length rows.outcome.now ≡ length series.now.flow.now) }
    ensures { Finished (held_by (series_in series.now) (rows_in rows.entry)) (rows_left rows.exit) result }
{
    let Rows {
        outcome,
        flow: flow_used,
        content: content_used,
    } = rows;
    let Series {
        flow,
        content,
        temp,
        press,
        status,
    } = *series;
    let mut outcomes = [0u64; OUTCOMES];
    let mut methane = 0;
    for i in 0..flow.len() {
        let x = Readings {
            flow: flow[i],
            content: content[i],
            temp: temp[i],
            press: press[i],
            status: status[i],
        };
        if x.all_measured() {
            // The commonest interval: its values stand in the rows already.
            let gas = Gas {
                flow: flow_used[i],
                content: content_used[i],
                temp: x.temp,
                press: x.press,
            };
            outcome[i] = 0;
            outcomes[0] += 1;
            methane += gas.litres();
        } else {
            let e = x.settle(flow_used[i], content_used[i]);
            outcome[i] = e.outcome;
            flow_used[i] = e.flow;
            content_used[i] = e.content;
            outcomes[e.outcome as usize] += 1;
            methane += e.litres;
        }
    }
    Sums { outcomes, methane }
}
