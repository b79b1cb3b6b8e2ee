// One device's row, in place and in linear time: drift, gaps, then one last pass.
#![tactic(auto)]

ghost use Rattle.std.specs.Prelude.{ℕ, ◌≤◌, ◌<◌, ◌≡◌, length};
ghost use Rattle.rows.specs.Rows.{build};
ghost use Rattle.protocol.specs.Ranges.{intervals_most, flow_most};
ghost use Rattle.columns.specs.Series.{ChecksLong};
ghost use Rattle.drainage_drift.specs.Drift.{Ordered, corrected_at};
ghost use Rattle.drainage_drift.specs.Lent.{instrument_in};
ghost use Rattle.drainage_gaps.specs.Private.{filled_at};
ghost use Rattle.drainage_outcomes.specs.Rows.{RowsLong, rows_in, rows_left};
ghost use Rattle.drainage_device.specs.Device.{instrument_of, Right, Filled, Low};
ghost use Rattle.drainage_device.specs.Lent.{records_in};

use accounts::Account;
use columns::{Checks, Series};
use drainage_drift::Instrument;
use drainage_outcomes::{Rows, Sums};
use protocol::CHECKS;

// One device's records: its kind, its rows of the five series, and its checks.
#[derive(Clone, Copy)]
pub struct Records<'a> {
    pub kind: u32,
    pub series: Series<'a>,
    pub checks: Checks<'a>,
}

impl<'a> Records<'a> {
    // The checks of instrument g, flow 0 and CH4 1. Ruled out: the other instrument's count, positions or drifts.
    #[tactic(auto, unfolding(crate::specs::Device::instrument_of))]
    fn instrument(&self, g: usize) -> Instrument<'a>
        requires { ChecksLong (records_in self.now).checks 1 × (g < 2) }
        ensures { instrument_in result ≡ instrument_of (records_in self.now) g }
    {
        let p = CHECKS * g;
        let q = p + CHECKS;
        Instrument {
            count: self.checks.counts[g],
            positions: &self.checks.positions[p..q],
            drifts: &self.checks.drifts[p..q],
        }
    }
}

// One series: drift taken out, then each gap replaced. Ruled out: gaps replaced before drift is corrected; drift taken out
// of a replacement.
fn fill_series(reading: &[u16], instrument: &Instrument<'_>, used: &mut [u16])
    requires { Ordered (instrument_in instrument.now) (length reading.now)
        × (length used.old ≡ length reading.now) × (length reading.now ≤ intervals_most) × Low reading.now flow_most }
    ensures { used.new
        ≡ build (length reading.now)
        (filled_at reading.now
        (build (length reading.now)
        (corrected_at (instrument_in instrument.now) reading.now))) }
{
    drainage_drift::correct(reading, instrument, used);
    drainage_gaps::fill_gaps(reading, used);
}

// The three rows of one device, and its account. Ruled out: a row left as it was; CH4's checks used for flow.
pub fn fill_row(records: &Records<'_>, rows: Rows<'_>) -> Account
    requires { Right (records_in records.now) × RowsLong (rows_in rows) (length records.now.series.flow.now) }
    ensures { Filled (records_in records.now) (rows_left rows.exit) result }
{
    let Rows {
        outcome,
        flow,
        content,
    } = rows;
    fill_series(records.series.flow, &records.instrument(0), flow);
    fill_series(records.series.content, &records.instrument(1), content);
    let Sums { outcomes, methane } = drainage_outcomes::finish(
        &records.series,
        Rows {
            outcome,
            flow,
            content,
        },
    );
    Account {
        outcomes,
        methane,
        destroyed: balance::destroyed(records.kind, methane),
        uncombusted: balance::uncombusted(records.kind, methane),
    }
}
