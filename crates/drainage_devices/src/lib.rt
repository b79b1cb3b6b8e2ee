// All devices, one after the other: each device's part of the lent rows and its account are written on their own.
#![tactic(auto)]

ghost use Rattle.std.specs.Prelude.{ℕ, ◌+◌, ◌*◌, ◌≤◌, ◌<◌, ◌≡◌, length};
ghost use Rattle.protocol.specs.Ranges.{devices_most};
ghost use Rattle.accounts.specs.Account.{account_size};
ghost use Rattle.drainage_outcomes.specs.Rows.{RowsLong, rows_of, rows_in, rows_left};
ghost use Rattle.drainage_devices.specs.Devices.{Sound, results_with};
ghost use Rattle.drainage_devices.specs.Totals.{AllWritten};
ghost use Rattle.drainage_devices.specs.Private.{Written};
ghost use Rattle.drainage_devices.specs.Lent.{lent_in};

use accounts::{Account, Totals};
use columns::{Checks, Series};
use drainage_device::Records;
use drainage_outcomes::Rows;

// The records of all devices, device 0 first (rules 3.3 and 3.12).
#[derive(Clone, Copy)]
pub struct Lent<'a> {
    pub intervals: usize,
    pub kinds: &'a [u32],
    pub checks: Checks<'a>,
    pub series: Series<'a>,
}

// Device d's part of each row is lent on to the function that fills one device's row. Ruled out: a part that starts in the
// neighbour's row; a neighbour's entry changed.
// The rows are three parameters: the check does not cover `split_at_mut` of what a `Rows` lends, and of a part by its range,
// `&mut outcome[a..e]` in a `Rows`, it knows only the length after the call.
fn fill_device(
    lent: &Lent<'_>,
    d: usize,
    devices: usize,
    outcome: &mut [u8],
    flow: &mut [u16],
    content: &mut [u16],
) -> Account
    requires { Sound (lent_in lent.now) devices × (d < devices)
        × RowsLong (rows_of outcome.old flow.old content.old) (devices * lent.now.intervals) }
    ensures { Written (lent_in lent.now) d (rows_of outcome.old flow.old content.old) (rows_of outcome.new flow.new content.new) result }
{
    let n = lent.intervals;
    let a = d * n;
    let (_, outcome) = outcome.split_at_mut(a);
    let (outcome, _) = outcome.split_at_mut(n);
    let (_, flow) = flow.split_at_mut(a);
    let (flow, _) = flow.split_at_mut(n);
    let (_, content) = content.split_at_mut(a);
    let (content, _) = content.split_at_mut(n);
    drainage_device::fill_row(
        &Records {
            kind: lent.kinds[d],
            series: lent.series.part(a, a + n),
            checks: lent.checks.part(d),
        },
        Rows {
            outcome,
            flow,
            content,
        },
    )
}

// The rows and accounts of all devices, device 0 first, and their sums. Ruled out: the first device done and the rest faked; a device
// counted twice. Ventilation air has a loop of its own: one for both over a closure that writes rows was tried and did not prove.
pub fn fill_rows(lent: &Lent<'_>, devices: usize, rows: Rows<'_>, accounts: &mut [u64]) -> Totals
    requires { Sound (lent_in lent.now) devices × RowsLong (rows_in rows) (devices * lent.now.intervals)
        × (length accounts.old ≡ devices_most * account_size) }
    ensures { AllWritten (lent_in lent.now) devices
        (results_with (rows_in rows.entry) accounts.old) (results_with (rows_left rows.exit) accounts.new) result }
{
    let Rows {
        outcome,
        flow,
        content,
    } = rows;
    let mut t = Totals::none();
    for d in 0..devices {
        let a = fill_device(lent, d, devices, outcome, flow, content);
        a.store(d, accounts);
        t = t.with(a);
    }
    t
}
