// All oxidisers, one after the other: each device's part of the lent row and its account are written on their own.
#![tactic(auto)]

ghost use Rattle.std.specs.Prelude.{◌*◌, ◌<◌, ◌≡◌, length};
ghost use Rattle.protocol.specs.Ranges.{devices_most};
ghost use Rattle.accounts.specs.Account.{account_size};
ghost use Rattle.ventilation_devices.specs.Devices.{lent_in, Sound, AllWritten, Written};

use accounts::{Account, Totals};
use columns::Air;

// The records of all devices, each series one device's intervals after the other's.
#[derive(Clone, Copy)]
pub struct Lent<'a> {
    pub intervals: usize,
    pub air: Air<'a>,
}

// Device d's part of the row is lent on to the function that fills one device's row. Ruled out: a part that starts in the
// neighbour's row; a neighbour's entry changed.
fn fill_device(lent: &Lent<'_>, devices: usize, d: usize, outcome: &mut [u8]) -> Account
    requires { Sound (lent_in lent.now) devices × (d < devices) × (length outcome.old ≡ devices * lent.now.intervals) }
    ensures { Written (lent_in lent.now) d outcome.old outcome.new result }
{
    let a = d * lent.intervals;
    let e = a + lent.intervals;
    ventilation_device::fill_row(&lent.air.part(a, e), &mut outcome[a..e])
}

// The row and the accounts of all devices, device 0 first, and their sums. Ruled out: the first device done and the rest faked; a
// device counted twice.
pub fn fill_rows(
    lent: &Lent<'_>,
    devices: usize,
    outcome: &mut [u8],
    accounts: &mut [u64],
) -> Totals
    requires { Sound (lent_in lent.now) devices × (length outcome.old ≡ devices * lent.now.intervals)
        × (length accounts.old ≡ devices_most * account_size) }
    ensures { AllWritten (lent_in lent.now) devices
        (record { outcome = outcome.old; accounts = accounts.old })
        (record { outcome = outcome.new; accounts = accounts.new })
        result }
{
    let mut t = Totals::none();
    // Not shared with drainage gas: one loop for both over a closure that writes rows was tried and did not prove.
    for d in 0..devices {
        let a = fill_device(lent, devices, d, outcome);
        a.store(d, accounts);
        t = t.with(a);
    }
    t
}
