// A device's account, the sums over devices and the sheet's figures: what every quantification does once its devices' intervals are
// settled.
#![tactic(auto)]

ghost use Rattle.std.specs.Prelude.{◌+◌, ◌*◌, ◌≤◌, ◌<◌, ◌≡◌, length};
ghost use Rattle.rows.specs.Rows.{put};
ghost use Rattle.protocol.specs.Ranges.{devices_most};
ghost use Rattle.columns.specs.Series.{Burnable};
ghost use Rattle.columns.specs.Lent.{fuel_in};
ghost use Rattle.balance.specs.Balance.{Moderate};
ghost use Rattle.accounts.specs.Account.{outcome_kinds, account_size, numbers_of};
ghost use Rattle.accounts.specs.Totals.{no_totals};
ghost use Rattle.accounts.specs.Sheet.{fuel_sum, figures_from};
ghost use Rattle.accounts.specs.Private.{added, Modest, Room};

use columns::Fuel;
use figures::Figures;

// How many outcomes there are.
pub const OUTCOMES: usize = 10;

// How many numbers a device's account is written in, its outcomes and three sums of litres, and those of all devices: C lends one array.
pub const ACCOUNT: usize = 13;

pub const ACCOUNTS: usize = 208;

// A device's account: how many of its intervals have each outcome, and its litres.
#[derive(Clone, Copy)]
pub struct Account {
    pub outcomes: [u64; OUTCOMES],
    pub methane: u64,
    pub destroyed: u64,
    pub uncombusted: u64,
}

#[derive(Clone, Copy)]
pub struct Totals {
    pub counted: u64,
    pub replaced: u64,
    pub excluded: u64,
    pub methane: u64,
    pub destroyed: u64,
    pub uncombusted: u64,
    pub baseline_mg: u64,
    pub co2_mg: u64,
    pub uncombusted_mg: u64,
}

impl Totals {
    // Of no device. Ruled out: a sum that starts elsewhere than at 0.
    pub fn none() -> Totals
        ensures { result ≡ no_totals }
    {
        Totals {
            counted: 0,
            replaced: 0,
            excluded: 0,
            methane: 0,
            destroyed: 0,
            uncombusted: 0,
            baseline_mg: 0,
            co2_mg: 0,
            uncombusted_mg: 0,
        }
    }

    // One device more. Ruled out: CO2 rounded once over all devices; replaced intervals counted as excluded.
    pub fn with(self, a: Account) -> Totals
        requires { Room self × Modest a }
        ensures { result ≡ added self a }
    {
        let times = a.outcomes;
        let replaced = times[1] + times[2];
        let excluded = times[3] + times[4] + times[5] + times[6] + times[7] + times[8] + times[9];
        Totals {
            counted: self.counted + (times[0] + times[1] + times[2]),
            replaced: self.replaced + replaced,
            excluded: self.excluded + excluded,
            methane: self.methane + a.methane,
            destroyed: self.destroyed + a.destroyed,
            uncombusted: self.uncombusted + a.uncombusted,
            baseline_mg: self.baseline_mg + balance::methane_mg(a.methane),
            co2_mg: self.co2_mg + balance::carbon_dioxide_mg(a.destroyed),
            uncombusted_mg: self.uncombusted_mg + balance::methane_mg(a.uncombusted),
        }
    }
}

impl Account {
    // Device d's account, in numbers, into its place. Ruled out: a neighbour's number changed; destroyed for uncombusted.
    pub fn store(self, d: usize, accounts: &mut [u64])
        requires { (d < devices_most) × (length self.outcomes ≡ outcome_kinds) × (length accounts.old ≡ devices_most * account_size) }
        ensures { accounts.new ≡ put accounts.old (d * account_size) (d * account_size + account_size) (numbers_of self) }
    {
        let at = d * ACCOUNT;
        let numbers = self.numbers();
        accounts[at..at + ACCOUNT].copy_from_slice(&numbers);
    }

    // Its ten counts and three sums, one after the other.
    fn numbers(self) -> [u64; ACCOUNT]
        requires { length self.outcomes ≡ outcome_kinds }
        ensures { result ≡ numbers_of self }
    {
        let o = self.outcomes;
        [
            o[0],
            o[1],
            o[2],
            o[3],
            o[4],
            o[5],
            o[6],
            o[7],
            o[8],
            o[9],
            self.methane,
            self.destroyed,
            self.uncombusted,
        ]
    }
}

// Ruled out: the last line left out; factors added in place of products.
pub fn fuel(fuel: &Fuel<'_>) -> u64
    requires { Burnable (fuel_in fuel.now) }
    ensures { (result ≡ fuel_sum (fuel_in fuel.now)) × (result ≤ 256000000000000000) }
{
    let mut sum: u64 = 0;
    for i in 0..fuel.quantity.len() {
        sum += (fuel.quantity[i] as u64) * (fuel.factor[i] as u64);
    }
    sum
}

// What adds and what subtracts stay two unsigned sums until here. Ruled out: fuel counted per device; credits of a negative
// reduction.
pub fn sheet(intervals: u32, devices: u32, t: Totals, fuel: u64) -> Figures
    requires { Moderate t.baseline_mg (t.co2_mg + t.uncombusted_mg + fuel) }
    ensures { result ≡ figures_from intervals devices t fuel }
{
    let credit = t.baseline_mg;
    let debit = t.co2_mg + t.uncombusted_mg + fuel;
    let tonnes = balance::tonnes(credit, debit);
    Figures {
        intervals: intervals as u64,
        devices: devices as u64,
        counted: t.counted,
        replaced: t.replaced,
        excluded: t.excluded,
        methane_l: t.methane,
        destroyed_l: t.destroyed,
        uncombusted_l: t.uncombusted,
        baseline_mg: t.baseline_mg,
        co2_mg: t.co2_mg,
        uncombusted_mg: t.uncombusted_mg,
        fuel_mg: fuel,
        reduction_mg: balance::reduction(credit, debit),
        tonnes,
        credits: balance::credits(tonnes),
    }
}
