// Ventilation air: the public call over all oxidisers. Its contract, `Settled` of specs/Promise.antt, states the three demands.
#![tactic(auto)]

ghost use Rattle.std.specs.Prelude.{length};
ghost use Rattle.ventilation_judge.specs.Call.{call_in};
ghost use Rattle.ventilation.specs.Promise.{Settled};

use accounts::ACCOUNTS;
use figures::Figures;
use refusals::Refusal;
use ventilation_devices::Lent;
use ventilation_judge::Call;

// The public call: nobody has to check anything beforehand. Ruled out, among others: the inlet's flow used for the exhaust; the
// exhaust rounded down; the difference rounded and not its parts; CO2 of the inlet; a missing exhaust taken for none; a refusal that
// has already written the row or an account.
pub fn quantify(
    call: &Call<'_>,
    outcome: &mut [u8],
    accounts: &mut [u64; ACCOUNTS],
) -> Result<Figures, Refusal>
    ensures { Settled (call_in call.now (length outcome.old))
        (record { outcome = outcome.old; accounts = accounts.old })
        (record { outcome = outcome.new; accounts = accounts.new })
        result }
{
    ventilation_judge::judge(call, outcome.len())?;
    let lent = Lent {
        intervals: call.intervals as usize,
        air: call.air,
    };
    let t = ventilation_devices::fill_rows(&lent, call.devices as usize, outcome, accounts);
    let f = accounts::fuel(&call.fuel);
    Ok(accounts::sheet(call.intervals, call.devices, t, f))
}
