// The steps that quantifications share, each with its first offender: how many intervals and devices, lengths, the mine, kinds, checks
// and fuel lines.
#![tactic(auto)]

ghost use Rattle.std.specs.Prelude.{◌+◌, ◌*◌, ◌<◌, ◌≡◌, ltb, length};
ghost use Rattle.rows.specs.Rows.{either};
ghost use Rattle.protocol.specs.Kinds.{misplaced};
ghost use Rattle.protocol.specs.Ranges.{checks_most, quantity_most, factor_most};
ghost use Rattle.columns.specs.Lent.{checks_in, fuel_in};
ghost use Rattle.steps.specs.Wrong.{wrong_check, thing_place};
ghost use Rattle.steps.specs.Step.{step_verdict};
ghost use Rattle.steps.specs.Steps.{
  intervals_step,
  devices_step,
  lengths_step,
  mine_step,
  kinds_step,
  misplaced_step,
  checks_step,
  fuels_step,
};
ghost use Rattle.steps.specs.Scans.{paired, Kept, FindsThing};

use columns::{Checks, Fuel};
use protocol::{Kind, Mine};
use refusals::Refusal;

// The number of intervals. Ruled out: 0 accepted; 35,136 refused.
pub fn intervals(n: u32) -> Result<(), Refusal>
    ensures { result ≡ step_verdict (intervals_step n) }
{
    if !protocol::within(n, protocol::INTERVALS) {
        return Err(Refusal::Intervals);
    }
    Ok(())
}

// The number of devices. Ruled out: 17 accepted; 16 refused.
pub fn devices(d: u32) -> Result<(), Refusal>
    ensures { result ≡ step_verdict (devices_step d) }
{
    if !protocol::within(d, protocol::DEVICES) {
        return Err(Refusal::Devices);
    }
    Ok(())
}

// The lengths of what is lent, beside those that are asked. Ruled out: a slice that is too long accepted; the last length left out.
pub fn lengths(have: &[usize], want: &[usize]) -> Result<(), Refusal>
    requires { length have.now ≡ length want.now }
    ensures { result ≡ step_verdict (lengths_step (paired have.now want.now)) }
{
    if rows::first_difference(have, want) < have.len() {
        return Err(Refusal::Lengths);
    }
    Ok(())
}

// The mine. Ruled out: 2 accepted; a surface mine refused.
pub fn mine(number: u32) -> Result<(), Refusal>
    ensures { result ≡ step_verdict (mine_step number) }
{
    if Mine::try_from(number).is_err() {
        return Err(Refusal::Mine);
    }
    Ok(())
}

// Each device's kind. Ruled out: a device after the first wrong one named; 257 taken for 1.
pub fn kinds(kinds: &[u32]) -> Result<(), Refusal>
    ensures { result ≡ step_verdict (kinds_step kinds.now) }
{
    for (device, &kind) in kinds.iter().enumerate() {
        if Kind::try_from(kind).is_err() {
            return Err(Refusal::Kind(device));
        }
    }
    Ok(())
}

fn is_misplaced(mine: u32, kind: u32) -> bool
    ensures { result ≡ misplaced mine kind }
{
    Kind::try_from(kind) == Ok(Kind::Injection) && Mine::try_from(mine) == Ok(Mine::Underground)
}

// Each device's kind at this mine. Ruled out: kind 6 refused at a surface mine; a device before the offender named.
pub fn placed(mine: u32, kinds: &[u32]) -> Result<(), Refusal>
    ensures { result ≡ step_verdict (misplaced_step mine kinds.now) }
{
    for (device, &kind) in kinds.iter().enumerate() {
        if is_misplaced(mine, kind) {
            return Err(Refusal::Misplaced(device));
        }
    }
    Ok(())
}

fn wrong_check(intervals: u32, checks: &Checks<'_>, g: usize, j: usize) -> bool
    requires { Kept (checks_in checks.now) × (g < length (checks_in checks.now).counts) × (j < checks_most) }
    ensures { result ≡ wrong_check intervals (checks_in checks.now).positions (checks_in checks.now).drifts g j }
{
    let first = protocol::CHECKS * g;
    let position = checks.positions[first + j];
    let drift = checks.drifts[first + j];
    if intervals < position || !protocol::drift_right(drift) {
        return true;
    }
    0 < j && position <= checks.positions[first + (j - 1)]
}

// The first wrong thing of the checks: the instrument, and its thing 0, the count, or its thing j + 1, its check j. Ruled out: a check
// past the count; of two positions that do not increase, the earlier.
pub fn first_wrong_check(intervals: u32, checks: &Checks<'_>) -> Option<(usize, usize)>
    requires { Kept (checks_in checks.now) }
    ensures { FindsThing (checks_step intervals (checks_in checks.now)) result }
{
    for g in 0..checks.counts.len() {
        let count = checks.counts[g] as usize;
        if protocol::CHECKS < count {
            return Some((g, 0));
        }
        for j in 0..count {
            if wrong_check(intervals, checks, g, j) {
                return Some((g, j + 1));
            }
        }
    }
    None
}

// The place of thing t, where thing 0 is a count. Ruled out: 0 for a count; t itself for an entry.
pub fn thing_place(last: usize, t: usize) -> usize
    ensures { result ≡ thing_place last t }
{
    if t == 0 { last } else { t - 1 }
}

// Each instrument's count, then its checks. Ruled out: an instrument's number for its device's; a count's place told as 0.
pub fn checks(intervals: u32, checks: &Checks<'_>) -> Result<(), Refusal>
    requires { Kept (checks_in checks.now) }
    ensures { result ≡ step_verdict (checks_step intervals (checks_in checks.now)) }
{
    match first_wrong_check(intervals, checks) {
        Some((g, t)) => Err(Refusal::Check(g / 2, thing_place(protocol::CHECKS, t))),
        None => Ok(()),
    }
}

fn wrong_line(quantity: u32, factor: u32) -> bool
    ensures { result ≡ either (ltb quantity_most quantity) (ltb factor_most factor) }
{
    protocol::QUANTITY_MOST < quantity || protocol::FACTOR_MOST < factor
}

// How many fuel lines there are, then each. Ruled out: an entry named where there are too many; 65 lines accepted.
pub fn fuels(fuel: &Fuel<'_>) -> Result<(), Refusal>
    requires { length (fuel_in fuel.now).factor ≡ length (fuel_in fuel.now).quantity }
    ensures { result ≡ step_verdict (fuels_step (fuel_in fuel.now)) }
{
    if protocol::FUELS < fuel.quantity.len() {
        return Err(Refusal::Fuel(protocol::FUELS));
    }
    for line in 0..fuel.quantity.len() {
        if wrong_line(fuel.quantity[line], fuel.factor[line]) {
            return Err(Refusal::Fuel(line));
        }
    }
    Ok(())
}
