// The replacement of every gap of one series, each gap found and worked out once.
#![tactic(auto)]

ghost use Rattle.std.specs.Prelude.{◌+◌, ◌-◌, ◌≤◌, ◌<◌, ◌≡◌, true, length};
ghost use Rattle.rows.specs.Rows.{pick, build, every};
ghost use Rattle.protocol.specs.Ranges.{intervals_most, flow_most};
ghost use Rattle.drainage_window.specs.Window.{tally_of};
ghost use Rattle.drainage_runs.specs.Runs.{measured_at, whole};
ghost use Rattle.drainage_gaps.specs.Gaps.{class_of, taken_by, window_values, replacement_of};
ghost use Rattle.drainage_gaps.specs.Private.{held_for, filled_at, Goes};

use drainage_runs::{BLOCK, EXCLUDING, NOT_WHOLE, TOO_LONG};
use drainage_window::{MEAN_WIDTH, Tally, WIDTH_90, WIDTH_95, Z90, Z95};
use protocol::MISSING;

// The longest gap that is replaced by the mean, by the 90 % limit, and at all.
const MEAN_LONGEST: usize = 23;

const LONGEST_90: usize = 95;

const LONGEST_95: usize = 672;

// What is taken of the windows' values: the mean, or the lower limit for z2 in hundredths. No Option: none would not say that it is the
// mean.
#[derive(Clone, Copy)]
pub enum Rule {
    Mean,
    Limit(u64),
}

// The table of gaps: the entries of each window and the rule, or none for so long a gap. Ruled out: a border off by one; the last
// class for every gap.
fn class_of(gap: usize) -> Option<(usize, Rule)>
    ensures { result ≡ class_of gap }
{
    if gap <= MEAN_LONGEST {
        return Some((MEAN_WIDTH, Rule::Mean));
    }
    if gap <= LONGEST_90 {
        return Some((WIDTH_90, Rule::Limit(Z90)));
    }
    if gap <= LONGEST_95 {
        return Some((WIDTH_95, Rule::Limit(Z95)));
    }
    None
}

// The replacement for the gap from a up to e, by its class, or none if its windows are not whole. Ruled out: the nearest measured
// value where a window isn't whole; a window that runs past the row.
fn replace(reading: &[u16], used: &[u16], a: usize, e: usize, w: usize, rule: Rule) -> Option<u16>
    requires { (a < e) × (e ≤ length reading.now) × (length reading.now ≤ intervals_most) × Goes reading.now used.now flow_most
        × (Some (w, rule) ≡ class_of (e - a)) }
    ensures { result ≡ pick (whole reading.now a e w) (Some (taken_by rule (tally_of (window_values used.now a e w)))) None }
{
    if !drainage_runs::windows_whole(reading, a, e, w) {
        return None;
    }
    let before = &used[a - w..a];
    let after = &used[e..e + w];
    let value = match rule {
        Rule::Mean => drainage_window::mean_of_32(before, after),
        Rule::Limit(z) => Tally::of(before, after).limit(z),
    };
    Some(value as u16)
}

// What the entries of the gap from a up to e hold until outcomes are given: a value goes on, otherwise the outcome that
// excludes them. Ruled out: a value for a gap of 673 intervals; outcome 8 where a window is not whole.
fn held(reading: &[u16], used: &[u16], a: usize, e: usize) -> u16
    requires { (a < e) × (e ≤ length reading.now) × (length reading.now ≤ intervals_most) × Goes reading.now used.now flow_most }
    ensures { result ≡ held_for (replacement_of reading.now used.now a e) }
{
    let Some((w, rule)) = class_of(e - a) else {
        return EXCLUDING + TOO_LONG;
    };
    let Some(v) = replace(reading, used, a, e, w, rule) else {
        return EXCLUDING + NOT_WHOLE;
    };
    v
}

// Where the search for a gap goes on after the measured entry i: a block further if none of its entries is missing.
// Ruled out: a missing entry passed over; no step at all.
fn next(reading: &[u16], i: usize) -> usize
    requires { (i < length reading.now) × (length reading.now ≤ intervals_most) × (measured_at reading.now i ≡ true) }
    ensures { (i < result) × (result ≤ length reading.now) × (every (result - i) (λ k. measured_at reading.now (i + k)) ≡ true) }
{
    if i + BLOCK <= reading.len() && drainage_runs::measured(reading, i) {
        return i + BLOCK;
    }
    i + 1
}

// Every gap's entries get what its replacement holds. Ruled out: a replaced entry used in a later gap's window; a gap
// worked out from the readings before drift was corrected.
pub fn fill_gaps(reading: &[u16], used: &mut [u16])
    requires { (length reading.now ≤ intervals_most) × Goes reading.now used.old flow_most }
    ensures { used.new ≡ build (length reading.now) (filled_at reading.now used.old) }
{
    let mut i = 0;
    // Each step goes past a whole gap or block, which a range has no form for.
    while i < reading.len() {
        if reading[i] == MISSING {
            let e = drainage_runs::gap_end(reading, i);
            let v = held(reading, used, i, e);
            used[i..e].fill(v);
            i = e;
        } else {
            i = next(reading, i);
        }
    }
}
