// Drift correction of one instrument's row, in time that grows with the row and the checks.
#![tactic(auto)]

ghost use Rattle.std.specs.Prelude.{◌≤◌, ◌<◌, ◌-◌, ◌*◌, ◌/◌, ◌≡◌, length};
ghost use Rattle.rows.specs.Rows.{build, Continued};
ghost use Rattle.drainage_drift.specs.Drift.{within, full, kept_or, corrected_at, Ordered};
ghost use Rattle.drainage_drift.specs.Lent.{instrument_in};

use protocol::{MISSING, PASSING};

// 100 % in 0.01 %, the unit of a drift.
const FULL: u64 = 10000;

// An instrument's checks as they are lent: how many there are, and the places kept for them.
#[derive(Clone, Copy)]
pub struct Instrument<'a> {
    pub count: u32,
    pub positions: &'a [u32],
    pub drifts: &'a [i32],
}

// Whether a check passes. Ruled out: 500 passes; -500 passes.
pub fn passed(drift: i32) -> bool
    ensures { result ≡ within drift }
{
    -PASSING <= drift && drift <= PASSING
}

// A value without its drift, rounded down; the divisor is 100 % and the drift.
fn scaled(v: u64, divisor: u64) -> u64
    requires { (v < 65536) × (full ≤ divisor) }
    ensures { result ≡ v * full / divisor }
{
    v * FULL / divisor
}

// The readings from start up to end, with a drift of the divisor less 100 % taken out. Where no drift was found nothing is divided.
fn stretch(reading: &[u16], start: usize, end: usize, divisor: u64, used: &mut [u16])
    requires { (start ≤ end) × (end ≤ length reading.now) × (length used.old ≡ length reading.now) × (full ≤ divisor) }
    ensures { Continued start end (kept_or (divisor - full) reading.now) used.old used.new }
{
    if divisor == FULL {
        // No `copy_from_slice`: it asks the host for memmove, and the archive for memset only (include/cmm.h).
        for k in start..end {
            used[k] = reading[k];
        }
        return;
    }
    for i in start..end {
        let v = reading[i];
        used[i] = if v == MISSING {
            v
        } else {
            scaled(v as u64, divisor) as u16
        };
    }
}

// The row of corrected readings, missing ones marked as before. Ruled out: a low-reading meter corrected upward; the last
// failed check's drift in place of the greatest.
pub fn correct(reading: &[u16], instrument: &Instrument<'_>, used: &mut [u16])
    requires { Ordered (instrument_in instrument.now) (length reading.now) × (length used.old ≡ length reading.now) }
    ensures { used.new ≡ build (length reading.now) (corrected_at (instrument_in instrument.now) reading.now) }
{
    let mut start = 0;
    // 100 % and the greatest drift of the open stretch: never below 100 %, so that nothing is corrected upward.
    let mut divisor = FULL;
    for j in 0..instrument.count as usize {
        let drift = instrument.drifts[j];
        if passed(drift) {
            let end = instrument.positions[j] as usize;
            stretch(reading, start, end, divisor, used);
            start = end;
            divisor = FULL;
        } else {
            divisor = divisor.max(protocol::raise(drift, FULL));
        }
    }
    stretch(reading, start, reading.len(), divisor, used);
}
