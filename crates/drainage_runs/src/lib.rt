// Gaps of one series: where a run of missing readings ends, and whether its two windows are whole.
#![tactic(auto)]

ghost use Rattle.std.specs.Prelude.{ℕ, ◌+◌, ◌≤◌, ◌<◌, ◌≡◌, length};
ghost use Rattle.rows.specs.Rows.{every};
ghost use Rattle.drainage_runs.specs.Runs.{measured_at, gap_end, whole};
ghost use Rattle.drainage_runs.specs.Private.{block};

use protocol::MISSING;

// The outcomes of a missing reading that has no replacement: its gap is too long, or its windows are not whole.
pub const TOO_LONG: u16 = 8;

pub const NOT_WHOLE: u16 = 9;

// What a gap's entries hold above every reading, and then the outcome, where there is no replacement: the row that is lent has room
// for numbers alone.
pub const EXCLUDING: u16 = 65500;

// How many entries are looked at in one go.
pub const BLOCK: usize = 16;

// The interval after the gap that interval i is in. Ruled out: the gap's last interval; an end past the row.
pub fn gap_end(reading: &[u16], from: usize) -> usize
    requires { from ≤ length reading.now }
    ensures { (result ≡ gap_end reading.now from) × (from ≤ result) × (result ≤ length reading.now) }
{
    for i in from..reading.len() {
        if reading[i] != MISSING {
            return i;
        }
    }
    reading.len()
}

// Whether none of the entries of the block from i is missing. All are looked at, so that a processor does it in one go.
// Ruled out: the last of them left out; the first one past them looked at.
pub fn measured(reading: &[u16], i: usize) -> bool
    requires { i + block ≤ length reading.now }
    ensures { result ≡ every block (λ k. measured_at reading.now (i + k)) }
{
    let mut all = true;
    for k in 0..BLOCK {
        all &= reading[i + k] != MISSING;
    }
    all
}

// The look over the two windows of a gap, w entries each, left at the first entry that cannot be used (rule 7.3).
// Ruled out: one window looked at only; a window that is whole though its last entry is missing.
pub fn windows_whole(reading: &[u16], a: usize, e: usize, w: usize) -> bool
    requires { (e + w < 4294967296) × (a ≤ e) × (e ≤ length reading.now) }
    ensures { result ≡ whole reading.now a e w }
{
    if a < w {
        return false;
    }
    if reading.len() < e + w {
        return false;
    }
    let mut all = true;
    // Labelled, so that the first missing entry ends the look over both windows.
    'look: for from in [a - w, e] {
        for k in 0..w {
            if reading[from + k] == MISSING {
                all = false;
                break 'look;
            }
        }
    }
    all
}
