// Lists as the specifications speak of them (specs/Rows.antt, laws in proofs/Laws.antt), and the scan that goes with them.
#![tactic(auto)]

ghost use Rattle.std.specs.Prelude.{ℕ, ◌≤◌, ◌≡◌, not, eqb, length, get_or};
ghost use Rattle.rows.specs.Rows.{FirstOf};

// The first index at which two lists of lengths differ, or their common length, as `FirstOf` has it. Ruled out: a later one; the first
// skipped.
pub fn first_difference(have: &[usize], want: &[usize]) -> usize
    requires { length have.now ≡ length want.now }
    ensures { FirstOf (length have.now)
        (λ k. not (eqb (get_or have.now k 0) (get_or want.now k 0))) result }
{
    for i in 0..have.len() {
        if have[i] != want[i] {
            return i;
        }
    }
    have.len()
}
