// From a device's methane litres to mg and tonnes, every rounding against the operator.
#![tactic(auto)]

ghost use Rattle.std.specs.Prelude.{◌+◌, ◌*◌, ◌/◌, ◌≤◌, ◌<◌, ◌≡◌};
ghost use Rattle.protocol.specs.Numbers.{methane_mg};
ghost use Rattle.balance.specs.Balance.{
  destroyed_of,
  uncombusted_of,
  baseline_in_mg,
  carbon_dioxide_mg,
  uncombusted_in_mg,
  reduction_of,
  tonnes_of,
  credits_of,
  device_most,
  Shared,
  Moderate,
};

use protocol::Protocol;

// So many thousandths of a device's litres: with 0 more rounded down, with 999 more rounded up. Ruled out: a product
// that wraps; the remainder in place of the quotient.
fn share(q: u64, thousandths: u64, more: u64) -> u64
    requires { Shared q thousandths more }
    ensures { result ≡ (q * thousandths + more) / 1000 }
{
    (q * thousandths + more) / 1000
}

// Ruled out: rounded up; another kind's number.
pub fn destroyed(kind: u32, q: u64) -> u64
    requires { q ≤ device_most }
    ensures { (result ≡ destroyed_of kind q) × (result ≤ q) }
{
    share(q, protocol::thousandths(kind), 0)
}

// Ruled out: rounded down; the destroyed part once more.
pub fn uncombusted(kind: u32, q: u64) -> u64
    requires { q ≤ device_most }
    ensures { (result ≡ uncombusted_of kind q) × (result ≤ q) }
{
    share(q, 1000 - protocol::thousandths(kind), 999)
}

// CO2 of the methane that a device destroyed. Ruled out: rounded down; the carbon factor inverted.
pub fn carbon_dioxide_mg(destroyed: u64) -> u64
    requires { destroyed ≤ device_most }
    ensures { result ≡ carbon_dioxide_mg destroyed }
{
    (Protocol::DENSITY * Protocol::CARBON_OVER * destroyed + (Protocol::CARBON_UNDER - 1))
        / Protocol::CARBON_UNDER
}

// CO2-equivalent mg of so many litres of methane, not burnt. Ruled out: the warming factor left out; a product that wraps.
pub fn methane_mg(litres: u64) -> u64
    requires { litres ≤ device_most }
    ensures { result ≡ methane_mg * litres }
{
    Protocol::DENSITY * Protocol::WARMING * litres
}

// mg in a tonne.
pub const TONNE: u64 = 1000000000;

// What adds less what subtracts. Ruled out: the two exchanged; 0 where the reduction is negative.
pub fn reduction(credit: u64, debit: u64) -> i64
    requires { Moderate credit debit }
    ensures { result ≡ reduction_of credit debit }
{
    credit as i64 - debit as i64
}

// Ruled out: a negative reduction rounded towards zero; rounded to the nearest tonne.
pub fn tonnes(credit: u64, debit: u64) -> i64
    requires { Moderate credit debit }
    ensures { result ≡ tonnes_of (reduction_of credit debit) }
{
    reduction(credit, debit).div_euclid(TONNE as i64)
}

// Ruled out: a negative number's size; 0 always.
pub fn credits(t: i64) -> u64
    ensures { result ≡ credits_of t }
{
    t.max(0) as u64
}
