// Corrected volume and methane litres, each rounded down, or each rounded up. Callers use `litres` and `litres_up` of a `Gas` only.
#![tactic(auto)]

ghost use Rattle.std.specs.Prelude.{◌+◌, ◌≤◌, ◌≡◌};
ghost use Rattle.protocol.specs.Ranges.{ppm_most};
ghost use Rattle.volume.specs.Volume.{
  correction_up,
  parts_factor,
  hundredths_of,
  methane_litres_in,
  methane_litres,
  methane_litres_up_in,
  methane_litres_up,
  Inside,
  parts_most,
  air_most,
};

use protocol::Protocol;

// 10,000 × 29,315 / 101,325 with both sides divided by 25. One product and one division: with the two steps of rule 9.15
// a year would take twice the time (docs/DECISIONS.md).
const OVER: u64 = 10000 * Protocol::KELVIN / 25;

const UNDER: u32 = (Protocol::PASCAL / 25) as u32;

// Hundredths of a litre times 0.01 %, or litres times ppm, in a litre of methane.
const METHANE_UNDER: u64 = 1000000;

// The gas of an interval: the values that are used for it.
#[derive(Clone, Copy)]
pub struct Gas {
    pub flow: u16,
    pub content: u16,
    pub temp: i16,
    pub press: u32,
}

// Litres of methane in so many hundredths of a litre of gas, or in so many litres of ventilation air. Ruled out: rounded up or to the
// nearest; hundredths taken for litres.
pub fn methane_litres_in(parts: u64, content: u16) -> u64
    requires { (parts ≤ parts_most) × (content ≤ ppm_most) }
    ensures { (result ≡ methane_litres_in parts content) × (result ≤ air_most) }
{
    parts * (content as u64) / METHANE_UNDER
}

impl Gas {
    // Hundredths of a litre at standard conditions. Ruled out: the result rounded up; reference pressure and temperature
    // exchanged.
    pub fn hundredths(self) -> u64
        requires { Inside self.flow self.temp self.press }
        ensures { (result ≡ hundredths_of self.flow self.temp self.press) × (result ≤ parts_most) }
    {
        let kelvin = protocol::kelvin(self.temp);
        (self.flow as u64) * OVER * (self.press as u64) / ((kelvin * UNDER) as u64)
    }

    // The methane litres of an interval. Ruled out: one rounding at the end in place of two; whole litres of gas first; a
    // result without the content.
    pub fn litres(self) -> u64
        requires { Inside self.flow self.temp self.press × (self.content ≤ ppm_most) }
        ensures { (result ≡ methane_litres self.flow self.content self.temp self.press) × (result ≤ air_most) }
    {
        methane_litres_in(self.hundredths(), self.content)
    }

    // The volume rounded up. Ruled out: rounded down; one more where it divides without a rest.
    fn parts_up(self) -> u64
        requires { Inside self.flow self.temp self.press }
        ensures { (result ≡ correction_up parts_factor self.flow self.temp self.press) × (result ≤ parts_most + 1) }
    {
        let under = (protocol::kelvin(self.temp) * UNDER) as u64;
        ((self.flow as u64) * OVER * (self.press as u64) + (under - 1)) / under
    }

    // The methane litres of an interval, both roundings up. Ruled out: the methane of a volume that was rounded down; methane
    // rounded down.
    pub fn litres_up(self) -> u64
        requires { Inside self.flow self.temp self.press × (self.content ≤ ppm_most) }
        ensures { (result ≡ methane_litres_up self.flow self.content self.temp self.press) × (result ≤ air_most + 1) }
    {
        (self.parts_up() * (self.content as u64) + (METHANE_UNDER - 1)) / METHANE_UNDER
    }
}
