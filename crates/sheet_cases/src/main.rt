// Runs the sheet's text over texts on both sides of each rule and prints what the rules ask: the sheet, or the three lines of a refusal.
#![tactic(auto)]

ghost use Rattle.std.specs.Prelude.{◌≤◌, length};

use figures::Figures;
use refusals::{Refusal, Told};
use std::io;
use std::io::Print;
use writing::Writer;

// The first n bytes of a buffer.
fn print<P: Print>(output: &P, buf: &[u8], n: usize) -> io::Result<()> {
    if n <= buf.len() {
        output.write_all(&buf[..n])?;
    }
    Ok(())
}

fn print_line<P: Print>(output: &P, key: &[u8], v: u64) -> io::Result<()>
    requires { length key.now ≤ 32 }
{
    let mut buf = [0u8; 64];
    let mut to = Writer {
        buf: &mut buf,
        at: 0,
    };
    to.line(key, v);
    let n = to.at;
    print(output, &buf, n)
}

fn print_refusal<P: Print>(output: &P, refusal: Refusal) -> io::Result<()> {
    let told = Told::from(refusal);
    print_line(output, b"refusal=", told.number)?;
    print_line(output, b"device=", told.device as u64)?;
    print_line(output, b"place=", told.place as u64)
}

fn print_sheet<P: Print>(output: &P, f: Figures) -> io::Result<()> {
    let mut buf = [0u8; sheet_text::SHEET_MOST];
    match sheet_text::write(f, &mut buf) {
        Ok(n) => print(output, &buf, n),
        Err(refusal) => print_refusal(output, refusal),
    }
}

// Reads a text and prints the sheet that it is, or where it is none.
fn shown<P: Print>(output: &P, name: &[u8], t: &[u8]) -> io::Result<()> {
    output.write_all(name)?;
    match sheet_text::read(t) {
        Ok(f) => print_sheet(output, f),
        Err(refusal) => print_refusal(output, refusal),
    }
}

fn numbers<P: Print>(output: &P) -> io::Result<()> {
    shown(
        output,
        b"case: the worked example\n",
        b"intervals=1\ndevices=1\ncounted=1\nreplaced=0\nexcluded=0\nmethane_l=3000000\ndestroyed_l=2985000\nuncombusted_l=15000\nbaseline_mg=42021000000\nco2_mg=5475236250\nuncombusted_mg=210105000\nfuel_mg=700000000\nreduction_mg=35635658750\ntonnes=35\ncredits=35\n",
    )?;
    shown(
        output,
        b"case: minus zero\n",
        b"intervals=1\ndevices=1\ncounted=1\nreplaced=0\nexcluded=0\nmethane_l=3000000\ndestroyed_l=2985000\nuncombusted_l=15000\nbaseline_mg=42021000000\nco2_mg=5475236250\nuncombusted_mg=210105000\nfuel_mg=700000000\nreduction_mg=35635658750\ntonnes=-0\ncredits=35\n",
    )?;
    shown(
        output,
        b"case: a leading zero\n",
        b"intervals=1\ndevices=01\ncounted=1\nreplaced=0\nexcluded=0\nmethane_l=3000000\ndestroyed_l=2985000\nuncombusted_l=15000\nbaseline_mg=42021000000\nco2_mg=5475236250\nuncombusted_mg=210105000\nfuel_mg=700000000\nreduction_mg=35635658750\ntonnes=35\ncredits=35\n",
    )?;
    shown(
        output,
        b"case: a leading zero after a minus\n",
        b"intervals=1\ndevices=1\ncounted=1\nreplaced=0\nexcluded=0\nmethane_l=3000000\ndestroyed_l=2985000\nuncombusted_l=15000\nbaseline_mg=42021000000\nco2_mg=5475236250\nuncombusted_mg=210105000\nfuel_mg=700000000\nreduction_mg=35635658750\ntonnes=-035\ncredits=35\n",
    )?;
    shown(
        output,
        b"case: a plus\n",
        b"intervals=1\ndevices=1\ncounted=+1\nreplaced=0\nexcluded=0\nmethane_l=3000000\ndestroyed_l=2985000\nuncombusted_l=15000\nbaseline_mg=42021000000\nco2_mg=5475236250\nuncombusted_mg=210105000\nfuel_mg=700000000\nreduction_mg=35635658750\ntonnes=35\ncredits=35\n",
    )?;
    shown(
        output,
        b"case: an empty value\n",
        b"intervals=1\ndevices=1\ncounted=1\nreplaced=\nexcluded=0\nmethane_l=3000000\ndestroyed_l=2985000\nuncombusted_l=15000\nbaseline_mg=42021000000\nco2_mg=5475236250\nuncombusted_mg=210105000\nfuel_mg=700000000\nreduction_mg=35635658750\ntonnes=35\ncredits=35\n",
    )?;
    shown(
        output,
        b"case: an empty signed value\n",
        b"intervals=1\ndevices=1\ncounted=1\nreplaced=0\nexcluded=0\nmethane_l=3000000\ndestroyed_l=2985000\nuncombusted_l=15000\nbaseline_mg=42021000000\nco2_mg=5475236250\nuncombusted_mg=210105000\nfuel_mg=700000000\nreduction_mg=35635658750\ntonnes=\ncredits=35\n",
    )?;
    shown(
        output,
        b"case: a minus alone\n",
        b"intervals=1\ndevices=1\ncounted=1\nreplaced=0\nexcluded=0\nmethane_l=3000000\ndestroyed_l=2985000\nuncombusted_l=15000\nbaseline_mg=42021000000\nco2_mg=5475236250\nuncombusted_mg=210105000\nfuel_mg=700000000\nreduction_mg=35635658750\ntonnes=-\ncredits=35\n",
    )?;
    Ok(())
}

fn ranges<P: Print>(output: &P) -> io::Result<()> {
    shown(
        output,
        b"case: the largest unsigned number\n",
        b"intervals=1\ndevices=1\ncounted=1\nreplaced=0\nexcluded=0\nmethane_l=18446744073709551615\ndestroyed_l=2985000\nuncombusted_l=15000\nbaseline_mg=42021000000\nco2_mg=5475236250\nuncombusted_mg=210105000\nfuel_mg=700000000\nreduction_mg=35635658750\ntonnes=35\ncredits=35\n",
    )?;
    shown(
        output,
        b"case: one above the largest unsigned number\n",
        b"intervals=1\ndevices=1\ncounted=1\nreplaced=0\nexcluded=0\nmethane_l=18446744073709551616\ndestroyed_l=2985000\nuncombusted_l=15000\nbaseline_mg=42021000000\nco2_mg=5475236250\nuncombusted_mg=210105000\nfuel_mg=700000000\nreduction_mg=35635658750\ntonnes=35\ncredits=35\n",
    )?;
    shown(
        output,
        b"case: a digit too many\n",
        b"intervals=1\ndevices=1\ncounted=1\nreplaced=0\nexcluded=0\nmethane_l=184467440737095516150\ndestroyed_l=2985000\nuncombusted_l=15000\nbaseline_mg=42021000000\nco2_mg=5475236250\nuncombusted_mg=210105000\nfuel_mg=700000000\nreduction_mg=35635658750\ntonnes=35\ncredits=35\n",
    )?;
    shown(
        output,
        b"case: the largest signed number\n",
        b"intervals=1\ndevices=1\ncounted=1\nreplaced=0\nexcluded=0\nmethane_l=3000000\ndestroyed_l=2985000\nuncombusted_l=15000\nbaseline_mg=42021000000\nco2_mg=5475236250\nuncombusted_mg=210105000\nfuel_mg=700000000\nreduction_mg=35635658750\ntonnes=9223372036854775807\ncredits=35\n",
    )?;
    shown(
        output,
        b"case: one above the largest signed number\n",
        b"intervals=1\ndevices=1\ncounted=1\nreplaced=0\nexcluded=0\nmethane_l=3000000\ndestroyed_l=2985000\nuncombusted_l=15000\nbaseline_mg=42021000000\nco2_mg=5475236250\nuncombusted_mg=210105000\nfuel_mg=700000000\nreduction_mg=35635658750\ntonnes=9223372036854775808\ncredits=35\n",
    )?;
    shown(
        output,
        b"case: the least signed number\n",
        b"intervals=1\ndevices=1\ncounted=1\nreplaced=0\nexcluded=0\nmethane_l=3000000\ndestroyed_l=2985000\nuncombusted_l=15000\nbaseline_mg=42021000000\nco2_mg=5475236250\nuncombusted_mg=210105000\nfuel_mg=700000000\nreduction_mg=-9223372036854775808\ntonnes=35\ncredits=35\n",
    )?;
    shown(
        output,
        b"case: one below the least signed number\n",
        b"intervals=1\ndevices=1\ncounted=1\nreplaced=0\nexcluded=0\nmethane_l=3000000\ndestroyed_l=2985000\nuncombusted_l=15000\nbaseline_mg=42021000000\nco2_mg=5475236250\nuncombusted_mg=210105000\nfuel_mg=700000000\nreduction_mg=-9223372036854775809\ntonnes=35\ncredits=35\n",
    )?;
    shown(
        output,
        b"case: a minus on an unsigned line\n",
        b"intervals=1\ndevices=1\ncounted=1\nreplaced=0\nexcluded=-1\nmethane_l=3000000\ndestroyed_l=2985000\nuncombusted_l=15000\nbaseline_mg=42021000000\nco2_mg=5475236250\nuncombusted_mg=210105000\nfuel_mg=700000000\nreduction_mg=35635658750\ntonnes=35\ncredits=35\n",
    )?;
    Ok(())
}

fn lines<P: Print>(output: &P) -> io::Result<()> {
    shown(
        output,
        b"case: a wrong key at its first byte\n",
        b"intervals=1\ndevices=1\ncounted=1\nreplaced=0\nexcluded=0\nmethane_l=3000000\ndestroyed_l=2985000\nuncombusted_l=15000\nbaseline_mg=42021000000\nCo2_mg=5475236250\nuncombusted_mg=210105000\nfuel_mg=700000000\nreduction_mg=35635658750\ntonnes=35\ncredits=35\n",
    )?;
    shown(
        output,
        b"case: a wrong key at its last byte\n",
        b"intervals=1\ndevices=1\ncounted=1\nreplaced=0\nexcluded=0\nmethane_l=3000000\ndestroyed_l=2985000\nuncombusted_l=15000\nbaseline_mg=42021000000\nco2_mg=5475236250\nuncombusted_mg=210105000\nfuel_mG=700000000\nreduction_mg=35635658750\ntonnes=35\ncredits=35\n",
    )?;
    shown(
        output,
        b"case: lines in the wrong order\n",
        b"devices=1\nintervals=1\ncounted=1\nreplaced=0\nexcluded=0\nmethane_l=3000000\ndestroyed_l=2985000\nuncombusted_l=15000\nbaseline_mg=42021000000\nco2_mg=5475236250\nuncombusted_mg=210105000\nfuel_mg=700000000\nreduction_mg=35635658750\ntonnes=35\ncredits=35\n",
    )?;
    shown(
        output,
        b"case: no byte 10 at the end\n",
        b"intervals=1\ndevices=1\ncounted=1\nreplaced=0\nexcluded=0\nmethane_l=3000000\ndestroyed_l=2985000\nuncombusted_l=15000\nbaseline_mg=42021000000\nco2_mg=5475236250\nuncombusted_mg=210105000\nfuel_mg=700000000\nreduction_mg=35635658750\ntonnes=35\ncredits=35",
    )?;
    shown(
        output,
        b"case: a byte after the end\n",
        b"intervals=1\ndevices=1\ncounted=1\nreplaced=0\nexcluded=0\nmethane_l=3000000\ndestroyed_l=2985000\nuncombusted_l=15000\nbaseline_mg=42021000000\nco2_mg=5475236250\nuncombusted_mg=210105000\nfuel_mg=700000000\nreduction_mg=35635658750\ntonnes=35\ncredits=35\n\n",
    )?;
    shown(output, b"case: the empty text\n", b"")?;
    shown(
        output,
        b"case: cut inside a key\n",
        b"intervals=1\ndevices=1\ncounted=1\nreplaced=0\nexcluded=0\nmeth",
    )?;
    shown(
        output,
        b"case: byte 13 before byte 10\n",
        b"intervals=1\ndevices=1\ncounted=1\nreplaced=0\nexcluded=0\nmethane_l=3000000\ndestroyed_l=2985000\nuncombusted_l=15000\nbaseline_mg=42021000000\nco2_mg=5475236250\nuncombusted_mg=210105000\nfuel_mg=700000000\nreduction_mg=35635658750\ntonnes=35\ncredits=35\r\n",
    )?;
    Ok(())
}

fn worked() -> Figures {
    Figures {
        intervals: 1,
        devices: 1,
        counted: 1,
        replaced: 0,
        excluded: 0,
        methane_l: 3000000,
        destroyed_l: 2985000,
        uncombusted_l: 15000,
        baseline_mg: 42021000000,
        co2_mg: 5475236250,
        uncombusted_mg: 210105000,
        fuel_mg: 700000000,
        reduction_mg: 35635658750,
        tonnes: 35,
        credits: 35,
    }
}

fn print_written<P: Print>(
    output: &P,
    name: &[u8],
    a: Result<usize, Refusal>,
    buf: &[u8],
) -> io::Result<()> {
    output.write_all(name)?;
    if let Err(refusal) = a {
        print_refusal(output, refusal)?;
        output.write_all(buf)?;
        return output.write_all(b"\n");
    }
    output.write_all(buf)
}

// The worked example's sheet has 243 bytes.
fn buffers<P: Print>(output: &P) -> io::Result<()> {
    let mut short = [35u8; 242];
    let a = sheet_text::write(worked(), &mut short);
    print_written(output, b"case: a buffer one byte too short\n", a, &short)?;
    let mut exact = [35u8; 243];
    let b = sheet_text::write(worked(), &mut exact);
    print_written(output, b"case: a buffer exactly long enough\n", b, &exact)?;
    let mut long = [35u8; 246];
    let c = sheet_text::write(worked(), &mut long);
    print_written(output, b"case: three bytes more than needed\n", c, &long)?;
    output.write_all(b"\n")
}

fn main(rt: HostRuntime) -> io::Result<()> {
    numbers(&rt)?;
    ranges(&rt)?;
    lines(&rt)?;
    buffers(&rt)
}
