// The sheet as text: written from its figures and read back. A text is a sheet if it is some figures' rendering (specs/Sheet.antt).
#![tactic(auto)]

ghost use Rattle.std.specs.Prelude.{◌≤◌, ◌≡◌, length, take};
ghost use Rattle.text.specs.Answer.{Put};
ghost use Rattle.text.specs.Line.{lines_of};
ghost use Rattle.writing.specs.Wrote.{Wrote};
ghost use Rattle.sheet_text.specs.Sheet.{text_of, schema, values_of, sheet_most, InRange};
ghost use Rattle.sheet_text.specs.Read as Read;
ghost use Rattle.sheet_text.specs.Head.{HeadIn, FiguresIn};
ghost use Rattle.sheet_text.specs.Write as Write;

use figures::Figures;
use refusals::Refusal;
use text::{Plain, Signed, Wrong};
use writing::Writer;

// The numbers of 64 bits, which each line takes.
const UNSIGNED: Plain = Plain {
    least: 0,
    most: 18446744073709551615,
};

const SIGNED: Signed = Signed {
    below: 9223372036854775808,
    most: 9223372036854775807,
};

// No sheet has more bytes (rule 11.11): a buffer of this length is never too short.
pub const SHEET_MOST: usize = 465;

// Writes the sheet's first eight lines. Ruled out: a line left out; two lines exchanged.
fn put_head(f: Figures, to: &mut Writer<'_>)
    requires { (to.old.at ≡ 0) × InRange f }
    ensures { Wrote to.old (lines_of (take 8 schema) (take 8 (values_of f))) to.new }
{
    to.line(b"intervals=", f.intervals);
    to.line(b"devices=", f.devices);
    to.line(b"counted=", f.counted);
    to.line(b"replaced=", f.replaced);
    to.line(b"excluded=", f.excluded);
    to.line(b"methane_l=", f.methane_l);
    to.line(b"destroyed_l=", f.destroyed_l);
    to.line(b"uncombusted_l=", f.uncombusted_l);
}

// The sheet's lines into the buffer as far as it goes, and their length whatever the buffer's. No `Display`, as beside `Writer`.
fn put_sheet(f: Figures, buf: &mut [u8]) -> usize
    ensures { Put buf.old 0 (text_of f) buf.new result × (length (text_of f) ≤ sheet_most) }
{
    let mut to = Writer { buf, at: 0 };
    put_head(f, &mut to);
    to.line(b"baseline_mg=", f.baseline_mg);
    to.line(b"co2_mg=", f.co2_mg);
    to.line(b"uncombusted_mg=", f.uncombusted_mg);
    to.line(b"fuel_mg=", f.fuel_mg);
    to.line(b"reduction_mg=", f.reduction_mg);
    to.line(b"tonnes=", f.tonnes);
    to.line(b"credits=", f.credits);
    to.at
}

// Writes the sheet, and gives its length. Ruled out: a byte after the sheet's end changed; a part of the sheet in a buffer that is too short.
pub fn write(f: Figures, buf: &mut [u8]) -> Result<usize, Refusal>
    ensures { Write.Answered f buf.old buf.new result }
{
    let n = put_sheet(f, &mut buf[..0]);
    if buf.len() < n {
        return Err(Refusal::ShortBuffer(n));
    }
    Ok(put_sheet(f, buf))
}

// The sheet's lines of counts and litres.
#[derive(Clone, Copy)]
struct Volumes {
    intervals: u64,
    devices: u64,
    counted: u64,
    replaced: u64,
    excluded: u64,
    methane_l: u64,
    destroyed_l: u64,
    uncombusted_l: u64,
}

// Reads the sheet's first eight lines, and gives the place after them. Ruled out: a missing line passed over; the start of the wrong line for its
// first wrong byte.
fn read_head(t: &[u8]) -> Result<(Volumes, usize), Wrong>
    ensures { HeadIn t.now result }
{
    let (intervals, p1) = text::read_line(t, 0, b"intervals=", UNSIGNED)?;
    let (devices, p2) = text::read_line(t, p1, b"devices=", UNSIGNED)?;
    let (counted, p3) = text::read_line(t, p2, b"counted=", UNSIGNED)?;
    let (replaced, p4) = text::read_line(t, p3, b"replaced=", UNSIGNED)?;
    let (excluded, p5) = text::read_line(t, p4, b"excluded=", UNSIGNED)?;
    let (methane_l, p6) = text::read_line(t, p5, b"methane_l=", UNSIGNED)?;
    let (destroyed_l, p7) = text::read_line(t, p6, b"destroyed_l=", UNSIGNED)?;
    let (uncombusted_l, p8) = text::read_line(t, p7, b"uncombusted_l=", UNSIGNED)?;
    let volumes = Volumes {
        intervals,
        devices,
        counted,
        replaced,
        excluded,
        methane_l,
        destroyed_l,
        uncombusted_l,
    };
    Ok((volumes, p8))
}

// Reads all of the sheet's lines, after which nothing may stand. Ruled out: a figure of another line; a byte behind the last line let through.
fn read_figures(t: &[u8]) -> Result<Figures, Wrong>
    ensures { FiguresIn t.now result }
{
    let (v, p8) = read_head(t)?;
    let (baseline_mg, p9) = text::read_line(t, p8, b"baseline_mg=", UNSIGNED)?;
    let (co2_mg, p10) = text::read_line(t, p9, b"co2_mg=", UNSIGNED)?;
    let (uncombusted_mg, p11) = text::read_line(t, p10, b"uncombusted_mg=", UNSIGNED)?;
    let (fuel_mg, p12) = text::read_line(t, p11, b"fuel_mg=", UNSIGNED)?;
    let (reduction_mg, p13) = text::read_line(t, p12, b"reduction_mg=", SIGNED)?;
    let (tonnes, p14) = text::read_line(t, p13, b"tonnes=", SIGNED)?;
    let (credits, p15) = text::read_line(t, p14, b"credits=", UNSIGNED)?;
    if p15 < t.len() {
        return Err(Wrong { place: p15 });
    }
    Ok(Figures {
        intervals: v.intervals,
        devices: v.devices,
        counted: v.counted,
        replaced: v.replaced,
        excluded: v.excluded,
        methane_l: v.methane_l,
        destroyed_l: v.destroyed_l,
        uncombusted_l: v.uncombusted_l,
        baseline_mg,
        co2_mg,
        uncombusted_mg,
        fuel_mg,
        reduction_mg,
        tonnes,
        credits,
    })
}

// Reads a sheet. Ruled out: `01` refused at the line's end rather than at the 1; a text with a byte behind the last line accepted.
pub fn read(t: &[u8]) -> Result<Figures, Refusal>
    ensures { Read.Answered t.now result }
{
    match read_figures(t) {
        Ok(figures) => Ok(figures),
        Err(wrong) => Err(Refusal::NoSheet(wrong.place)),
    }
}
