// The program: a record file on standard input, its sheet or the three lines of its refusal on standard output.
#![tactic(auto)]

ghost use Rattle.std.specs.Prelude.{◌≤◌, length, IfOk};

use std::io;
use std::io::{ErrorKind, Print, Read};

// The program's memory is fixed: texts and rows are arrays.

// Longer than any record file that 2,976 entries can hold, so that its first bytes decide every longer input (`report_cut`,
// drainage_report/proofs/Settled.antt).
const TEXT: usize = 217600;

const ENTRIES: usize = 2976;

// The first n bytes of a text, or all of it.
fn first(t: &[u8], n: usize) -> &[u8] {
    &t[..n.min(t.len())]
}

// Fills a text from what is read, until it is full or nothing more comes: how many bytes it got. An interrupted read brings the end no
// nearer, so that only a count of the reads can bound the loop.
fn read_full<R: Read>(input: &mut R, text: &mut [u8]) -> io::Result<usize>
    ensures { IfOk result (λ n. n ≤ length text.new) }
{
    let mut n = 0;
    for _ in 0..u64::MAX {
        if n >= text.len() {
            break;
        }
        match input.read(&mut text[n..]) {
            Ok(0) => break,
            Ok(more) => n += more,
            Err(e) => {
                if e.kind() != ErrorKind::Interrupted {
                    return Err(e);
                }
            }
        }
    }
    Ok(n)
}

// The text is lent as an array, since as a slice its length would be counted out.
fn run<R: Read, P: Print>(input: &mut R, output: &P, text: &mut [u8; TEXT]) -> io::Result<()> {
    let n = read_full(input, text)?;
    let mut flow = [0u16; ENTRIES];
    let mut content = [0u16; ENTRIES];
    let mut temp = [0i16; ENTRIES];
    let mut press = [0u32; ENTRIES];
    let mut status = [0u8; ENTRIES];
    let mut outcome = [0u8; ENTRIES];
    let mut flow_used = [0u16; ENTRIES];
    let mut content_used = [0u16; ENTRIES];
    let mut out = [0u8; sheet_text::SHEET_MOST];
    let k = drainage_report::report(
        first(text, n),
        &mut flow,
        &mut content,
        &mut temp,
        &mut press,
        &mut status,
        &mut outcome,
        &mut flow_used,
        &mut content_used,
        &mut out,
    );
    output.write_all(first(&out, k))
}

fn main(rt: HostRuntime) -> io::Result<()> {
    let mut text = [0u8; TEXT];
    let mut input = rt.stdin();
    run(&mut input, &rt, &mut text)
}
