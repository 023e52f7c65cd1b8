// The import of a file's airflow signals: the lines of a panel with two fields, a link and a ratio for each of them, or the line of a refusal.
#![tactic(auto)]

ghost use Rattle.std.specs.Prelude.{◌≡◌, ◌+◌, ◌<◌, ◌≤◌, length};
ghost use Rattle.std.proofs.lemmas.List.Edits.{sets};
ghost use Rattle.frames.specs.Texts.{written};
ghost use Rattle.importing.specs.Imports.{flow_lines, frames_for, import_output};

use replies::put_refusal;
use writing::put_line;

// The length of a longest output: the opening's line, and an add's and a ratio's for each of 32 flows.
pub const LONGEST: usize = 5 + 32 * (11 + 15);

// The lines of flow i at a position, as far as they fit; the position behind them.
fn put_flow(out: &mut [u8], at: usize, i: u8) -> usize
    requires { (i < 32) × (at ≤ 837) }
    ensures out_after { out.new ≡ sets out.old at (flow_lines i) }
    ensures value { result ≡ at + length (flow_lines i) }
{
    let add = [0x00, 0x80 + 2 * i, 0x80 + (2 * i + 1)];
    let ratio = [0x01, 0x00, 0x01, 0x00, 0x3C];
    let n = put_line(out, at, 0x02, i, &add);
    put_line(out, n, 0x08, i, &ratio)
}

// The lines for k flows, as far as they fit; how long they are.
fn put_flows(out: &mut [u8], k: u8) -> usize
    requires { k ≤ 32 }
    ensures out_after { out.new ≡ sets out.old 0 (written (frames_for k)) }
    ensures value { result ≡ length (written (frames_for k)) }
{
    let mut n = put_line(out, 0, 0x01, 2 * k, &[]);
    for i in 0..k {
        n = put_flow(out, n, i);
    }
    n
}

// The output for a file, as far as it fits; the answer is how long it is.
// The contract rules out, for instance, the ratio 60 to 1 and the field per second in the place of that per minute (must-fail: ratio_60_to_1,
// field_per_second_for_per_minute).
pub fn import(file: &[u8], out: &mut [u8]) -> usize
    ensures out_after { out.new ≡ sets out.old 0 (import_output file.now) }
    ensures value { result ≡ length (import_output file.now) }
{
    match edf::read_header(file) {
        Ok(k) => put_flows(out, k),
        Err(r) => put_refusal(out, 0, r),
    }
}
