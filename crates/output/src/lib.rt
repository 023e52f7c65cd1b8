// The output of a text, passed on to a writer a buffer at a time.
#![tactic(auto)]

ghost use Rattle.std.specs.Prelude.{◌≡◌, ◌+◌, ◌^◌, ◌<◌, length, IfOk, IfErr};
ghost use Rattle.sheet.specs.Legal.{LegalSheet};
ghost use Rattle.frames.specs.Texts.{output_of};
ghost use Rattle.frames.specs.Frames.{line_answer};
ghost use Rattle.output.specs.Parts.{PartOf};

use sheet::Sheet;
use std::io;
use std::io::Write;
use tally::Tally;

// An output that could not be written to its end: how many bytes were passed on, the last part among them, and why it was not written.
#[derive(Clone, Copy)]
pub struct Unwritten {
    pub len: usize,
    pub error: io::Error,
}

// Passes on a part of the output of a text, from the sheet `first` on: what stands there behind the first `sent` bytes. The answer, or the error, tells how
// many bytes were passed on then.
fn send<W: Write>(
    writer: &mut W,
    text: &[u8],
    first: &Sheet,
    sent: usize,
    part: &[u8],
) -> Result<usize, Unwritten>
    requires { PartOf (output_of line_answer first.now text.now) sent part.now × (sent + length part.now < 2 ^ 64) }
    ensures written { IfOk result (λ n. n ≡ sent + length part.now) }
    ensures unwritten { IfErr result (λ e. e.len ≡ sent + length part.now) }
{
    let len = sent + part.len();
    writer
        .write_all(part)
        .map_err(|error| Unwritten { len, error })?;
    Ok(len)
}

// Passes on the output for a text, from a sheet on, a buffer at a time; the answer is how many bytes it has. It stops where it cannot be written.
// The contract rules out, for instance, another line for a text that is too long and a part in the wrong place (must-fail: line_of_another_refusal,
// tally_at_the_start).
pub fn answer_from<W: Write>(writer: &mut W, text: &[u8], first: &Sheet) -> Result<usize, Unwritten>
    requires { LegalSheet first.now }
    ensures { IfOk result (λ n. n ≡ length (output_of line_answer first.now text.now)) }
{
    let mut out = [0; 65536];
    if frames::is_too_long(text) {
        let n = text::put_too_long(&mut out);
        return send(writer, text, first, 0, &out[..n]);
    }
    let mut sent = 0;
    let mut next = 0;
    let mut s = *first;
    let mut t = Tally::default();
    while next < text.len() {
        let r = answering::lines_from(text, next, s, t, &mut out);
        next = r.next;
        s = r.sheet;
        t = r.tally;
        sent = send(writer, text, first, sent, &out[..r.written])?;
    }
    let n = text::put_tally(&mut out, 0, t);
    send(writer, text, first, sent, &out[..n])
}
