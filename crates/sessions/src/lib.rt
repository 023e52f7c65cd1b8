// Operations on a whole text whose panel is saved in the end, or that goes on from a saved panel.
#![tactic(auto)]

ghost use Rattle.std.specs.Prelude.{◌≡◌, false, ◌^◌, ◌≤◌, ◌<◌, length};
ghost use Rattle.std.proofs.lemmas.List.Edits.{sets};
ghost use Rattle.panel.specs.Answers.{reply_bytes};
ghost use Rattle.sheet.specs.Legal.{LegalSheet};
ghost use Rattle.hexadecimal.specs.Hex.{line_of};
ghost use Rattle.lines.specs.Lines.{lines_of};
ghost use Rattle.frames.specs.Texts.{is_too_long, output_of};
ghost use Rattle.frames.specs.Frames.{line_answer, sheet_after};
ghost use Rattle.sheet.specs.Sheets.{unopened};
ghost use Rattle.images.specs.Reading.{longest};
ghost use Rattle.saving.specs.Saves.{SavedAs};
ghost use Rattle.sessions.specs.Sessions.{Short, saved_text, saved_output, resumed_output};

use frames::is_too_long;
use loading::load;
use panel::{Refusal, Reply};
use replies::put_refusal;
use saving::save;
use sheet::{Sheet, unopened};
use tally::Tally;
use text::{put_too_long, run_from, sheet_after};

// Saves the panel that the lines of a text leave, from an unopened panel on.
fn save_lines(text: &[u8], out: &mut [u8]) -> Option<usize>
    requires { is_too_long text.now ≡ false }
    ensures saved_as { SavedAs (sheet_after unopened (lines_of text.now)) out.old out.new result }
    ensures short { Short result }
{
    save(&sheet_after(text), out)
}

// The saved panel after the lines of a text: its length, and as many of its first bytes as fit the buffer. Where the text is too long, or no panel is
// open after it, the buffer is as it was, and the answer 0.
pub fn save_text(text: &[u8], out: &mut [u8]) -> usize
    ensures out_after { out.new ≡ sets out.old 0 (saved_text text.now) }
    ensures value { result ≡ length (saved_text text.now) }
{
    if is_too_long(text) {
        return 0;
    }
    save_lines(text, out).unwrap_or(0)
}

// The same with the line of the refusal where there is one: its length, and as many of its first bytes as fit the buffer.
// The contract rules out, for instance, a line of NotOpen that is not at the start and another line for a text that is too long (must-fail:
// not_open_behind_the_start, too_long_told_as_not_open).
pub fn save_after(text: &[u8], out: &mut [u8]) -> usize
    ensures out_after { out.new ≡ sets out.old 0 (saved_output text.now) }
    ensures value { (result ≡ length (saved_output text.now)) × (result ≤ longest) }
{
    if is_too_long(text) {
        return put_too_long(out);
    }
    match save_lines(text, out) {
        Some(n) => n,
        None => put_refusal(out, 0, Refusal::NotOpen),
    }
}

// The line of a reply at the start of a buffer, as far as it fits; the position behind it.
pub fn put_answer(out: &mut [u8], reply: Reply) -> usize
    ensures out_after { out.new ≡ sets out.old 0 (line_of (reply_bytes reply)) }
    ensures value { result ≡ length (line_of (reply_bytes reply)) }
{
    match reply {
        Ok(m) => writing::put_line(out, 0, 0x00, m, b""),
        Err(r) => put_refusal(out, 0, r),
    }
}

// The output of a text from a sheet on: its length, and as many of its first bytes as fit the buffer.
fn output_from(text: &[u8], s: Sheet, out: &mut [u8]) -> usize
    requires { LegalSheet s }
    ensures out_after { out.new ≡ sets out.old 0 (output_of line_answer s text.now) }
    ensures value { (result ≡ length (output_of line_answer s text.now)) × (result < 2 ^ 63) }
{
    match run_from(text, s, out, &mut Tally::default()) {
        Some(n) => n,
        None => put_too_long(out),
    }
}

// The reply to the reading of a saved text as a line, and, where it is taken in, the output of a text from there on: its length, and as many of its first
// bytes as fit the buffer.
// The contract rules out, for instance, a text answered after a refused reading and its output over the reply's line (must-fail: refused_but_answered,
// output_over_the_reply).
pub fn resume(saved: &[u8], text: &[u8], out: &mut [u8]) -> usize
    ensures out_after { out.new ≡ sets out.old 0 (resumed_output saved.now text.now) }
    ensures value { result ≡ length (resumed_output saved.now text.now) }
{
    let mut s = unopened();
    let reply = load(saved, &mut s);
    let n = put_answer(out, reply);
    if reply.is_err() {
        return n;
    }
    if n <= out.len() {
        n + output_from(text, s, &mut out[n..])
    } else {
        // nothing of it fits; it is counted
        let mut none = [0; 1];
        n + output_from(text, s, &mut none)
    }
}
