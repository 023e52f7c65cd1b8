// The operations on a whole text.
#![tactic(auto)]

ghost use Rattle.std.specs.Prelude.{◌≡◌, false, ◌+◌, ◌^◌, ◌<◌, length, ◌∷◌};
ghost use Rattle.std.proofs.lemmas.List.Edits.{sets};
ghost use Rattle.panel.specs.declared.Refusal.TheVariants.{TextTooLong as TooLong};
ghost use Rattle.panel.specs.Answers.{refusal_bytes};
ghost use Rattle.hexadecimal.specs.Hex.{line_of};
ghost use Rattle.tally.specs.Tallies.{tally_bytes};
ghost use Rattle.sheet.specs.Sheets.{unopened};
ghost use Rattle.sheet.specs.Legal.{LegalSheet};
ghost use Rattle.lines.specs.Lines.{lines_of};
ghost use Rattle.frames.specs.Texts.{is_too_long};
ghost use Rattle.frames.specs.Frames.{line_answer, sheet_after};
ghost use Rattle.text.specs.Outcomes.{tally_length, Bounded, Told, fields_after, values_after};

use answering::answer_lines;
use frames::{TEXT_LIMIT, is_too_long};
use panel::Refusal;
use replies::{LONGEST, put_refusal};
use sheet::{Sheet, unopened};
use tally::Tally;

// Room for a longest reply to each line of a text.
const ROOM: usize = LONGEST * TEXT_LIMIT;

// The line of a text that is too long, FF and the refusal's number, at the start of a buffer, as far as it fits; the position behind it.
pub fn put_too_long(out: &mut [u8]) -> usize
    ensures out_after { out.new ≡ sets out.old 0 (line_of (0xFF ∷ refusal_bytes TooLong)) }
    ensures value { result ≡ length (line_of (0xFF ∷ refusal_bytes TooLong)) }
{
    put_refusal(out, 0, Refusal::TextTooLong)
}

// The tally's line at a position, as far as it fits; the position behind it.
pub fn put_tally(out: &mut [u8], at: usize, t: Tally) -> usize
    requires { at + tally_length < 2 ^ 64 }
    ensures out_after { out.new ≡ sets out.old at (line_of (tally_bytes t)) }
    ensures value { result ≡ at + length (line_of (tally_bytes t)) }
{
    let bytes = tally::tally_bytes(t);
    writing::put_line(out, at, bytes[0], bytes[1], &bytes[2..])
}

// The length of a text's whole output, from a sheet and the tally that the caller lends on, and as many of its first bytes as fit the buffer; a text that is
// too long has none, and leaves both as they were.
pub fn run_from(text: &[u8], s: Sheet, out: &mut [u8], t: &mut Tally) -> Option<usize>
    requires { LegalSheet s }
    ensures told { Told line_answer s t.old text.now t.new out.old out.new result }
    ensures bounded { Bounded result }
{
    if is_too_long(text) {
        return None;
    }
    let r = answer_lines(text, 0, s, *t, out, ROOM);
    *t = r.tally;
    Some(put_tally(out, r.written, r.tally))
}

// The same, from a panel that is not opened.
pub fn run_text(text: &[u8], out: &mut [u8], t: &mut Tally) -> Option<usize>
    ensures { Told line_answer unopened t.old text.now t.new out.old out.new result }
{
    run_from(text, unopened(), out, t)
}

// The sheet after the lines of a text, from an unopened panel on. The replies are not wanted.
pub fn sheet_after(text: &[u8]) -> Sheet
    requires { is_too_long text.now ≡ false }
    ensures { (result ≡ sheet_after unopened (lines_of text.now)) × LegalSheet result }
{
    let mut out = [0; 1];
    answer_lines(text, 0, unopened(), Tally::default(), &mut out, ROOM).sheet
}

// The values of the fields after a text, from an unopened panel on; the answer is how many fields there are. Where the text is too long the buffer is
// as it was, and the answer 0.
pub fn values_after(text: &[u8], values: &mut [i32; 64]) -> usize
    ensures value { result ≡ fields_after text.now }
    ensures values_after { values.new ≡ values_after text.now values.old }
{
    if is_too_long(text) {
        return 0;
    }
    let s = sheet_after(text);
    let last = s.values;
    *values = last;
    s.panel.size
}
