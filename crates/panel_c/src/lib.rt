// The operations on a text for C and Rust to call. A text and a buffer are a pointer and a length each; a tally and the values are lent by their address.
#![tactic(auto)]

ghost use Rattle.std.specs.Prelude.{◌≡◌, cond, length};
ghost use Rattle.std.proofs.lemmas.List.Edits.{sets};
ghost use Rattle.frames.specs.Texts.{is_too_long};
ghost use Rattle.sheet.specs.Sheets.{unopened};
ghost use Rattle.frames.specs.Frames.{line_answer};
ghost use Rattle.text.specs.Outcomes.{whole_output, buffer_after, tally_at_end, fields_after, values_after};
ghost use Rattle.sessions.specs.Sessions.{saved_text, resumed_output};
ghost use Rattle.panel_c.specs.Lengths.{length_of};

use tally::Tally;

// The number that stands for a text's outcome: the length of the whole output, 0 where the text is too long.
fn length_of(outcome: Option<usize>) -> usize
    ensures { result ≡ length_of outcome }
{
    outcome.unwrap_or(0)
}

// The length of the whole output, of which the buffer holds as many first bytes as fit; 0 where the text is too long. The tally that the caller
// lends is updated.
#[unsafe(no_mangle)]
pub extern "C" fn panel_run_text(text: &[u8], out: &mut [u8], tally: &mut Tally) -> usize
    ensures value { result ≡ cond (is_too_long text.now) 0 (length (whole_output line_answer unopened tally.old text.now)) }
    ensures out_after { out.new ≡ buffer_after line_answer unopened tally.old text.now out.old }
    ensures tally_after { tally.new ≡ tally_at_end line_answer unopened tally.old text.now }
{
    length_of(text::run_text(text, out, tally))
}

// The values of the panel's fields after a text, in 64 places of which those past the fields are zero; the answer is how many fields there are, 0 while
// the panel is unopened. Where the text is too long the answer is 0, and the places are as they were.
#[unsafe(no_mangle)]
pub extern "C" fn panel_values(text: &[u8], values: &mut [i32; 64]) -> usize
    ensures value { result ≡ fields_after text.now }
    ensures values_after { values.new ≡ values_after text.now values.old }
{
    text::values_after(text, values)
}

// The saved panel that the lines of a text leave: the length of it, of which the buffer holds as many first bytes as fit. Where the text is too long, or no
// panel is open after it, the answer is 0, and the buffer as it was.
#[unsafe(no_mangle)]
pub extern "C" fn panel_saved(text: &[u8], out: &mut [u8]) -> usize
    ensures value { result ≡ length (saved_text text.now) }
    ensures out_after { out.new ≡ sets out.old 0 (saved_text text.now) }
{
    sessions::save_text(text, out)
}

// The reply to the reading of a saved text as a line, and, where it is taken in, the output of a text from there on: the length of it, of which the buffer
// holds as many first bytes as fit.
#[unsafe(no_mangle)]
pub extern "C" fn panel_resumed(saved: &[u8], text: &[u8], out: &mut [u8]) -> usize
    ensures value { result ≡ length (resumed_output saved.now text.now) }
    ensures out_after { out.new ≡ sets out.old 0 (resumed_output saved.now text.now) }
{
    sessions::resume(saved, text, out)
}
