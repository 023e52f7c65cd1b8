// Reads a saved text into a sheet.
#![tactic(auto)]

ghost use Rattle.std.specs.Prelude.{◌≡◌};
ghost use Rattle.sheet.specs.Sheets.{Full};
ghost use Rattle.images.specs.Entries.{candidate};
ghost use Rattle.images.specs.Reading.{is_unknown, is_bad, read};
ghost use Rattle.loading.specs.Loaded.{answer_of};

use fitness::is_unfit;
use frames::is_too_long;
use hexadecimal::FRAME_ROOM;
use panel::{Refusal, Reply};
use parsing::read_lines;
use saving::{LONGEST, VERSION, write};
use sheet::Sheet;
use wellformed::is_formed;

// Whether a text begins with the byte 0A and a version that is not known.
fn is_unknown(text: &[u8]) -> bool
    ensures { result ≡ is_unknown text.now }
{
    let mut frame = [0; FRAME_ROOM];
    if text.len() < 4 || hexadecimal::decode(&text[..4], &mut frame).is_err() {
        return false;
    }
    frame[0] == 0x0A && frame[1] != VERSION
}

// Whether a text, whose lines enter the sheet c, is a BadImage: c is not well formed, or its own text is another one.
fn is_bad(text: &[u8], c: &Sheet) -> bool
    requires { (c.now ≡ candidate text.now) × Full c.now }
    ensures { result ≡ is_bad text.now }
{
    if !is_formed(c) {
        return true;
    }
    let mut buffer = [0; LONGEST];
    let n = write(&mut buffer, VERSION, c);
    &buffer[..n] != text
}

// Reads a saved text into the sheet s: 0000 and the sheet of the text, or a refusal and s as it was.
// The contract rules out, for instance, BadImage given before UnknownVersion and a refused reading that leaves values (must-fail:
// bad_image_before_version, values_left_by_unfit).
pub fn load(text: &[u8], s: &mut Sheet) -> Reply
    ensures { answer_of s.new result ≡ read s.old text.now }
{
    if is_too_long(text) {
        return Err(Refusal::TextTooLong);
    }
    if 0 < s.panel.size {
        return Err(Refusal::AlreadyOpen);
    }
    if is_unknown(text) {
        return Err(Refusal::UnknownVersion);
    }
    let c = read_lines(text);
    if is_bad(text, &c) {
        return Err(Refusal::BadImage);
    }
    if is_unfit(&c) {
        return Err(Refusal::Unfit);
    }
    *s = c;
    Ok(0)
}
