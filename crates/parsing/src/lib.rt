// The sheet that the lines of a text enter, whatever the text is.
#![tactic(auto)]

ghost use Rattle.std.specs.Prelude.{◌≡◌, true, length, take, drop};
ghost use Rattle.fieldset.specs.Tables.{at};
ghost use Rattle.hexadecimal.specs.Hex.{are_digits, bytes_of};
ghost use Rattle.frames.specs.Frames.{formula_in};
ghost use Rattle.sheet.specs.Sheets.{Full};
ghost use Rattle.images.specs.Entries.{placed, standing_of, with_link_line, entered, line_bytes, candidate};
ghost use Rattle.parsing.specs.Parsing.{Framed, fields_end, field_part, link_in};

use fieldbytes::read_fields;
use formulas::{Formula, Rule};
use frames::{pair, word};
use hexadecimal::{FRAME_ROOM, byte, decode};
use lines::{behind, line_end};
use panel::{Link, Panel, Standing};
use sheet::Sheet;
use values::of_bits;
use writing::store;

// The line 0B enters the places of at most 64 fields, from 0 on.
fn enter_order(place: &mut [u8; 64], line: &[u8])
    requires { are_digits line.now ≡ true }
    ensures { place.new ≡ placed place.old 0 (take 64 (drop 1 (bytes_of line.now))) }
{
    let n = (line.len() / 2).saturating_sub(1).min(64);
    for k in 0..n {
        let f = byte(line[2 * k + 2], line[2 * k + 3]);
        store(place, usize::from(f), k as u8);
    }
}

// The standing that a byte says.
fn standing_of(b: u8) -> Standing
    ensures { result ≡ standing_of b }
{
    if b == 0xFF {
        Standing::Waiting
    } else {
        Standing::Holding(b)
    }
}

// Where the field bytes of a link of n bytes end in the buffer.
fn fields_end(n: usize) -> usize
    ensures { result ≡ fields_end n }
{
    n.clamp(4, FRAME_ROOM)
}

// The link of a line 0C of n bytes.
fn link_of(frame: &[u8; FRAME_ROOM], n: usize) -> Link
    ensures { result ≡ link_in frame.now (field_part frame.now n) }
{
    let fields = read_fields(&frame[4..fields_end(n)]);
    Link {
        covered: fields.covered,
        outputs: fields.outputs,
        level: frame[2],
        used: true,
        standing: standing_of(frame[3]),
    }
}

// The line 0C of n bytes enters a link, and it as the setter of the field that it holds. A number past a table's end enters nothing.
fn enter_link(p: &mut Panel, frame: &[u8; FRAME_ROOM], n: usize)
    requires { length p.old.links ≡ 128 }
    ensures { p.new ≡ with_link_line p.old (at frame.now 1) (at frame.now 2) (at frame.now 3) (field_part frame.now n) }
{
    let id = frame[1];
    if id < 128 {
        p.links[usize::from(id)] = link_of(frame, n);
    }
    store(&mut p.setter, usize::from(frame[3]), id);
}

// The formula of a line 08.
fn formula_in(frame: &[u8; FRAME_ROOM]) -> Rule
    ensures { result ≡ formula_in (drop 2 frame.now) }
{
    match frame[2] {
        0x01 => Some(Formula::Ratio(pair(frame[3], frame[4]), pair(frame[5], frame[6]))),
        0x02 => Some(Formula::Sum(frame[3])),
        _ => None,
    }
}

// A line's bytes enter what they say, by their kind.
fn enter_frame(s: &mut Sheet, line: &[u8], frame: &[u8; FRAME_ROOM], n: usize)
    requires { Framed line.now frame.now n × Full s.old }
    ensures { s.new ≡ entered s.old (bytes_of line.now) }
{
    let id = usize::from(frame[1]);
    match frame[0] {
        0x0A => s.panel.size = usize::from(frame[2]),
        0x0B => enter_order(&mut s.panel.place, line),
        0x0C => enter_link(&mut s.panel, frame, n),
        0x08 => {
            if id < 128 {
                s.formulas[id] = formula_in(frame);
            }
        }
        0x0D => {
            if id < 64 {
                s.values[id] = of_bits(word(frame[2], frame[3], frame[4], frame[5]));
            }
        }
        _ => {}
    }
}

// A line enters what it says; one that is not hexadecimal enters nothing.
fn enter(s: &mut Sheet, line: &[u8])
    requires { Full s.old }
    ensures { s.new ≡ entered s.old (line_bytes line.now) }
{
    let mut frame = [0; FRAME_ROOM];
    if let Ok(n) = decode(line, &mut frame) {
        enter_frame(s, line, &frame, n);
    }
}

// What all lines of a text enter into an unopened panel.
// The contract rules out, for instance, FF entered as a field that a link holds and the first field of an order left out (must-fail: standing_ff_held,
// places_from_1).
pub fn read_lines(text: &[u8]) -> Sheet
    ensures { (result ≡ candidate text.now) × Full result }
{
    let mut s = sheet::unopened();
    let mut from = 0;
    while from < text.len() {
        let end = line_end(text, from);
        enter(&mut s, &text[from..end]);
        from = behind(text, end);
    }
    s
}
