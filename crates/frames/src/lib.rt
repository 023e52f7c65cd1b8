// Lines of hexadecimal, one frame a line; the length of a text of them.
#![tactic(auto)]

ghost use Rattle.std.specs.Prelude.{◌≡◌, ◌≤◌, ◌<◌, min, length, take, drop, [], ◌∷◌};
ghost use Rattle.panel.specs.Commands.{has_bit6, any_of};
ghost use Rattle.hexadecimal.specs.Hex.{frame_room};
ghost use Rattle.fieldset.specs.Tables.{at};
ghost use Rattle.values.specs.Words.{value_of};
ghost use Rattle.frames.specs.Frames.{fits_formula, fits_link, fits_kind, has_fields, is_frame, checked_frame, pair_of, word_of, formula_in, formula_bytes, command_bytes, number_of};
ghost use Rattle.frames.specs.Texts.{is_too_long};
ghost use Rattle.frames.specs.Reading.{tail_of, LineRead};

use formulas::{Formula, Rule};
use hexadecimal::BadHex;
use panel::Refusal;
use values::of_bits;

// The greatest length of a text.
pub const TEXT_LIMIT: usize = 65535;

// Whether a text is refused with TextTooLong.
pub fn is_too_long(text: &[u8]) -> bool
    ensures { result ≡ is_too_long text.now }
{
    TEXT_LIMIT < text.len()
}

// What a line asks. What a frame has behind its third byte stands beside it, in the frame: the field bytes of a link, the rest of a value or of a
// formula.
#[derive(Clone, Copy)]
pub enum Command {
    Open(u8),
    Add(u8, u8),
    Remove(u8),
    Touch(u8),
    Plan,
    Change(u8, u8),
    // a field, and the first byte of the value
    Enter(u8, u8),
    // a link's number, and the kind of the formula
    Relate(u8, u8),
    // a case, and no Err: each function that goes by a line's command takes a refused line as one that leaves all as it is, and would first match Ok
    Refused(Refusal),
}

// A line's command, the first bytes of its frame, and how many of them count.
#[derive(Clone, Copy)]
pub struct Line {
    pub command: Command,
    pub frame: [u8; hexadecimal::FRAME_ROOM],
    pub len: usize,
}

// The kinds of frames and formulas are bytes here and in `read_frame`, which makes the enum of them: a byte that is no kind is refused with a length that
// does not fit, in one test.

// Whether n bytes fit a kind of formula.
#[tactic(auto, unfolding(crate::specs::Frames::fits_formula))]
fn fits_formula(form: u8, n: usize) -> bool
    ensures { result ≡ fits_formula form n }
{
    match form {
        0x01 => n == 7,
        0x02 => n == 4,
        _ => false,
    }
}

// Whether n bytes fit a link behind the kind: its number, level and 1 to 8 field bytes.
fn fits_link(n: usize) -> bool
    ensures { result ≡ fits_link n }
{
    4 <= n && n <= 11
}

// Whether n bytes fit the kind of a frame, whose third byte is `form`.
#[tactic(auto, unfolding(crate::specs::Frames::fits_kind))]
fn fits_kind(kind: u8, form: u8, n: usize) -> bool
    ensures { result ≡ fits_kind kind form n }
{
    match kind {
        0x01 => n == 2,
        0x02 => fits_link(n),
        0x03 => n == 2,
        0x04 => n == 2,
        0x05 => n == 1,
        0x06 => fits_link(n),
        0x07 => n == 6,
        0x08 => fits_formula(form, n),
        _ => false,
    }
}

// Whether a kind has field bytes.
fn has_fields(kind: u8) -> bool
    ensures { result ≡ has_fields kind }
{
    kind == 0x02 || kind == 0x06
}

// Whether bit 6 is set in a field byte of a frame of n bytes.
fn has_bit6(frame: &[u8; hexadecimal::FRAME_ROOM], n: usize) -> bool
    requires { (3 ≤ n) × (n ≤ frame_room) }
    ensures { result ≡ any_of has_bit6 (drop 3 (take n frame.now)) }
{
    frame[3..n].iter().any(|b| b / 64 % 2 == 1)
}

// Whether the first n bytes of a buffer are a frame. A frame is shorter than the buffer: where n is its whole length, they are none.
fn is_frame(frame: &[u8; hexadecimal::FRAME_ROOM], n: usize) -> bool
    ensures { result ≡ is_frame (take n frame.now) }
{
    let kind = frame[0];
    fits_kind(kind, frame[2], n) && !(has_fields(kind) && has_bit6(frame, n))
}

// The command of the first n bytes of a buffer.
pub fn read_frame(frame: &[u8; hexadecimal::FRAME_ROOM], n: usize) -> Command
    ensures { command_bytes result (drop 3 (take n frame.now)) ≡ checked_frame (take n frame.now) }
{
    if !is_frame(frame, n) {
        return Command::Refused(Refusal::BadFrame);
    }
    match frame[0] {
        0x01 => Command::Open(frame[1]),
        0x02 => Command::Add(frame[1], frame[2]),
        0x03 => Command::Remove(frame[1]),
        0x04 => Command::Touch(frame[1]),
        0x05 => Command::Plan,
        0x06 => Command::Change(frame[1], frame[2]),
        0x07 => Command::Enter(frame[1], frame[2]),
        0x08 => Command::Relate(frame[1], frame[2]),
        _ => Command::Refused(Refusal::BadFrame),
    }
}

// An offset as two bytes tell it: 65,535 for a larger one, which only a line longer than any text has.
fn two_byte_offset(n: usize) -> u16
    ensures { result ≡ min n 0xFFFF }
{
    u16::try_from(n).unwrap_or(u16::MAX)
}

// The command of a line, with the bytes of its frame.
pub fn read_line(line: &[u8]) -> Line
    ensures { LineRead line.now result }
{
    let mut frame = [0u8; hexadecimal::FRAME_ROOM];
    match hexadecimal::decode(line, &mut frame) {
        Err(BadHex { offset }) => Line {
            command: Command::Refused(Refusal::BadHex(two_byte_offset(offset))),
            frame,
            len: 0,
        },
        Ok(n) => {
            // as many bytes as the buffer has
            let len = n.min(hexadecimal::FRAME_ROOM);
            Line {
                command: read_frame(&frame, len),
                frame,
                len,
            }
        }
    }
}

// A byte of what stands behind the third byte of a frame; 0 where it has none there.
fn tail_byte(frame: &[u8; hexadecimal::FRAME_ROOM], len: usize, i: usize) -> u8
    requires { (len ≤ frame_room) × (i < 9) }
    ensures { result ≡ at (drop 3 (take len frame.now)) i }
{
    frame[..len].get(3 + i).copied().unwrap_or(0)
}

// The number of two bytes, most significant first.
pub fn pair(a: u8, b: u8) -> u16
    ensures { result ≡ pair_of (a ∷ b ∷ []) }
{
    u16::from_be_bytes([a, b])
}

// The number of four bytes, most significant first.
pub fn word(a: u8, b: u8, c: u8, d: u8) -> u32
    ensures { result ≡ word_of (a ∷ b ∷ c ∷ d ∷ []) }
{
    u32::from_be_bytes([a, b, c, d])
}

// The value that a line enters, whose first byte its command has.
pub fn value_of(line: &Line, first: u8) -> i32
    requires { line.now.len ≤ frame_room }
    ensures { result ≡ value_of (word_of (first ∷ tail_of line.now)) }
{
    let n = word(
        first,
        tail_byte(&line.frame, line.len, 0),
        tail_byte(&line.frame, line.len, 1),
        tail_byte(&line.frame, line.len, 2),
    );
    of_bits(n)
}

// The formula that a line gives, whose kind its command has.
pub fn formula_of(line: &Line, form: u8) -> Rule
    requires { line.now.len ≤ frame_room }
    ensures { formula_bytes result ≡ formula_bytes (formula_in (form ∷ tail_of line.now)) }
{
    let frame = &line.frame;
    let a = tail_byte(frame, line.len, 0);
    match form {
        0x01 => {
            let p = pair(a, tail_byte(frame, line.len, 1));
            let q = pair(tail_byte(frame, line.len, 2), tail_byte(frame, line.len, 3));
            Some(Formula::Ratio(p, q))
        }
        0x02 => Some(Formula::Sum(a)),
        _ => None,
    }
}

// The number of the link that a command names; 0 where it names none.
pub fn number_of(command: Command) -> u8
    ensures { (result ≡ number_of command) × (result < 128) }
{
    match command {
        Command::Open(_) => 0,
        Command::Add(id, _) => id % 128,
        Command::Remove(id) => id % 128,
        Command::Touch(_) => 0,
        Command::Plan => 0,
        Command::Change(id, _) => id % 128,
        Command::Enter(_, _) => 0,
        Command::Relate(id, _) => id % 128,
        Command::Refused(_) => 0,
    }
}
