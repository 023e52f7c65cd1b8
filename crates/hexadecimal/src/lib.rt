// Hexadecimal, two digits a byte.
#![tactic(auto)]

ghost use Rattle.std.specs.Prelude.{◌≡◌, true, ◌+◌, ◌*◌, length};
ghost use Rattle.std.proofs.lemmas.List.Edits.{sets};
ghost use Rattle.hexadecimal.specs.Hex.{is_digit, digit_of, are_digits, offset_of, bytes_of, frame_room};
ghost use Rattle.hexadecimal.specs.Answers.{digit_values, digit_read, decoded_values, decoded, frame_after};

// How many bytes of a frame are kept: those of a longest one, an add with 8 field bytes, and one more, which shows that a frame is longer.
pub const FRAME_ROOM: usize = 12;

// A letter is its value, from 10 on, behind this character.
pub const LETTER: u8 = b'A' - 10;

// A line that is refused, with the offset where it is wrong.
#[derive(Clone, Copy, PartialEq, Eq)]
pub struct BadHex {
    pub offset: usize,
}

// The value of a digit; another character has none.
#[tactic(auto, using(crate::proofs::Digits::below_0, crate::proofs::Digits::from_0, crate::proofs::Digits::below_A, crate::proofs::Digits::from_A, crate::proofs::Digits::behind_F))]
pub fn digit_of(c: u8) -> Option<u8>
    ensures { digit_values result ≡ digit_read c }
{
    match c {
        b'0'..=b'9' => Some(c - b'0'),
        b'A'..=b'F' => Some(c - LETTER),
        _ => None,
    }
}

// The offset of the first character that is not a digit; the length where there is none.
pub fn offset_of(s: &[u8]) -> usize
    ensures { result ≡ offset_of s.now }
{
    for (i, &c) in s.iter().enumerate() {
        if digit_of(c).is_none() {
            return i;
        }
    }
    s.len()
}

// The value of a character that is a digit.
fn value(c: u8) -> u8
    requires { is_digit c ≡ true }
    ensures { result ≡ digit_of c }
{
    digit_of(c).unwrap()
}

// Two digits as a byte.
pub fn byte(a: u8, b: u8) -> u8
    requires { (is_digit a ≡ true) × (is_digit b ≡ true) }
    ensures { result ≡ digit_of a * 16 + digit_of b }
{
    value(a) * 16 + value(b)
}

// The first bytes of a line of digits, at most FRAME_ROOM.
fn fill(s: &[u8], frame: &mut [u8; FRAME_ROOM])
    requires { (are_digits s.now ≡ true) × (length frame.old ≡ frame_room) }
    ensures { frame.new ≡ sets frame.old 0 (bytes_of s.now) }
{
    for i in 0..FRAME_ROOM.min(s.len() / 2) {
        frame[i] = byte(s[2 * i], s[2 * i + 1]);
    }
}

// The length of a line's frame, whose first bytes, at most FRAME_ROOM, are put into the buffer; BadHex where the line is refused.
pub fn decode(s: &[u8], frame: &mut [u8; FRAME_ROOM]) -> Result<usize, BadHex>
    requires { length frame.old ≡ frame_room }
    ensures result_value { decoded_values result ≡ decoded s.now }
    ensures frame_after { frame.new ≡ frame_after s.now frame.old }
{
    let n = s.len();
    let offset = offset_of(s);
    if offset < n || n == 0 || n % 2 == 1 {
        return Err(BadHex { offset });
    }
    fill(s, frame);
    Ok(n / 2)
}
