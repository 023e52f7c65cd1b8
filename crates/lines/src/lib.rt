// The lines of a text: where a line ends, and where the next one begins.
#![tactic(auto)]

ghost use Rattle.std.specs.Prelude.{◌≡◌, ◌+◌, length, drop};
ghost use Rattle.lines.specs.Lines.{line_length, behind_of};

// The position of the first LF from a position on, or the text's end; a position past the end stays.
#[tactic(auto, using(crate::proofs::Lines::length_stop, crate::proofs::Lines::length_on, crate::proofs::Lines::length_end))]
pub fn line_end(text: &[u8], from: usize) -> usize
    ensures { result ≡ from + line_length (drop from text.now) }
{
    for i in from..text.len() {
        if text[i] == b'\n' {
            return i;
        }
    }
    from.max(text.len())
}

// The position of the next line: behind an LF, or the text's end. No `min`, since a position past the end stays.
pub fn behind(text: &[u8], end: usize) -> usize
    ensures { result ≡ behind_of end (length text.now) }
{
    if end < text.len() { end + 1 } else { end }
}
