// The program: reads a text on standard input, and writes one reply a line, then the tally.
#![tactic(auto)]

ghost use Rattle.std.specs.Prelude.{◌≡◌, length, IfOk};
ghost use Rattle.frames.specs.Frames.{panel_output};

use output::Unwritten;
use std::io::Write;

// Passes on the output for a text; the answer is how many bytes it has.
fn answer<W: Write>(writer: &mut W, text: &[u8]) -> Result<usize, Unwritten>
    ensures { IfOk result (λ n. n ≡ length (panel_output text.now)) }
{
    output::answer_from(writer, text, &sheet::unopened())
}

// Where a read fails nothing is written. Of a text that is too long only as much is read as shows it.
fn main(rt: HostRuntime) {
    let mut text = [0; 65536];
    let Ok(n) = input::read_input(&mut rt.stdin(), &mut text) else {
        return;
    };
    let _written = answer(&mut rt.stdout(), &text[..n]);
}
