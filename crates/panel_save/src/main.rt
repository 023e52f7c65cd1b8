// The program that saves: reads a text on standard input, and writes the saved panel that its lines leave.
#![tactic(auto)]

ghost use Rattle.std.specs.Prelude.{◌≡◌, length};
ghost use Rattle.sessions.specs.Sessions.{saved_output};

use saving::LONGEST;
use sessions::save_after;
use std::io::Write;

// Passes on the output for a text, whole; the answer is how many bytes it has.
fn send<W: Write>(writer: &mut W, text: &[u8], output: &[u8]) -> usize
    requires { output.now ≡ saved_output text.now }
    ensures { result ≡ length output.now }
{
    let _written = writer.write_all(output);
    output.len()
}

// Passes on the saved panel after a text, or the line of a refusal.
// The contract rules out, for instance, a part of it and room for one byte too few (must-fail: first_line_only, buffer_one_byte_short).
fn answer<W: Write>(writer: &mut W, text: &[u8]) -> usize
    ensures { result ≡ length (saved_output text.now) }
{
    let mut out = [0; LONGEST];
    let n = save_after(text, &mut out);
    send(writer, text, &out[..n])
}

// Where a read fails nothing is written. Of a text that is too long only as much is read as shows it.
fn main(rt: HostRuntime) {
    let mut text = [0; 65536];
    let Ok(n) = input::read_input(&mut rt.stdin(), &mut text) else {
        return;
    };
    answer(&mut rt.stdout(), &text[..n]);
}
