// The import program: reads a file of the European Data Format on standard input, and writes the lines of a panel for its airflow signals.
#![tactic(auto)]

ghost use Rattle.std.specs.Prelude.{◌≡◌, ◌≤◌, length, take};
ghost use Rattle.edf.specs.Header.{header_length};
ghost use Rattle.importing.specs.Imports.{import_output};

use std::io::{Read, Write};

// Passes on the output for a file, whole; the answer is how many bytes it has.
fn send<W: Write>(writer: &mut W, file: &[u8], output: &[u8]) -> usize
    requires { output.now ≡ import_output file.now }
    ensures { result ≡ length output.now }
{
    let _written = writer.write_all(output);
    output.len()
}

// Passes on the output for the first `len` bytes of a buffer, in which the longest header has room: what a longer file has behind them plays no part.
// The contract rules out, for instance, a part of the output, room for one byte too few and another part of the buffer (must-fail: first_line_only,
// buffer_one_byte_short, nothing_of_the_buffer).
fn answer<W: Write>(writer: &mut W, buffer: &[u8], len: usize) -> usize
    requires { (len ≤ length buffer.now) × (header_length 254 ≤ length buffer.now) }
    ensures { result ≡ length (import_output (take len buffer.now)) }
{
    let file = &buffer[..len];
    let mut out = [0u8; importing::LONGEST];
    let n = importing::import(file, &mut out);
    send(writer, file, &out[..n])
}

// Passes on the output for the file that is read, or for as much of it as the buffer holds. Where a read fails nothing is written.
fn answer_input<R: Read, W: Write>(reader: &mut R, writer: &mut W, buffer: &mut [u8])
    requires { header_length 254 ≤ length buffer.old }
{
    let Ok(len) = input::read_input(reader, buffer) else {
        return;
    };
    answer(writer, buffer, len);
}

fn main(rt: HostRuntime) {
    let mut buffer = [0u8; 65536];
    answer_input(&mut rt.stdin(), &mut rt.stdout(), &mut buffer);
}
