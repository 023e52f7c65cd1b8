// The program that goes on from a saved panel: reads it from the file that its argument names, writes the reply, and, where it was taken in, answers the
// text on standard input from there on.
#![tactic(auto)]

ghost use Rattle.std.specs.Prelude.{◌≡◌, ◌+◌, List, ℕ, length, true, false, is_err, IfOk, IfErr};
ghost use Rattle.panel.specs.Answers.{reply_bytes};
ghost use Rattle.hexadecimal.specs.Hex.{line_of};
ghost use Rattle.sheet.specs.Sheets.{unopened};
ghost use Rattle.loading.specs.Loaded.{answer_of};
ghost use Rattle.images.specs.Reading.{read};
ghost use Rattle.sessions.specs.Sessions.{resumed_output};

use loading::load;
use output::{Unwritten, answer_from};
use panel::Reply;
use sessions::put_answer;
use sheet::{Sheet, unopened};
use std::io::{Read, Write};

// Passes on the line of the reply to a reading.
fn send<W: Write>(writer: &mut W, saved: &[u8], line: &[u8]) -> Result<usize, Unwritten>
    requires { line.now ≡ line_of (read unopened saved.now).reply }
    ensures written { IfOk result (λ n. n ≡ length line.now) }
    ensures unwritten { IfErr result (λ e. e.len ≡ length line.now) }
{
    let len = line.len();
    writer
        .write_all(line)
        .map_err(|error| Unwritten { len, error })?;
    Ok(len)
}

// Passes on the reply to the reading of a saved text.
fn tell<W: Write>(writer: &mut W, saved: &[u8], reply: Reply) -> Result<usize, Unwritten>
    requires { reply_bytes reply ≡ (read unopened saved.now).reply }
    ensures written { IfOk result (λ n. n ≡ length (line_of (read unopened saved.now).reply)) }
    ensures unwritten { IfErr result (λ e. e.len ≡ length (line_of (read unopened saved.now).reply)) }
{
    let mut out = [0; 16];
    let n = put_answer(&mut out, reply);
    send(writer, saved, &out[..n])
}

// Passes on the reply to a reading that is refused: it is all that is written, whatever the text.
fn refuse<W: Write>(writer: &mut W, saved: &[u8], refusal: Reply) -> Result<usize, Unwritten>
    requires { (reply_bytes refusal ≡ (read unopened saved.now).reply) × (is_err refusal ≡ true) }
    ensures written { (text : List ℕ) → IfOk result (λ n. n ≡ length (resumed_output saved.now text)) }
    ensures unwritten { (text : List ℕ) → IfErr result (λ e. e.len ≡ length (resumed_output saved.now text)) }
{
    tell(writer, saved, refusal)
}

// Passes on the reply to a reading that is taken in, and the output of a text from there on; the answer counts the bytes behind the reply's line.
// The contract rules out, for instance, a text answered from an unopened panel (must-fail: answered_from_unopened).
fn answer<W: Write>(
    writer: &mut W,
    saved: &[u8],
    s: &Sheet,
    reply: Reply,
    text: &[u8],
) -> Result<usize, Unwritten>
    requires { (answer_of s.now reply ≡ read unopened saved.now) × (is_err reply ≡ false) }
    ensures { IfOk result (λ n. length (line_of (read unopened saved.now).reply) + n ≡ length (resumed_output saved.now text.now)) }
{
    tell(writer, saved, reply)?;
    answer_from(writer, text, s)
}

// Goes on from a saved panel. Standard input is not read where the panel is refused; where a read fails nothing is written.
// The contracts of what it calls rule out, for instance, a text answered after a refused reading (must-fail: answered_where_refused).
fn resume<R: Read, W: Write>(stdin: &mut R, stdout: &mut W, saved: &[u8]) {
    let mut s = unopened();
    let reply = load(saved, &mut s);
    if reply.is_err() {
        let _told = refuse(stdout, saved, reply);
        return;
    }
    let mut text = [0; 65536];
    let Ok(n) = input::read_input(stdin, &mut text) else {
        return;
    };
    let _written = answer(stdout, saved, &s, reply, &text[..n]);
}

// Where the file cannot be read nothing is written.
fn main(rt: HostRuntime) {
    let mut saved = [0; 65536];
    let Ok(n) = input::read_named(&rt, &mut saved) else {
        return;
    };
    resume(&mut rt.stdin(), &mut rt.stdout(), &saved[..n]);
}
