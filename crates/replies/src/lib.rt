// Replies: a refusal's number, the refusal that a reply tells, and their lines.
#![tactic(auto)]

ghost use Rattle.std.specs.Prelude.{◌≡◌, ◌∷◌, ◌+◌, ◌*◌, ◌^◌, ◌≤◌, ◌<◌, length};
ghost use Rattle.std.proofs.lemmas.List.Edits.{sets};
ghost use Rattle.fieldset.specs.Tables.{at};
ghost use Rattle.panel.specs.Answers.{refusal_bytes, reply_bytes, plan_rest};
ghost use Rattle.hexadecimal.specs.Hex.{line_of};
ghost use Rattle.frames.specs.Texts.{refusal_of};
ghost use Rattle.replies.specs.Replies.{rest_of, whole_reply};

use frames::Command;
use panel::{ROWS, Refusal, Reply};

// The characters of the longest reply's line: a plan of 64 fields has 2 + 3 * 64 bytes, and the line an LF.
pub const LONGEST: usize = 2 * (2 + ROWS) + 1;

// The number of a refusal.
fn number_of(r: Refusal) -> u8
    ensures { result ≡ at (refusal_bytes r) 0 }
{
    match r {
        Refusal::BadHex(_) => 1,
        Refusal::BadFrame => 2,
        Refusal::AlreadyOpen => 3,
        Refusal::NotOpen => 4,
        Refusal::BadSize => 5,
        Refusal::BadLink => 6,
        Refusal::NoSuchField => 7,
        Refusal::LinkTaken => 8,
        Refusal::NoSuchLink => 9,
        Refusal::Conflict => 10,
        Refusal::Loop => 11,
        Refusal::TextTooLong => 12,
        Refusal::OutOfRange => 13,
        Refusal::FieldDriven => 14,
        Refusal::BadFormula => 15,
        Refusal::BadHeader => 16,
        Refusal::UnclearUnit => 17,
        Refusal::FlowCount => 18,
        Refusal::BadImage => 19,
        Refusal::UnknownVersion => 20,
        Refusal::Unfit => 21,
    }
}

// The number of the refusal that a reply tells; 0 for none.
#[tactic(auto, unfolding(frames::specs::Texts::refusal_of))]
pub fn refusal_of(reply: Reply) -> u8
    ensures { result ≡ refusal_of (reply_bytes reply) }
{
    match reply {
        Ok(_) => 0,
        Err(r) => number_of(r),
    }
}

// The bytes of a plan's rows, by its reply.
fn rows_of(reply: Reply) -> usize
    ensures { result ≡ plan_rest reply }
{
    match reply {
        Ok(n) => 3 * usize::from(n),
        Err(_) => 0,
    }
}

// How many bytes of rows the reply to a command has: three for each field of a plan.
fn rest_of(command: Command, reply: Reply) -> usize
    ensures { result ≡ rest_of command reply }
{
    match command {
        Command::Plan => rows_of(reply),
        _ => 0,
    }
}

// The line of a refusal at a position, as far as it fits; the position behind it.
pub fn put_refusal(out: &mut [u8], at: usize, r: Refusal) -> usize
    requires { at + length (line_of (0xFF ∷ refusal_bytes r)) < 2 ^ 64 }
    ensures out_after { out.new ≡ sets out.old at (line_of (0xFF ∷ refusal_bytes r)) }
    ensures value { result ≡ at + length (line_of (0xFF ∷ refusal_bytes r)) }
{
    let number = number_of(r);
    match r {
        // the offset, most significant byte first
        Refusal::BadHex(offset) => {
            writing::put_line(out, at, 0xFF, number, &offset.to_be_bytes())
        }
        _ => writing::put_line(out, at, 0xFF, number, &[]),
    }
}

// The line of the reply to a command at a position, as far as it fits; the position behind it.
pub fn put_reply(out: &mut [u8], at: usize, command: Command, reply: Reply, rows: &[u8]) -> usize
    requires { (rest_of command reply ≤ length rows.now) × (at + length (line_of (whole_reply command reply rows.now)) < 2 ^ 64) }
    ensures out_after { out.new ≡ sets out.old at (line_of (whole_reply command reply rows.now)) }
    ensures value { result ≡ at + length (line_of (whole_reply command reply rows.now)) }
{
    match reply {
        Ok(m) => {
            let count = rest_of(command, reply);
            writing::put_line(out, at, 0x00, m, &rows[..count])
        }
        Err(r) => put_refusal(out, at, r),
    }
}
