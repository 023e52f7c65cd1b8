// Standard input, or the file that a program's argument names, read into a buffer.
#![tactic(auto)]

ghost use Rattle.std.specs.Prelude.{◌≡◌, ◌≤◌, length, IfOk, IfErr};

use std::env::FillError;
use std::io::{ErrorKind, Read};
use std::rt::{Env, Files};
use std::{fs, io, str};

// Input that could not be read to its end: how many bytes stand in the buffer, and why no more do.
#[derive(Clone, Copy)]
pub struct Unread {
    pub len: usize,
    pub error: io::Error,
}

// Reads standard input, or an opened file, until the end or until the buffer is full; the answer is how many bytes stand in the buffer. A failed read is not
// taken for the end: what follows it is not known.
pub fn read_input<R: Read>(reader: &mut R, buffer: &mut [u8]) -> Result<usize, Unread>
    ensures length { length buffer.new ≡ length buffer.old }
    ensures within { IfOk result (λ n. n ≤ length buffer.old) }
    ensures unread { IfErr result (λ e. e.len ≤ length buffer.old) }
{
    let mut len = 0;
    while len < buffer.len() {
        let n = reader
            .read(&mut buffer[len..])
            .map_err(|error| Unread { len, error })?;
        if n == 0 {
            break;
        }
        len += n;
    }
    Ok(len)
}

// Nothing was read, and that is not the end of an input.
fn none_read(error: io::Error) -> Unread
    ensures { result.len ≡ 0 }
{
    Unread { len: 0, error }
}

// Whether the program has an argument of this number.
fn has_argument<R: Env>(rt: &R, number: usize) -> bool {
    let mut nothing = [0u8; 0];
    !matches!(rt.arg(number, &mut nothing), Err(FillError::NotPresent))
}

// Reads the file that the program's argument names. Without an argument, with more than one, or where the file cannot be opened, nothing is read, and that
// is an error; std opens files by text, so one whose name is no UTF-8 cannot be.
pub fn read_named<R: Env + Files>(rt: &R, buffer: &mut [u8]) -> Result<usize, Unread>
    ensures length { length buffer.new ≡ length buffer.old }
    ensures within { IfOk result (λ n. n ≤ length buffer.old) }
    ensures unread { IfErr result (λ e. e.len ≤ length buffer.old) }
{
    let mut path = [0u8; 4096];
    let n = rt
        .arg(1, &mut path)
        .map_err(|_| none_read(ErrorKind::InvalidInput.into()))?;
    if has_argument(rt, 2) {
        return Err(none_read(ErrorKind::InvalidInput.into()));
    }
    let name = str::from_utf8(&path[..n]).map_err(|_| none_read(
        ErrorKind::InvalidFilename.into(),
    ))?;
    let mut file = fs::open(rt, name).map_err(none_read)?;
    read_input(&mut file, buffer)
}
