// Bytes written as lines of hexadecimal, as far as they fit a buffer.
#![tactic(auto)]

ghost use Rattle.std.specs.Prelude.{◌≡◌, ◌∷◌, [], ◌+◌, ◌*◌, ◌^◌, ◌<◌, ◌≤◌, length, set};
ghost use Rattle.std.proofs.lemmas.List.Edits.{sets};
ghost use Rattle.hexadecimal.specs.Hex.{char_of, hex_of, line_of};

// The digit of a value.
fn char_of(x: u8) -> u8
    requires { x < 16 }
    ensures { result ≡ char_of x }
{
    if x < 10 {
        x + b'0'
    } else {
        x + hexadecimal::LETTER
    }
}

// x at a position, where there is one.
pub fn store(out: &mut [u8], at: usize, x: u8)
    ensures { out.new ≡ set out.old at x }
{
    if at < out.len() {
        out[at] = x;
    }
}

// A byte's two digits.
fn digits_of(b: u8) -> [u8; 2]
    ensures { result ≡ hex_of (b ∷ []) }
{
    [char_of(b / 16), char_of(b % 16)]
}

// A byte as two digits at a position, as far as they fit.
pub fn put(out: &mut [u8], at: usize, b: u8)
    requires { at + 1 < 2 ^ 64 }
    ensures { out.new ≡ sets out.old at (hex_of (b ∷ [])) }
{
    let [high, low] = digits_of(b);
    store(out, at, high);
    store(out, at + 1, low);
}

// Bytes as digits at a position, all of which fit: without a test for each store the compiler makes many digits at once.
fn put_all(out: &mut [u8], at: usize, bytes: &[u8])
    requires { at + 2 * length bytes.now ≤ length out.old }
    ensures { out.new ≡ sets out.old at (hex_of bytes.now) }
{
    for (i, &b) in bytes.iter().enumerate() {
        let [high, low] = digits_of(b);
        out[at + 2 * i] = high;
        out[at + 2 * i + 1] = low;
    }
}

// Bytes as digits at a position, as far as they fit.
pub fn put_bytes(out: &mut [u8], at: usize, bytes: &[u8])
    requires { at + 1 + 2 * length bytes.now < 2 ^ 64 }
    ensures { out.new ≡ sets out.old at (hex_of bytes.now) }
{
    if at + 2 * bytes.len() <= out.len() {
        put_all(out, at, bytes);
    } else {
        for (i, &b) in bytes.iter().enumerate() {
            put(out, at + 2 * i, b);
        }
    }
}

// Two bytes and further ones as a line, with its LF, at a position, as far as it fits; the position behind it.
pub fn put_line(out: &mut [u8], at: usize, a: u8, b: u8, rest: &[u8]) -> usize
    requires { at + 5 + 2 * length rest.now < 2 ^ 64 }
    ensures out_after { out.new ≡ sets out.old at (line_of (a ∷ b ∷ rest.now)) }
    ensures value { result ≡ at + length (line_of (a ∷ b ∷ rest.now)) }
{
    let n = rest.len();
    put(out, at, a);
    put(out, at + 2, b);
    put_bytes(out, at + 4, rest);
    store(out, at + 4 + 2 * n, b'\n');
    at + 5 + 2 * n
}
