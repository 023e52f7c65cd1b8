// The tally of a run.
#![tactic(auto)]

ghost use Rattle.std.specs.Prelude.{◌≡◌};
ghost use Rattle.tally.specs.Tallies.{more, tallied, three_bytes, tally_bytes};

// The greatest count, and the greatest number of three bytes.
const CAP: u32 = 16777215;

// The bytes of a tally's line: EE, three counts of three bytes, and the last refusal.
pub const TALLY_BYTES: usize = 11;

// How many lines there were, how many of them were accepted and refused, and the last refusal's number, 0 if none: the record is C's too, which has no
// Option.
#[repr(C)]
#[derive(Clone, Copy, Default)]
pub struct Tally {
    pub lines: u32,
    pub accepted: u32,
    pub refused: u32,
    pub last: u8,
}

// One more, unless the count is full. No `min`, since a count above the greatest one, which C may lend, stays.
pub fn more(n: u32) -> u32
    ensures { result ≡ more n }
{
    if n < CAP { n + 1 } else { n }
}

// The tally after a line that was refused with this number, or accepted, where it is 0: a number, as in the record.
pub fn tallied(t: Tally, refusal: u8) -> Tally
    ensures { result ≡ tallied t refusal }
{
    let lines = more(t.lines);
    if refusal == 0 {
        Tally {
            lines,
            accepted: more(t.accepted),
            ..t
        }
    } else {
        Tally {
            lines,
            refused: more(t.refused),
            last: refusal,
            ..t
        }
    }
}

// The same, in the record that the caller lends.
pub fn tally_line(t: &mut Tally, refusal: u8)
    ensures { t.new ≡ tallied t.old refusal }
{
    *t = tallied(*t, refusal);
}

// The same, on a record by value, which is lent.
pub fn tallied_line(t: Tally, refusal: u8) -> Tally
    ensures { result ≡ tallied t refusal }
{
    let mut u = t;
    tally_line(&mut u, refusal);
    u
}

// The three bytes of a count, most significant first; of one above the greatest, those of the greatest.
fn three_bytes(n: u32) -> [u8; 3]
    ensures { result ≡ three_bytes n }
{
    let [_, high, middle, low] = n.min(CAP).to_be_bytes();
    [high, middle, low]
}

// The tally as the bytes of its line.
pub fn tally_bytes(t: Tally) -> [u8; TALLY_BYTES]
    ensures { result ≡ tally_bytes t }
{
    let lines = three_bytes(t.lines);
    let accepted = three_bytes(t.accepted);
    let refused = three_bytes(t.refused);
    [
        0xEE,
        lines[0],
        lines[1],
        lines[2],
        accepted[0],
        accepted[1],
        accepted[2],
        refused[0],
        refused[1],
        refused[2],
        t.last,
    ]
}
