// Writes the saved text of a sheet into a lent buffer, as many of its first bytes as fit.
#![tactic(auto)]

ghost use Rattle.std.specs.Prelude.{◌≡◌, [], ◌∷◌, ◌≤◌, ◌<◌, ◌+◌, ◌^◌, length, position, nat_eq};
ghost use Rattle.std.proofs.lemmas.List.Edits.{sets};
ghost use Rattle.hexadecimal.specs.Hex.{hex_of, lf};
ghost use Rattle.frames.specs.Texts.{written};
ghost use Rattle.images.specs.Images.{gather, field_at, stay_order, field_byte, field_piece, field_bytes, standing_byte, link_frames, link_piece, formula_frames, formula_piece, value_frames, value_piece, image_of};
ghost use Rattle.saving.specs.Wrote.{Wrote};
ghost use Rattle.saving.specs.Saves.{SavedAs};

use fieldset::member;
use formulas::{Formula, Rule};
use panel::{Link, Standing};
use sheet::Sheet;
use values::bits_of;
use writing::{put, put_bytes, put_line, store};

// The length of the longest text of a sheet.
pub const LONGEST: usize = 5322;

// The version that is written.
pub const VERSION: u8 = 1;

// A byte as two digits; the position behind them.
fn put_byte(out: &mut [u8], at: usize, b: u8) -> usize
    requires { at + 2 < 2 ^ 64 }
    ensures { Wrote out.old at out.new result (hex_of (b ∷ [])) }
{
    put(out, at, b);
    at + 2
}

// The LF of a line; the position behind it.
fn put_lf(out: &mut [u8], at: usize) -> usize
    requires { at + 1 < 2 ^ 64 }
    ensures { Wrote out.old at out.new result (lf ∷ []) }
{
    store(out, at, b'\n');
    at + 1
}

// The first field whose stay stands at the place p.
fn first_at(place: &[u8], p: usize) -> Option<usize>
    ensures { result ≡ position (λ q. nat_eq q p) place.now }
{
    place.iter().position(|q| usize::from(*q) == p)
}

// The field of the stay at a place; 64 where there is none.
pub fn field_at(place: &[u8; 64], n: usize, p: usize) -> u8
    requires { n ≤ 64 }
    ensures { result ≡ field_at place.now n p }
{
    match first_at(&place[..n], p) {
        Some(f) => f as u8,
        None => 64,
    }
}

// The line of the stays' order.
fn put_order(out: &mut [u8], at: usize, place: &[u8; 64], n: usize) -> usize
    requires { (at < 2 ^ 20) × (n ≤ 64) }
    ensures { Wrote out.old at out.new result (written ((0x0B ∷ stay_order place.now n) ∷ [])) }
{
    let mut q = put_byte(out, at, 0x0B);
    for p in 0..n {
        q = put_byte(out, q, field_at(place, n, p));
    }
    put_lf(out, q)
}

// A covered field, with bit 7 set if it is an output.
fn field_byte(outputs: u64, f: usize) -> u8
    requires { f < 64 }
    ensures { result ≡ field_byte outputs f }
{
    let b = f as u8;
    if member(outputs, f) { b + 128 } else { b }
}

// The field byte of a field, if it is covered.
fn put_field(out: &mut [u8], at: usize, covered: u64, outputs: u64, f: usize) -> usize
    requires { (at + 2 < 2 ^ 64) × (f < 64) }
    ensures { Wrote out.old at out.new result (hex_of (field_piece covered outputs f)) }
{
    if member(covered, f) {
        put_byte(out, at, field_byte(outputs, f))
    } else {
        at
    }
}

// The field bytes of a link.
fn put_fields(out: &mut [u8], at: usize, covered: u64, outputs: u64) -> usize
    requires { at < 2 ^ 40 }
    ensures { Wrote out.old at out.new result (hex_of (field_bytes covered outputs)) }
{
    let mut q = at;
    for f in 0..64 {
        q = put_field(out, q, covered, outputs, f);
    }
    q
}

// The field that a link holds, or FF.
fn standing_byte(s: Standing) -> u8
    ensures { result ≡ standing_byte s }
{
    match s {
        Standing::Waiting => 0xFF,
        Standing::Holding(f) => f,
    }
}

// The line of the link of a number, if it is in use.
fn put_link(out: &mut [u8], at: usize, i: usize, l: &Link) -> usize
    requires { (at < 2 ^ 32) × (i < 128) }
    ensures { Wrote out.old at out.new result (written (link_frames i l.now)) }
{
    if !l.used {
        return at;
    }
    let start = [0x0C, i as u8, l.level, standing_byte(l.standing)];
    put_bytes(out, at, &start);
    let q = put_fields(out, at + 8, l.covered, l.outputs);
    put_lf(out, q)
}

// The lines of all links.
fn put_links(out: &mut [u8], at: usize, links: &[Link; 128]) -> usize
    requires { at < 2 ^ 20 }
    ensures { Wrote out.old at out.new result (written (gather (link_piece links.now) 128)) }
{
    let mut q = at;
    for (i, l) in links.iter().enumerate() {
        q = put_link(out, q, i, l);
    }
    q
}

// The line of the formula of a link, if it has one.
fn put_formula(out: &mut [u8], at: usize, i: usize, formula: Rule) -> usize
    requires { (at < 2 ^ 32) × (i < 128) }
    ensures { Wrote out.old at out.new result (written (formula_frames i formula)) }
{
    match formula {
        None => at,
        Some(Formula::Ratio(p, q)) => {
            let rest = [
                0x01,
                (p / 256) as u8,
                (p % 256) as u8,
                (q / 256) as u8,
                (q % 256) as u8,
            ];
            put_line(out, at, 0x08, i as u8, &rest)
        }
        Some(Formula::Sum(f)) => { put_line(out, at, 0x08, i as u8, &[0x02, f]) }
    }
}

// The lines of all formulas.
fn put_formulas(out: &mut [u8], at: usize, formulas: &[Rule; 128]) -> usize
    requires { at < 2 ^ 20 }
    ensures { Wrote out.old at out.new result (written (gather (formula_piece formulas.now) 128)) }
{
    let mut q = at;
    for (i, formula) in formulas.iter().enumerate() {
        q = put_formula(out, q, i, *formula);
    }
    q
}

// The line of the value of a field, if it is not zero.
#[tactic(auto, using(crate::proofs::Writing::wrote_none), unfolding(frames::specs::Texts::written))]
fn put_value(out: &mut [u8], at: usize, f: usize, bits: u32) -> usize
    requires { (at < 2 ^ 32) × (f < 64) }
    ensures { Wrote out.old at out.new result (written (value_frames f bits)) }
{
    if bits == 0 {
        return at;
    }
    put_line(out, at, 0x0D, f as u8, &bits.to_be_bytes())
}

// The lines of the values of n fields.
fn put_values(out: &mut [u8], at: usize, values: &[i32; 64], n: usize) -> usize
    requires { (at < 2 ^ 20) × (n ≤ 64) }
    ensures { Wrote out.old at out.new result (written (gather (value_piece values.now) n)) }
{
    let mut q = at;
    for (f, x) in values[..n].iter().enumerate() {
        q = put_value(out, q, f, bits_of(*x));
    }
    q
}

// The whole text, as many of its first bytes as fit; its length.
// The contract rules out, for instance, another byte than FF for a waiting link and a line for a value that is zero (must-fail: waiting_written_as_fe,
// zero_value_written).
pub fn write(out: &mut [u8], version: u8, s: &Sheet) -> usize
    requires { s.now.panel.size ≤ 64 }
    ensures out_after { out.new ≡ sets out.old 0 (image_of version s.now) }
    ensures value { result ≡ length (image_of version s.now) }
{
    let n = s.panel.size;
    let a = put_line(out, 0, 0x0A, version, &[n as u8]);
    let b = put_order(out, a, &s.panel.place, n);
    let c = put_links(out, b, &s.panel.links);
    let d = put_formulas(out, c, &s.formulas);
    put_values(out, d, &s.values, n)
}

// The text of an open panel in the lent buffer, as many of its first bytes as fit, and its length; a panel that is not open has none, and nothing is
// written.
// The contract rules out, for instance, the text of a panel that is not open (must-fail: unopened_saved).
#[tactic(auto, using(crate::proofs::Writing::saved_none))]
pub fn save(s: &Sheet, out: &mut [u8]) -> Option<usize>
    requires { s.now.panel.size ≤ 64 }
    ensures { SavedAs s.now out.old out.new result }
{
    if s.panel.size == 0 {
        return None;
    }
    Some(write(out, VERSION, s))
}
