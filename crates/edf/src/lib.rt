// The header of a European Data Format file: how many of its signals are airflow.
#![tactic(auto)]

ghost use Rattle.std.specs.Prelude.{◌≡◌, ◌≤◌, length, true, false, MatchOption};
ghost use Rattle.fieldset.specs.Numbers.{count, any};
ghost use Rattle.edf.specs.Texts.{dropped, is_flow, is_unclear};
ghost use Rattle.edf.specs.Header.{header_length, unit_text, flows_of, refusal_for};
ghost use Rattle.edf.specs.Answers.{number_values, number_read, signals_read, unit_number, unit_read, header_bytes, header_read};

use panel::Refusal;

// The width of a unit, and of the number of bytes in the header.
const WIDTH: usize = 8;

// Where the number of bytes in the header stands.
const LENGTH_AT: usize = 184;

// Where the number of signals stands.
const COUNT_AT: usize = 252;

// The bytes of a header in front of those of the signals, and the bytes of each signal.
const BLOCK: usize = 256;

// The bytes of each signal in front of the units of all.
const BEFORE_UNITS: usize = 96;

// The greatest number of signals.
const SIGNAL_LIMIT: usize = 254;

// The greatest number of flows.
const FLOW_LIMIT: usize = 32;

// What a unit is: one of airflow, one of these but for letter case, or another.
#[derive(Clone, Copy)]
enum Unit {
    Flow,
    Unclear,
    Other,
}

// A header field, trailing spaces dropped.
fn trimmed(field: &[u8]) -> &[u8]
    ensures { result.now ≡ dropped field.now }
{
    let mut text = field;
    while let [front @ .., b' '] = text {
        text = front;
    }
    text
}

// A plain number: one or more digits, then only spaces.
fn read_number(field: &[u8]) -> Option<usize>
    requires { length field.now ≤ 8 }
    ensures { number_values result ≡ number_read field.now }
{
    let digits = trimmed(field);
    if digits.is_empty() {
        return None;
    }
    let mut n = 0;
    for c in digits {
        if !c.is_ascii_digit() {
            return None;
        }
        n = 10 * n + usize::from(*c - b'0');
    }
    Some(n)
}

// What a unit is.
fn read_unit(field: &[u8]) -> Unit
    ensures { unit_number result ≡ unit_read field.now }
{
    let unit = trimmed(field);
    if unit == b"L/min".as_slice() || unit == b"L/s".as_slice() {
        Unit::Flow
    } else if unit.eq_ignore_ascii_case(b"L/min") || unit.eq_ignore_ascii_case(b"L/s") {
        Unit::Unclear
    } else {
        Unit::Other
    }
}

// How many of n signals are airflow; none where a unit is unclear.
fn read_units(file: &[u8], n: usize) -> Option<usize>
    requires { header_length n ≤ length file.now }
    ensures { MatchOption result (any (λ j. is_unclear (unit_text file.now n j)) n ≡ true)
        (λ k. (any (λ j. is_unclear (unit_text file.now n j)) n ≡ false) × (k ≡ count (λ j. is_flow (unit_text file.now n j)) n)) }
{
    let start = BLOCK + n * BEFORE_UNITS;
    let mut flows = 0;
    for unit in file[start..start + n * WIDTH].chunks_exact(WIDTH) {
        match read_unit(unit) {
            Unit::Flow => flows += 1,
            Unit::Unclear => return None,
            Unit::Other => {}
        }
    }
    Some(flows)
}

// The number of signals; none where the header is refused with BadHeader.
fn signals(file: &[u8]) -> Option<usize>
    ensures { number_values result ≡ signals_read file.now }
{
    if file.len() < BLOCK {
        return None;
    }
    let n = read_number(&file[COUNT_AT..BLOCK])?;
    if !(1..=SIGNAL_LIMIT).contains(&n) {
        return None;
    }
    let length = BLOCK * (n + 1);
    if file.len() < length || read_number(&file[LENGTH_AT..LENGTH_AT + WIDTH]) != Some(length) {
        return None;
    }
    Some(n)
}

// How many signals of a file are airflow, or why it is refused.
// The contract rules out, for instance, a 33rd flow and a unit with a space before it (must-fail: flow_33_taken, leading_spaces_dropped).
pub fn read_header(file: &[u8]) -> Result<u8, Refusal>
    ensures { header_bytes result ≡ header_read (refusal_for file.now) (flows_of file.now) }
{
    let n = signals(file).ok_or(Refusal::BadHeader)?;
    let flows = read_units(file, n).ok_or(Refusal::UnclearUnit)?;
    if !(1..=FLOW_LIMIT).contains(&flows) {
        return Err(Refusal::FlowCount);
    }
    Ok(flows as u8)
}
