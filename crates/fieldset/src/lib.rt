// A set of fields as one u64, bit i for field i.
#![tactic(auto)]

ghost use Rattle.std.specs.Prelude.{◌≡◌, ◌≤◌, ◌<◌};
ghost use Rattle.std.specs.Iterator.{at_most};
ghost use Rattle.fieldset.specs.Rounds.{Takes};
ghost use Rattle.fieldset.specs.Fields.{member, with, without, union, meets, within, only, below, lowest_of, First, minus, size};

// Whether the field i is in the set m.
pub fn member(m: u64, i: usize) -> bool
    requires { i < 64 }
    ensures { result ≡ member m i }
{
    (m >> i) & 1 == 1
}

// The set of the one field i.
pub fn only(i: usize) -> u64
    requires { i < 64 }
    ensures { result ≡ only i }
{
    1u64 << i
}

// The set m and the field i.
pub fn with(m: u64, i: usize) -> u64
    requires { i < 64 }
    ensures { result ≡ with m i }
{
    m | (1 << i)
}

// The set m but for the field i.
pub fn without(m: u64, i: usize) -> u64
    requires { i < 64 }
    ensures { result ≡ without m i }
{
    m & !(1 << i)
}

// The fields of a and of b.
pub fn union(a: u64, b: u64) -> u64
    ensures { result ≡ union a b }
{
    a | b
}

// The fields of a that are not in b.
pub fn minus(a: u64, b: u64) -> u64
    ensures { result ≡ minus a b }
{
    a & !b
}

// Whether some field is in a and in b.
pub fn meets(a: u64, b: u64) -> bool
    ensures { result ≡ meets a b }
{
    a & b != 0
}

// Whether every field of a is in b.
pub fn within(a: u64, b: u64) -> bool
    ensures { result ≡ within a b }
{
    a & !b == 0
}

// All fields below n.
pub fn below(n: usize) -> u64
    requires { n ≤ 64 }
    ensures { result ≡ below n }
{
    if n < 64 { (1 << n) - 1 } else { u64::MAX }
}

// The lowest-numbered field of a set; 64 for the empty set.
pub fn lowest(m: u64) -> usize
    ensures { result ≡ lowest_of m }
{
    u64::trailing_zeros(m) as usize
}

// The same of a set that is not empty, so that the field is in it.
pub fn first(m: u64) -> usize
    requires { 0 < m }
    ensures { First m result }
{
    lowest(m)
}

// The set m but for its lowest-numbered field.
pub fn without_lowest(m: u64) -> u64
    requires { 0 < m }
    ensures { result ≡ without m (lowest_of m) }
{
    m & (m - 1)
}

// How many fields the set has.
pub fn size(m: u64) -> usize
    ensures { result ≡ size m }
{
    u64::count_ones(m) as usize
}

// The fields of a set, one after the other, from the lowest-numbered on.
#[derive(Clone, Copy)]
pub struct Members {
    pub rest: u64,
}

// The fields of the set m, for a `for`.
// The contract rules out, for instance, the fields that are not in it and a field that comes again (must-fail: fields_of_the_others,
// next_leaves_the_field).
pub fn fields_of(m: u64) -> Members
    ensures { result.rest ≡ m }
{
    Members { rest: m }
}

impl Iterator for Members {
    type Item = usize;

    ghost next_gives = { λ old r new. Takes old.rest r new.rest };

    ghost remaining = { λ s. at_most s.rest };

    fn next(&mut self) -> Option<usize> {
        if self.rest == 0 {
            return None;
        }
        let f = first(self.rest);
        self.rest = without_lowest(self.rest);
        Some(f)
    }
}
