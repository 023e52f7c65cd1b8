// Formulas of links: which ones a link can have, and what a setter sets its field to.
#![tactic(auto)]

ghost use Rattle.std.specs.Prelude.{◌≡◌, ◌<◌};
ghost use Rattle.values.specs.Limits.{limited_values, limited, value_at};
ghost use Rattle.formulas.specs.Formulas.{computed, Usable, accepted};

use fieldset::{lowest, member, size, without};
use values::{limit, minus, ratio, sum};

// A formula: a ratio p to q of two fields, or a sum in a field.
#[derive(Clone, Copy, PartialEq, Eq)]
pub enum Formula {
    Ratio(u16, u16),
    Sum(u8),
}

// A link's formula, if it has one: a link without keeps the value of the field that it sets.
pub type Rule = Option<Formula>;

// What a setter with this formula sets field f to, from the fields that it reads.
pub fn compute(formula: Rule, f: usize, reads: u64, values: &[i32; 64]) -> Option<i32>
    requires { (f < 64) × Usable formula reads }
    ensures { limited_values result ≡ limited (computed formula reads f (value_at values.now)) }
{
    match formula {
        None => Some(values[f]),
        Some(Formula::Ratio(p, q)) => {
            let g = lowest(reads);
            if g < f {
                ratio(values[g], p, q)
            } else {
                ratio(values[g], q, p)
            }
        }
        Some(Formula::Sum(s)) => {
            let g = usize::from(s);
            if f == g {
                limit(sum(reads, values))
            } else {
                limit(minus(values[g], sum(without(reads, g), values)))
            }
        }
    }
}

// Whether a link over these covered fields can be given the formula.
#[tactic(auto, unfolding(crate::specs::Formulas::accepted))]
pub fn accepts(formula: Rule, covered: u64) -> bool
    ensures { result ≡ accepted formula covered }
{
    match formula {
        None => false,
        Some(Formula::Ratio(p, q)) => { 0 < p && 0 < q && size(covered) == 2 }
        Some(Formula::Sum(s)) => {
            let g = usize::from(s);
            g < 64 && member(covered, g) && 2 <= size(covered)
        }
    }
}
