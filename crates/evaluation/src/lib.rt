// The evaluation of a whole plan.
#![tactic(auto)]

ghost use Rattle.std.specs.Prelude.{◌<◌, ◌≡◌, take, set};
ghost use Rattle.fieldset.specs.Tables.{at};
ghost use Rattle.formulas.specs.Formulas.{formula_of};
ghost use Rattle.ordering.specs.Order.{order};
ghost use Rattle.evaluation.specs.Runs.{Runnable, run, Ran, Ready, Stored};

use formulas::{Rule, compute};
use ordering::order;

// Runs the plan once: the first n fields of the order, each set by its setter (128: its stay) from the fields that this one reads.
// Answers whether every result was within the limits; the first one outside ends the run.
// The contract rules out, for instance, a first field that is skipped and another link's formula (must-fail: first_field_skipped,
// formula_of_another_link).
pub fn evaluate(
    order: &[u8; 64],
    n: usize,
    setter: &[u8; 64],
    reads: &[u64; 64],
    formulas: &[Rule; 128],
    values: &mut [i32; 64],
) -> bool
    requires { Runnable (formula_of formulas.now setter.now) (at reads.now) order.now n }
    ensures { Ran (run (formula_of formulas.now setter.now) (at reads.now) (take n order.now) values.old) result values.new }
{
    for i in 0..n {
        let f = usize::from(order[i]);
        let c = usize::from(setter[f]);
        let formula = if c < 128 { formulas[c] } else { None };
        match compute(formula, f, reads[f], values) {
            Some(x) => values[f] = x,
            None => return false,
        }
    }
    true
}

// Stores a value in field f and runs the plan of n fields. Answers whether every result was within the limits; where one is not, the values are as they
// were.
// The contract rules out, for instance, values that a run which ends early leaves and a value that is not stored (must-fail: part_of_a_run_kept,
// value_not_stored).
pub fn store(
    n: usize,
    setter: &[u8; 64],
    reads: &[u64; 64],
    formulas: &[Rule; 128],
    f: usize,
    value: i32,
    values: &mut [i32; 64],
) -> bool
    requires { Ready (formula_of formulas.now setter.now) reads.now n × (f < 64) }
    ensures { Stored (run (formula_of formulas.now setter.now) (at reads.now) (order (at reads.now) n) (set values.old f value)) values.old result values.new }
{
    let mut listed = [0; 64];
    let count = order(reads, n, &mut listed);
    let mut next = *values;
    next[f] = value;
    let fits = evaluate(&listed, count, setter, reads, formulas, &mut next);
    if fits {
        *values = next;
    }
    fits
}
