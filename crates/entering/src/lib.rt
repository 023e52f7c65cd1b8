// Entering a value in a field that a touch was decided on.
#![tactic(auto)]

ghost use Rattle.std.specs.Prelude.{◌≡◌, List, ℕ};
ghost use Rattle.panel.specs.Items.{link_at};
ghost use Rattle.panel.specs.Commands.{touching, performed};
ghost use Rattle.panel.specs.Outcomes.{taken, Takes, Decides};
ghost use Rattle.panel.specs.Legal.{Legal};
ghost use Rattle.tables.specs.Tables.{TablesOf};
ghost use Rattle.sheet.specs.Legal.{LegalSheet};
ghost use Rattle.sheet.specs.Sheets.{sheet_of};
ghost use Rattle.entering.specs.Entered.{SettersOf, valued_step, Entered};

use evaluation::store;
use formulas::Rule;
use panel::{Link, Panel, Refusal, Reply, STAY, Step, unchanged};
use tables::{Tables, stay_levels};
use taking::reverse;
use values::revalued;

// The setters of the panel after a touch's step, and in a buffer the table of the fields that they read. The contract rules out, for instance, the
// setters from before the step (must-fail: plan_before_the_touch).
pub fn setters(
    p: &Panel,
    step: &Step,
    path: &[u8; 64],
    tables: &Tables,
    after: &mut [u64; 64],
) -> [u8; 64]
    requires legal { Legal p.now × TablesOf p.now tables.now }
    requires legal_2 { Legal (taken p.now 0 step.now path.now) × Takes p.now 0 path.now step.now (taken p.now 0 step.now path.now) }
    ensures { SettersOf (taken p.now 0 step.now path.now) result after.new }
{
    if step.changed == 0 {
        *after = tables.reads;
        return p.setter;
    }
    // the step is taken on copies
    let mut q = *p;
    let mut fresh = *tables;
    q.size = step.size;
    q.place = step.place;
    q.links[0] = step.link;
    stay_levels(&mut fresh.levels, &p.setter, &step.place);
    reverse(&mut q, step, path, &mut fresh);
    *after = fresh.reads;
    q.setter
}

// The step of a touch with the fields that get another value.
fn valued(step: Step, set: u64) -> Step
    ensures { result ≡ valued_step step set }
{
    Step {
        reply: Ok(0),
        revalued: set,
        ..step
    }
}

// Decides on entering a value in a field, from the step of its touch, the setters after it and the fields that they read: where the touch is accepted,
// the value is stored and the whole plan is run. Where nothing refuses, the step is the touch's, with the fields whose value changed, and the values are
// those of the run; else both leave all as it was. The contract rules out, for instance, a field that a link still sets told as outside the limits, a touch
// that a refusal leaves and values that are not compared (must-fail: setter_told_as_limits, refusal_keeps_the_touch, values_not_compared).
pub fn enter(
    p: &Panel,
    named: Link,
    step: Step,
    setter: &[u8; 64],
    reads: &[u64; 64],
    formulas: &[Rule; 128],
    f: u8,
    value: i32,
    values: &mut [i32; 64],
) -> Step
    requires legal_sheet { LegalSheet (sheet_of p.now formulas.now values.old) × (named ≡ link_at p.now.links 0) }
    requires by_index { ((path : List ℕ) × Decides p.now 0 (touching f) path step) × SettersOf (performed p.now (touching f)).panel setter.now reads.now }
    ensures { Entered (sheet_of p.now formulas.now values.old) f value step values.new result }
{
    if step.reply.is_err() {
        return step;
    }
    let n = p.size;
    let v = usize::from(f);
    if setter[v] < STAY {
        return unchanged(n, &p.place, named, Err(Refusal::FieldDriven));
    }
    let before = *values;
    if !store(n, setter, reads, formulas, v, value, values) {
        return unchanged(n, &p.place, named, Err(Refusal::OutOfRange));
    }
    valued(step, revalued(&before, values, n))
}
