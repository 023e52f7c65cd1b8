// The plan.
#![tactic(auto)]

ghost use Rattle.std.specs.Prelude.{◌≡◌, ◌<◌, ◌*◌, [], ◌∷◌};
ghost use Rattle.std.proofs.lemmas.List.Edits.{sets};
ghost use Rattle.panel.specs.Legal.{Legal};
ghost use Rattle.panel.specs.Outcomes.{Plans};
ghost use Rattle.tables.specs.Tables.{TablesOf};

use panel::{Panel, ROWS, Refusal, Reply};
use strength::strengths;
use tables::Tables;

// Writes the row of a field: the field, its setter and its strength.
fn put_row(rows: &mut [u8; ROWS], i: usize, f: u8, c: u8, s: u8)
    requires { i < 64 }
    ensures { rows.new ≡ sets rows.old (3 * i) (f ∷ c ∷ s ∷ []) }
{
    rows[3 * i] = f;
    rows[3 * i + 1] = c;
    rows[3 * i + 2] = s;
}

// The plan: a row for each field, in the order of evaluation, at the start of the buffer.
// The contract rules out, for instance, setter and strength swapped and the setter of another field (must-fail:
// setter_and_strength_swapped, setter_of_another_field).
pub fn plan(p: &Panel, tables: &Tables, rows: &mut [u8; ROWS]) -> Reply
    requires { Legal p.now × TablesOf p.now tables.now }
    ensures { Plans p.now result rows.old rows.new }
{
    let n = p.size;
    if n == 0 {
        return Err(Refusal::NotOpen);
    }
    let mut table = [0; 64];
    strengths(&tables.levels, &tables.others, n, &mut table);
    let mut listed = [0; 64];
    let count = ordering::order(&tables.reads, n, &mut listed);
    for (i, &f) in listed[..count].iter().enumerate() {
        let k = usize::from(f);
        put_row(rows, i, f, p.setter[k], table[k]);
    }
    Ok(n as u8)
}
