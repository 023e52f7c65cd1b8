// Whether a well-formed panel is unfit: it has a loop, a blocked link or stay, or a required link that waits.
#![tactic(auto)]

ghost use Rattle.std.specs.Prelude.{◌≡◌, true, ◌&&◌, eqb};
ghost use Rattle.panel.specs.Items.{is_in_force, is_waiting};
ghost use Rattle.panel.specs.Solution.{least_blocked};
ghost use Rattle.panel.specs.Legal.{Legal};
ghost use Rattle.tables.specs.Tables.{TablesOf};
ghost use Rattle.images.specs.Forms.{is_formed};
ghost use Rattle.images.specs.Reading.{is_some, is_short, is_unfit};

use ordering::order;
use panel::{Link, Panel, Standing};
use scanning::find_blocked;
use sheet::Sheet;
use strength::strengths;
use tables::{Tables, tables_of};

// Whether a link is required, in force and waits.
fn lacks(l: &Link) -> bool
    ensures { result ≡ (eqb l.now.level 0 && (is_in_force l.now && is_waiting l.now.standing)) }
{
    match l.standing {
        Standing::Waiting => l.used && l.level == 0,
        Standing::Holding(_) => false,
    }
}

// Whether a required link waits.
fn is_short(p: &Panel) -> bool
    ensures { result ≡ is_short p.now }
{
    for l in &p.links {
        if lacks(l) {
            return true;
        }
    }
    false
}

// Whether a link or stay is blocked.
fn is_blocked(p: &Panel, tables: &Tables) -> bool
    requires { Legal p.now × TablesOf p.now tables.now }
    ensures { result ≡ is_some (least_blocked p.now) }
{
    let mut table = [0; 64];
    strengths(&tables.levels, &tables.others, p.size, &mut table);
    find_blocked(p, &p.setter, &table).is_some()
}

// Whether the panel of a well-formed sheet is unfit.
// The contract rules out, for instance, a required link that waits and a loop, both taken (must-fail: waiting_required_taken, loop_taken).
pub fn is_unfit(s: &Sheet) -> bool
    requires { is_formed s.now ≡ true }
    ensures { result ≡ is_unfit s.now.panel }
{
    let p = &s.panel;
    if is_short(p) {
        return true;
    }
    let tables = tables_of(p);
    let mut plan = [0; 64];
    if order(&tables.reads, p.size, &mut plan) != p.size {
        return true;
    }
    is_blocked(p, &tables)
}
