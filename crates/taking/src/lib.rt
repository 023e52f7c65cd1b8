// The part of a step that changes setters: what is freed and the path that is reversed, in the panel and in its tables.
#![tactic(auto)]

ghost use Rattle.std.specs.Prelude.{◌≡◌, cond, ltb, take};
ghost use Rattle.fieldset.specs.Tables.{at};
ghost use Rattle.panel.specs.Items.{item_of};
ghost use Rattle.panel.specs.Panels.{standing, freed};
ghost use Rattle.panel.specs.Solution.{reversed};
ghost use Rattle.panel.specs.Outcomes.{PathOf};
ghost use Rattle.tables.specs.Tables.{TablesOf, Places};
ghost use Rattle.taking.specs.Taking.{TabledBut};

use panel::{Link, Panel, STAY, Standing, Step};
use tables::{Tables, enter, setter_entry, stay_entry};

// The link l at another standing, where c is a link's number; a stay has none.
fn standing_of(c: u8, l: Link, s: Standing) -> Link
    ensures { result ≡ cond (ltb c 128) (standing l s) l }
{
    if c < STAY {
        Link { standing: s, ..l }
    } else {
        l
    }
}

// The number of a setter: a link's, or STAY.
fn number_of(c: u8) -> u8
    ensures { result ≡ cond (ltb c 128) c 128 }
{
    if c < STAY { c } else { STAY }
}

// What a step's dropped link held is set by its stay, and then the step's path is reversed, in the panel and in its tables.
pub fn reverse(p: &mut Panel, step: &Step, path: &[u8; 64], tables: &mut Tables)
    requires { PathOf path.now step.now.count × Places p.old.place × TabledBut p.old step.now.freed tables.old.levels tables.old.others tables.old.reads }
    ensures reversed { p.new ≡ reversed (freed p.old step.now.freed) (item_of step.now.setter (at path.now 0)) (take step.now.count path.now) }
    ensures tabled { TablesOf p.new tables.new }
{
    if let Standing::Holding(v) = step.freed {
        let f = usize::from(v);
        p.setter[f] = STAY;
        enter(tables, f, stay_entry(p.place[f]));
    }
    let mut c = step.setter;
    for &f in &path[..step.count] {
        let k = usize::from(f);
        let old = p.setter[k];
        let j = usize::from(c % 128);
        let l = p.links[j];
        let e = setter_entry(c, l, p.place[k], k);
        p.links[j] = standing_of(c, l, Standing::Holding(f));
        p.setter[k] = number_of(c);
        enter(tables, k, e);
        c = old;
    }
    let j = usize::from(c % 128);
    let l = p.links[j];
    p.links[j] = standing_of(c, l, Standing::Waiting);
}
