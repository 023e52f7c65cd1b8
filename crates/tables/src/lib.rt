// The tables of a panel's setters: for each field the level, the other outputs and the read fields of its setter.
#![tactic(auto)]

ghost use Rattle.std.specs.Prelude.{◌≡◌, ◌+◌, ◌<◌};
ghost use Rattle.fieldset.specs.Tables.{at, tabulate};
ghost use Rattle.tables.specs.Tables.{EntryOf, TablesOf, Places, level_with, with_entry};

use fieldset::without;
use panel::{Link, Panel, STAY, STAY_LEVEL};

// For each field the level, the other outputs and the read fields of its setter.
#[derive(Clone, Copy)]
pub struct Tables {
    pub levels: [u8; 64],
    pub others: [u64; 64],
    pub reads: [u64; 64],
}

// What a field's setter gives its tables: level, other outputs, read fields.
#[derive(Clone, Copy)]
pub struct Entry {
    pub level: u8,
    pub others: u64,
    pub reads: u64,
}

// The entry of a field that its stay sets, at this place.
pub fn stay_entry(place: u8) -> Entry
    requires { place < 64 }
    ensures { result ≡ record { level = 16 + place; others = 0; reads = 0 } }
{
    Entry {
        level: STAY_LEVEL + place,
        others: 0,
        reads: 0,
    }
}

// The entry of the field f whose setter has the number c: the link l, or a stay at this place.
pub fn setter_entry(c: u8, l: Link, place: u8, f: usize) -> Entry
    requires { (place < 64) × (f < 64) }
    ensures { EntryOf c l place f result }
{
    if c < STAY {
        Entry {
            level: l.level,
            others: without(l.outputs, f),
            reads: without(l.covered, f),
        }
    } else {
        stay_entry(place)
    }
}

// Enters what a field's setter gives.
pub fn enter(tables: &mut Tables, f: usize, e: Entry)
    requires { f < 64 }
    ensures { tables.new ≡ with_entry tables.old f e }
{
    tables.levels[f] = e.level;
    tables.others[f] = e.others;
    tables.reads[f] = e.reads;
}

// The tables of a panel.
pub fn tables_of(p: &Panel) -> Tables
    requires { Places p.now.place }
    ensures { TablesOf p.now result }
{
    let mut tables = Tables {
        levels: [0; 64],
        others: [0; 64],
        reads: [0; 64],
    };
    for f in 0..64 {
        let c = p.setter[f];
        let e = setter_entry(c, p.links[usize::from(c % 128)], p.place[f], f);
        enter(&mut tables, f, e);
    }
    tables
}

// The level of a field's setter of the number c: a stay's by its place, a link's as it was.
fn level_with(c: u8, place: u8, level: u8) -> u8
    requires { place < 64 }
    ensures { result ≡ level_with c place level }
{
    if c < STAY { level } else { STAY_LEVEL + place }
}

// The levels after the stays' places have changed.
pub fn stay_levels(levels: &mut [u8; 64], setter: &[u8; 64], place: &[u8; 64])
    requires { Places place.now }
    ensures { levels.new ≡ tabulate (λ f. level_with (at setter.now f) (at place.now f) (at levels.old f)) 64 }
{
    for f in 0..64 {
        levels[f] = level_with(setter[f], place[f], levels[f]);
    }
}
