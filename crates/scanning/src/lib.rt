// The scan for blocked links and stays once a link is dropped: all strengths are worked out first, and it reads only these.
#![tactic(auto)]

ghost use Rattle.std.specs.Prelude.{◌≡◌, ◌<◌};
ghost use Rattle.fieldset.specs.Tables.{at};
ghost use Rattle.panel.specs.Panels.{dropped};
ghost use Rattle.panel.specs.Legal.{Legal};
ghost use Rattle.tables.specs.Tables.{TablesOf};
ghost use Rattle.scanning.specs.Scan.{is_over, is_blocked_link, with_setters, least_blocked_by, Names, Scanned};

use fieldset::fields_of;
use panel::{Link, Panel, STAY, STAY_LEVEL, Standing};
use strength::strengths;
use tables::{Tables, enter, stay_entry};

// Whether a field of the set has a strength above the level.
fn is_over(set: u64, level: u8, table: &[u8; 64]) -> bool
    ensures { result ≡ is_over table.now level set }
{
    for f in fields_of(set) {
        if level < table[f] {
            return true;
        }
    }
    false
}

// Whether a link is in force, waits and is blocked. The standing comes first: most links hold.
fn is_blocked(l: Link, table: &[u8; 64]) -> bool
    ensures { result ≡ is_blocked_link table.now l }
{
    match l.standing {
        Standing::Waiting => l.used && is_over(l.outputs, l.level, table),
        Standing::Holding(_) => false,
    }
}

// A blocked link, with its number, or the stay of a field that is blocked.
#[derive(Clone, Copy)]
pub enum Blocked {
    Link(u8, Link),
    Stay(u8),
}

// The blocked link or stay of least level, the lowest link number among equals, where the fields have these setters. Of strengths it knows the
// table alone: what is found is what that gives, whatever stands in it.
pub fn find_blocked(p: &Panel, setter: &[u8; 64], table: &[u8; 64]) -> Option<Blocked>
    requires { Legal p.now }
    ensures { Names p.now.links (least_blocked_by table.now (with_setters p.now setter.now)) result }
{
    let mut found = None;
    // the level of what is found; at first above every level
    let mut least = u8::MAX;
    for i in 0..128u8 {
        let l = p.links[usize::from(i)];
        if l.level < least && is_blocked(l, table) {
            found = Some(Blocked::Link(i, l));
            least = l.level;
        }
    }
    for f in 0..p.size {
        let level = STAY_LEVEL + p.place[f];
        if level < least && setter[f] < STAY && level < table[f] {
            found = Some(Blocked::Stay(f as u8));
            least = level;
        }
    }
    found
}

// What a scan finds, and how many strengths were worked out for it.
#[derive(Clone, Copy)]
pub struct Found {
    pub blocked: Option<Blocked>,
    pub worked: u8,
}

// The scan without the link that sets v, once it is dropped and v's stay sets v: the tables become those of that panel, each of its strengths is worked
// out once, and the scan reads only these.
// The contract rules out, for instance, an entry from before the removal and a scan that stops at the first blocked link (must-fail:
// entry_from_before_the_removal, stops_at_first_blocked).
pub fn scan_without(p: &Panel, v: usize, tables: &mut Tables, table: &mut [u8; 64]) -> Found
    requires { Legal p.now × TablesOf p.now tables.old × (v < 64) × (at p.now.setter v < 128) }
    ensures scanned { Scanned (dropped p.now (at p.now.setter v)) table.old table.new result.blocked result.worked }
    ensures tabled { TablesOf (dropped p.now (at p.now.setter v)) tables.new }
{
    let mut setter = p.setter;
    setter[v] = STAY;
    enter(tables, v, stay_entry(p.place[v]));
    let worked = strengths(&tables.levels, &tables.others, p.size, table);
    let blocked = find_blocked(p, &setter, table);
    Found { blocked, worked }
}
