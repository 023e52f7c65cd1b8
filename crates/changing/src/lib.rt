// Changing a link: it is dropped and entered anew as one.
#![tactic(auto)]

ghost use Rattle.std.specs.Prelude.{◌≡◌, ◌%◌};
ghost use Rattle.panel.specs.Items.{link_at};
ghost use Rattle.panel.specs.Legal.{Legal};
ghost use Rattle.panel.specs.Outcomes.{PathOf};
ghost use Rattle.tables.specs.Tables.{TablesOf, Places};
ghost use Rattle.reversal.specs.Reversals.{count_by};
ghost use Rattle.changing.specs.Changed.{changed_fields, reversed_by, Changes};

use adding::{check_link, check_verdict, waiting_link};
use fieldbytes::read_fields;
use fieldset::with;
use panel::{Link, Panel, Refusal, STAY, Standing, no_link};
use removing::settle;
use reversal::{Verdict, resolve, step_of};
use tables::Tables;
use taking::reverse;

// The fields that have another setter after than before.
fn changed_fields(before: &[u8; 64], after: &[u8; 64]) -> u64
    ensures { result ≡ changed_fields before.now after.now }
{
    let mut set = 0;
    for f in 0..64 {
        if before[f] != after[f] {
            set = with(set, f);
        }
    }
    set
}

// Reverses the path of a verdict, for the item of the number c, in the panel and its tables.
fn turn(p: &mut Panel, verdict: Verdict, c: u8, path: &[u8; 64], tables: &mut Tables)
    requires { PathOf path.now (count_by verdict) × Places p.old.place × TablesOf p.old tables.old }
    ensures reversed { p.new ≡ reversed_by p.old verdict c path.now }
    ensures tabled { TablesOf p.new tables.new }
{
    if let Verdict::Path(_, _) = verdict {
        let step = step_of(verdict, p.size, &p.place, no_link(), Standing::Waiting, c);
        reverse(p, &step, path, tables);
    }
}

// Changes a link; `old` is the link that stands under its number. It is removed and added anew on copies, and the panel and its tables become these
// only where both are accepted: the answer is then the fields that got another setter. Where the removal makes a scan, `worked` becomes the number of
// strengths that were worked out for it.
// The contract rules out, for instance, a removal that a refused add leaves and a count from after the removal (must-fail: removal_kept,
// moved_from_after_the_removal).
pub fn change(
    p: &mut Panel,
    old: Link,
    tables: &mut Tables,
    id: u8,
    level: u8,
    bytes: &[u8],
    worked: &mut u8,
) -> Result<u64, Refusal>
    requires { Legal p.old × TablesOf p.old tables.old × (old ≡ link_at p.old.links (id % 128)) }
    ensures { Changes p.old id level bytes.now tables.new worked.old worked.new p.new result }
{
    let n = p.size;
    let fields = read_fields(bytes);
    let missing = (!old.used).then_some(Refusal::NoSuchLink);
    check_link(n, id, level, fields, missing)?;
    let mut fresh = *tables;
    let mut path = [0; 64];
    // the removal; `settle` is given the panel with the link, and leaves the link out by itself
    let k = usize::from(id);
    let mut q = *p;
    q.links[k] = no_link();
    if let Standing::Holding(h) = old.standing {
        let v = usize::from(h);
        let settled = settle(p, v, &mut fresh, &mut path, worked);
        if let Verdict::Looped = settled.verdict {
            return Err(Refusal::Loop);
        }
        q.setter[v] = STAY;
        turn(&mut q, settled.verdict, settled.number, &path, &mut fresh);
    }
    // the adding
    let verdict = resolve(
        &fresh.levels,
        &fresh.others,
        &fresh.reads,
        n,
        level,
        fields.outputs,
        fields.covered,
        &mut path,
    );
    check_verdict(verdict, level)?;
    q.links[k] = waiting_link(level, fields);
    turn(&mut q, verdict, id, &path, &mut fresh);
    let changed = changed_fields(&p.setter, &q.setter);
    *p = q;
    *tables = fresh;
    Ok(changed)
}
