// The step of one line, by its command; the change that a line asks, and what the line leaves of its link's formula.
#![tactic(auto)]

ghost use Rattle.std.specs.Prelude.{◌≡◌, ◌≤◌, take, drop};
ghost use Rattle.panel.specs.Items.{link_at};
ghost use Rattle.panel.specs.Commands.{covered_in};
ghost use Rattle.panel.specs.Outcomes.{unchanged};
ghost use Rattle.panel.specs.Legal.{Legal};
ghost use Rattle.tables.specs.Tables.{TablesOf};
ghost use Rattle.hexadecimal.specs.Hex.{frame_room};
ghost use Rattle.frames.specs.Frames.{number_of};
ghost use Rattle.frames.specs.Reading.{tail_of};
ghost use Rattle.deciding.specs.Lines.{Framed, sets_formula, formula_after, DecidedLine, ChangedLine};

use changing::change;
use fieldbytes::read_fields;
use formulas::Rule;
use frames::{Command, Line, formula_of};
use panel::{Link, Panel, ROWS, Refusal, Reply, Step, unchanged};
use relating::relate;
use tables::Tables;

// The step of a line that leaves the panel as it is.
fn keep(p: &Panel, named: Link, reply: Reply) -> Step
    ensures { result ≡ unchanged p.now.size p.now.place named reply }
{
    unchanged(p.size, &p.place, named, reply)
}

// Whether a command may change the formula of the link that it names.
pub fn sets_formula(command: Command) -> bool
    ensures { result ≡ sets_formula command }
{
    matches!(
        command,
        Command::Remove(_) | Command::Change(_, _) | Command::Relate(_, _)
    )
}

// What stands behind the first `from` bytes of a line's frame: behind the first 3, the field bytes of an add or a change.
fn tail(line: &Line, from: usize) -> &[u8]
    requires { (from ≤ line.now.len) × (line.now.len ≤ frame_room) }
    ensures { result.now ≡ drop from (take line.now.len line.now.frame) }
{
    let frame = &line.frame[..line.len];
    &frame[from..]
}

// The fields that a line's link covers, by its field bytes.
fn covered_by(line: &Line) -> u64
    requires { (3 ≤ line.now.len) × (line.now.len ≤ frame_room) }
    ensures { result ≡ covered_in (tail_of line.now) }
{
    read_fields(tail(line, 3)).covered
}

// What a line and its reply leave of the formula of the link that its command names; `covered` are the fields that the link covered before.
pub fn rule_after(line: &Line, reply: Reply, covered: u64, old: Rule) -> Rule
    requires { Framed line.now }
    ensures { result ≡ formula_after line.now.command (tail_of line.now) reply covered old }
{
    match reply {
        Err(_) => old,
        Ok(_) => match line.command {
            Command::Remove(_) => None,
            Command::Change(_, _) => {
                if covered == covered_by(line) {
                    old
                } else {
                    None
                }
            }
            Command::Relate(_, form) => formula_of(line, form),
            _ => old,
        },
    }
}

// The step of a line by its command, but for a removal and a change, for which it leaves the panel as it is; for a value that is entered, the step of
// its touch. `named` is the link of the number that the command names.
pub fn decide_line(
    p: &Panel,
    named: Link,
    tables: &Tables,
    line: &Line,
    path: &mut [u8; 64],
    rows: &mut [u8; ROWS],
) -> Step
    requires legal { Legal p.now × TablesOf p.now tables.now × (named ≡ link_at p.now.links (number_of line.now.command)) }
    requires framed { Framed line.now }
    ensures { DecidedLine p.now (number_of line.now.command) named (tail_of line.now) path.new rows.new result line.now.command }
{
    match line.command {
        Command::Open(n) => opening::open(p, named, n),
        Command::Add(id, level) => adding::add(p, named, tables, id, level, tail(line, 3), path),
        Command::Remove(_) | Command::Change(_, _) => keep(p, named, Ok(0)),
        Command::Plan => {
            let reply = planning::plan(p, tables, rows);
            keep(p, named, reply)
        }
        Command::Relate(id, form) => {
            let reply = relate(p, named, id, formula_of(line, form));
            keep(p, named, reply)
        }
        Command::Refused(r) => keep(p, named, Err(r)),
        // one call, so that the compiler inlines it
        Command::Touch(f) | Command::Enter(f, _) => touching::touch(p, named, tables, f, path),
    }
}

// Carries out the change that a line asks, in the panel and its tables: the fields that got another setter, or the refusal, where both stay as they were.
// Where the removal makes a scan, `worked` becomes the number of strengths that were worked out for it. A line that asks no change leaves all as it is.
pub fn changed(
    p: &mut Panel,
    tables: &mut Tables,
    line: &Line,
    worked: &mut u8,
) -> Result<u64, Refusal>
    requires { Legal p.old × TablesOf p.old tables.old × Framed line.now }
    ensures { ChangedLine p.old (tail_of line.now) tables.new worked.old worked.new p.new result line.now.command }
{
    let Command::Change(id, level) = line.command else {
        return Ok(0);
    };
    let named = p.links[usize::from(id % 128)];
    change(p, named, tables, id, level, tail(line, 3), worked)
}
