// Adding a link.
#![tactic(auto)]

ghost use Rattle.std.specs.Prelude.{◌≡◌, ◌≤◌, ◌%◌};
ghost use Rattle.panel.specs.Items.{link_at};
ghost use Rattle.panel.specs.Panels.{waiting_link};
ghost use Rattle.panel.specs.Answers.{reply_bytes};
ghost use Rattle.panel.specs.Commands.{check_reply, adding};
ghost use Rattle.panel.specs.Legal.{Legal};
ghost use Rattle.panel.specs.Outcomes.{Decides};
ghost use Rattle.tables.specs.Tables.{TablesOf};
ghost use Rattle.adding.specs.Checks.{is_bad_link, number_check, check_link, verdict_reply};

use fieldbytes::{Fields, read_fields};
use fieldset::{below, size, within};
use panel::{LAST_LINK, Link, Panel, Refusal, Reply, Standing, Step, unchanged};
use reversal::{Verdict, resolve, step_of};
use tables::Tables;

// Whether these numbers and fields are no link's: an id over 127, a level over 15, fields that do not rise, not 1 to 8 fields by count
// of ones, no output.
fn is_bad_link(id: u8, level: u8, covered: u64, outputs: u64, rising: bool) -> bool
    ensures { result ≡ is_bad_link id level covered outputs rising }
{
    let k = size(covered);
    LAST_LINK < id || 15 < level || !rising || k == 0 || 8 < k || outputs == 0
}

// The reply of the checks of a link that is added or changed: the refusal of the first that applies, else acceptance. The last one, about the link's
// number, is told by its refusal, where it applies.
pub fn check_link(n: usize, id: u8, level: u8, fields: Fields, number: Option<Refusal>) -> Reply
    requires { n ≤ 64 }
    ensures { reply_bytes result ≡ check_reply (check_link n id level fields.covered fields.outputs fields.rising (number_check number)) }
{
    if n == 0 {
        return Err(Refusal::NotOpen);
    }
    if is_bad_link(id, level, fields.covered, fields.outputs, fields.rising) {
        return Err(Refusal::BadLink);
    }
    if !within(fields.covered, below(n)) {
        return Err(Refusal::NoSuchField);
    }
    if let Some(refusal) = number {
        return Err(refusal);
    }
    Ok(0)
}

// The reply where a link of this level is entered, by the verdict on it: a loop refuses it, and a required link that is not blocked meets Conflict.
pub fn check_verdict(verdict: Verdict, level: u8) -> Reply
    ensures { result ≡ verdict_reply verdict level }
{
    match verdict {
        Verdict::Looped => Err(Refusal::Loop),
        Verdict::Free => {
            if level == 0 {
                Err(Refusal::Conflict)
            } else {
                Ok(0)
            }
        }
        Verdict::Path(_, _) => Ok(0),
    }
}

// A link in force that waits.
pub fn waiting_link(level: u8, fields: Fields) -> Link
    ensures { result ≡ waiting_link level fields.covered fields.outputs }
{
    Link {
        covered: fields.covered,
        outputs: fields.outputs,
        level,
        used: true,
        standing: Standing::Waiting,
    }
}

// Decides on adding a link; `old` is the link that stands under its number.
// The contract rules out, for instance, a link that a field blocks which it only reads and setters that never change (must-fail:
// blocked_by_a_read_field, setters_never_change).
pub fn add(
    p: &Panel,
    old: Link,
    tables: &Tables,
    id: u8,
    level: u8,
    bytes: &[u8],
    path: &mut [u8; 64],
) -> Step
    requires { Legal p.now × TablesOf p.now tables.now × (old ≡ link_at p.now.links (id % 128)) }
    ensures { Decides p.now (id % 128) (adding id level bytes.now) path.new result }
{
    let n = p.size;
    let fields = read_fields(bytes);
    let taken = old.used.then_some(Refusal::LinkTaken);
    let reply = check_link(n, id, level, fields, taken);
    if reply.is_err() {
        return unchanged(n, &p.place, old, reply);
    }
    let verdict = resolve(
        &tables.levels,
        &tables.others,
        &tables.reads,
        n,
        level,
        fields.outputs,
        fields.covered,
        path,
    );
    let reply = check_verdict(verdict, level);
    if reply.is_err() {
        return unchanged(n, &p.place, old, reply);
    }
    step_of(
        verdict,
        n,
        &p.place,
        waiting_link(level, fields),
        Standing::Waiting,
        id,
    )
}
