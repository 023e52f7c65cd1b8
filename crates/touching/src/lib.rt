// Touching a field.
#![tactic(auto)]

ghost use Rattle.std.specs.Prelude.{◌≡◌, ℕ, ◌<◌, ◌+◌, ltb, cond, length};
ghost use Rattle.fieldset.specs.Tables.{tabulate};
ghost use Rattle.panel.specs.Items.{link_at};
ghost use Rattle.panel.specs.Panels.{place_after};
ghost use Rattle.panel.specs.Answers.{reply_bytes};
ghost use Rattle.panel.specs.Commands.{check_reply, check_touch, touching};
ghost use Rattle.panel.specs.Legal.{Legal};
ghost use Rattle.panel.specs.Outcomes.{Decides};
ghost use Rattle.tables.specs.Tables.{TablesOf};

use fieldset::only;
use panel::{Link, Panel, Refusal, Reply, STAY, STAY_LEVEL, Standing, Step, unchanged};
use reversal::{Verdict, resolve, step_of};
use tables::{Tables, stay_levels};

// A place before `at` moves down one.
fn pushed(x: u8, at: u8) -> u8
    ensures { result ≡ cond (ltb x at) (x + 1) x }
{
    if x < at { x + 1 } else { x }
}

// The places with f's stay at place 0 and those that stood before it one further.
fn to_front(place: &mut [u8; 64], f: usize)
    requires { f < 64 }
    ensures { place.new ≡ tabulate (place_after place.old f) 64 }
{
    let at = place[f];
    for x in place.iter_mut() {
        *x = pushed(*x, at);
    }
    place[f] = 0;
}

// The reply of the checks of a touch, on a panel of n fields.
fn check_touch(n: usize, f: u8) -> Reply
    ensures { reply_bytes result ≡ check_reply (check_touch n f) }
{
    if n == 0 {
        return Err(Refusal::NotOpen);
    }
    if n <= usize::from(f) {
        return Err(Refusal::NoSuchField);
    }
    Ok(0)
}

// Decides on touching a field: its stay becomes the strongest of the stays.
// The contract rules out, for instance, an order that stays as it was and a field counted that keeps its setter (must-fail: order_kept,
// moved_count_invented).
pub fn touch(p: &Panel, named: Link, tables: &Tables, f: u8, path: &mut [u8; 64]) -> Step
    requires { Legal p.now × TablesOf p.now tables.now }
    ensures { (k : ℕ) → named ≡ link_at p.now.links k → Decides p.now k (touching f) path.new result }
{
    let n = p.size;
    let reply = check_touch(n, f);
    if reply.is_err() {
        return unchanged(n, &p.place, named, reply);
    }
    let v = usize::from(f);
    let mut place = p.place;
    to_front(&mut place, v);
    let verdict = if p.setter[v] < STAY {
        let mut levels = tables.levels;
        stay_levels(&mut levels, &p.setter, &place);
        let set = only(v);
        resolve(
            &levels,
            &tables.others,
            &tables.reads,
            n,
            STAY_LEVEL,
            set,
            set,
            path,
        )
    } else {
        Verdict::Free
    };
    if let Verdict::Looped = verdict {
        return unchanged(n, &p.place, named, Err(Refusal::Loop));
    }
    step_of(verdict, n, &place, named, Standing::Waiting, STAY)
}
