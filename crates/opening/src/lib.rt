// The panel before it is opened, and its opening.
#![tactic(auto)]

ghost use Rattle.std.specs.Prelude.{◌≡◌, ℕ, List, length};
ghost use Rattle.panel.specs.Items.{link_at};
ghost use Rattle.panel.specs.Panels.{opened};
ghost use Rattle.panel.specs.Answers.{reply_bytes};
ghost use Rattle.panel.specs.Commands.{check_reply, check_open, opening};
ghost use Rattle.panel.specs.Legal.{Legal};
ghost use Rattle.panel.specs.Outcomes.{Decides};

use panel::{Link, Panel, Refusal, Reply, STAY, Step, no_link, unchanged};

// The panel before it is opened.
pub fn unopened() -> Panel
    ensures { (result ≡ opened 0) × Legal result }
{
    let mut place = [0; 64];
    for f in 0..64u8 {
        place[usize::from(f)] = f;
    }
    Panel {
        size: 0,
        links: [no_link(); 128],
        place,
        setter: [STAY; 64],
    }
}

// The reply of the checks of an opening with n fields, on a panel that has `size`.
fn check_open(size: usize, n: u8) -> Reply
    ensures { reply_bytes result ≡ check_reply (check_open size n) }
{
    if size != 0 {
        return Err(Refusal::AlreadyOpen);
    }
    if n == 0 || 64 < n {
        return Err(Refusal::BadSize);
    }
    Ok(0)
}

// Decides on the opening with n fields.
// The contract rules out, for instance, a panel of another size and a refusal of 64 fields (must-fail: one_field_only, size_64_refused).
pub fn open(p: &Panel, named: Link, n: u8) -> Step
    requires { Legal p.now }
    ensures { (k : ℕ) (path : List ℕ) → length path ≡ 64 → named ≡ link_at p.now.links k → Decides p.now k (opening n) path result }
{
    let reply = check_open(p.size, n);
    let size = if reply.is_ok() {
        usize::from(n)
    } else {
        p.size
    };
    unchanged(size, &p.place, named, reply)
}
