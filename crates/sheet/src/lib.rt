// A sheet: a panel with the formulas of its links and the values of its fields.
#![tactic(auto)]

ghost use Rattle.std.specs.Prelude.{◌≡◌};
ghost use Rattle.sheet.specs.Sheets.{blank, unopened};
ghost use Rattle.sheet.specs.Legal.{LegalSheet};

use formulas::Rule;
use panel::Panel;

#[derive(Clone, Copy)]
pub struct Sheet {
    pub panel: Panel,
    // for each link its formula; a number that is not in use has none
    pub formulas: [Rule; 128],
    // for each field its value; past the panel's fields zero
    pub values: [i32; 64],
}

// The sheet of a panel without formulas, all values zero.
fn blank(p: Panel) -> Sheet
    ensures { result ≡ blank p }
{
    Sheet {
        panel: p,
        formulas: [None; 128],
        values: [0i32; 64],
    }
}

// The sheet of an unopened panel.
pub fn unopened() -> Sheet
    ensures { (result ≡ unopened) × LegalSheet result }
{
    blank(opening::unopened())
}
