// The answers to the lines of a text, one after the other.
#![tactic(auto)]

ghost use Rattle.std.specs.Prelude.{◌^◌, ◌<◌, ◌≡◌, length};
ghost use Rattle.sheet.specs.Sheets.{sheet_of};
ghost use Rattle.sheet.specs.Legal.{LegalSheet};
ghost use Rattle.frames.specs.Frames.{line_answer};
ghost use Rattle.answering.specs.Runs.{reached, RanFrom, Finished, Resumed};
ghost use Rattle.answering.specs.Scans.{line_scan};

use deciding::{changed, decide_line, rule_after, sets_formula};
use entering::{enter, setters};
use fieldset::below;
use frames::{Command, value_of};
use keeping::{KeptTables, refresh};
use panel::ROWS;
use redrawing::count_reply;
use removing::remove;
use replies::{LONGEST, put_reply, refusal_of};
use sheet::Sheet;
use tables::{stay_levels, tables_of};
use taking::reverse;
use tally::{Tally, tallied_line};

// Where a run over a text stands: the position of the next line, the sheet, the tally, how many bytes were written, and how many strengths were worked
// out for the last scan, 0 where none was made.
#[derive(Clone, Copy)]
pub struct Progress {
    pub next: usize,
    pub sheet: Sheet,
    pub tally: Tally,
    pub written: usize,
    pub worked: u8,
}

// Answers whole lines from a position on while the room has place for a longest reply; what does not fit the buffer is counted, not stored. Past the
// text's end there is no line. The step of a line is decided, and the panel takes it; a change, whose step leaves the panel as it is, is then carried
// out. A removal and a value that is entered are decided here: `decide_line` counts no scan, and knows neither formulas nor values.
pub fn answer_lines(
    text: &[u8],
    mut at: usize,
    s: Sheet,
    mut t: Tally,
    out: &mut [u8],
    room: usize,
) -> Progress
    requires { LegalSheet s × (room < 2 ^ 63) }
    ensures { Finished line_answer line_scan LegalSheet text.now at room s t out.old out.new (reached result) }
{
    let mut q = s.panel;
    let mut formulas = s.formulas;
    let mut values = s.values;
    let mut n = 0;
    let mut worked = 0;
    let mut rows = [0; ROWS];
    let mut path = [0; 64];
    let mut after = [0; 64];
    let mut tables = tables_of(&q);
    let mut kept = KeptTables {
        shown: [0; 64],
        readers: [0; 64],
        down: [0; 64],
    };
    let all = below(q.size);
    refresh(&tables.reads, q.size, all, &mut kept);
    while at < text.len() && LONGEST <= room - n {
        let end = lines::line_end(text, at);
        let line = frames::read_line(&text[at..end]);
        let command = line.command;
        let k = usize::from(frames::number_of(command));
        let old = q.links[k];
        let step = if let Command::Remove(id) = command {
            remove(&q, old, &tables, id, &mut path, &mut worked)
        } else {
            let step = decide_line(&q, old, &tables, &line, &mut path, &mut rows);
            if let Command::Enter(f, b) = command {
                let setter = setters(&q, &step, &path, &tables, &mut after);
                let v = value_of(&line, b);
                enter(&q, old, step, &setter, &after, &formulas, f, v, &mut values)
            } else {
                step
            }
        };
        let mut reply = step.reply;
        q.size = step.size;
        q.place = step.place;
        q.links[k] = step.link;
        stay_levels(&mut tables.levels, &q.setter, &step.place);
        let mut turned = step.changed;
        let mut stale = turned;
        if turned != 0 {
            reverse(&mut q, &step, &path, &mut tables);
        }
        if let Command::Change(_, _) = command {
            let c = changed(&mut q, &mut tables, &line, &mut worked);
            reply = c.and(Ok(0));
            turned = c.unwrap_or(0);
            stale = below(q.size);
        }
        refresh(&tables.reads, q.size, stale, &mut kept);
        reply = count_reply(reply, turned, step.revalued, &kept.down);
        if sets_formula(command) {
            formulas[k] = rule_after(&line, reply, old.covered, formulas[k]);
        }
        n = put_reply(out, n, command, reply, &rows[..ROWS]);
        t = tallied_line(t, refusal_of(reply));
        at = lines::behind(text, end);
    }
    let sheet = Sheet {
        panel: q,
        formulas,
        values,
    };
    Progress {
        next: at,
        sheet,
        tally: t,
        written: n,
        worked,
    }
}

// Goes on from a position of a text: answers whole lines while a longest reply, with its LF, still fits the buffer.
pub fn lines_from(text: &[u8], from: usize, s: Sheet, t: Tally, out: &mut [u8]) -> Progress
    requires { LegalSheet s }
    ensures ran_from { RanFrom line_answer line_scan LegalSheet text.now from (length out.old) s t out.old out.new (reached result) }
    ensures resumed { Resumed line_answer text.now from s t out.old out.new (reached result) }
{
    let room = out.len();
    answer_lines(text, from, s, t, out, room)
}
