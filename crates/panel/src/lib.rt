// The panel: fields, links, stays, and what a command comes to.
#![tactic(auto)]

ghost use Rattle.std.specs.Prelude.{◌≡◌};
ghost use Rattle.panel.specs.Items.{no_link};
ghost use Rattle.panel.specs.Outcomes.{unchanged};

// The setter of a field that its stay sets. A setter stays a number: it is the very byte that a plan's row has, for a link and for a stay, which as an
// enum would be put together again for each row.
pub const STAY: u8 = 128;

// The level of the stay at place 0, behind every link's level, which is at most 15.
pub const STAY_LEVEL: u8 = 16;

// The largest number of a link: the panel has a place for each of 128 links.
pub const LAST_LINK: u8 = 127;

// The bytes of the rows of a largest plan: three for each of 64 fields.
pub const ROWS: usize = 192;

// A link's standing: it waits, or it holds one named field. An enum of its own, by a rule of the project: a third case, a link that is switched off, is
// to come.
#[derive(Clone, Copy)]
pub enum Standing {
    Waiting,
    Holding(u8),
}

// A link: a constraint over its covered fields, which it is permitted to hold by setting one of its outputs.
// A number that is not in use has the default link: zeros, waiting. Links are an array of these records by a rule of the project, and no array of
// Options: that such a number has zeros is a part of what a saved text must say (`is_unused` of wellformed).
#[derive(Clone, Copy)]
pub struct Link {
    pub covered: u64,
    pub outputs: u64,
    // 0 is required; a larger number is weaker
    pub level: u8,
    pub used: bool,
    pub standing: Standing,
}

// A panel: the constraint graph with its solution. Before it is opened its size is 0.
#[derive(Clone, Copy)]
pub struct Panel {
    // how many fields there are
    pub size: usize,
    pub links: [Link; 128],
    // for each field the place of its stay in the stays' order, from 0
    pub place: [u8; 64],
    // for each field its setter: a link's number, or 128 for its stay
    pub setter: [u8; 64],
}

// Why a line, a text or a file is refused.
#[derive(Clone, Copy)]
pub enum Refusal {
    // the offset in the line where it is wrong
    BadHex(u16),
    BadFrame,
    AlreadyOpen,
    NotOpen,
    BadSize,
    BadLink,
    NoSuchField,
    LinkTaken,
    NoSuchLink,
    Conflict,
    Loop,
    TextTooLong,
    // a result is outside the limits
    OutOfRange,
    // a link still sets the field that a value is entered in
    FieldDriven,
    // a formula that does not fit its link
    BadFormula,
    // a file that does not begin with a header
    BadHeader,
    // a unit of airflow but for letter case
    UnclearUnit,
    // no signal of airflow, or more than a panel has fields for
    FlowCount,
    // a text that is not that of a panel
    BadImage,
    // a saved text of a version that is not known
    UnknownVersion,
    // a saved panel that has a loop, a blocked link or stay, or a required link that waits
    Unfit,
}

// The reply to a command: an accepted one has a count, of the fields that are redrawn or, for a plan, of the fields listed.
pub type Reply = Result<u8, Refusal>;

// What a command comes to. The panel is changed by whoever takes the step, who then has the count of its reply: here it is 0, but for a plan's.
#[derive(Clone, Copy)]
pub struct Step {
    pub reply: Reply,
    // what the panel then has: its fields, the stays' places, the link of the number that the command names
    pub size: usize,
    pub place: [u8; 64],
    pub link: Link,
    // the standing of a link that is dropped: what it held is set by its stay
    pub freed: Standing,
    // what then sets the first field of a path that is reversed, a link's number or STAY, and how many fields the path has
    pub setter: u8,
    pub count: usize,
    // the fields that get another setter, and those that get another value
    pub changed: u64,
    pub revalued: u64,
}

// The link of a number that is not in use.
pub fn no_link() -> Link
    ensures { result ≡ no_link }
{
    Link {
        covered: 0,
        outputs: 0,
        level: 0,
        used: false,
        standing: Standing::Waiting,
    }
}

// The step that leaves the panel as it is: its fields, the stays' places and the link of the number that the command names.
pub fn unchanged(size: usize, place: &[u8; 64], named: Link, reply: Reply) -> Step
    ensures { result ≡ unchanged size place.now named reply }
{
    Step {
        reply,
        size,
        place: *place,
        link: named,
        freed: Standing::Waiting,
        setter: STAY,
        count: 0,
        changed: 0,
        revalued: 0,
    }
}
