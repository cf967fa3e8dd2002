//! Facts about a trace.

use lft_ir::{Name, Trigger, Value};
use lft_tag::Tag;
use std::marker::Model;

/// Why a trigger or an input is present at a tag.
#[derive(Clone, Copy, Drop)]
pub enum Cause {
    /// The tag is the first of all.
    AtStartup { tag: Tag },
    /// The tag is the stop.
    AtShutdown { tag: Tag },
    /// A timer fires at the tag, so many periods after its offset.
    Fires { tag: Tag, timer: u32, count: u64 },
    /// A port has an event at the tag, from the last write of its origin, in this row.
    Written { tag: Tag, port: u32, row: u32 },
    /// An action has an event at the tag, from the schedule in this row.
    Scheduled { tag: Tag, action: u32, row: u32 },
    /// An action has an event at the tag, from this event of the external inputs.
    Given { tag: Tag, action: u32, event: u32 },
}

/// What is wrong with a row, by one of the rules 1 to 5.
#[derive(Clone, Copy, Drop)]
pub enum RowFact {
    /// It is at a lesser tag than a row before it.
    Late { row: u32, earlier: u32 },
    /// It is at a tag after the stop.
    AfterStop { row: u32 },
    /// It starts a run that a row before it started too.
    StartsAgain { row: u32, first: u32 },
    /// It starts a run while its worker has one open, which it started in another row.
    Busy { row: u32, start: u32 },
    /// It is of a run that its worker has not open.
    NotOpen { row: u32 },
    /// It reads what is not among the inputs of its reaction.
    NotInput { row: u32 },
    /// It reads what a row before it, of the same run, read too.
    ReadAgain { row: u32, first: u32 },
    /// It writes or schedules what its reaction may not.
    NotEffect { row: u32 },
    /// It starts a run that has no end row.
    Unended { row: u32 },
}

/// What a port or an action is.
#[derive(Clone, Copy, Drop)]
pub enum ThingKind {
    /// A port.
    Port,
    /// An action that reactions schedule.
    Logical,
    /// An action whose events are external inputs.
    Physical,
}

/// A statement beside those that are enough for a breach: what a reader asks next.
#[derive(Clone, Copy, Drop)]
pub enum Reason {
    /// The trigger is present at another tag, and nowhere between the two tags.
    Nearest {
        tag: Tag,
        trigger: Trigger,
        at: Tag,
    },
    /// A reaction has no run at the tag, and precedes the next one of a chain all the same.
    PassedBy {
        tag: Tag,
        reaction: u32,
        next: u32,
    },
    /// A reaction has no run at all.
    NeverRuns {
        reaction: u32,
    },
    /// The last run of a reaction before the tag is at another one, and starts in this row.
    RunBefore {
        tag: Tag,
        reaction: u32,
        at: Tag,
        start: u32,
    },
    /// The first run of a reaction after the tag is at another one, and starts in this row.
    RunAfter {
        tag: Tag,
        reaction: u32,
        at: Tag,
        start: u32,
    },
    /// The last row of all, its tag, and the stop.
    LastRow {
        row: u32,
        tag: Tag,
        stop: Tag,
    },
    /// The stop, as the external inputs say.
    StopGiven {
        tag: Tag,
    },
    /// The stop, for which this row asks one microstep before.
    StopAsked {
        tag: Tag,
        row: u32,
    },
    /// The worker of the row ended that run before, in another row.
    EndedIn {
        row: u32,
        end: u32,
    },
    /// The worker of the row has a run open, which it started in another row.
    HasOpen {
        row: u32,
        start: u32,
    },
    /// Another worker has the run of the row open, which it started in another row.
    OpenOn {
        row: u32,
        start: u32,
    },
    /// A later row starts the run of the row.
    StartsIn {
        row: u32,
        start: u32,
    },
    /// What the inputs of a reaction are.
    Inputs {
        reaction: u32,
    },
    /// What the effects of a reaction are.
    Effects {
        reaction: u32,
    },
    /// What a port or action is.
    KindOf {
        name: Name,
        kind: ThingKind,
    },
    /// What a port gets is written at another one, its origin.
    FedBy {
        port: u32,
        origin: u32,
    },
    /// A later row ends a run of that reaction, by another worker or at another tag.
    EndsOther {
        row: u32,
        end: u32,
    },
    /// The last row of the worker of the row.
    LastOfWorker {
        row: u32,
        last: u32,
    },
    /// The run of the row is open: it starts in another row, and between the two is the first row of all at
    /// a later tag.
    OpenAcross {
        row: u32,
        start: u32,
        later: u32,
    },
    /// The first row behind the row that is at a later tag.
    LaterTag {
        row: u32,
        later: u32,
    },
}

/// A statement about a plan and the rows of a trace. Rows and events are named by their places,
/// counted from 0; the row at place 0 stands in line 2 of the table.
#[derive(Clone, Copy, Drop)]
pub enum Fact {
    /// The tag and the reaction of a row.
    RowIs {
        tag: Tag,
        reaction: u32,
        row: u32,
    },
    /// What is wrong with a row.
    Row(RowFact),
    /// Why something is present.
    Cause(Cause),
    /// Two causes that give one port or action an event at the tag.
    Clash {
        tag: Tag,
        first: Cause,
        second: Cause,
    },
    /// A reaction is triggered and has no run at the tag.
    NoRun {
        tag: Tag,
        reaction: u32,
    },
    /// One of the triggers of a reaction.
    HasTrigger {
        reaction: u32,
        trigger: Trigger,
    },
    /// A reaction starts at the tag, in this row.
    Runs {
        tag: Tag,
        reaction: u32,
        start: u32,
    },
    /// How many triggers a reaction has.
    TriggerCount {
        reaction: u32,
        count: usize,
    },
    /// The trigger of a reaction at this place among its triggers is absent at the tag.
    Untriggered {
        tag: Tag,
        reaction: u32,
        place: usize,
        trigger: Trigger,
    },
    /// A reaction starts at the tag before another one, which precedes it, has ended there.
    StartsEarly {
        tag: Tag,
        earlier: u32,
        later: u32,
        start: u32,
        end: u32,
    },
    /// A race: a reaction starts at the tag although another one, which precedes it, has a run there that
    /// ends in a later row.
    Race {
        tag: Tag,
        earlier: u32,
        later: u32,
        start: u32,
        end: u32,
    },
    /// Two reactions of one instance, in the order of their declaration.
    DeclaredFirst {
        first: u32,
        second: u32,
    },
    /// A reaction may write what an input port of another one shows at once.
    Feeds {
        writer: u32,
        reader: u32,
        port: u32,
    },
    /// What a run read of the input at this place among its inputs, and what is present there.
    Reads {
        tag: Tag,
        reaction: u32,
        place: usize,
        name: Name,
        read: Option<Value>,
        present: Option<Value>,
    },
    /// What a reader asks next.
    Reason(Reason),
}

/// Facts in the order in which they are told.
#[derive(Drop)]
pub struct Facts {
    items: Vec<Fact>,
}

impl Model for Facts {
    ghost use Rattle.std.specs.Prelude.{List};
    ghost use Rattle.lft_facts.specs.declared.facts.Fact.{Fact};

    ghost Value = { List Fact };

    ghost view = { λ a. a.items.items };
}

impl Facts {
    ghost use Rattle.std.specs.Prelude.{◌≡◌};

    /// The facts of the list. It takes no memory.
    pub(crate) fn from_vec(items: Vec<Fact>) -> Facts
        ensures { result ≡ items.items }
    {
        Facts { items }
    }

    /// The facts in order.
    pub fn as_slice(&self) -> &[Fact]
        ensures { result.now ≡ self.now }
    {
        self.items.as_slice()
    }
}
