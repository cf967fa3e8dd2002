//! The book: the state of a recording, changed by `begin` and `commit` alone.

ghost use Rattle.std.specs.Prelude.{◌≡◌, ◌<◌, ◌+◌, ◌-◌, [], length, Some, None, Err, IfOk, IfErr, IfSome, IfNone, OnOk, IsOk, IsTrue, ◌↔◌, ◌≤◌, ◌⊎◌};
ghost use Rattle.lft_model.specs.{Plans.PlanParts, Breaches.Legal};
ghost use Rattle.lft_pool.specs.{Books.{BookParts, IsRecording}, PendingEvents.SamePending, Reasons.{ReasonHolds, StopHolds}, Begun.{MatchBegin, Started}};
ghost use Rattle.lft_pool.specs.{Causes.{BeginCause, StartCause}, Answers.{HasTicket, KeepsOpenRuns, Committed, CommitCause, EndCause}};
ghost use Rattle.lft_pool.specs.inner.Answers.{HasClash, RefusalCause};
ghost use Rattle.lft_scheduler.specs.Starts.{IsAnyOpen, IsBusy, MayStartFirst, NoneMayStart, NothingLeft, SomethingLeft, started_count};

use crate::bodies::{Answered, Bodies, Body, BoxedCode, Code, Done, Law, Ticket, ticket_of};
use crate::states::States;
use crate::stop::Stop;
use crate::words::{is_same, no_words, set_word, word_at};
use lft_ir::steps::Rows;
use lft_model::Plan;
use lft_scheduler::{Agenda, NextRun, begun, committed, has_long_delay, may_make_all};
use lft_tag::{MAX_ROWS, MAX_RUNS, NoMemory, Tag};
use std::alloc::Global;
use std::marker::Model;

/// What a worker is to do next.
#[derive(Drop)]
pub enum Begin<L: Law, C: Code + Drop = BoxedCode> {
    /// To call the body with the ticket, outside of any lock, and to commit what comes of it.
    Run(Ticket, Body<L, C>),
    /// To ask again once some run has ended: its own, if it has one open, else any.
    Wait,
    /// Nothing: no reaction is left to run up to the stop.
    Finished,
}

/// The state of a recording.
// What a recording promises is the invariant: nothing else crosses a lock.
#[derive(Drop)]
pub struct Book<L: Law, C: Code + Drop = BoxedCode> {
    alloc: Global,
    plan: Plan,
    rows: Rows,
    states: States,
    words: Vec<i64>,
    bodies: Bodies<L, C>,
    started: u32,
    max_runs: u32,
    reason: Option<Stop>,
    agenda: Agenda,
}

impl<L: Law, C: Code + Drop> Model for Book<L, C> {
    ghost use Rattle.std.specs.Prelude.{None};
    ghost use Rattle.lft_pool.specs.{Books.{BookParts, IsRecording}, inner.Books.{IsKept, AgendaHolds}, Reasons.ReasonHolds};

    ghost Value = { BookParts };

    ghost view = { λ b. record { plan = b.plan; rows = b.rows; states = b.states; left = b.bodies; max_runs = b.max_runs; reason = b.reason } };

    ghost invariant = { λ b. IsRecording L.holds b.plan b.rows b.states × IsKept b.plan b.rows b.states b.words.items b.started b.bodies × AgendaHolds b.reason b.plan b.rows b.agenda × ReasonHolds L.holds (record { plan = b.plan; rows = b.rows; states = b.states; left = b.bodies; max_runs = b.max_runs; reason = None }) b.reason };
}

/// What a book hands back; `started` is how many runs have started.
#[derive(Drop)]
pub struct Closed<L: Law, C: Code + Drop = BoxedCode> {
    pub reason: Option<Stop>,
    pub plan: Plan,
    pub rows: Rows,
    pub states: States,
    pub left: Bodies<L, C>,
    pub started: u32,
}

/// A recording that stopped: its plan, the rows so far, the words before and after each ended run,
/// and the bodies that weren't taken.
#[derive(Drop)]
pub struct Stopped<L: Law, C: Code + Drop = BoxedCode> {
    pub reason: Stop,
    pub plan: Plan,
    pub rows: Rows,
    pub states: States,
    pub left: Bodies<L, C>,
}

impl<L: Law, C: Code + Drop> Book<L, C> {
    /// A book of the plan, without rows. Where memory is refused it hands plan and bodies back.
    pub fn new(
        alloc: Global,
        plan: Plan,
        bodies: Bodies<L, C>,
        max_runs: u32,
    ) -> Result<Book<L, C>, Stopped<L, C>>
        requires { length bodies ≡ length plan.program.reactions }
        ensures ok { IfOk result (λ b. b ≡ record { plan = plan; rows = []; states = []; left = bodies; max_runs = max_runs; reason = None }) }
        ensures err { IfErr result (λ s. (s.plan ≡ plan) × (s.left ≡ bodies) × (s.rows ≡ []) × (s.states ≡ []) × (s.reason ≡ Stop.NoMemory)) }
    {
        let rows = Rows::from_vec(Vec::new(alloc));
        let states = States::new(alloc);
        let (Ok(words), Ok(agenda)) = (no_words(alloc, plan.program()), Agenda::new(alloc, &plan))
        else {
            return Err(Stopped {
                reason: Stop::NoMemory,
                plan,
                rows,
                states,
                left: bodies,
            });
        };
        Ok(Book {
            alloc,
            plan,
            rows,
            states,
            words,
            bodies,
            started: 0,
            max_runs,
            reason: None,
            agenda,
        })
    }

    /// What a worker is to do next. `Wait` and `Finished` change nothing, and a refusal keeps its
    /// reason alone.
    pub fn begin(&mut self, worker: u32) -> Result<Begin<L, C>, Stop>
        ensures ok { IfOk result (λ b. MatchBegin b (λ t r. Started self.old self.new worker t r) (self.new ≡ self.old) ((self.new ≡ self.old) × NothingLeft self.old.plan self.old.rows)) }
        ensures wait { IfOk result (λ b. MatchBegin b (λ _ _. Unit {0}) (IsBusy self.old.rows worker ⊎ (IsAnyOpen self.old.rows × NoneMayStart self.old.plan self.old.rows)) (Unit {0})) }
        ensures left { IfOk result (λ b. MatchBegin b (λ _ _. SomethingLeft self.new.plan self.new.rows) (SomethingLeft self.new.plan self.new.rows) (Unit {0})) }
        ensures legal { IfOk result (λ b. MatchBegin b (λ _ _. Unit {0}) (Unit {0}) (Legal self.old.plan self.old.rows)) }
        ensures err { IfErr result (λ s. self.new ≡ record self.old { reason = Some s }) }
        ensures pending { IfErr result (λ _. SamePending self.old self.new) }
        ensures cause { IfErr result (λ s. self.old.reason ≡ None → BeginCause self.old worker s) }
        ensures kept { IfSome self.old.reason (λ s. result ≡ Err s) }
    {
        if let Some(kept) = self.reason {
            return Err(kept);
        }
        // Asked for what every plan keeps: it is sound, so that an open run is pending.
        self.plan.keeps();
        if self.agenda.is_busy(worker) {
            return Ok(Begin::Wait);
        }
        match self.agenda.find() {
            NextRun::Ready(tag, reaction) => return self.start(worker, tag, reaction),
            NextRun::Blocked => return Ok(Begin::Wait),
            NextRun::Nothing => return Ok(Begin::Finished),
        }
    }

    // Starts the run of the least reaction that may start.
    fn start(&mut self, worker: u32, tag: Tag, reaction: u32) -> Result<Begin<L, C>, Stop>
        requires going { self.old.reason ≡ None }
        requires idle { IsBusy self.old.rows worker → ⊥ }
        requires first { MayStartFirst self.old.plan self.old.rows tag reaction }
        ensures ok { IfOk result (λ b. MatchBegin b (λ t r. Started self.old self.new worker t r) ⊥ ⊥) }
        ensures left { IfOk result (λ b. MatchBegin b (λ _ _. SomethingLeft self.new.plan self.new.rows) ⊥ ⊥) }
        ensures err { IfErr result (λ s. self.new ≡ record self.old { reason = Some s }) }
        ensures cause { IfErr result (λ s. StartCause self.old worker tag reaction s) }
    {
        let instance = self.plan.program().reaction(reaction).instance;
        if Tag::new(tag.time, tag.micro).is_none() {
            return Err(self.stop(Stop::LimitTag));
        }
        if self.started >= self.max_runs || self.started >= MAX_RUNS {
            return Err(self.stop(Stop::TooManyRuns));
        }
        if self.bodies.left(reaction) == 0 {
            return Err(self.stop(Stop::NoBody(reaction)));
        }
        let Ok(reads) = self.agenda.inputs(&self.plan, tag, reaction) else {
            return Err(self.stop(Stop::NoMemory));
        };
        let Ok(added) = begun(self.alloc, &self.plan, worker, tag, reaction, &reads) else {
            return Err(self.stop(Stop::NoMemory));
        };
        if self.rows.as_slice().len() + added.len() > MAX_ROWS {
            return Err(self.stop(Stop::TooManyRows));
        }
        // From here on agenda and rows don't agree until both have the run, so where one of them
        // refuses the reason is kept at once: the invariant asks nothing of a stopped book's agenda.
        let Ok(()) = self.agenda.begin(worker, tag, reaction, &reads) else {
            self.reason = Some(Stop::NoMemory);
            return Err(Stop::NoMemory);
        };
        let Ok(()) = self.rows.append(added.as_slice()) else {
            self.reason = Some(Stop::NoMemory);
            return Err(Stop::NoMemory);
        };
        let body = self.bodies.take(reaction);
        self.started += 1;
        let state = word_at(self.words.as_slice(), instance);
        let ticket = ticket_of(worker, tag, reaction, state, reads);
        Ok(Begin::Run(ticket, body))
    }

    /// Ends the run of an answer: adds the rows of its steps and the end row, and replaces the state
    /// word. A refusal drops the answer and keeps its reason alone.
    pub fn commit(&mut self, answered: Answered<L>) -> Result<(), Stop>
        ensures ok { OnOk result (IfOk answered.1 (λ d. Committed self.old self.new answered.0 d) × IsOk answered.1) }
        ensures commuting { OnOk result (KeepsOpenRuns self.old.plan self.old.rows self.new.rows) }
        ensures err { IfErr result (λ s. self.new ≡ record self.old { reason = Some s }) }
        ensures pending { IfErr result (λ _. SamePending self.old self.new) }
        ensures cause { IfErr result (λ s. self.old.reason ≡ None → CommitCause self.old answered.0 answered.1 s) }
        ensures kept { IfSome self.old.reason (λ s. result ≡ Err s) }
    {
        if let Some(stop) = self.reason {
            return Err(stop);
        }
        let (ticket, answer) = answered.into_parts();
        if !self.has_ticket(&ticket) {
            return Err(self.stop(Stop::Stranger));
        }
        let Ok(done) = answer else {
            return Err(self.stop(Stop::BodyNoMemory));
        };
        return self.end(ticket, done);
    }

    // Whether an open run has the ticket.
    fn has_ticket(&self, ticket: &Ticket) -> bool
        requires going { self.now.reason ≡ None }
        ensures { IsTrue result ↔ HasTicket self.now ticket.now }
    {
        let Ticket {
            worker,
            tag,
            reaction,
            state,
            reads,
        } = ticket;
        if !self
            .agenda
            .has_reads(*worker, *tag, *reaction, reads.as_slice())
        {
            return false;
        }
        let instance = self.plan.program().reaction(*reaction).instance;
        is_same(word_at(self.words.as_slice(), instance), *state)
    }

    // Ends the run of the ticket with an answer that meets the law.
    fn end(&mut self, ticket: Ticket, done: Done) -> Result<(), Stop>
        requires going { self.old.reason ≡ None }
        requires ticket { HasTicket self.old ticket }
        requires lawful { L.holds ticket.reaction ticket.tag ticket.state ticket.reads done }
        ensures ok { OnOk result (Committed self.old self.new ticket done) }
        ensures commuting { OnOk result (KeepsOpenRuns self.old.plan self.old.rows self.new.rows) }
        ensures err { IfErr result (λ s. self.new ≡ record self.old { reason = Some s }) }
        ensures cause { IfErr result (λ s. EndCause self.old ticket done s) }
    {
        let Ticket {
            worker,
            tag,
            reaction,
            state,
            reads: _,
        } = ticket;
        let Done { state: word, steps } = done;
        let steps = steps.as_slice();
        let program = self.plan.program();
        if !may_make_all(&self.plan, reaction, steps) {
            return Err(self.stop(Stop::UndeclaredEffect(reaction)));
        }
        if has_long_delay(steps) {
            return Err(self.stop(Stop::LimitTag));
        }
        // All rows of an answer come with its end row. So the rows have the stop and the events of ended runs,
        // and what may start can be asked of them.
        let Ok(added) = committed(self.alloc, worker, tag, reaction, steps) else {
            return Err(self.stop(Stop::NoMemory));
        };
        let place = program.reaction(reaction).instance;
        let before = self.rows.as_slice().len();
        // From here on rows and agenda don't agree until both have the answer, as in `start`.
        let Ok(()) = self.rows.append(added.as_slice()) else {
            self.reason = Some(Stop::NoMemory);
            return Err(Stop::NoMemory);
        };
        let Ok(clash) = self.agenda.end(&self.plan, worker, tag, reaction, steps) else {
            self.rows.truncate(before);
            self.reason = Some(Stop::NoMemory);
            return Err(Stop::NoMemory);
        };
        if let Some(reason) = refusal(clash, &self.rows) {
            self.rows.truncate(before);
            self.reason = Some(reason);
            return Err(reason);
        }
        let Ok(()) = self.states.push((state, word)) else {
            self.rows.truncate(before);
            self.reason = Some(Stop::NoMemory);
            return Err(Stop::NoMemory);
        };
        set_word(&mut self.words, place, word);
        Ok(())
    }

    // Keeps the reason, and gives it.
    fn stop(&mut self, reason: Stop) -> Stop
        requires going { self.old.reason ≡ None }
        requires holds { StopHolds L.holds self.old reason }
        ensures same { result ≡ reason }
        ensures kept { self.new ≡ record self.old { reason = Some reason } }
    {
        // Nothing else changes that contracts see, so the cause of the reason still holds of the book later.
        self.reason = Some(reason);
        reason
    }

    /// Hands back all that the book holds. It takes no memory.
    pub fn close(self) -> Closed<L, C>
        ensures same { (result.plan ≡ self.plan) × (result.rows ≡ self.rows) × (result.states ≡ self.states) × (result.left ≡ self.left) × (result.reason ≡ self.reason) }
        ensures recording { IsRecording L.holds self.plan self.rows self.states }
        ensures lists { length self.left ≡ length self.plan.program.reactions }
        ensures started { result.started ≡ started_count self.rows }
        ensures few_runs { started_count self.rows ≤ 1000000 }
        ensures why { ReasonHolds L.holds (record self { reason = None }) self.reason }
    {
        let Book {
            alloc: _,
            plan,
            rows,
            states,
            words: _,
            bodies,
            started,
            max_runs: _,
            reason,
            agenda: _,
        } = self;
        Closed {
            reason,
            plan,
            rows,
            states,
            left: bodies,
            started,
        }
    }
}

// Why rows with an answer can't be kept: their first collision, or that there are too many.
fn refusal(clash: Option<Tag>, rows: &Rows) -> Option<Stop>
    ensures some { (plan : PlanParts) → HasClash plan rows.now clash → IfSome result (λ s. RefusalCause plan rows.now s) }
    ensures clean { IfNone result (clash ≡ None) }
    ensures few { IfNone result (length rows.now ≤ 4000000) }
{
    if let Some(tag) = clash {
        return Some(Stop::Collision(tag));
    }
    if rows.as_slice().len() > MAX_ROWS {
        return Some(Stop::TooManyRows);
    }
    None
}
