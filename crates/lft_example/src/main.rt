//! Records a program whose code stands here, and writes its trace table. A word behind the program's
//! name is the number of workers, 1 to 64; without one it is 1. docs/EMBEDDING.md goes through it.
#![tactic(auto)]

ghost use Rattle.std.specs.Prelude.{◌≡◌, IfOk, length};

use lft_ir::{Name, Program, Value};
use lft_load::{Fault, finish, load, write_text};
use lft_model::Reads;
use lft_pool::{Bodies, Body, Code, Done, Law, Steps, record_run};
use lft_record::stop_fault;
use lft_tag::{NoMemory, Tag};
use lft_trace::{Step, write_trace};
use std::alloc::Global;
use std::io::Write;
use std::process::ExitCode;
use std::sync::Wait;
use std::thread::Threads;
use std::{env, io};

/// Every 10 ms a sensor measures a temperature and a control tells the power that it calls for; the
/// heater gets it 2 ms later.
const PROGRAM: &[u8] = b"target C
reactor Sensor { output temperature: int  timer t(0, 10 ms)  reaction(t) -> temperature {= =} }
reactor Control { input temperature: int  output power: int  reaction(temperature) -> power {= =} }
reactor Heater { input power: int  reaction(power) {= =} }
main reactor {
  sensor = new Sensor()  control = new Control()  heater = new Heater()
  sensor.temperature -> control.temperature
  control.power -> heater.power after 2 ms
}
";

/// The execution is stopped after 12 ms: the stop's tag is the last one that is recorded.
const EXTERNALS: &[u8] = b"kind,time,microstep,name,value\nstop,12000000,0,,\n";

/// What the sensor measures, one number for each of its runs. Each reaction runs as often.
const MEASURED: [i64; 2] = [19, 23];

/// The greatest number of runs, for bodies that never come to the stop.
const MOST_RUNS: u32 = 1_000;

/// The law of the answers here: a run leaves the state word of its reactor as it was. A law is one
/// relation over reaction, tag, state word, reads and answer, for contracts alone. `Body::new` asks
/// for a proof that the code meets it, and `record_run` says it of every run that was recorded.
/// Where nothing is to be said of answers, take `lft_pool::AnyAnswer`.
struct Stateless;

impl Law for Stateless {
    ghost use Rattle.std.specs.Prelude.{◌≡◌};

    ghost holds = { λ _ _ state _ done. done.state ≡ state };
}

/// What a run does.
#[derive(Clone, Copy)]
enum RunWork {
    Measure(i64),
    Control,
    Heat,
}

impl RunWork {
    /// The number that the run writes. The reads are the reaction's inputs in their order, triggers
    /// before uses, each with its value or absent.
    fn output(self, reads: &Reads) -> Option<i64> {
        match (self, reads.as_slice().first()) {
            (RunWork::Measure(temperature), _) => Some(temperature),
            (RunWork::Control, Some(Some(Value::Int(temperature)))) => {
                Some(22i64.saturating_sub(*temperature).max(0))
            }
            _ => None,
        }
    }
}

/// The code of one run: it is called once, in the thread of the worker that takes it, and so owns
/// what it needs. `output` is the port that its reaction may write.
#[derive(Drop)]
struct Task {
    alloc: Global,
    work: RunWork,
    output: Option<Name>,
}

impl Code for Task {
    ghost use Rattle.std.specs.Prelude.{◌≡◌, IfOk};

    // It may be run on every tag, word and reads, and this is what is known of its answer.
    ghost can_run = { λ _. Unit {0} };

    ghost gives = { λ _ _ state _ answer. IfOk answer (λ done. done.state ≡ state) };

    fn run(self, _tag: Tag, state: i64, reads: Reads) -> Result<Done, NoMemory> {
        let mut steps = Vec::new(self.alloc);
        if let (Some(port), Some(number)) = (self.output, self.work.output(&reads)) {
            steps.push(Step::Write(port, Value::Int(number)))?;
        }
        Ok(Done {
            state,
            steps: Steps::from_vec(steps),
        })
    }

    // Each body has its own code here. Where many have the same, `Bodies::put_many` keeps it once.
    fn again(&self) -> Option<Self> {
        None
    }
}

/// For each reaction a body for each of its runs. The body that is put first is taken first.
fn bodies_of(alloc: Global, program: &Program) -> Result<Bodies<Stateless, Task>, NoMemory>
    ensures { IfOk result (λ bodies. length bodies ≡ length program.now.reactions) }
{
    let mut bodies = Bodies::new(alloc, program)?;
    for number in 0..program.reactions() {
        let number = number as u32;
        let output = program.reaction(number).effects.as_slice().first().copied();
        for temperature in MEASURED {
            let work = match program.name_of_reaction(number) {
                "main.sensor#1" => RunWork::Measure(temperature),
                "main.control#1" => RunWork::Control,
                _ => RunWork::Heat,
            };
            let task = Task {
                alloc,
                work,
                output,
            };
            if bodies.put(Body::new(number, task)).is_err() {
                return Err(NoMemory);
            }
        }
    }
    Ok(bodies)
}

/// Records the program by so many workers, and writes the trace table.
fn record<R: Threads + Wait + Sync, W: Write>(
    rt: &R,
    alloc: Global,
    workers: u32,
    out: &mut W,
) -> Result<bool, Fault> {
    let plan = load(alloc, PROGRAM, EXTERNALS)?;
    let Ok(bodies) = bodies_of(alloc, plan.program()) else {
        return Err(Fault::no_memory());
    };
    match record_run(rt, alloc, plan, bodies, workers, MOST_RUNS) {
        Ok(recorded) => {
            // The rows are now known to be an execution of this plan up to its stop, and each answer
            // in them to meet the law, whatever the workers did. Which of several workers ran what
            // isn't known.
            let Ok(table) = write_trace(alloc, recorded.plan.program(), &recorded.rows) else {
                return Err(Fault::no_memory());
            };
            write_text(table.as_slice(), out)?;
            Ok(true)
        }
        // The rows so far are in `stopped.rows`; `record_to` writes them too.
        Err(stopped) => match stop_fault(alloc, stopped.plan.program(), stopped.reason) {
            Ok(fault) => Err(fault),
            Err(_) => Err(Fault::no_memory()),
        },
    }
}

fn main(rt: HostRuntime) -> ExitCode {
    let word = match env::args(&rt) {
        Ok(mut words) => words.nth(1),
        Err(_) => None,
    };
    let workers = match word {
        Some(word) => word.as_str().parse::<u32>().unwrap_or(0),
        None => 1,
    };
    let answer = record(&rt, rt.alloc(), workers, &mut io::writer(&rt));
    ExitCode::from(finish(answer, &mut rt.stderr()))
}
