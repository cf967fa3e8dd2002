//! What the command line says of each command behind its arguments.

pub(crate) const HELP: &str = "\
Status: 0 accepted, same, recorded or shown, 1 broken or differ,
2 a fault (on standard error); of follow and --until also 3 unbroken, where rows
are missing, and 4 odd, where it can't judge further.
A bundle is the lines `--- program`, `--- externals` and `--- trace`,
each with its text after it.";

pub(crate) const JUDGE_HELP: &str = "\
EXTERNALS has the header  kind,time,microstep,name,value
TRACE has the header      event,worker,time,microstep,reaction,name,value,delay
Times are in nanoseconds. Arguments are paths; /dev/stdin is standard input.
Printed: accepted runs=R tags=G (status 0), or broken rule=N .. (status 1).
With --until the lines of follow, unbroken .. (status 0 or 3)
and odd .. (status 4) among them.";

pub(crate) const COVER_HELP: &str = "\
EXTERNALS has the header  kind,time,microstep,name,value
TRACE has the header      event,worker,time,microstep,reaction,name,value,delay
Times are in nanoseconds. Arguments are paths; /dev/stdin is standard input.
Printed: the line of judge, with its status; behind accepted .. what the trace
exercised of the program and of the scheduler. With --list one fact a line.";

pub(crate) const EXPLAIN_HELP: &str = "\
EXTERNALS has the header  kind,time,microstep,name,value
TRACE has the header      event,worker,time,microstep,reaction,name,value,delay
Times are in nanoseconds. Arguments are paths; /dev/stdin is standard input.
Without arguments it explains a bundle from standard input. With PROGRAM alone
it tells why that is refused (status 2), or else prints what show prints.
Printed: the line of judge, with its status; behind broken rule=N .. an empty
line and the facts that show it. With two traces the line of pair, with its
status; behind differ .. an empty line and both answers. Of each part the first
60 lines are printed, and how many others there are; with --all all lines.
With --until the line and the status are those of judge --until, and the facts
are of the trace up to the line that they name.";

pub(crate) const PAIR_HELP: &str = "\
EXTERNALS has the header
  kind,time,microstep,name,value
FIRST and SECOND have the header
  event,worker,time,microstep,reaction,name,value,delay
Times are in nanoseconds. Arguments are paths; /dev/stdin is standard input.
Printed: same runs=R tags=G (status 0); differ time=T microstep=M reaction=X,
where that reaction met the same history and inputs in both and answered
otherwise; or first broken rule=N .. or second broken rule=N .. (status 1).";

pub(crate) const RECORD_HELP: &str = "\
EXTERNALS has the header  kind,time,microstep,name,value
CARDS has the header      kind,reaction,name,delay,value
A card is how many bodies a reaction has (bodies), a step of each (write,
schedule, stop), or the state word that each leaves (state).
Arguments are paths.
Printed: the trace table (status 0); where the recording stops, the rows so far,
and a fault of part pool (status 2).";

pub(crate) const FOLLOW_HELP: &str = "\
EXTERNALS has the header  kind,time,microstep,name,value
LOG has the header        event,worker,time,microstep,reaction,name,value,delay
Times are in nanoseconds. Arguments are paths; without LOG it is standard input.
LOG may have lines of EXTERNALS among its rows: an event before rows at later
tags, and an earlier stop. Without EXTERNALS it has all of them:
  lftrace follow PROGRAM < LOG
Its lines are plain: without quotation marks. Nothing is read behind what is
told.
Printed: accepted runs=R tags=G (status 0); broken rule=N .. (status 1), as soon
as it is sure; odd line=L runs=R tags=G .. (status 4), where the rows up to
line L can't be judged further, since too much waits or memory is refused;
unbroken runs=R tags=G .. at the end (status 3), where rows are missing or those
at the last tag may break a rule: --whole tells; the same with --until (status
0). Behind .. stands the last tag that was judged, time=T microstep=M.
With --explain an empty line and the facts that show it stand behind broken ..,
of the trace up to the line that they name, and the runs that are open behind
unbroken .. at the end. For the facts what is read is kept, as much as a table
may have.";

pub(crate) const SHOW_HELP: &str = "\
PROGRAM is the path of a file; /dev/stdin is standard input.
Printed: port P origin=O after=TIME+STEPS for each port, then
reaction X level=K before=Y Z for each reaction (status 0).
With --all also instance I, action A kind=logical least=TIME,
timer T offset=TIME period=TIME, and below the line of a reaction, one a line,
trigger X N, use X N, write X P, schedule X A.
With --lower notes stand on standard error: what a runtime has to do, or isn't
connected.";
