//! The help of each command beside its usage, with a worked example.

pub(crate) const PROGRAM: &str = "\
Example:
  $ ./dekarino table examples/readme/config.toml
  partition FMS
    1 NAV_OUT queuing source NAV size 4 depth 2 to DSP.NAV_IN
  partition DSP
    1 NAV_IN queuing destination NAV size 4 depth 2 from FMS.NAV_OUT

The status is 0 if all was done, 1 if a text was refused, 2 if the command line is wrong, 3 if memory ran out or a file
or the output could not be read or written, 4 if the answer is no, such as when a judged log differs from the standard,
and 5 if no answer was found.";

pub(crate) const TABLE: &str = "\
Prints a line for each partition, and below it a line for each of its ports, by identifier: name, kind, direction,
channel, the channel's sizes, and the ports at the channel's other end. If the configuration is refused, it prints the
places of the fault.

Example:
  $ ./dekarino table examples/readme/config.toml
  partition FMS
    1 NAV_OUT queuing source NAV size 4 depth 2 to DSP.NAV_IN
  partition DSP
    1 NAV_IN queuing destination NAV size 4 depth 2 from FMS.NAV_OUT";

pub(crate) const EXPLAIN: &str = "\
Prints the trace with the reply behind each call and, if the reply is not NO_ERROR, the row of the reply table that gave
it. Remarks follow. An argument NAME=SCRIPT gives partition NAME a script: each such partition runs in a thread, and the
calls are printed in the order in which they happened. An argument without `NAME=` is a trace, so write ./A=B for a
trace called A=B.

Example:
  $ ./dekarino explain examples/readme/config.toml examples/readme/trace.txt
  10 FMS create-queuing NAV_OUT 4 2 0 0 -> NO_ERROR id 1
  20 DSP create-queuing NAV_IN 4 2 1 0 -> NO_ERROR id 1
  30 FMS send 1 0a0b -> NO_ERROR
  40 DSP receive 1 -> NO_ERROR message 0a0b
  50 DSP receive 1 -> NOT_AVAILABLE (no message waits on NAV)
  60 FMS send 1 0102030405 -> INVALID_CONFIG (message of 5 bytes, channel NAV takes 4)

  after 6 calls";

pub(crate) const DRAW: &str = "\
Prints an SVG. A configuration becomes boxes with ports, and arrows for channels. A trace becomes a chart: a lifeline for
each partition, the calls from top to bottom, an arrow from each send or write to the call that got its message, crosses
at refused calls, and rings at messages that wait in the end. It draws at most 2,000 calls.

With --json it draws nothing: it prints a JSON object with the arrows between the calls of a trace of any length, and the
calls that sent what waits in the end. Calls are numbered from 1.

Example:
  $ ./dekarino draw examples/readme/config.toml examples/readme/trace.txt > chart.svg
  $ ./dekarino draw --json examples/readme/config.toml examples/readme/trace.txt
  {\"calls\":6,\"arrows\":[{\"from\":3,\"to\":4,\"kind\":\"message\"}],\"waiting\":[]}";

pub(crate) const JUDGE: &str = "\
A log is a trace with `-> REPLY` after each call, as `explain` prints it, of any length; `-` is standard input. Each reply
that differs from the standard's departs, and gets a line as soon as it is read: the call, what was logged, what the
standard has, and the row of the reply table that gives it. A call is judged after what the log itself shows before it.
After a departure the judge goes on as if the standard's reply had been logged; when the same port or mode departs again,
it believes the log. The last line counts the departures. The status is 4 if there is one.

A faulty line, or one of more than 65536 bytes, ends the reading: its mistake follows the departures found before it. With
--whole such a log is refused whole, with the mistakes of all its lines.

A call without a time-out in its line has time-out zero. `timeout NANOSECONDS` or `timeout infinite` behind the
arguments of a send or a receive gives it another one; its line is then where the call returned. If a call with time-out
zero would get NOT_AVAILABLE, TIMED_OUT is right for a call with a time-out, and with `infinite` neither is right.

With --own-ids, identifiers are the system's: the reply to a create or an id call gives a port its identifier, until the
partition restarts. A reply with another identifier for the port, or with the same one for another port of the partition,
is a departure.

An argument NAME=LOG gives the log that partition NAME kept for itself: its lines lack the partition, and nothing says
which call of another partition came before. If some order of all calls gives each of them its logged reply, the status is 0,
and --order writes that order as a log. If there is no such order, the status is 4. If neither is found within --seconds,
it is 5. Each group of partitions that shares no channel with others has a search of its own.

Example:
  $ ./dekarino judge examples/recorded/config.toml examples/recorded/log.txt
  examples/recorded/log.txt:6: 50 DSP receive 1: logged NO_ERROR message 0c0d, the standard has NO_ERROR message 0a0b
  examples/recorded/log.txt:8: 70 FMS send 1 0102030405: logged NO_ERROR, the standard has INVALID_CONFIG (message of 5 bytes, channel NAV takes 4)
  8 calls, 2 departures
  $ ./dekarino judge examples/recorded/config.toml FMS=examples/recorded/fms.log DSP=examples/recorded/dsp.log
  9 calls, as the standard says in some order";

pub(crate) const TIME_OUTS: &str = "Gives a time-out to each send and receive whose line has none";

pub(crate) const OWN_IDS: &str =
    "Reads identifiers in the log as those that the system gave its ports";

pub(crate) const FIRST: &str = "Ends at the first departure, and counts the calls up to it";

pub(crate) const WHOLE: &str =
    "Reads the log whole, at most 16 MiB, and prints no departure if a line is faulty";

pub(crate) const ORDER: &str = "Writes the order found for logs NAME=LOG to FILE, as a log";

pub(crate) const SECONDS: &str = "Gives up a search after this many seconds [default: 60]";

pub(crate) const DEAD_ENDS: &str =
    "Keeps dead ends of a search in this many MiB, and no more of them beyond [default: 1024]";

pub(crate) const ORDERS: &str = "\
Each partition makes the calls of its script in order. Nothing else says which call comes first; moments order nothing
between partitions, unless `--clock` says that they are of one clock. For each call, by the line of its script, it
prints all replies that some order gives, and no others, after `*` if there are several; and for each queuing channel
the least and the greatest of its counts in the end. Then come the number of states tried and of ends that differ in a
count, in a line for the partitions at the ends of each channel, and the number of calls with several replies. A search
that meets a bound of seconds, memory or states gives up: the status is 5. The partitions at the ends of each channel are
searched by themselves: once for the report, and once more for the orders that --witness writes for the calls of each
partition. Questions about the calls of one partition share such a search, and so do all about ends.

With --witness FOLDER, each reply of several has a file NAME_LINE_REPLY.log in FOLDER, named behind the reply: a shortest
order that ends with that call and that reply, as a log in which `judge` finds no departure. FOLDER is made if it isn't
there, and a file with that name is replaced. At most 1,000 files are written, the first in the order of the report. If a
search gives up, the orders that it found are still written, but no report is printed.

A question NAME:LINE = REPLY is about the call on that line of the partition's script. A return code alone means
every reply with that code. The answer is a shortest order that gives such a reply. A question CHANNEL COUNT OP NUMBER,
as NAV waiting <= 1, is about a queuing channel after all calls. COUNT is accepted, received, cleared or waiting, and OP
is =, <=, >=, < or >. Several questions are answered in the order given, each below a line with the question. The status
is 4 if one answer is no, else 5 if one is undecided.

--why NAME:LINE = REPLY finds two calls that decide: the call gets such a reply if one of them comes right before the
other, and another reply if it comes right after. Two orders follow, as logs, which differ in nothing else. They are
short, but need not be the shortest, and other pairs of calls may decide too. If no order or every order gives such a
reply, a line says so, and the status is 4.

Example:
  $ ./dekarino orders examples/orders/config.toml FMS=examples/orders/fms.script DSP=examples/orders/dsp.script
  FMS:2 10 create-queuing NAV_OUT 4 1 0 0 -> NO_ERROR id 1
  FMS:3 30 send 1 0a0b -> NO_ERROR
  * FMS:4 50 send 1 0c0d -> NOT_AVAILABLE | NO_ERROR
  DSP:2 20 create-queuing NAV_IN 4 1 1 0 -> NO_ERROR id 1
  * DSP:3 40 receive 1 -> NOT_AVAILABLE | NO_ERROR message 0a0b
  queuing NAV accepted 1..2 received 0..1 waiting 0..1
  11 states, 3 ends
  2 calls depend on the order
  $ ./dekarino orders examples/orders/config.toml FMS=examples/orders/fms.script DSP=examples/orders/dsp.script --why 'DSP:3 = NOT_AVAILABLE'
  DSP:3 40 receive 1 -> NOT_AVAILABLE if it comes before FMS:3 30 send 1 0a0b, NO_ERROR message 0a0b if after
  # DSP:3 before FMS:3
  20 DSP create-queuing NAV_IN 4 1 1 0 -> NO_ERROR id 1
  10 FMS create-queuing NAV_OUT 4 1 0 0 -> NO_ERROR id 1
  40 DSP receive 1 -> NOT_AVAILABLE
  30 FMS send 1 0a0b -> NO_ERROR
  # DSP:3 after FMS:3
  20 DSP create-queuing NAV_IN 4 1 1 0 -> NO_ERROR id 1
  10 FMS create-queuing NAV_OUT 4 1 0 0 -> NO_ERROR id 1
  30 FMS send 1 0a0b -> NO_ERROR
  40 DSP receive 1 -> NO_ERROR message 0a0b";

pub(crate) const MEMORY: &str =
    "Gives up a search that keeps more than this many MiB [default: 1024]";

pub(crate) const STATES: &str = "Gives up a search above this many states";

pub(crate) const CLOCK: &str =
    "Takes moments to be of one clock: a call comes before all later calls of other partitions";

pub(crate) const WHEN: &str =
    "Prints an order with such a reply or such an end, as a log; status 4 if there is none";

pub(crate) const NEVER: &str =
    "Status 0 if no order has such a reply or such an end; otherwise 4, with such an order";

pub(crate) const WHY: &str =
    "Prints two calls whose order decides whether a call gets such a reply, and both orders; else status 4";

pub(crate) const WITNESS: &str =
    "Writes a shortest order for each reply of several to a file in FOLDER, as a log";

pub(crate) const ROWS: &str = "\
Prints the rows of each service in order. The first row whose condition holds gives the reply, and `explain` prints its
words behind the reply. NAME is a service's call word or the standard's name; without it all services are printed.

Example:
  $ ./dekarino rows receive
  RECEIVE_QUEUING_MESSAGE (receive)
    the partition is in IDLE -> not made (partition is in IDLE)
    no such queuing port -> INVALID_PARAM (no queuing port of identifier ID is created)
    the port is no destination -> INVALID_MODE (port PORT is a source)
    no message waits -> NOT_AVAILABLE (no message waits on CHANNEL)
    otherwise -> NO_ERROR with the oldest waiting message, which waits no longer";

pub(crate) const ARROWS: &str = "Prints the arrows of a trace as JSON (docs/FORMATS.md)";

pub(crate) const JSON: &str = "Prints the same as JSON lines, one object a line (docs/FORMATS.md)";
