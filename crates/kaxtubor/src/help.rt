//! The texts of `--help` and `--version`.

use wasi_steps::STEP_FORMS;

/// What `--version` prints.
pub const VERSION: &str = "kaxtubor 0.1.0\n";

/// What `--help` prints: a line for each subcommand.
pub const OVERVIEW: &str = "\
Runs scripts of wasi:sockets calls over a scripted network or this machine's own.

usage: kaxtubor COMMAND WORD..         each COMMAND has a --help of its own
  run LIMIT                            runs a script over the network of scenario.txt
  show LIMIT                           prints its transcript: what each line asked and was answered
  faults LIMIT                         runs it again with a fault at each call of the network
  gen SEED STEPS, gen3 SEED STEPS      runs a script that is drawn from a seed
  check FILE..                         runs the transcripts of a file again, and compares
  check-streams TRIES FILE..           also over a source and a sink that fail
  check-replays FILE..                 also on the log of each run
  check-all TRIES FILE..               all three
  record LIMIT                         runs a script, and writes the log of its run to log.txt
  replay LIMIT                         runs a script on the answers of log.txt, with no network
  draw, draw FROM TO                   draws log.txt, or these lines of its script, as SVG
  policy run LIMIT                     runs a script under the rules of rules.txt
  policy ask LIMIT, policy explain LIMIT, policy check    says what those rules decide
  live LIMIT PORT..                    runs a script over this machine's network
  relay --live LISTEN TARGET COUNT     relays COUNT connections from one port to another
  relay LISTEN TARGET COUNT TURNS      the same over the network of scenario.txt
  pump BUDGET                          copies standard input to standard output by two threads
  --help, --version                    prints this, or the version

A script is read from standard input. LIMIT is the most bytes that it may have.
";

/// The help of `run`, `gen`, `gen3` and `pump`.
pub const SCRIPTS: &[&str] = &[SCRIPTS_USAGE, STEP_FORMS, SCRIPTS_REST];

/// The help of `show`, `faults` and the checks of transcripts.
pub const TRANSCRIPTS: &[&str] = &[TRANSCRIPTS_HELP];

/// The help of `record`, `replay` and `draw`.
pub const RECORDER: &[&str] = &[RECORDER_HELP];

/// The help of `policy`.
pub const POLICY: &[&str] = &[POLICY_HELP];

/// The help of `live`.
pub const LIVE: &[&str] = &[LIVE_HELP];

/// The help of `relay`.
pub const RELAY: &[&str] = &[RELAY_HELP];

const SCRIPTS_USAGE: &str = "\
Runs a script of wasi:sockets calls over a scripted network, and writes one reply per line.

usage: kaxtubor run LIMIT       runs the script on standard input, of at most LIMIT bytes,
                                over the network that scenario.txt in this folder plans
       kaxtubor pump BUDGET     copies standard input to standard output, by a read stream and a write
                                stream with a worker each; at most BUDGET bytes wait to be written
       kaxtubor gen SEED STEPS  runs a script of STEPS calls of 0.2, at most 100000, drawn from SEED,
                                over a network that plans nothing, and prints what it came to:
                                lines L replies R entries E bytes B
       kaxtubor gen3 SEED STEPS does so with calls of 0.2 and of 0.3
       kaxtubor run --help      prints this

A line of scenario.txt plans an answer of the network, such as `check no`, or makes a context: `context T U K L`, where
T, U and K are `yes` or `no`, says whether it may use TCP, UDP and name lookup, and L, which may be left out, how many
bytes its TCP writers of 0.2 may hold, as permits and unwritten, together. Contexts are numbered from 0 in the order
of their lines; with no such line there is one, which may use all three.

A script has one call per line, each with the number of its context in front:
";

const SCRIPTS_REST: &str = "
The options, and their values:
    keep-alive-enabled                           0 or 1
    keep-alive-idle-time, keep-alive-interval    nanoseconds
    keep-alive-count, hop-limit                  a number
    receive-buffer-size, send-buffer-size        bytes
    listen-backlog-size                          a number; tcp-set alone has it

The program ends with 0, or prints its status on standard error, with what is wrong, and ends with it:
    1  the words aren't in order            7  memory ran out
    2  a bad line in scenario.txt           8  scenario.txt can't be read
    3  a bad line in the script             9  pump: BUDGET is 0
    4  the script is longer than LIMIT     10  pump: no worker could be started
    5  a read of the script failed         11  pump: a read failed
    6  a write failed                      12  pump: a write failed

example: : > scenario.txt; printf '0 network\\n0 tcp-create 4\\n' | kaxtubor run 1000
    ok 1
    ok 2
";

const TRANSCRIPTS_HELP: &str = "\
Prints what a script of wasi:sockets calls makes of a scripted network, runs such transcripts again, or tries a script
with a fault at each call of the network.

usage: kaxtubor show LIMIT      prints the transcript of the script on standard input, of at most LIMIT bytes,
                                over the network that scenario.txt in this folder plans
       kaxtubor check FILE..    runs the cases of each file again, and compares
       kaxtubor check-streams TRIES FILE..
                                does so, and also runs each script over a source and a sink that fail, at as many
                                as TRIES calls of each, and that give and take one byte per call
       kaxtubor check-replays FILE..
                                checks each file, and also keeps the log of each script's run and runs it again on
                                the answers of that log, as kaxtubor replay does
       kaxtubor check-all TRIES FILE..
                                does all three
       kaxtubor faults LIMIT    runs such a script again for each call that may fail, with connection-reset as its answer
       kaxtubor show --help     prints this

A line of scenario.txt plans an answer of the network, such as `check no`, or makes a context: `context T U K L`, where
T, U and K are `yes` or `no`, says whether it may use TCP, UDP and name lookup, and L, which may be left out, how many
bytes its TCP writers of 0.2 may hold, as permits and unwritten, together. Contexts are numbered from 0 in the order
of their lines; with no such line there is one, which may use all three.

A transcript has each line of the script behind `> `. Beneath it, indented, stand the calls that this line made on the
network, each with its operation and its answer, and then the line's reply. The last line has the number of network sockets that
the end of the run closed.

A file for check has many cases. Each is a line `# ` with what it shows, a line `given ` for each line of its
scenario, the transcript, and an empty line.

For each run of faults stand the call, and the first reply that isn't the one without the fault, with the line that it
answers; behind it the trap that came later, if one did. A script that goes on with a handle that it was refused traps
so. The last line counts the runs.

The program ends with 0, or prints its status on standard error, with what is wrong, and ends with it:
    1  the words aren't in order            7  memory ran out
    2  a bad line in scenario.txt           8  scenario.txt can't be read
    3  a bad line in the script            20  a case does not hold
    4  the script is longer than LIMIT     21  a file is no list of cases
    5  a read of the script failed         22  a file can't be read
    6  a write failed                      23  a fault made a step trap
                                           24  with a fault a run broke off, or left a network socket open

example: : > scenario.txt; printf '0 network\\n0 tcp-create 4\\n' | kaxtubor show 1000
    > 0 network
        1 0 made 1 network - - = done
    ok 1
    > 0 tcp-create 4
        2 0 tcp-create 0 4 = done
        2 0 made 2 tcp2 - 2 0 = done
    ok 2
    closes 1
";

const RECORDER_HELP: &str = "\
Runs a script of wasi:sockets calls and writes down what it asked and was answered; runs a script on such a log again,
with no network; and draws a log.

usage: kaxtubor record LIMIT    runs the script on standard input, of at most LIMIT bytes, over the network that
                                scenario.txt in this folder plans, writes one reply per line, and at its end log.txt
       kaxtubor replay LIMIT    runs the script on standard input on the answers of log.txt in this folder, and
                                writes its replies if it asks just what is recorded, and else nothing
       kaxtubor draw            writes a picture of log.txt, as SVG
       kaxtubor draw FROM TO    the same, of these lines of its script
       kaxtubor record --help   prints this

The script's lines are those of kaxtubor run; its --help lists them. A log is written also where the run ended
early. Its lines are
    context T U K L             a context of the run, for each: whether it may use TCP, UDP and name lookup, and
                                how many bytes its TCP writers of 0.2 may hold unwritten
    STEP PART CALL = ANSWER     a call on the check or the network, for each: the line of the script and the part of
                                it that made it, the call, and its answer, such as
                                3 0 bind 2 0 4 127 0 0 1 80 = done
    end                         the last line
A line of a transcript, which kaxtubor show prints, has the same form behind its indent. A log has at most
4294967294 bytes: it isn't written beyond them.

A log without its line `end` was cut, as that of a run of kaxtubor live that was ended by a signal. What stands behind
its last newline is dropped. It is drawn as far as it goes, and replayed up to there: the replies to the lines of the
script before the one that asks more are written, and the status is 25.

The program ends with 0, or prints its status on standard error, with what is wrong, and ends with it:
    1  the words aren't in order            7  memory ran out
    2  a bad line in scenario.txt           8  scenario.txt can't be read
    3  a bad line in the script            13  a bad line in log.txt
    4  the script is longer than LIMIT     14  log.txt can't be read or written
    5  a read of the script failed         15  the script asks something else than is recorded
    6  a write failed                      25  log.txt was cut, and the script asks more

example: : > scenario.txt; printf '0 network\\n0 tcp-create 4\\n' | kaxtubor record 1000; cat log.txt
    ok 1
    ok 2
    context yes yes yes 18446744073709551615
    1 0 made 1 network - - = done
    2 0 tcp-create 0 4 = done
    2 0 made 2 tcp2 - 2 0 = done
    end
";

const POLICY_HELP: &str = "\
Answers questions about the rules of rules.txt in this folder, says which of them are odd, or runs a script of
wasi:sockets calls under them.

usage: kaxtubor policy ask LIMIT      answers each question on standard input, of at most LIMIT bytes in all, by
                                      `allow N` or `deny N`: N is the line of the rule that decided, 0 where none matches
       kaxtubor policy explain LIMIT  answers each question by `N RULE`, the rule that decided; and for a connect adds that
                                      a socket that isn't bound needs `allow tcp-bind any 0 0` too, where no rule allows it
       kaxtubor policy check          writes `unmatched N` for each line N whose rule matches nothing, `shadowed N` for
                                      each whose rule decides nothing, since rules before it decide all that it matches,
                                      and `overlap N M` for each two lines whose rules match something in common, of
                                      which one allows and the other denies; behind 1000 of these lines `and N more`
       kaxtubor policy run LIMIT      runs the script on standard input, of at most LIMIT bytes, under the rules, over
                                      the network that scenario.txt in this folder plans, and writes one reply per line
       kaxtubor policy --help         prints this

A rule is a line `ACTION USE NET LO HI`. The first rule that matches decides; where none does, the use is denied.
    ACTION  allow or deny
    USE     tcp-bind, tcp-listen, tcp-accept, tcp-connect, udp-bind, udp-send, udp-receive or any
    NET     any, or an address and how many of its leading bits count: 4 10 0 0 0 8, 6 65152 0 0 0 0 0 0 0 10
    LO HI   the least and the greatest port
An IPv4 address that is mapped into IPv6 is matched as IPv4, so no rule for a net within ::ffff:0:0/96 matches.
A connect of a socket that isn't bound also asks for tcp-bind of the wildcard address, as `allow tcp-bind any 0 0` allows.

A question is a line `USE ADDRESS`, its use other than any: an IPv4 address is `4 127 0 0 1 80`, an IPv6 address
`6 0 0 0 0 0 0 0 1 80 0 0`, with port, flow info and scope. The script's lines are those of kaxtubor run.

The program ends with 0, or prints its status on standard error, with what is wrong, and ends with it:
    1  the words aren't in order            7  memory ran out
    2  a bad line in scenario.txt           8  scenario.txt can't be read
    3  a bad line in the script, or         16 a bad line in rules.txt
       a line that is no question           17 rules.txt can't be read
    4  the input is longer than LIMIT
    5  a read of the input failed
    6  a write failed

example: echo 'allow tcp-connect any 80 443' > rules.txt; echo 'tcp-connect 4 127 0 0 1 80' | kaxtubor policy ask 1000
    allow 1
";

const LIVE_HELP: &str = "\
Runs a script of wasi:sockets calls over this machine's network, and writes one reply per line.

usage: kaxtubor live LIMIT PORT..             runs the script on standard input, of at most LIMIT bytes
       kaxtubor live --policy RULES LIMIT     the same, where the rules of the file RULES decide in place of ports
       kaxtubor live --record LOG LIMIT PORT..  runs as the first, and writes the log of the run to the new file LOG
       kaxtubor live --policy RULES --record LOG LIMIT   both
       kaxtubor live --help                   prints this

Before these words, in this order, may stand:
       --any-address                 every address may be used, in place of this machine's own alone
       --wait                        a line whose looks were pending before waits for them without limit
       --hosts HOSTS                 lookups find the names of the file HOSTS

Sockets of TCP and UDP may be bound to, listen on, connect to and send to 127.0.0.0/8 and ::1 with the named ports alone;
all else is access-denied, and no call of the system is made for it. What arrives may come from any port of this machine.
Port 0, where it is named, stands for any port that is free. With no port nothing may be used, so at least one is named; after
--hosts, whose lookups need none, there may be none. After --any-address the named ports may be used with every
address, so other machines can connect to what listens, and a script can reach them.
After --policy an address and a use need a rule that allows them, in place of a named port, and without --any-address the
address is one of this machine's own, or a wildcard to bind. The help of kaxtubor policy has the form of rules, and its ask
answers what they decide.

HOSTS has the form of the system's file /etc/hosts: on each line an address and its names. Any other name, and without
--hosts every name, is name-unresolvable: no name server is asked.

The log has each call on the check and the network with its answer, and each is written as soon as it is answered. LOG is made
before the first line is read; a file that is there is left as it is and ends the program, but after --record LOG --force it
is overwritten. Where a write to LOG fails the run goes on, nothing more is written to LOG, and the status at its end is 14.
kaxtubor replay and kaxtubor draw read such a log, as log.txt in this folder; their --help has its form.
SIGINT and SIGTERM can't be caught, since Rattle has no handle for signals: the system closes the sockets, and LOG has what
was answered until then, without its line `end`.

The script's lines are those of kaxtubor run; its --help lists them. A line that looks for a connection, for bytes, for
room, for a datagram or for the end of a connect (tcp-accept, ready, poll-list, poll, turn, tcp-finish-connect) waits once,
for all that it looks at, until one of them may go on: for about a second at most, without using the processor. After --wait
it answers at once, and where all that a line looks at was pending before, it waits until one of them may go on.
The hop-limit of an IPv6 socket is not-supported.

The program ends with 0, or prints its status on standard error, with what is wrong, and ends with it:
    1  the words aren't in order            5  a read of the script failed
    3  a bad line in the script             6  a write failed
    4  the script is longer than LIMIT      7  memory ran out
    14 LOG is there, or can't be written    18 HOSTS can't be read, or isn't text
    16 a bad line in RULES                  17 RULES can't be read

example: printf '0 network\\n0 tcp-create 4\\n0 tcp-start-bind 2 1 4 127 0 0 1 81\\n' | kaxtubor live 1000 80
    ok 1
    ok 2
    err access-denied
";

const RELAY_HELP: &str = "\
Listens on a port of 127.0.0.1, connects each arrival to another port, and copies both ways. It is a guest: all that it
does on the network is a wasi:sockets call of its own.

usage: kaxtubor relay LISTENPORT TARGETPORT CONNECTIONS TURNS   over the network that scenario.txt in this folder plans,
                                                                in at most TURNS turns, of 4096 at most
       kaxtubor relay --live LISTENPORT TARGETPORT CONNECTIONS  over this machine's own network, until the connections
                                                                are over; for the port 0 the system chooses
                                                                one that is free, and standard error tells it
       kaxtubor relay --help                                    prints this

It ends once CONNECTIONS arrivals are over, of which 16 may be open at once. Then it writes a line for each pair of an
arrival and a target, in order of arrival: `pair K up WORD N down WORD N`. Up is from the arrival to the target, and N is
how many bytes were written. WORD is
    clean   the sending side closed it, and all that it sent was written
    broken  a side broke, or couldn't be connected
    open    it went on when the relay ended
A side that closes one direction can still receive: the other direction goes on. Where a side breaks, as by a reset, what
it sent before is still written, and the other direction ends with the first turn in which it writes nothing: then both
sides are closed. A break is seen where the relay reads from a side or writes to it. It doesn't read from a side while the
other takes no bytes, nor after that side closed its direction.

Where descriptors or memory are lacking for one more connection, it waits until a pair is over. Where no pair is open then,
it takes no more connections and ends with 26.

With --live it waits without using the processor, and on a terminal it shows once a second on standard error how many
connections are open and over, and how many bytes went each way. A relay does 4294967295 steps at most, and six or seven
for each 4096 bytes of one connection. SIGINT and SIGTERM can't be caught, since Rattle has no handle for signals: the
system closes the sockets, and no line is written.

The program ends with 0, or prints its status on standard error, with what is wrong, and ends with it:
    1  the words aren't in order            8  scenario.txt can't be read
    2  a bad line in scenario.txt           18 it can't listen: a call of its setup was refused
    6  a write failed                       19 TURNS turns were made, or all steps
    7  memory ran out                       26 an arrival had no pair: its accept was refused, or no socket was left for
                                               its target

example: cat scenario.txt; kaxtubor relay 80 81 1 10
    accept arrived 4 127 0 0 1 5000
    read bytes 6869
    read bytes 6f6b
    read bytes -
    read bytes -
    pair 1 up clean 2 down clean 2
";
