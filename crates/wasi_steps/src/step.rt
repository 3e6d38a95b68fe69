//! The steps of a script, and the forms of their lines.

ghost use Rattle.std.specs.Prelude.{◌≡◌, true, ◌==◌, count_by, length, ◌+◌};
ghost use Rattle.wasi_steps.specs.declared.step.TheConstants.{STEP_FORMS};
ghost use Rattle.wasi_steps.specs.declared.step.Step.{Step};
ghost use Rattle.wasi_steps.specs.Forms.{has_form};
ghost use Rattle.wasi_steps.specs.Steps.{guest_calls, bare_signatures, context_of};

use crate::guest_call::GuestCall;

/// One step of a script: a call of a guest, or a step that no guest makes.
#[derive(Drop)]
pub enum Step {
    /// A call of a guest.
    Call {
        /// The number of the context that makes it.
        context: u32,
        call: GuestCall,
    },
    /// The host's background work goes on: each write, datagram, receive and lookup in progress is
    /// polled once.
    Turn,
    /// Polls the pending call with this number, that of the line that began it.
    Poll {
        line: u32,
    },
    /// Gives up the pending call with this number, that of the line that began it.
    Cancel {
        line: u32,
    },
}

impl Step {
    /// The number of the context that makes the call; `None` for a turn, a poll and a cancel, which
    /// no guest makes.
    pub fn context(&self) -> Option<u32>
        ensures { result ≡ context_of self.now }
    {
        match self {
            Step::Call { context, .. } => Some(*context),
            Step::Turn | Step::Poll { .. } | Step::Cancel { .. } => None,
        }
    }
}

/// The help of a program: for each step, the form of its line and what it does, a line each. In
/// front stands the number of a context, here 0; each kind of argument has its letters.
pub const STEP_FORMS: &str = "    0 network                               makes a network
    0 tcp-create F                          makes a TCP socket; F is 4 or 6
    0 tcp-start-bind S N 4 a b c d port     binds socket S by network N
    0 tcp-finish-bind S                     ends that bind
    0 tcp-start-connect S N 4 a b c d port  begins to connect socket S
    0 tcp-finish-connect S                  polls that, and makes the streams: ok IN OUT
    0 tcp-start-listen S                    begins to make the bound socket S listen
    0 tcp-finish-listen S                   ends that
    0 tcp-accept S                          accepts a connection: ok SOCKET IN OUT
    0 tcp-local-address S                   the address of the socket
    0 tcp-remote-address S                  the address of the other end
    0 tcp-is-listening S                    whether it listens: ok true or ok false
    0 tcp-address-family S                  its family: ok 4 or ok 6
    0 tcp-get S OPTION                      the value of an option: ok V
    0 tcp-set S OPTION V                    sets an option
    0 tcp-shutdown S HOW                    gives up receive, send or both halves
    0 udp-create F                          makes a UDP socket; F is 4 or 6
    0 udp-start-bind S N 4 a b c d port     binds UDP socket S by network N
    0 udp-finish-bind S                     ends that bind
    0 udp-local-address S                   the address of the UDP socket
    0 udp-remote-address S                  the address that it sends to and receives from
    0 udp-address-family S                  its family: ok 4 or ok 6
    0 udp-get S OPTION                      the value of an option: ok V
    0 udp-set S OPTION V                    sets an option
    0 udp-stream S [4 a b c d port]         connects or disconnects UDP socket S, and makes its streams: ok IN OUT
    0 udp-receive IN L                      receives at most L datagrams: ok K, then 4 a b c d port BYTES for each
    0 udp-check-send OUT                    how many datagrams may be sent: ok M
    0 udp-send OUT DATAGRAM..               sends datagrams, each `to 4 a b c d port BYTES` or `peer BYTES`: ok M
    0 resolve N NAME                        looks up a host name: ok R
    0 resolve-next R                        the next address found: ok 4 a b c d, or ok none
    0 pipe-in BYTES                         makes an input over the bytes: ok IN
    0 pipe-out L                            makes an output that holds L bytes, at most 65536: ok OUT
    0 pipe-contents OUT                     what was written to that output: ok BYTES
    0 sink                                  makes an output that keeps nothing: ok OUT
    0 closed-in                             makes an input that is closed: ok IN
    0 closed-out                            makes an output that is closed: ok OUT
    0 read IN L                             reads at most L bytes: ok BYTES
    0 skip IN L                             reads at most L bytes and drops them: ok M
    0 check-write OUT                       how many bytes may be written
    0 write OUT BYTES                       writes bytes, as hexadecimal digits or -
    0 write-zeroes OUT L                    writes L zeroes
    0 flush OUT                             tells a kept error of the output
    0 splice OUT IN L                       writes at most L bytes that IN has: ok M
    0 blocking-read IN L                    reads at most L bytes once there are some: ok BYTES
    0 blocking-skip IN L                    skips at most L bytes once there are some: ok M
    0 blocking-write OUT BYTES              writes all the bytes, at most 4096, and flushes
    0 blocking-zeroes OUT L                 writes L zeroes, at most 4096, and flushes
    0 blocking-flush OUT                    flushes, until it may be written again
    0 blocking-splice OUT IN L              splices once there is room and are bytes: ok M
    0 block P                               waits until what it watches is ready
    0 poll-list P..                         waits until one of them is ready: ok and the places of those that are
    0 network-error-code E                  of an error of a stream: ok none
    0 subscribe H                           makes a pollable of a socket, a stream or a lookup
    0 ready P                               whether what it watches is ready: ok true or ok false
    0 drop H                                drops a handle
    0 p3-tcp-create F                       makes a TCP socket of 0.3; F is 4 or 6
    0 p3-tcp-bind S 4 a b c d port          binds it
    0 p3-tcp-connect S 4 a b c d port       connects it
    0 p3-tcp-listen S                       makes it listen, and makes its listener: ok H
    0 p3-accept H L                         takes a connection of the listener: ok S; looks only, if L is 0: ok
    0 p3-tcp-local-address S                its address
    0 p3-tcp-remote-address S               the address of its other end
    0 p3-tcp-is-listening S                 whether it listens: ok true or ok false
    0 p3-tcp-address-family S               its family: ok 4 or ok 6
    0 p3-tcp-get S OPTION                   the value of an option: ok V
    0 p3-tcp-set S OPTION V                 sets an option
    0 p3-tcp-send S                         makes its write end and the result slot of that: ok W R
    0 p3-write W BYTES                      writes bytes by the write end: ok M
    0 p3-tcp-receive S                      makes its read end and the result slot of that: ok H R
    0 p3-read H L                           reads at most L bytes by the read end: ok BYTES
    0 p3-result R                           takes the result of an end that is closed
    0 p3-udp-create F                       makes a UDP socket of 0.3; F is 4 or 6
    0 p3-udp-bind S 4 a b c d port          binds it
    0 p3-udp-connect S 4 a b c d port       connects it
    0 p3-udp-disconnect S                   takes its remote address away
    0 p3-udp-send S DATAGRAM                sends a datagram, as `udp-send` does
    0 p3-udp-receive S                      receives one: ok, its sender and its bytes
    0 p3-udp-local-address S                its address
    0 p3-udp-remote-address S               the address that it is connected to
    0 p3-udp-address-family S               its family: ok 4 or ok 6
    0 p3-udp-get S OPTION                   the value of an option: ok V
    0 p3-udp-set S OPTION V                 sets an option
    0 p3-resolve NAME                       looks up a host name: ok, and 4 a b c d of each address
    turn                                    polls each write, datagram, receive and lookup in the background, once
    poll N                                  polls the call of line N, which answered pending N
    cancel N                                gives that call up
";

/// [`STEP_FORMS`] lists the steps and nothing else.
///
/// - `each`: each step has a line there, with the word and the arguments of its signature.
/// - `no_other`: there are no more lines than steps.
pub fn step_forms_are_of_signatures()
    ensures each { (s : Step) → has_form STEP_FORMS.now s ≡ true }
    ensures no_other { count_by (λ b. b == 10) STEP_FORMS.now ≡ length guest_calls
        + length bare_signatures }
{}
