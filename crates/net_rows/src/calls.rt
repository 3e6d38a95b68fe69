//! Calls of the network of the system's sockets, over loopback addresses, as lines of text.

use crate::guest::{Guest, line};
use crate::same::same;
use std::test::Fail;

/// A text, and how often it is played; `#` stands for the number of the time.
type Part = (u32, &'static str);

/// A listener of line 1, a connection to it of line 2, and its other end of line 3.
const CONNECTION: &str = "\
1 tcp-create 0 4 = done
1 bind 1 0 4 127 0 0 1 0 = done
1 listen 1 0 1 = done
port 1
2 tcp-create 0 4 = done
2 connect 2 0 4 127 0 0 1 {1} = done
readable 1
3 accept 1 0 = arrived
";

/// The arrival is handed over.
const HANDED: &str = "3 hand 1 0 4 127 0 0 1 {1} = done
";

const CARRIES: &str = "\
3 read 3 0 9 = pending
write 2 68656c6c6f = took 5
readable 3
3 read 3 0 9 = bytes 68656c6c6f
2 shutdown 2 0 send = done
readable 3
3 read 3 0 9 = bytes -
";

const RESETS: &str = "\
write 2 756e72656164 = took 6
readable 3
3 close 3 0 = done
readable 2
readable 2
2 read 2 0 9 = ConnectionReset
2 read 2 0 9 = bytes -
";

const WAITS: &str = "\
fill 2
write 2 6d6f7265 = pending
drain 3
writable 2
write 2 6d6f7265 = took 4
readable 3
3 read 3 0 9 = bytes 6d6f7265
";

const KEEPS: &str = "\
3 accept 1 0 = arrived
3 hand 1 0 4 127 0 0 1 1 = done
3 read 3 0 9 = pending
3 accept 1 0 = InvalidState
";

const REFUSES: &str = "\
3 refuse 1 0 4 127 0 0 1 1 = done
readable 2
2 read 2 0 9 = ConnectionReset
4 accept 1 0 = pending
";

/// Three UDP sockets.
const UDP: &str = "\
1 udp-create 0 4 = done
1 udp-bind 1 0 4 127 0 0 1 0 = done
port 1
2 udp-create 0 4 = done
2 udp-bind 2 0 4 127 0 0 1 0 = done
port 2
3 udp-create 0 4 = done
3 udp-bind 3 0 4 127 0 0 1 0 = done
port 3
";

const DATAGRAMS: &str = "\
2 recv 2 0 = pending
1 send 1 0 4 127 0 0 1 {2} 6869 = done
readable 2
2 recv 2 0 = datagram 6869
2 udp-connect 2 0 4 127 0 0 1 {3} = done
1 send 1 0 4 127 0 0 1 {2} 64726f70706564 = done
3 send 3 0 4 127 0 0 1 {2} - = done
readable 2
2 recv 2 0 = datagram -
2 udp-disconnect 2 0 = done
2 peer 2 0 = InvalidState
2 send 2 0 4 127 0 0 1 {1} 6261636b = done
readable 1
1 recv 1 0 = datagram 6261636b
";

const LISTENER: &str = "\
1 tcp-create 0 4 = done
1 bind 1 0 4 127 0 0 1 0 = done
1 listen 1 0 1 = done
port 1
";

const IN_USE: &str = "\
2 tcp-create 0 4 = done
2 bind 2 0 4 127 0 0 1 {1} = AddressInUse
2 bind 2 0 4 127 0 0 1 0 = done
2 bind 2 0 4 127 0 0 1 0 = InvalidArgument
2 connect 2 0 4 127 0 0 1 {1} = done
";

const REFUSED: &str = "\
1 close 1 0 = done
1 local 1 0 = InvalidState
2 tcp-create 0 4 = done
2 connect 2 0 4 127 0 0 1 {1} = ConnectionRefused
1 accept 1 0 = InvalidState
";

/// Of the sockets 1 and 2.
const OPTIONS: &str = "\
# set-option # 0 keep-alive-enabled 1 = done
# get-option # 0 keep-alive-enabled = value 1
# set-option # 0 keep-alive-idle-time 2900000000 = done
# get-option # 0 keep-alive-idle-time = value 2000000000
# set-option # 0 keep-alive-interval 7 = done
# get-option # 0 keep-alive-interval = value 1000000000
# set-option # 0 keep-alive-count 3 = done
# get-option # 0 keep-alive-count = value 3
# set-option # 0 hop-limit 9 = done
# get-option # 0 hop-limit = value 9
# set-option # 0 receive-buffer-size 9000 = done
# get-option # 0 receive-buffer-size = value 18000
# set-option # 0 send-buffer-size 9000 = done
# get-option # 0 send-buffer-size = value 18000
# set-option # 0 hop-limit 300 = InvalidArgument
";

const MISSING: &str = "\
7 read 7 0 9 = InvalidState
7 write-ready 7 0 = done
7 close 7 0 = done
7 tcp-create 0 4 = done
7 udp-create 0 4 = InvalidState
7 set-backlog 7 0 5 = done
7 lookup - = AccessDenied
";

const AGAIN: &str = "\
1 close 1 0 = done
1 tcp-create 0 4 = done
1 bind 1 0 4 127 0 0 1 {1} = done
1 listen 1 0 1 = done
";

const UDP_AGAIN: &str = "\
2 close 2 0 = done
2 udp-create 0 4 = done
2 udp-bind 2 0 4 127 0 0 1 {2} = done
";

const UDP_SOCKET: &str = "\
2 udp-create 0 4 = done
2 udp-bind 2 0 4 127 0 0 1 0 = done
port 2
";

const ONE_MORE: &str = "\
# udp-create 0 4 = done
# udp-bind # 0 4 127 0 0 1 0 = done
";

/// Where port 80 is allowed.
const CHECKS: &str = "\
1 check 0 4 127 0 0 1 80 tcp-bind = yes
1 check 0 4 127 0 0 1 81 tcp-bind = no
1 check 0 6 0 0 0 0 0 0 0 1 80 0 0 tcp-bind = yes
1 check 0 4 10 0 0 9 80 tcp-bind = no
1 check 0 4 0 0 0 0 0 tcp-bind = yes
1 check 0 4 127 0 0 1 80 tcp-listen = yes
1 check 0 4 127 0 0 1 81 tcp-listen = no
1 check 0 4 0 0 0 0 0 tcp-listen = no
1 check 0 4 127 0 0 1 80 tcp-connect = yes
1 check 0 4 127 0 0 1 0 tcp-connect = no
1 check 0 4 10 0 0 9 80 tcp-connect = no
1 check 0 4 127 0 0 1 54321 tcp-accept = yes
1 check 0 4 10 0 0 9 80 tcp-accept = no
1 check 0 4 127 0 0 1 80 udp-bind = yes
1 check 0 4 127 0 0 1 80 udp-send = yes
1 check 0 4 127 0 0 1 81 udp-send = no
1 check 0 4 10 0 0 9 80 udp-send = no
1 check 0 4 127 0 0 1 81 udp-receive = yes
1 check 0 4 10 0 0 9 80 udp-receive = no
";

const CASES: [&[Part]; 13] = [
    // A connection carries bytes to its end.
    &[(1, CONNECTION), (1, HANDED), (1, CARRIES)],
    // Closing an end with bytes that it didn't read resets the connection. A look meets that, and
    // the next read reports it once.
    &[(1, CONNECTION), (1, HANDED), (1, RESETS)],
    // A write to an end that doesn't read waits once the system's room is full, and continues once
    // the end has read. It loses nothing.
    &[(1, CONNECTION), (1, HANDED), (1, WAITS)],
    // An arrival stays in hand until it is handed over.
    &[(1, CONNECTION), (1, KEEPS)],
    // A refused arrival is reset.
    &[(1, CONNECTION), (1, REFUSES)],
    // A connected socket gets what its peer sends, and not what another does.
    &[(1, UDP), (1, DATAGRAMS)],
    // A port in use shows at the bind.
    &[(1, LISTENER), (1, IN_USE)],
    // A connect where none listens is refused.
    &[(1, LISTENER), (1, REFUSED)],
    // Options are read back.
    &[(1, CONNECTION), (1, HANDED), (2, OPTIONS)],
    // What is not there is refused.
    &[(1, MISSING)],
    // Each socket is bound to the port of the one before, which is in use until that one's
    // descriptor is closed.
    &[
        (1, LISTENER),
        (200, AGAIN),
        (1, UDP_SOCKET),
        (200, UDP_AGAIN),
    ],
    // Many sockets are open at once.
    &[(50, ONE_MORE)],
    // A check goes by the ports and the use.
    &[(1, CHECKS)],
];

#[test]
fn each_line_is_answered_so(rt: HostRuntime) -> Result<(), Fail> {
    let alloc = rt.alloc();
    for parts in CASES {
        let mut guest = Guest::new(&rt, alloc, &[80])?;
        for (times, text) in parts {
            for time in 1..=*times {
                let number = format!(in alloc; "{time}")?;
                let text = text.replace(alloc, "#", number.as_str())?;
                guest.plays(text.as_str())?;
            }
        }
    }
    Ok(())
}

#[test]
fn codes_and_closings_are_counted(rt: HostRuntime) -> Result<(), Fail> {
    let mut guest = Guest::new(&rt, rt.alloc(), &[])?;
    guest.plays("1 local 1 0 = InvalidState")?;
    same(&rt, guest.faults(), 1);
    guest.plays("1 tcp-create 0 4 = done")?;
    same(&rt, guest.end(line(1)), 1);
    Ok(())
}
