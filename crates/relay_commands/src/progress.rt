//! What a relay over the system's sockets does between its turns: it waits, and shows how far it
//! is.

ghost use Rattle.std.specs.Prelude.{◌≡◌};

use std::net::Net;
use std::rt::Clock;
use std::time::Instant;
use wasi_net::{Linux, System, SystemWorld};
use wasi_relay::{Idle, Pair};
use wasi_session::Session;

/// How often it is shown how far a relay is, in seconds.
const PERIOD: u64 = 1;

/// How long a wait is where that is shown, in milliseconds.
const SHOWN_WAIT: i32 = 1000;

/// Without limit.
const ENDLESS_WAIT: i32 = -1;

/// Waits after each turn that moved nothing until what was pending may go on, without using the
/// processor. If it is to be shown how far the relay is, it is on standard error, once a second.
/// Where the system chose the listener's port, it is told there once, before the first arrival.
#[derive(Drop)]
pub struct Progress<'a, R> {
    rt: &'a R,
    is_shown: bool,
    tells_port: bool,
    last: Option<Instant>,
}

/// What is shown of pairs.
#[derive(Clone, Copy, Debug, PartialEq, Eq)]
struct Counts {
    open: usize,
    over: usize,
    up: u64,
    down: u64,
}

impl Counts {
    /// The counts of these pairs.
    fn of(pairs: &[Pair]) -> Counts {
        let over = pairs.iter().filter(|pair| pair.is_over()).count();
        let mut up: u64 = 0;
        let mut down: u64 = 0;
        for pair in pairs {
            up = up.saturating_add(pair.up.bytes);
            down = down.saturating_add(pair.down.bytes);
        }
        Counts {
            open: pairs.len().saturating_sub(over),
            over,
            up,
            down,
        }
    }
}

impl<'a, R> Progress<'a, R> {
    /// Before the first turn. Nothing is shown of the first second. `tells_port`: the system
    /// chooses the listener's port.
    pub fn new(rt: &'a R, is_shown: bool, tells_port: bool) -> Progress<'a, R> {
        Progress {
            rt,
            is_shown,
            tells_port,
            last: None,
        }
    }
}

impl<R: Eprint + Clock> Progress<'_, R> {
    /// Whether a second is over since it was shown last, or since the first turn. A clock that
    /// can't be read shows nothing.
    fn is_due(&mut self) -> bool {
        let Ok(now) = Instant::now(self.rt) else {
            return false;
        };
        match self.last {
            Some(last) if now.saturating_duration_since(last).as_secs() < PERIOD => false,
            last => {
                self.last = Some(now);
                last.is_some()
            }
        }
    }

    /// Shows the counts, on one line that each time is written over.
    fn show(&self, pairs: &[Pair]) {
        let Counts {
            open,
            over,
            up,
            down,
        } = Counts::of(pairs);
        let shown = eprint!(self.rt;
            "\r{open} open, {over} over, {up} bytes up, {down} bytes down\u{1b}[K"
        );
        let _ = shown;
    }

    /// Ends the line that was shown, if one was.
    pub fn end(&self, pairs: &[Pair]) {
        if self.is_shown {
            self.show(pairs);
            let _ = eprintln!(self.rt; "");
        }
    }
}

/// The port that the system chose for the listener. Before the first arrival nothing else is
/// waited for.
fn listener_port<R: Net>(rt: &R, session: &Session<SystemWorld<Linux>>) -> Option<u16> {
    let listener = session.world().awaited().first()?;
    let (address, _) = Linux::new(rt).local(listener.fd).ok()?;
    Some(u16::from_be_bytes([address[2], address[3]]))
}

impl<R: Net + Eprint> Progress<'_, R> {
    /// Tells the listener's port, unless it was told.
    fn tell_port(&mut self, session: &Session<SystemWorld<Linux>>) {
        let Some(port) = listener_port(self.rt, session) else {
            return;
        };
        self.tells_port = false;
        let _ = eprintln!(self.rt; "listening on port {port} of 127.0.0.1");
    }
}

impl<R: Net + Eprint + Clock> Idle<SystemWorld<Linux>> for Progress<'_, R> {
    fn after_turn(
        &mut self,
        session: &mut Session<SystemWorld<Linux>>,
        moved: bool,
        pairs: &[Pair],
    ) {
        if self.tells_port && pairs.is_empty() {
            self.tell_port(session);
        }
        if self.is_shown && self.is_due() {
            self.show(pairs);
        }
        if !moved {
            let time = if self.is_shown {
                SHOWN_WAIT
            } else {
                ENDLESS_WAIT
            };
            session.wait(time);
        }
    }
}
