ghost use Rattle.std.specs.Prelude.{◌≡◌, ◌+◌, ◌^◌, ◌<◌, None};

use crate::link::TcpLink;
use crate::patience::Patience;
use counts::next;
use links::{Door, Heard};
use std::net::{Ipv4Addr, Net, TcpListener, TcpStream};
use std::thread::sleep;
use std::time::{Clock, Duration};
use streams::Failed;

// How often a connection is tried to be taken. One that its peer broke off before may fail a try.
const MOST_TRIES: u32 = 16;

// How long is waited after a try that failed, in milliseconds. So a moment passes in which the system has no
// descriptor to give.
const PAUSE: u64 = 200;

// A listener and its port, what it was told, how many connections are still allowed, and how many links
// are out.
#[derive(Drop)]
struct Listening {
    listener: TcpListener,
    port: u16,
    heard: Heard,
    allowed: u64,
    out: u64,
    ghost fits: { allowed + out < 2 ^ 64 },
}

impl Listening {
    // Of no link yet.
    fn new(listener: TcpListener, port: u16, heard: Heard) -> Self
        ensures heard { result.heard ≡ heard }
        ensures allowed { result.allowed ≡ heard.count }
        ensures out { result.out ≡ 0 }
    {
        Listening {
            listener,
            port,
            heard,
            allowed: heard.count,
            out: 0,
        }
    }
}

/// A door at 127.0.0.1, over the sockets of a system. It keeps no log: a link that `done` gets is closed.
#[derive(Drop)]
pub struct TcpDoor<R: Net<Listener = TcpListener, Stream = TcpStream> + Clock + Copy + Drop> {
    system: R,
    patience: Patience,
    listening: Option<Listening>,
    faults: u64,
}

impl<R: Net<Listener = TcpListener, Stream = TcpStream> + Clock + Copy + Drop> TcpDoor<R> {
    ghost use Rattle.tcp_door.specs.Tcp.{doorway};

    /// A door that doesn't listen yet, and whose links wait for their peers no longer than this.
    pub fn new(system: R, patience: Patience) -> Self
        ensures { doorway result.listening result.faults ≡ record { heard = None; allowed = 0; out = 0; faults = 0 } }
    {
        TcpDoor {
            system,
            patience,
            listening: None,
            faults: 0,
        }
    }

    /// The port that it listens at: the one that `listen` was told, or where that was 0 the free one that
    /// the system chose. It is 0 before a `listen` has answered Ok.
    pub fn port(&self) -> u16 {
        match &self.listening {
            Some(listening) => listening.port,
            None => 0,
        }
    }

    // Listens at a port, and gives the port that it got.
    fn open(&self, port: u16) -> std::io::Result<(TcpListener, u16)> {
        let listener = TcpListener::bind(&self.system, (Ipv4Addr::LOCALHOST, port))?;
        let got = listener.local_addr()?.port();
        Ok((listener, got))
    }
}

impl<R: Net<Listener = TcpListener, Stream = TcpStream> + Clock + Copy + Drop> Door for TcpDoor<R> {
    ghost use Rattle.tcp_door.specs.Tcp.{doorway, none_unheard};

    type Conn = TcpLink<R>;

    ghost told = { λ door. doorway door.listening door.faults };

    ghost log = { λ _. None };

    /// Fails where the system lets it not listen at this port.
    fn listen(&mut self, port: u16, count: u64) -> Result<(), Failed> {
        match self.open(port) {
            Ok((listener, got)) => {
                self.listening = Some(Listening::new(listener, got, Heard { port, count }));
                Ok(())
            }
            Err(_) => {
                self.faults = next(self.faults);
                Err(Failed)
            }
        }
    }

    /// Waits for a connection. Fails where the system gives none.
    fn next(&mut self) -> Result<Option<TcpLink<R>>, Failed> {
        let Some(listening) = &mut self.listening else {
            return Ok(None);
        };
        if listening.allowed == 0 {
            return Ok(None);
        }
        match taken(&listening.listener, &self.system) {
            Some(stream) => {
                listening.allowed -= 1;
                listening.out += 1;
                Ok(Some(TcpLink::new(stream, self.system, self.patience)))
            }
            None => {
                self.faults = next(self.faults);
                Err(Failed)
            }
        }
    }

    /// Closes the link.
    fn done(&mut self, link: TcpLink<R>) {
        if let Some(listening) = &mut self.listening {
            listening.out -= 1;
        }
        link.close();
    }

    ghost unheard = { λ door. none_unheard door.listening door.faults };
}

// The next connection that comes in.
fn taken(listener: &TcpListener, clock: &impl Clock) -> Option<TcpStream> {
    for _ in 0..MOST_TRIES {
        if let Ok((stream, _)) = listener.accept() {
            return Some(stream);
        }
        sleep(clock, Duration::from_millis(PAUSE));
    }
    None
}
