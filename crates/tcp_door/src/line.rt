ghost use Rattle.std.specs.Prelude.{◌≤◌, ◌<◌, length, IfOk};

use crate::patience::Patience;
use std::io;
use std::io::{ErrorKind, Read, Write};
use std::net::{Shutdown, TcpStream};
use std::time::{Clock, Duration, Instant};

// How often a call is tried that a signal interrupts.
const MOST_TRIES: u32 = 16;

// The most bytes that one read takes of what a peer still sends when its link is closed, and the most
// reads.
const CLOSING_PIECE: usize = 4_096;

const CLOSING_READS: u32 = 4_096;

// Whose turn it is: the peer's, to send a message, or the desk's, to send a reply.
#[derive(Clone, Copy, PartialEq, Eq)]
enum Turn {
    Message,
    Reply,
}

// A socket, and how long it was waited for in this turn.
#[derive(Drop)]
pub(crate) struct Line<C: Clock + Drop> {
    stream: TcpStream,
    clock: C,
    patience: Patience,
    turn: Turn,
    waited: Duration,
}

impl<C: Clock + Drop> Line<C> {
    // A line whose first turn is the peer's. What is written goes out at once.
    pub(crate) fn new(stream: TcpStream, clock: C, patience: Patience) -> Self {
        let _ = stream.set_nodelay(true);
        Line {
            stream,
            clock,
            patience,
            turn: Turn::Message,
            waited: Duration::ZERO,
        }
    }

    // Reads into the front of the buffer; an error too where the peer lets it wait too long.
    pub(crate) fn read(&mut self, buf: &mut [u8]) -> io::Result<usize>
        ensures { IfOk result (λ n. n ≤ length buf.old) }
    {
        self.begin(Turn::Message);
        for _ in 0..MOST_TRIES {
            match self.read_once(buf) {
                Err(error) if error.kind() == ErrorKind::Interrupted => {}
                ended => return ended,
            }
        }
        Err(io::Error::from(ErrorKind::Interrupted))
    }

    fn read_once(&mut self, buf: &mut [u8]) -> io::Result<usize>
        ensures { IfOk result (λ n. n ≤ length buf.old) }
    {
        let left = self.left()?;
        self.stream.set_read_timeout(Some(left))?;
        let start = Instant::now(&self.clock)?;
        let got = self.stream.read(buf);
        self.waited_since(start)?;
        got
    }

    // Writes a front of the piece; an error too where the peer lets it wait too long, or takes nothing.
    pub(crate) fn write(&mut self, piece: &[u8]) -> io::Result<usize>
        ensures within { IfOk result (λ n. n ≤ length piece.now) }
        ensures some { IfOk result (λ n. 0 < n) }
    {
        self.begin(Turn::Reply);
        for _ in 0..MOST_TRIES {
            match self.write_once(piece) {
                Err(error) if error.kind() == ErrorKind::Interrupted => {}
                Ok(0) => return Err(io::Error::from(ErrorKind::WriteZero)),
                ended => return ended,
            }
        }
        Err(io::Error::from(ErrorKind::Interrupted))
    }

    fn write_once(&mut self, piece: &[u8]) -> io::Result<usize>
        ensures { IfOk result (λ n. n ≤ length piece.now) }
    {
        let left = self.left()?;
        self.stream.set_write_timeout(Some(left))?;
        let start = Instant::now(&self.clock)?;
        let put = self.stream.write(piece);
        self.waited_since(start)?;
        put
    }

    // Ends the desk's part, and takes what the peer still sends, for a short while. Were it left unread,
    // the system would tell the peer so at once, and the peer could lose the last reply.
    pub(crate) fn close(mut self) {
        if self.stream.shutdown(Shutdown::Write).is_err() {
            return;
        }
        self.patience = Patience::of_closing();
        self.waited = Duration::ZERO;
        let mut buf = [0; CLOSING_PIECE];
        for _ in 0..CLOSING_READS {
            match self.read(&mut buf) {
                Ok(n) if n > 0 => {}
                _ => return,
            }
        }
    }

    // A new turn is waited for anew.
    fn begin(&mut self, turn: Turn) {
        if self.turn != turn {
            self.turn = turn;
            self.waited = Duration::ZERO;
        }
    }

    // How long the next call may wait.
    fn left(&self) -> io::Result<Duration> {
        let left = self.patience.in_all.saturating_sub(self.waited);
        if left.is_zero() {
            return Err(io::Error::from(ErrorKind::TimedOut));
        }
        Ok(left.min(self.patience.once))
    }

    fn waited_since(&mut self, start: Instant) -> io::Result<()> {
        let waited = start.elapsed(&self.clock)?;
        self.waited = self.waited.saturating_add(waited);
        Ok(())
    }
}
