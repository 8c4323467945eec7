ghost use Rattle.std.specs.Prelude.{◌≡◌, ◌<◌, List, Option, None, IfOk, IfSome};
ghost use Rattle.streams.specs.Streams.{Counts};
ghost use Rattle.links.specs.Wires.{IsUntouched};
ghost use Rattle.links.specs.Doors.{Doorway, Listens, Gives, TookBack, KeepsLog, Logs};

use crate::link::Link;
use streams::Failed;

/// What a door listens at: a port, and how many connections it gives in all.
#[derive(Clone, Copy, Debug, PartialEq, Eq)]
pub struct Heard {
    pub port: u16,
    pub count: u64,
}

/// Where connections come in. Its count of faults never falls, and rises only in a call that fails. A door in
/// memory tells its log, the links that `done` got, and a real one doesn't.
pub trait Door {
    /// The connections that it gives.
    type Conn: Link;

    /// What it listens at, how many connections are still allowed, how many links are out, its faults.
    ghost told: { Self → Doorway };

    /// The links that `done` got, in order, where it tells them.
    ghost log: { Self → Option (List Self.Conn) };

    /// Listens at a port, for this many connections. That no `listen` has answered Ok yet is the
    /// caller's to see to. `Failed` comes only where the door met a fault, and changes nothing else.
    fn listen(&mut self, port: u16, count: u64) -> Result<(), Failed>
        requires { (told self.old).heard ≡ None }
        ensures listens { Listens (record { port = port; count = count }) (told self.old) (told self.new) result }
        ensures log { KeepsLog (log self.old) (log self.new) }
        ensures counts { Counts (told self.old).faults (told self.new).faults result };

    /// The next link, of which nothing is read or written yet; none exactly where no connection is still
    /// allowed. `Failed` comes only where the door met a fault, and changes nothing else.
    fn next(&mut self) -> Result<Option<Self::Conn>, Failed>
        ensures gives { Gives (told self.old) (told self.new) result }
        ensures untouched { IfOk result (λ given. IfSome given (λ link. IsUntouched (Self.Conn.wire link) (Self.Conn.faults link))) }
        ensures log { KeepsLog (log self.old) (log self.new) }
        ensures counts { Counts (told self.old).faults (told self.new).faults result };

    /// Takes back a link, of those that `next` gave and `done` hasn't got, and puts it at the end of the
    /// log.
    fn done(&mut self, link: Self::Conn)
        requires { 0 < (told self.old).out }
        ensures took { TookBack (told self.old) (told self.new) }
        ensures log { Logs link (log self.old) (log self.new) };

    /// No connection is allowed before a `listen` has answered Ok.
    ghost unheard: { (door : Self) → (told door).heard ≡ None → (told door).allowed ≡ 0 };
}
