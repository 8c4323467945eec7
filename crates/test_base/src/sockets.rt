use links::{Door, Link, write_all};
use std::io::{Read, Write};
use std::net::{Ipv4Addr, Shutdown, TcpStream};
use std::test::Fail;
use std::time::Duration;
use streams::Failed;
use tcp_door::{Patience, TcpDoor};

// Whether a link brings `ping`; it gets `pong`.
fn answers<L: Link>(link: &mut L) -> Result<bool, Failed> {
    let mut buf = [0; 16];
    let n = link.read(&mut buf)?;
    let came = &buf[..n];
    let is_ping = came == b"ping".as_slice();
    write_all(link, b"pong")?;
    Ok(is_ping)
}

// Whether nothing more comes over a link.
fn has_ended<L: Link>(link: &mut L) -> Result<bool, Failed> {
    let mut buf = [0; 16];
    Ok(link.read(&mut buf)? == 0)
}

// One thread is both sides: what a peer sends waits in the system until the desk reads it.
#[test]
fn links_carry_bytes_both_ways_and_the_door_counts_them(rt: HostRuntime) -> Result<(), Fail> {
    let mut door = TcpDoor::new(&rt, Patience::usual());
    door.listen(0, 1)?;
    let mut peer = TcpStream::connect(&rt, (Ipv4Addr::LOCALHOST, door.port()))?;
    peer.write_all(b"ping")?;
    let Some(mut link) = door.next()? else {
        return Err(Fail::from("no link"));
    };
    let is_answered = answers(&mut link)?;
    peer.shutdown(Shutdown::Write)?;
    assert!(rt; is_answered && has_ended(&mut link)?);
    door.done(link);
    assert!(rt; door.next()?.is_none());
    let mut reply = Vec::new(rt.alloc());
    peer.read_to_end(&mut reply)?;
    assert_eq!(rt; reply.as_slice(), b"pong".as_slice());
    Ok(())
}

fn read_fails<L: Link>(link: &mut L) -> bool {
    let mut buf = [0; 16];
    link.read(&mut buf).is_err()
}

// Whether two reads fail.
fn two_fail<L: Link>(link: &mut L) -> bool {
    let first = read_fails(link);
    let second = read_fails(link);
    first && second
}

#[test]
fn a_peer_that_sends_nothing_is_waited_for_no_longer_than_said(
    rt: HostRuntime,
) -> Result<(), Fail> {
    let patience = Patience {
        once: Duration::from_millis(40),
        in_all: Duration::from_millis(60),
    };
    let mut door = TcpDoor::new(&rt, patience);
    door.listen(0, 2)?;
    let mut peer = TcpStream::connect(&rt, (Ipv4Addr::LOCALHOST, door.port()))?;
    let Some(mut link) = door.next()? else {
        return Err(Fail::from("no link"));
    };
    let are_cut = two_fail(&mut link);
    peer.write_all(b"late")?;
    assert!(rt; are_cut && read_fails(&mut link));
    door.done(link);
    Ok(())
}

#[test]
fn a_port_has_one_door(rt: HostRuntime) -> Result<(), Fail> {
    let mut first = TcpDoor::new(&rt, Patience::usual());
    let mut second = TcpDoor::new(&rt, Patience::usual());
    first.listen(0, 1)?;
    let port = first.port();
    assert_ne!(rt; port, 0);
    assert!(rt; second.listen(port, 1).is_err());
    assert_eq!(rt; second.port(), 0);
    Ok(())
}
