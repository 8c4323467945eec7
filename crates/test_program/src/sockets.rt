//! The desk over the sockets of the system.

use crate::served::is_served;
use keep_core::MemoryKeeper;
use links::Door;
use std::io::{Read, Write};
use std::net::{Ipv4Addr, TcpStream};
use std::process::Abort;
use std::test::Fail;
use tcp_door::{Patience, TcpDoor};
use texts::List;

const PUT_SITE: &[u8] =
    b"PUT /sites/acme HTTP/1.1\r\nx-caller: ann\r\ncontent-length: 0\r\nconnection: close\r\n\r\n";

const SITE_IS_PUT: &[u8] =
    b"HTTP/1.1 201 Created\r\ncontent-type: application/json\r\ncontent-length: 15\r\nconnection: close\r\n\r\n{\"site\":\"acme\"}";

// One thread is both sides: what the peer sends waits in the system until the desk reads it.
#[test]
fn a_request_over_tcp_has_its_reply(rt: HostRuntime) -> Result<(), Fail> {
    let alloc = rt.alloc();
    let keeper = MemoryKeeper::new(alloc, List::from_vec(Vec::new(alloc)));
    let mut door = TcpDoor::new(&rt, Patience::usual());
    door.listen(0, 1)?;
    let mut peer = TcpStream::connect(&rt, (Ipv4Addr::LOCALHOST, door.port()))?;
    peer.write_all(PUT_SITE)?;
    assert!(rt; is_served(&rt, alloc, &mut door, keeper));
    let mut reply = Vec::new(alloc);
    peer.read_to_end(&mut reply)?;
    assert_eq!(rt; reply.as_slice(), SITE_IS_PUT);
    Ok(())
}
