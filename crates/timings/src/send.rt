use crate::packets::packet;
use crate::timed::Timed;
use anyhow::Result;
use std::net::{IpAddr, Net, SocketAddr, UdpSocket};
use std::time::{Clock, Instant};

/// Datagrams of a packet each to a socket of this machine that is never read, by a socket that is
/// not connected; the things are datagrams. The sum is that of the bytes that the system took.
pub fn run<R: Clock + Net>(rt: &R, datagrams: u32) -> Result<Timed> {
    let packet = packet(1)?;
    let held = UdpSocket::bind(rt, SocketAddr::new(IpAddr::from([127, 0, 0, 1]), 0))?;
    let sender = UdpSocket::bind(rt, SocketAddr::new(IpAddr::from([0, 0, 0, 0]), 0))?;
    let address = held.local_addr()?;
    let mut sum = 0u64;
    let began = Instant::now(rt)?;
    for _ in 0..datagrams {
        sum = sum.wrapping_add(sender.send_to(&packet, address)? as u64);
    }
    Ok(Timed::since(began, rt, u64::from(datagrams), sum)?)
}
