//! What a world told, as a type that has just the answers that fit.

ghost use Rattle.std.specs.Prelude.{◌≡◌};
ghost use Rattle.wasi_world.specs.Typed.{told_verdict, told_done, told_addr, told_value};
ghost use Rattle.wasi_world.specs.Typed.{told_ready, told_polled, told_arrival, told_bytes};
ghost use Rattle.wasi_world.specs.Typed.{told_taken, told_datagram, told_names};

use crate::asks::{Polled, Verdict};
use crate::call::Told;
use crate::octets::{IpList, Octets};
use crate::outcome::Answer;
use wasi_addr::{ErrorCode, IpSocketAddress};

pub(crate) fn told_verdict(told: Told) -> Verdict
    ensures { result ≡ told_verdict told }
{
    match told {
        Told::Yes => Verdict::Yes,
        Told::No => Verdict::No,
        _ => Verdict::Pending,
    }
}

pub(crate) fn told_done(told: Told) -> Result<(), ErrorCode>
    ensures { result ≡ told_done told }
{
    match told {
        Told::Code(code) => Err(code),
        _ => Ok(()),
    }
}

pub(crate) fn told_addr(told: Told) -> Result<IpSocketAddress, ErrorCode>
    ensures { result ≡ told_addr told }
{
    match told {
        Told::Addr(addr) => Ok(addr),
        Told::Code(code) => Err(code),
        _ => Err(ErrorCode::Other),
    }
}

pub(crate) fn told_value(told: Told) -> Result<u64, ErrorCode>
    ensures { result ≡ told_value told }
{
    match told {
        Told::Value(value) => Ok(value),
        Told::Code(code) => Err(code),
        _ => Err(ErrorCode::Other),
    }
}

pub(crate) fn told_ready(told: Told) -> Answer<()>
    ensures { result ≡ told_ready told }
{
    match told {
        Told::Done => Answer::Ready(()),
        _ => Answer::Pending,
    }
}

pub(crate) fn told_polled(told: Told) -> Polled<()>
    ensures { result ≡ told_polled told }
{
    match told {
        Told::Done => Polled::Ready(()),
        Told::Code(code) => Polled::Code(code),
        _ => Polled::Pending,
    }
}

pub(crate) fn told_arrival(told: Told) -> Polled<IpSocketAddress>
    ensures { result ≡ told_arrival told }
{
    match told {
        Told::Arrived(peer) => Polled::Ready(peer),
        Told::Code(code) => Polled::Code(code),
        _ => Polled::Pending,
    }
}

pub(crate) fn told_bytes(told: Told) -> Polled<Octets>
    ensures { result ≡ told_bytes told }
{
    match told {
        Told::Bytes(bytes) => Polled::Ready(bytes),
        Told::Code(code) => Polled::Code(code),
        _ => Polled::Pending,
    }
}

pub(crate) fn told_taken(told: Told) -> Polled<usize>
    ensures { result ≡ told_taken told }
{
    match told {
        Told::Took(bytes) => Polled::Ready(bytes.len()),
        Told::Code(code) => Polled::Code(code),
        _ => Polled::Pending,
    }
}

pub(crate) fn told_datagram(told: Told) -> Polled<(Octets, IpSocketAddress)>
    ensures { result ≡ told_datagram told }
{
    match told {
        Told::Datagram(bytes, peer) => Polled::Ready((bytes, peer)),
        Told::Code(code) => Polled::Code(code),
        _ => Polled::Pending,
    }
}

pub(crate) fn told_names(told: Told) -> Polled<IpList>
    ensures { result ≡ told_names told }
{
    match told {
        Told::Names(names) => Polled::Ready(names),
        Told::Code(code) => Polled::Code(code),
        _ => Polled::Pending,
    }
}
