//! What the words of the program ask for.

ghost use Rattle.std.specs.Prelude.{◌≡◌, map, string_bytes};
ghost use Rattle.world_text.specs.Fields.{number_in};
ghost use Rattle.relay_commands.specs.Words.{local, target_in, order_in, limited_in};
ghost use Rattle.relay_commands.specs.Words.{scripted_in, live_in};

use wasi_addr::{IpSocketAddress, Ipv4SocketAddress};
use wasi_relay::Order;
use world_text::fields::number;

/// The most turns over a scenario's network.
const MOST_TURNS: u64 = 4096;

/// A port of 127.0.0.1.
fn local(port: u16) -> IpSocketAddress
    ensures { result ≡ local port }
{
    let address = (127, 0, 0, 1);
    IpSocketAddress::Ipv4(Ipv4SocketAddress { port, address })
}

/// The port that a word is.
fn port_in(word: &str) -> Option<u16>
    ensures { result ≡ number_in word.now 65535 }
{
    Some(number(word.as_bytes(), u64::from(u16::MAX))? as u16)
}

/// The number of 32 bits that a word is.
fn u32_in(word: &str) -> Option<u32>
    ensures { result ≡ number_in word.now 4294967295 }
{
    Some(number(word.as_bytes(), u64::from(u32::MAX))? as u32)
}

/// The number of turns that a word is.
fn turns_in(word: &str) -> Option<u32>
    ensures { result ≡ number_in word.now 4096 }
{
    Some(number(word.as_bytes(), MOST_TURNS)? as u32)
}

/// The port that a word is, other than 0.
fn target_in(word: &str) -> Option<u16>
    ensures { result ≡ target_in word.now }
{
    let port = port_in(word)?;
    if port == 0 {
        return None;
    }
    Some(port)
}

/// The order of a listen port, a target port and a number of connections, with so many turns.
fn order_in(listen: &str, target: &str, connections: &str, turns: u32) -> Option<Order>
    ensures { result ≡ order_in listen.now target.now connections.now turns }
{
    let listen = local(port_in(listen)?);
    let target = local(target_in(target)?);
    let connections = u32_in(connections)?;
    Some(Order {
        listen,
        target,
        connections,
        turns,
    })
}

/// The order with the number of its turns.
fn limited_in(listen: &str, target: &str, connections: &str, turns: &str) -> Option<Order>
    ensures { result ≡ limited_in listen.now target.now connections.now turns.now }
{
    let turns = turns_in(turns)?;
    order_in(listen, target, connections, turns)
}

/// What `relay LISTENPORT TARGETPORT CONNECTIONS TURNS` asks for, with ports of 127.0.0.1, the
/// second at least 1, and at most 4,096 turns. None where the words aren't these.
pub fn scripted_in(words: &[String]) -> Option<Order>
    ensures { result ≡ scripted_in (map (λ w. string_bytes w) words.now) }
{
    let [word, listen, target, connections, turns] = words else {
        return None;
    };
    if word.as_str() != "relay" {
        return None;
    }
    limited_in(
        listen.as_str(),
        target.as_str(),
        connections.as_str(),
        turns.as_str(),
    )
}

/// What `--live LISTENPORT TARGETPORT CONNECTIONS` asks for: as the other words, with turns
/// without end. None where the words aren't these.
pub fn live_in(words: &[String]) -> Option<Order>
    ensures { result ≡ live_in (map (λ w. string_bytes w) words.now) }
{
    let [word, listen, target, connections] = words else {
        return None;
    };
    if word.as_str() != "--live" {
        return None;
    }
    order_in(
        listen.as_str(),
        target.as_str(),
        connections.as_str(),
        Order::ENDLESS,
    )
}
