//! An index of rules, by which the first that matches is found without a look at each.

ghost use Rattle.std.specs.Prelude.{◌≡◌, ◌<◌, ◌^◌, IfOk, List, length};
ghost use Rattle.wasi_addr.specs.declared.address.SocketAddrUse.{SocketAddrUse};
ghost use Rattle.wasi_policy.specs.declared.rule.Rule.{Rule};
ghost use Rattle.wasi_policy.specs.Decision.{allows, decision};
ghost use Rattle.wasi_policy.specs.Explained.{explanation, explained_at};
ghost use Rattle.wasi_policy.specs.Reach.{by_place, family_of};
ghost use Rattle.wasi_policy.specs.Index.{AreNodesOf, AreUseNodesOf, IsIndexOf};

use crate::decide::decision_of;
use crate::explain::explanation_of;
use crate::node::Node;
use crate::nodes::{first_in, nodes_of};
use crate::reach::{ip_number, reaches_of};
use crate::rule::{Decision, Explanation, Rule};
use std::alloc::{AllocError, Global};
use wasi_addr::{IpAddress, IpSocketAddress, SocketAddrUse, SocketAddressFamily};

/// The nodes of the rules that match a use.
#[derive(Drop)]
pub struct UseNodes {
    ipv4: Vec<Node>,
    ipv6: Vec<Node>,
}

impl UseNodes {
    /// The nodes of the family of this address.
    fn of_family(&self, ip: IpAddress) -> &[Node]
        ensures { (rules : List Rule) (asked : SocketAddrUse) → AreUseNodesOf rules asked self.now
            → AreNodesOf rules asked (family_of ip) result.now }
    {
        match ip {
            IpAddress::Ipv4(_) => self.ipv4.as_slice(),
            IpAddress::Ipv6(_) => self.ipv6.as_slice(),
        }
    }
}

/// The nodes of the rules that match this use of addresses of this family. Takes memory for them.
fn family_nodes(
    alloc: Global,
    rules: &[Rule],
    usage: SocketAddrUse,
    family: SocketAddressFamily,
) -> Result<Vec<Node>, AllocError>
    requires { length rules.now < 2 ^ 32 }
    ensures { IfOk result (λ nodes. AreNodesOf rules.now usage family nodes.items) }
{
    let reaches = reaches_of(alloc, rules, usage, family)?;
    nodes_of(alloc, reaches)
}

/// The nodes of the rules that match this use. Takes memory for them.
fn use_nodes(alloc: Global, rules: &[Rule], usage: SocketAddrUse) -> Result<UseNodes, AllocError>
    requires { length rules.now < 2 ^ 32 }
    ensures { IfOk result (λ nodes. AreUseNodesOf rules.now usage nodes) }
{
    let ipv4 = family_nodes(alloc, rules, usage, SocketAddressFamily::Ipv4)?;
    let ipv6 = family_nodes(alloc, rules, usage, SocketAddressFamily::Ipv6)?;
    Ok(UseNodes { ipv4, ipv6 })
}

/// The nodes of each use.
#[derive(Drop)]
pub struct Index {
    tcp_bind: UseNodes,
    tcp_listen: UseNodes,
    tcp_accept: UseNodes,
    tcp_connect: UseNodes,
    udp_bind: UseNodes,
    udp_send: UseNodes,
    udp_receive: UseNodes,
}

impl Index {
    /// The index of these rules. Takes memory for each rule once, or for each of the seven uses and
    /// two families where it matches any.
    pub fn of(alloc: Global, rules: &[Rule]) -> Result<Index, AllocError>
        requires { length rules.now < 2 ^ 32 }
        ensures { IfOk result (λ index. IsIndexOf rules.now index) }
    {
        let tcp_bind = use_nodes(alloc, rules, SocketAddrUse::TcpBind)?;
        let tcp_listen = use_nodes(alloc, rules, SocketAddrUse::TcpListen)?;
        let tcp_accept = use_nodes(alloc, rules, SocketAddrUse::TcpAccept)?;
        let tcp_connect = use_nodes(alloc, rules, SocketAddrUse::TcpConnect)?;
        let udp_bind = use_nodes(alloc, rules, SocketAddrUse::UdpBind)?;
        let udp_send = use_nodes(alloc, rules, SocketAddrUse::UdpSend)?;
        let udp_receive = use_nodes(alloc, rules, SocketAddrUse::UdpReceive)?;
        Ok(Index {
            tcp_bind,
            tcp_listen,
            tcp_accept,
            tcp_connect,
            udp_bind,
            udp_send,
            udp_receive,
        })
    }

    /// The nodes of this use.
    fn of_use(&self, usage: SocketAddrUse) -> &UseNodes
        ensures { (rules : List Rule) → IsIndexOf rules self.now
            → AreUseNodesOf rules usage result.now }
    {
        match usage {
            SocketAddrUse::TcpBind => &self.tcp_bind,
            SocketAddrUse::TcpListen => &self.tcp_listen,
            SocketAddrUse::TcpAccept => &self.tcp_accept,
            SocketAddrUse::TcpConnect => &self.tcp_connect,
            SocketAddrUse::UdpBind => &self.udp_bind,
            SocketAddrUse::UdpSend => &self.udp_send,
            SocketAddrUse::UdpReceive => &self.udp_receive,
        }
    }

    /// The place of the first of these rules, of which it is the index, that matches this use of
    /// this address; `NO_RULE` where none does.
    fn first(&self, rules: &[Rule], address: IpSocketAddress, usage: SocketAddrUse) -> u32
        requires few { length rules.now < 2 ^ 32 }
        requires index { IsIndexOf rules.now self.now }
        ensures decides { by_place rules.now result ≡ decision rules.now address usage }
        ensures explains { explained_at rules.now result ≡ explanation rules.now address usage }
    {
        let ip = address.ip().to_canonical();
        let number = ip_number(ip);
        let nodes = self.of_use(usage).of_family(ip);
        first_in(nodes, number, address.port())
    }

    /// What these rules, of which it is the index, decide of this use of this address. Takes no
    /// memory.
    pub fn decide(&self, rules: &[Rule], address: IpSocketAddress, usage: SocketAddrUse) -> Decision
        requires few { length rules.now < 2 ^ 32 }
        requires index { IsIndexOf rules.now self.now }
        ensures { result ≡ decision rules.now address usage }
    {
        decision_of(rules, self.first(rules, address, usage))
    }

    /// Which of these rules, of which it is the index, decides this use of this address. Takes no
    /// memory.
    pub fn explain(
        &self,
        rules: &[Rule],
        address: IpSocketAddress,
        usage: SocketAddrUse,
    ) -> Explanation
        requires few { length rules.now < 2 ^ 32 }
        requires index { IsIndexOf rules.now self.now }
        ensures rule { result ≡ explanation rules.now address usage }
        ensures line { result.line ≡ (decision rules.now address usage).rule }
        ensures action { allows result.rule.action ≡ (decision rules.now address usage).allow }
    {
        explanation_of(rules, self.first(rules, address, usage))
    }
}
