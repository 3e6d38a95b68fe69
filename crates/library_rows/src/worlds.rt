//! Cases of scenarios and of the scripted world.

ghost use Rattle.std.specs.Prelude.{◌≡◌, false};
ghost use Rattle.wasi_world.specs.Fits.{IsPlain};
ghost use Rattle.world_scripted.specs.Scripted.{seen_by};

use row_cases::{Case, Stream};
use std::alloc::{AllocError, Global};
use std::fmt::Write;
use wasi_addr::{IpSocketAddress, Ipv4SocketAddress, SocketAddrUse};
use wasi_world::{Call, NameText, OpId, Told, World};
use world_scripted::{ScenarioError, ScriptedWorld};
use world_text::ToldText;
use world_text::fields::Fields;

/// The network socket that the first line makes, and its operation.
const SIDE: OpId = OpId { step: 1, part: 0 };

/// `scenario`: the first bad line of the input as a scenario.
pub fn scenario(text: &mut String, alloc: Global, case: &Case) -> Result<(), AllocError> {
    match ScriptedWorld::parse(alloc, case.text(Stream::Input)) {
        Ok(_) => text.push_str("a scenario\n"),
        Err(ScenarioError::BadScenario(line)) => write!(text, "bad line {line}\n"),
        Err(ScenarioError::Memory(e)) => Err(e),
    }
}

/// A scripted world that has not ended.
#[derive(Drop)]
struct Open {
    world: ScriptedWorld,
    ghost open: { (seen_by world).ended ≡ false },
}

impl Open {
    fn call(&mut self, call: Call) -> Result<Told, AllocError>
        requires { IsPlain call }
    {
        self.world.call(SIDE, call)
    }

    /// Makes a check, or arms the world, or for any other word makes a lookup.
    fn step(&mut self, text: &mut String, alloc: Global, line: &str) -> Result<(), AllocError> {
        let mut fields = Fields::of(line.as_bytes());
        let told = match fields.word() {
            Some("check") => {
                let address = (127, 0, 0, 1);
                let addr = IpSocketAddress::Ipv4(Ipv4SocketAddress { port: 80, address });
                let usage = SocketAddrUse::UdpBind;
                self.call(Call::Check {
                    ctx: 0,
                    addr,
                    usage,
                })?
            }
            Some("arm") => {
                if let (Some(nth), Some(code)) = (fields.u32(), fields.code()) {
                    self.world.arm(nth, code);
                }
                return text.push_str("armed\n");
            }
            _ => {
                let host = NameText::from_vec(Vec::new(alloc));
                self.call(Call::Lookup { host })?
            }
        };
        write!(text, "{}\n", ToldText(&told))
    }
}

/// `world`: what a world by the scenario answers to each line of the input, `check`, `lookup` or
/// `arm N CODE`; the codes and the entries; and how many network sockets were closed after its end.
pub fn world(text: &mut String, alloc: Global, case: &Case) -> Result<(), AllocError> {
    let Ok((world, _)) = ScriptedWorld::parse(alloc, case.text(Stream::Scenario)) else {
        return text.push_str("no scenario\n");
    };
    let mut open = Open { world };
    for line in case.input().lines() {
        open.step(text, alloc, line)?;
    }
    let Open { mut world } = open;
    let (faults, was_ended) = (world.faults(), world.ended());
    world.end();
    world.close_after_end(SIDE);
    world.close_after_end(SIDE);
    let (ended, closed) = (world.ended(), world.closed_after_end());
    let (len, all) = (world.entries().len(), world.into_entries().len());
    write!(text, "codes {faults} entries {len} {all} ")?;
    write!(text, "ended {was_ended} {ended} closed {closed}\n")
}
