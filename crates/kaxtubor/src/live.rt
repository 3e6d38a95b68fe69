//! `live`: runs a script of `wasi:sockets` calls from standard input over this machine's network,
//! and writes one reply per line.

use crate::forms::{Form, LIVE, LIVE_BY_RULES};
use crate::live_options::{end_at_option, option_fault};
use crate::words::end_at_form;
use live_commands::{
    Command, Network, NoHosts, Options, Recorded, Setup, allowed, command_in, every_port, limit_in,
    options_in, patience, read_hosts, run_live, run_recorded, run_recorded_under, run_ruled,
};
use policy_commands::report::end_at_rules;
use policy_commands::{FoundRules, PolicyStatus, RulesText, read_rules};
use recorder_commands::report::{end_at_log_file, end_without_log};
use recorder_commands::{LogFile, NoLogFile, RecorderStatus, create_log};
use std::alloc::Global;
use std::process::ExitCode;
use std::rt::Files;
use std::{fs, io};
use wasi_console::{LineSource, end, end_of_run, end_unread, is_longer};
use wasi_net::{Allowed, Hosts};
use wasi_policy::Policy;
use wasi_program::Status;
use wasi_program::scenario::Unread;
use wasi_program::status::bad_line;
use world_io::{FileSource, StdSink, StdSource};

/// The status where the file of names can't be used.
const HOSTS_FAULT: u8 = 18;

/// How many bytes the file of names has at most.
const MOST_HOSTS: u64 = 1_048_576;

/// The status where the rules can't be read.
const RULES_FAULT: u8 = 17;

/// Does what the words behind `live` ask for.
pub fn run(rt: HostRuntime, words: &[String]) -> ExitCode {
    let (options, words) = options_in(words);
    match option_fault(options, words) {
        Some(fault) => end_at_option(&rt, fault),
        None => run_with(rt, options, words),
    }
}

/// The limit in the words and the addresses that rules may allow, or how the program ends without
/// them.
fn asked_by_rules(words: &[String], anywhere: bool) -> Result<(u32, Allowed), Status> {
    let [limit] = words else {
        return Err(Status::BadWords);
    };
    match limit_in(limit.as_str()) {
        Some(limit) => Ok((limit, every_port(anywhere))),
        None => Err(Status::BadWords),
    }
}

/// The limit and the ports in the words, or how the program ends without them. Without a port only
/// lookups can do anything, so that one number alone is no LIMIT, where there are no names.
fn asked_by_ports(
    alloc: Global,
    words: &[String],
    options: Options<'_>,
) -> Result<(u32, Allowed), Status> {
    match command_in(alloc, words) {
        Ok(Some(command)) => {
            let Command { limit, ports } = command;
            if ports.is_empty() && options.hosts.is_none() {
                return Err(Status::BadWords);
            }
            Ok((limit, allowed(ports, options.anywhere)))
        }
        Ok(None) => Err(Status::BadWords),
        Err(_) => Err(Status::Memory),
    }
}

/// The names in the file, where one is named.
fn named_hosts(rt: &HostRuntime, path: Option<&str>) -> Result<Hosts, NoHosts> {
    match path {
        Some(path) => read_hosts(rt.alloc(), &mut FileSource::open(rt, path)),
        None => Ok(Hosts::none(rt.alloc())),
    }
}

fn run_with(rt: HostRuntime, options: Options<'_>, words: &[String]) -> ExitCode {
    let asked = match options.rules {
        Some(_) => asked_by_rules(words, options.anywhere),
        None => asked_by_ports(rt.alloc(), words, options),
    };
    let (limit, allowed) = match asked {
        Ok(asked) => asked,
        Err(Status::BadWords) => return end_at_form(&rt, form_of(options), words),
        Err(status) => return end(&rt, status, 0, None),
    };
    let hosts = match named_hosts(&rt, options.hosts) {
        Ok(hosts) => hosts,
        Err(NoHosts::Memory) => return end(&rt, Status::Memory, 0, None),
        Err(NoHosts::Unreadable) => return end_at_hosts(&rt, options.hosts.unwrap_or("")),
    };
    let network = Network {
        allowed,
        hosts,
        patience: patience(options.endless),
    };
    let setup = Setup { limit, network };
    match (options.rules, options.log) {
        (None, None) => run_over(rt, setup),
        (None, Some(path)) => run_noted(rt, path, options.overwrites, None, setup),
        (Some(path), None) => run_by_rules(rt, path, setup),
        (Some(rules), Some(path)) => match policy_of(&rt, rules) {
            Ok(policy) => run_noted(rt, path, options.overwrites, Some(policy), setup),
            Err(code) => code,
        },
    }
}

/// Prints why the file of names can't be used.
fn end_at_hosts(rt: &HostRuntime, path: &str) -> ExitCode {
    if is_longer(rt, path, MOST_HOSTS) {
        let _ = eprintln!(rt; "status {HOSTS_FAULT}\n{path} has more than {MOST_HOSTS} bytes");
        return ExitCode::from(HOSTS_FAULT);
    }
    match fs::read_to_string(rt, path) {
        Err(error) if error.kind() == io::ErrorKind::InvalidData => {
            let _ = eprintln!(rt; "status {HOSTS_FAULT}\n{path} is not text");
            ExitCode::from(HOSTS_FAULT)
        }
        _ => end_unread(rt, HOSTS_FAULT, path),
    }
}

/// The form of the words behind these options.
fn form_of(options: Options<'_>) -> Form {
    match options.rules {
        Some(_) => LIVE_BY_RULES,
        None => LIVE,
    }
}

fn run_over(rt: HostRuntime, setup: Setup) -> ExitCode {
    let mut source = LineSource::new(StdSource::new(rt.stdin()));
    let mut sink = StdSink::new(rt.stdout());
    let outcome = run_live(&rt, rt.alloc(), setup, &mut source, &mut sink);
    end_at(&rt, Status::of_run(outcome), bad_line(outcome), &source)
}

/// The text of the rules in a file, or how the program ends without it.
fn rules_text(rt: &HostRuntime, path: &str) -> Result<RulesText, ExitCode> {
    match RulesText::read(rt.alloc(), FileSource::open(rt, path)) {
        Ok(text) => Ok(text),
        Err(Unread::Fault) => Err(end_unread(rt, RULES_FAULT, path)),
        Err(Unread::Memory(_)) => Err(end(rt, Status::Memory, 0, None)),
    }
}

/// The rules of a file, or how the program ends without them.
fn policy_of(rt: &HostRuntime, path: &str) -> Result<Policy, ExitCode> {
    let text = rules_text(rt, path)?;
    let Ok(mut rules) = text.source() else {
        return Err(end(rt, Status::Memory, 0, None));
    };
    match read_rules(rt.alloc(), &mut rules) {
        FoundRules::Read(policy) => Ok(policy),
        FoundRules::Stopped(PolicyStatus::Of(status), line) => Err(end(rt, status, line, None)),
        FoundRules::Stopped(status, line) => {
            Err(end_at_rules(rt, status.number(), path, line, &text))
        }
    }
}

/// Runs the script, under rules where there are some, and writes the log of its run to this file,
/// which is made before the first line is read.
fn run_noted(
    rt: HostRuntime,
    path: &str,
    overwrites: bool,
    policy: Option<Policy>,
    setup: Setup,
) -> ExitCode {
    let number = RecorderStatus::LogFault.number();
    match create_log(&rt, path, overwrites) {
        Ok(log) => run_into(rt, path, log, policy, setup),
        Err(NoLogFile::Exists) => end_at_log_file(&rt, number, path),
        Err(NoLogFile::Fault) => end_without_log(&rt, number, path),
    }
}

/// The same, where this file was made.
fn run_into(
    rt: HostRuntime,
    path: &str,
    log: LogFile<<HostRuntime as Files>::File>,
    policy: Option<Policy>,
    setup: Setup,
) -> ExitCode {
    let log_out = StdSink::new(log);
    let mut source = LineSource::new(StdSource::new(rt.stdin()));
    let mut sink = StdSink::new(rt.stdout());
    let alloc = rt.alloc();
    let Recorded { status, place, .. } = match policy {
        None => run_recorded(&rt, alloc, setup, log_out, &mut source, &mut sink),
        Some(policy) => run_recorded_under(
            &rt,
            alloc,
            policy,
            setup,
            log_out,
            &mut source,
            &mut sink,
        ),
    };
    match status {
        RecorderStatus::Of(status) => end_at(&rt, status, place, &source),
        status => end_without_log(&rt, status.number(), path),
    }
}

/// Runs the script under the rules of this file.
fn run_by_rules(rt: HostRuntime, path: &str, setup: Setup) -> ExitCode {
    match rules_text(&rt, path) {
        Ok(rules) => run_under(rt, path, &rules, setup),
        Err(code) => code,
    }
}

/// Runs the script under rules, which this file had.
fn run_under(rt: HostRuntime, path: &str, text: &RulesText, setup: Setup) -> ExitCode {
    let Ok(mut rules) = text.source() else {
        return end(&rt, Status::Memory, 0, None);
    };
    let mut source = LineSource::new(StdSource::new(rt.stdin()));
    let mut sink = StdSink::new(rt.stdout());
    let (status, line) = run_ruled(&rt, rt.alloc(), &mut rules, setup, &mut source, &mut sink);
    match status {
        PolicyStatus::Of(status) => end_at(&rt, status, line, &source),
        status => end_at_rules(&rt, status.number(), path, line, text),
    }
}

/// Prints how a run ended on standard error, with the bad line of its script, and ends so.
fn end_at<I>(rt: &HostRuntime, status: Status, line: u32, script: &LineSource<I>) -> ExitCode {
    end_of_run(rt, status.number(), line, script)
}
