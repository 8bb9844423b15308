//! What a line does once its fields are read: the limits that it keeps to, and what it declares.

ghost use Rattle.std.specs.Prelude.{◌≡◌, ◌++◌, ◌∷◌, [], length, nat_lt, if◌then◌else◌, slice_get, IfOk, OnOk, OnErr};
ghost use Rattle.std.specs.List.{list_any};
ghost use Rattle.script_lines.specs.Grammar.{new_system};
ghost use Rattle.script_lines.specs.Known.{changed, with};

use crate::cause::LineCause;
use crate::field_values::FieldValues;
use crate::names::Names;
use crate::settings::Key;
use crate::system::{LanRow, SystemRow};
use crate::words::Effect;
use nsap::{Port, Prefix};
use osi_base::{Bytes, NoMemory};
use std::alloc::Global;

/// The most LANs, systems and source routes.
const DECLARED: usize = 16;

/// The version in which sizes may be preferred.
const SECOND: u32 = 2;

/// The most routes of a system.
const ROUTES: usize = 256;

impl Names {
    ghost use Rattle.script_lines.specs.Known.{no_parts, ports_of, routes_of};
    ghost use Rattle.script_lines.specs.Grammar.{limit_cause, life_cause, next_number, declared_by};

    /// A limit that the line would pass.
    pub fn limit_cause(&self, effect: Effect, parts: &FieldValues) -> Option<LineCause>
        ensures { result ≡ limit_cause self.now effect parts.now }
    {
        match effect {
            Effect::Lan => many_from(self.lans.len(), DECLARED),
            Effect::EndSystem | Effect::IntermediateSystem => {
                many_from(self.systems.len(), DECLARED)
            }
            Effect::Port => many_from(
                self.ports_count(parts.system),
                if self.is_end(parts.system) { 1 } else { 8 },
            ),
            Effect::Route => many_from(self.routes_count(parts.system), ROUTES),
            Effect::Path => many_from(self.paths.len(), DECLARED),
            Effect::Start => self.life_cause(),
            Effect::Nothing | Effect::Version | Effect::Setting | Effect::Selector => None,
        }
    }

    /// The number that a declaration gives.
    pub fn next_number(&self, effect: Effect) -> u8
        ensures { result ≡ next_number self.now effect }
    {
        match effect {
            Effect::Lan => self.lans.len() as u8,
            Effect::EndSystem | Effect::IntermediateSystem => self.systems.len() as u8,
            Effect::Path => self.paths.len() as u8 + 1,
            Effect::Nothing
            | Effect::Version
            | Effect::Setting
            | Effect::Port
            | Effect::Route
            | Effect::Selector
            | Effect::Start => 0,
        }
    }

    /// Whether the lifetime is below the bound of a LAN.
    fn life_cause(&self) -> Option<LineCause>
        ensures { result ≡ life_cause self.now }
    {
        if is_any_above(&self.lans, self.settings.value(Key::Life)) {
            Some(LineCause::Life)
        } else {
            None
        }
    }

    fn ports_count(&self, number: u8) -> usize
        ensures { result ≡ length (ports_of (slice_get self.now.systems number)) }
    {
        match self.system(number) {
            Some(system) => system.ports_count(),
            None => 0,
        }
    }

    fn routes_count(&self, number: u8) -> usize
        ensures { result ≡ length (routes_of (slice_get self.now.systems number)) }
    {
        match self.system(number) {
            Some(system) => system.routes_count(),
            None => 0,
        }
    }

    /// Takes up what a line declares.
    pub fn declare(&mut self, effect: Effect, parts: &FieldValues) -> Result<(), NoMemory>
        requires { limit_cause self.old effect parts.now ≡ None }
        ensures ok { OnOk result (self.new ≡ declared_by self.old effect parts.now) }
        ensures err { OnErr result (self.new ≡ self.old) }
    {
        match effect {
            Effect::Version => {
                self.second = parts.number == SECOND;
                self.versioned = true;
            }
            Effect::Setting => self.settings = self.settings.with(parts.key, parts.number),
            Effect::Lan => {
                let name = Bytes::copy(self.alloc, parts.name.as_slice())?;
                self.lans.push(LanRow {
                    name,
                    bound: parts.number,
                })?;
            }
            Effect::EndSystem => self.systems.push(system_row(self.alloc, true, parts)?)?,
            Effect::IntermediateSystem => {
                self.systems.push(system_row(self.alloc, false, parts)?)?;
            }
            Effect::Port => {
                let port = Port {
                    lan: parts.lan,
                    snpa: parts.given_station(),
                };
                add_port(&mut self.systems, parts.system, port)?;
            }
            Effect::Route => add_route(&mut self.systems, parts.system, parts.given_prefix())?,
            Effect::Path => self
                .paths
                .push(Bytes::copy(self.alloc, parts.name.as_slice())?)?,
            Effect::Selector => {
                let selector = parts.selector.as_slice().to_vec(self.alloc)?;
                add_selector(&mut self.systems, parts.system, selector)?;
            }
            Effect::Start => self.started = true,
            Effect::Nothing => {}
        }
        Ok(())
    }
}

/// As many as there may be.
fn many_from(count: usize, limit: usize) -> Option<LineCause>
    ensures { result ≡ (if nat_lt count limit then None else Some LineCause.Many) }
{
    if count < limit {
        None
    } else {
        Some(LineCause::Many)
    }
}

fn is_any_above(lans: &[LanRow], life: u32) -> bool
    ensures { result ≡ list_any (λ lan. nat_lt life lan.bound) lans.now }
{
    lans.iter().any(|lan| life < lan.bound)
}

fn system_row(alloc: Global, is_end: bool, parts: &FieldValues) -> Result<SystemRow, NoMemory>
    ensures { IfOk result (λ row. row ≡ new_system is_end parts.now) }
{
    let name = Bytes::copy(alloc, parts.name.as_slice())?;
    Ok(SystemRow::new(alloc, name, is_end, parts.given_title()))
}

fn add_port(systems: &mut [SystemRow], number: u8, port: Port) -> Result<(), NoMemory>
    ensures ok { OnOk result (systems.new ≡ changed systems.old number (λ system. record system { ports = system.ports ++ port ∷ [] })) }
    ensures err { OnErr result (systems.new ≡ systems.old) }
{
    let at = usize::from(number);
    if at < systems.len() {
        systems[at].add_port(port)
    } else {
        Ok(())
    }
}

fn add_route(systems: &mut [SystemRow], number: u8, prefix: Prefix) -> Result<(), NoMemory>
    ensures ok { OnOk result (systems.new ≡ changed systems.old number (λ system. record system { routes = system.routes ++ prefix ∷ [] })) }
    ensures err { OnErr result (systems.new ≡ systems.old) }
{
    let at = usize::from(number);
    if at < systems.len() {
        systems[at].add_route(prefix)
    } else {
        Ok(())
    }
}

fn add_selector(systems: &mut [SystemRow], number: u8, selector: Vec<u8>) -> Result<(), NoMemory>
    ensures ok { OnOk result (systems.new ≡ changed systems.old number (λ system. record system { selectors = with system.selectors selector.items })) }
    ensures err { OnErr result (systems.new ≡ systems.old) }
{
    let at = usize::from(number);
    if at < systems.len() {
        systems[at].add_selector(selector)
    } else {
        Ok(())
    }
}
