//! The fields of a route and of a source route: their LAN, and their systems.

ghost use Rattle.std.specs.Prelude.{◌≡◌};

use crate::cause::{FieldRefusal, LineCause};
use crate::line_fields::{CommaNames, are_many, are_names};
use crate::names::Names;
use osi_base::Items;

impl Names {
    ghost use Rattle.script_lines.specs.Gives.{Found};
    ghost use Rattle.script_lines.specs.Known.{system_at};
    ghost use Rattle.script_lines.specs.Reading.{route_lan_of, hops_of, each_intermediate, intermediate};

    #[tactic(auto, unfolding(crate::specs::Reading::route_lan_of))]
    pub(crate) fn route_lan_of(&self, system: u8, next: u8, field: &str) -> Result<u8, LineCause>
        ensures { result ≡ route_lan_of self.now system next field.now }
    {
        match self.lan_of(field) {
            Ok(lan) if self.has_port(system, lan) && self.has_port(next, lan) => Ok(lan),
            Ok(_) => Err(LineCause::Unknown),
            Err(cause) => Err(cause),
        }
    }

    /// One to four intermediate systems.
    #[tactic(auto, unfolding(crate::specs::Reading::hops_of))]
    pub(crate) fn hops_of(&self, field: &str) -> Result<Items<u8>, FieldRefusal>
        ensures { Found (hops_of self.now field.now) result }
    {
        if !are_names(field) {
            return Err(FieldRefusal::Cause(LineCause::Syntax));
        }
        if are_many(field) {
            return Err(FieldRefusal::Cause(LineCause::Range));
        }
        self.each_intermediate(CommaNames::of(field))
    }

    /// The numbers of intermediate systems.
    fn each_intermediate(&self, mut names: CommaNames<'_>) -> Result<Items<u8>, FieldRefusal>
        ensures { Found (each_intermediate self.now names.entry) result }
    {
        let mut hops = Vec::new(self.alloc);
        while let Some(name) = names.next() {
            match self.intermediate(name) {
                Ok(hop) => match hops.push(hop) {
                    Ok(()) => {}
                    Err(_) => return Err(FieldRefusal::NoMemory),
                },
                Err(cause) => return Err(FieldRefusal::Cause(cause)),
            }
        }
        Ok(Items::of(hops))
    }

    fn intermediate(&self, name: &str) -> Result<u8, LineCause>
        ensures { result ≡ intermediate self.now (system_at self.now.systems name.now) }
    {
        match self.system_at(name) {
            Some(system) if self.is_end(system) => Err(LineCause::Unknown),
            Some(system) => Ok(system),
            None => Err(LineCause::Unknown),
        }
    }
}
