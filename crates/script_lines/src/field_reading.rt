//! What a field of each kind gives.

ghost use Rattle.std.specs.Prelude.{◌≡◌};
ghost use Rattle.script_lines.specs.Gives.{Gives, into};
ghost use Rattle.script_lines.specs.Reading.{with_size};

use crate::cause::{FieldRefusal, LineCause, put, put_found, put_some};
use crate::field_forms::{self, TpduSize};
use crate::field_values::FieldValues;
use crate::name_form::is_name;
use crate::names::Names;
use crate::settings::{self, Key};
use crate::words::{FieldKind, NameKind, WordKind};
use nsap::{Nsap, Prefix, Snpa};
use osi_base::Bytes;
use tpdu::Options;

/// Puts a size that was read into its place.
fn put_size(options: &mut Options, read: Result<TpduSize, LineCause>) -> Result<(), FieldRefusal>
    ensures { Gives (into read (λ size. with_size options.old size)) result options.new }
{
    match read {
        Ok(size) => {
            options.size = size.octets;
            options.preferred = size.preferred;
            Ok(())
        }
        Err(cause) => Err(FieldRefusal::Cause(cause)),
    }
}

impl Names {
    ghost use Rattle.script_lines.specs.Gives.{Gives, Found};
    ghost use Rattle.script_lines.specs.Known.{system_at};
    ghost use Rattle.script_lines.specs.Settings.{key_of};
    ghost use Rattle.script_lines.specs.Reading.{system_of, end_system_of, other_end_of, lan_of, port_lan_of, path_of, new_name, unset_key, value_of};
    ghost use Rattle.script_lines.specs.Reading.{new_title, new_station, new_prefix, new_selector};
    ghost use Rattle.script_lines.specs.Reading.{named_read, plain_read, field_read};

    fn system_of(&self, field: &str) -> Result<u8, LineCause>
        ensures { result ≡ system_of self.now field.now }
    {
        if !is_name(field) {
            return Err(LineCause::Syntax);
        }
        match self.system_at(field) {
            Some(system) => Ok(system),
            None => Err(LineCause::Unknown),
        }
    }

    #[tactic(auto, unfolding(crate::specs::Reading::end_system_of))]
    fn end_system_of(&self, field: &str) -> Result<u8, LineCause>
        ensures { result ≡ end_system_of self.now field.now }
    {
        match self.system_of(field) {
            Ok(system) if self.is_end(system) => Ok(system),
            Ok(_) => Err(LineCause::Unknown),
            Err(cause) => Err(cause),
        }
    }

    /// An end system that is not this one.
    #[tactic(auto, unfolding(crate::specs::Reading::other_end_of))]
    fn other_end_of(&self, own: u8, field: &str) -> Result<u8, LineCause>
        ensures { result ≡ other_end_of self.now own field.now }
    {
        match self.end_system_of(field) {
            Ok(system) if system != own => Ok(system),
            Ok(_) => Err(LineCause::Unknown),
            Err(cause) => Err(cause),
        }
    }

    pub(crate) fn lan_of(&self, field: &str) -> Result<u8, LineCause>
        ensures { result ≡ lan_of self.now field.now }
    {
        if !is_name(field) {
            return Err(LineCause::Syntax);
        }
        match self.lan_at(field) {
            Some(lan) => Ok(lan),
            None => Err(LineCause::Unknown),
        }
    }

    #[tactic(auto, unfolding(crate::specs::Reading::port_lan_of))]
    fn port_lan_of(&self, system: u8, field: &str) -> Result<u8, LineCause>
        ensures { result ≡ port_lan_of self.now system field.now }
    {
        match self.lan_of(field) {
            Ok(lan) if self.has_port(system, lan) => Err(LineCause::Repeat),
            Ok(lan) => Ok(lan),
            Err(cause) => Err(cause),
        }
    }

    #[tactic(auto, unfolding(crate::specs::Reading::path_of))]
    fn path_of(&self, field: &str) -> Result<u8, LineCause>
        ensures { result ≡ path_of self.now field.now }
    {
        if matches!(field.as_bytes(), [b'-']) {
            return Ok(0);
        }
        if !is_name(field) {
            return Err(LineCause::Syntax);
        }
        match self.path_at(field) {
            Some(place) => Ok(place + 1),
            None => Err(LineCause::Unknown),
        }
    }

    // Not inlined: only lines of the set-up have keys, and the fields of all other lines would clear the room for its values.
    #[inline(never)]
    fn unset_key(&self, field: &str) -> Result<Key, LineCause>
        ensures { result ≡ unset_key self.now.settings (key_of field.now) }
    {
        match settings::key_of(field) {
            Some(key) if self.settings.get(key).is_some() => Err(LineCause::Repeat),
            Some(key) => Ok(key),
            None => Err(LineCause::Syntax),
        }
    }

    // Not inlined, for the same reason.
    #[inline(never)]
    #[tactic(auto, unfolding(crate::specs::Reading::value_of))]
    fn setting_of(&self, key: Key, field: &str) -> Result<u32, LineCause>
        ensures { result ≡ value_of self.now.settings key field.now }
    {
        match field_forms::number(settings::least_of(key), settings::most_of(key), field) {
            Ok(value) if self.settings.with(key, value).keeps_order() => Ok(value),
            Ok(_) => Err(LineCause::Range),
            Err(cause) => Err(cause),
        }
    }

    #[tactic(auto, unfolding(crate::specs::Reading::new_title))]
    fn new_title(&self, field: &str) -> Result<Nsap, LineCause>
        ensures { result ≡ new_title self.now field.now }
    {
        match field_forms::title(field) {
            Ok(title) if self.has_title(&title) => Err(LineCause::Repeat),
            Ok(title) => Ok(title),
            Err(cause) => Err(cause),
        }
    }

    #[tactic(auto, unfolding(crate::specs::Reading::new_station))]
    fn new_station(&self, field: &str) -> Result<Snpa, LineCause>
        ensures { result ≡ new_station self.now field.now }
    {
        match field_forms::station(field) {
            Ok(snpa) if self.has_station(&snpa) => Err(LineCause::Repeat),
            Ok(snpa) => Ok(snpa),
            Err(cause) => Err(cause),
        }
    }

    #[tactic(auto, unfolding(crate::specs::Reading::new_prefix))]
    fn new_prefix(&self, system: u8, field: &str) -> Result<Prefix, LineCause>
        ensures { result ≡ new_prefix self.now system field.now }
    {
        match field_forms::prefix(field) {
            Ok(prefix) if self.has_route(system, &prefix) => Err(LineCause::Repeat),
            Ok(prefix) => Ok(prefix),
            Err(cause) => Err(cause),
        }
    }

    #[tactic(auto, unfolding(crate::specs::Reading::new_selector))]
    fn new_selector(&self, system: u8, field: &str) -> Result<Bytes, FieldRefusal>
        ensures { Found (new_selector self.now system field.now) result }
    {
        match field_forms::selector(self.alloc, field) {
            Ok(selector) if self.has_selector(system, selector.as_slice()) => {
                Err(FieldRefusal::Cause(LineCause::Repeat))
            }
            Ok(selector) => Ok(selector),
            Err(refusal) => Err(refusal),
        }
    }

    /// A name that stands nowhere yet, by where it was found.
    fn new_name(&self, found: Option<u8>, field: &str) -> Result<Bytes, FieldRefusal>
        ensures { Found (new_name found field.now) result }
    {
        if !is_name(field) {
            return Err(FieldRefusal::Cause(LineCause::Syntax));
        }
        if found.is_some() {
            return Err(FieldRefusal::Cause(LineCause::Repeat));
        }
        match field.as_bytes().to_vec(self.alloc) {
            Ok(name) => Ok(Bytes::of(name)),
            Err(_) => Err(FieldRefusal::NoMemory),
        }
    }

    /// What a name gives.
    #[tactic(auto, using(crate::proofs::Readings::gives_into))]
    fn read_named(
        &self,
        form: NameKind,
        field: &str,
        parts: &mut FieldValues,
    ) -> Result<(), FieldRefusal>
        ensures { Gives (named_read self.now parts.old form field.now) result parts.new }
    {
        match form {
            NameKind::System => put(&mut parts.system, self.system_of(field)),
            NameKind::EndSystem => put(&mut parts.system, self.end_system_of(field)),
            NameKind::To => put(&mut parts.other, self.end_system_of(field)),
            NameKind::Other => put(&mut parts.other, self.other_end_of(parts.system, field)),
            NameKind::Next => put(&mut parts.other, self.system_of(field)),
            NameKind::Lan => put(&mut parts.lan, self.lan_of(field)),
            NameKind::PortLan => put(&mut parts.lan, self.port_lan_of(parts.system, field)),
            NameKind::RouteLan => {
                let lan = self.route_lan_of(parts.system, parts.other, field);
                put(&mut parts.lan, lan)
            }
            NameKind::Path => put(&mut parts.wish.path, self.path_of(field)),
        }
    }

    /// What a word or a number gives.
    #[tactic(auto, using(crate::proofs::Readings::gives_into, crate::proofs::Readings::gives_size))]
    fn read_plain(
        &self,
        form: WordKind,
        field: &str,
        parts: &mut FieldValues,
    ) -> Result<(), FieldRefusal>
        ensures { Gives (plain_read self.now parts.old form field.now) result parts.new }
    {
        let options = &mut parts.options;
        match form {
            WordKind::Key => put(&mut parts.key, self.unset_key(field)),
            WordKind::Value => put(&mut parts.number, self.setting_of(parts.key, field)),
            WordKind::Number { least, most } => put(
                &mut parts.number,
                field_forms::number(least, most, field),
            ),
            WordKind::Amount { least, most } => put(
                &mut parts.amount,
                field_forms::number(least, most, field),
            ),
            WordKind::Credit => put(&mut parts.credit, field_forms::credit(field)),
            WordKind::PathKind => put(&mut parts.kind, field_forms::path_kind(field)),
            WordKind::Format => put(&mut options.format, field_forms::format(field)),
            WordKind::Size => put_size(options, field_forms::size(self.second, field)),
            WordKind::Expedited => put(
                &mut options.expedited,
                field_forms::choice("exp", "noexp", field),
            ),
            WordKind::Sum => put(&mut options.sum, field_forms::choice("sum", "nosum", field)),
            WordKind::Flags => put(&mut parts.wish, field_forms::flags(field)),
        }
    }

    /// What a field gives, after what the fields before it gave.
    #[tactic(auto, using(crate::proofs::Readings::gives_into, crate::proofs::Readings::gives_some))]
    pub fn read_field(
        &self,
        form: FieldKind,
        field: &str,
        parts: &mut FieldValues,
    ) -> Result<(), FieldRefusal>
        ensures { Gives (field_read self.now parts.old form field.now) result parts.new }
    {
        match form {
            FieldKind::Named(form) => self.read_named(form, field, parts),
            FieldKind::Plain(form) => self.read_plain(form, field, parts),
            FieldKind::NewLan => put_found(
                &mut parts.name,
                self.new_name(self.lan_at(field), field),
            ),
            FieldKind::NewSystem => put_found(
                &mut parts.name,
                self.new_name(self.system_at(field), field),
            ),
            FieldKind::NewPath => put_found(
                &mut parts.name,
                self.new_name(self.path_at(field), field),
            ),
            FieldKind::Title => put_some(&mut parts.title, self.new_title(field)),
            FieldKind::Station => put_some(&mut parts.station, self.new_station(field)),
            FieldKind::Prefix => put_some(&mut parts.prefix, self.new_prefix(parts.system, field)),
            FieldKind::Hops => put_found(&mut parts.hops, self.hops_of(field)),
            FieldKind::NewSelector => put_found(
                &mut parts.selector,
                self.new_selector(parts.system, field),
            ),
            FieldKind::Selector => put_found(
                &mut parts.selector,
                field_forms::selector(self.alloc, field),
            ),
            FieldKind::Called => put_found(
                &mut parts.called,
                field_forms::selector(self.alloc, field),
            ),
            FieldKind::Octets => put_found(
                &mut parts.octets,
                field_forms::octets(self.alloc, field),
            ),
        }
    }
}
