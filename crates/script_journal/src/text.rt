//! The line of each event.

ghost use Rattle.std.specs.Prelude.{◌≡◌, ◌++◌, OnOk};
ghost use Rattle.script_lines.specs.Tags.{tags_of};
ghost use Rattle.script_journal.specs.Told.{event_text};

use crate::common_lines::{
    write_count, write_marked, write_octets, write_pick, write_raw, write_settled, write_system,
};
use crate::datagram_lines::{write_bad_ud, write_datagram, write_send};
use crate::end_lines::{write_connect, write_end, write_incoming, write_joined, write_refused};
use crate::event::Event;
use crate::network_lines::{write_bad_tpdu, write_dropped, write_note, write_unknown};
use osi_base::NoMemory;
use script_lines::Names;

/// Appends the line of an event. After `NoMemory`, `out` ends in a part of it.
pub fn write_event(event: &Event, names: &Names, out: &mut Vec<u8>) -> Result<(), NoMemory>
    ensures { OnOk result (out.new.items ≡ out.old.items ++ event_text (tags_of names.now) event.now) }
{
    match event {
        Event::Tick { now } => write_count("tick ", *now, names, out),
        Event::Connect(request) => write_connect(request.get(), names, out),
        Event::Incoming(heard) => write_incoming(heard.get(), names, out),
        Event::End { number, what } => write_end(*number, what, names, out),
        Event::Data { end, octets } => write_octets("data ", *end, octets, names, out),
        Event::Expedite { end, octets } => write_octets("expedite ", *end, octets, names, out),
        Event::Refuse { end, octets } => write_octets("refuse ", *end, octets, names, out),
        Event::Disconnect { end, octets } => write_octets("disconnect ", *end, octets, names, out),
        Event::No { cause } => write_refused(*cause, names, out),
        Event::Sent { system, to, octets } => write_raw("sent ", *system, to, octets, names, out),
        Event::Unit {
            system,
            from,
            octets,
        } => write_raw("unit ", *system, from, octets, names, out),
        Event::Net(note) => write_note(note, names, out),
        Event::Dropped { system, cause } => write_dropped(*system, *cause, names, out),
        Event::Deliver { number, system } => write_pick("deliver ", *number, *system, names, out),
        Event::NoSuch { number, system } => write_pick("nosuch ", *number, *system, names, out),
        Event::Late { number, system } => write_pick("late ", *number, *system, names, out),
        Event::NotThere { number, system } => write_pick("notthere ", *number, *system, names, out),
        Event::NotOurs { number, system } => write_pick("notours ", *number, *system, names, out),
        Event::Settle { answer } => write_settled(*answer, names, out),
        Event::Inject { system } => write_system("inject", *system, names, out),
        Event::InjectNotThere { system } => write_marked("inject", "notthere", *system, names, out),
        Event::BadTpdu {
            system,
            cause,
            place,
        } => write_bad_tpdu(*system, *cause, *place, names, out),
        Event::Unknown { system, kind } => write_unknown(*system, *kind, names, out),
        Event::Restart { system } => write_system("restart", *system, names, out),
        Event::Silent { system } => write_system("silent", *system, names, out),
        Event::Send {
            system,
            selector,
            to,
            called,
            octets,
        } => write_send(*system, selector, to, called, octets, names, out),
        Event::Datagram {
            system,
            from,
            calling,
            called,
            octets,
        } => write_datagram(*system, from, calling, called, octets, names, out),
        Event::BadUd {
            system,
            cause,
            place,
        } => write_bad_ud(*system, *cause, *place, names, out),
        Event::NoUser { system } => write_system("nouser", *system, names, out),
        Event::Joined { inbound, outbound } => write_joined(*inbound, *outbound, names, out),
    }
}
