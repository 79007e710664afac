//! All that the program does.

ghost use Rattle.std.specs.Prelude.{◌≡◌, ◌≢◌, ◌≤◌, true, None, Some, map};
ghost use Rattle.std.specs.String.{string_bytes};
ghost use Rattle.dmn_outside.specs.Counts.{Rose};
ghost use Rattle.dmn_commands.specs.Outcome.{Passes, Runs, count_by};
ghost use Rattle.dmn_commands.specs.Words.{command_of};
ghost use Rattle.dmn_commands.specs.declared.command.Command as commands;

use crate::command::{Command, command_of};
use dmn_audit::audit;
use dmn_feed::feed;
use dmn_init::init;
use dmn_light::client;
use dmn_make::make;
use dmn_outside::Station;
use dmn_serve::serve;
use dmn_status::Status;
use std::alloc::Global;

/// Does what the words ask for, over the station, and says how it ended.
pub fn dmn_main<T: Station>(alloc: Global, words: &[String], station: &mut T) -> Status
    // What the words' command has read, written and sent, and what a crash leaves at any moment of it.
    ensures runs { (command : commands.Command) → command_of (map string_bytes words.now) ≡ Some command → Runs command result (record {
      tells = T.tells;
      stamped = T.tells_moments;
      tells_room = T.tells_room;
      room = T.room station.old;
      started = T.time station.old;
      ended = T.time station.new;
      before = T.disk station.old;
      behind = T.disk station.new;
      old = T.line station.old;
      new = T.line station.new;
    }) }

    // Words comes exactly where the words are in no form, before any call of a device.
    ensures no_form { command_of (map string_bytes words.now) ≡ None → (result ≡ Status.Words) × (station.new ≡ station.old) }
    ensures in_form { command_of (map string_bytes words.now) ≢ None → result ≢ Status.Words }

    // The line's other meanings: no count falls, time doesn't fall, and each byte that is sent has a moment of this call.
    ensures later { (command : commands.Command) → command_of (map string_bytes words.now) ≡ Some command → Passes command T.tells_moments (T.time station.old) (T.time station.new) (T.line station.old) (T.line station.new) }

    // A fault comes only where its count rose, LineFault of `serve` where that of callers' faults did; that of the disk doesn't
    // fall either.
    ensures line_fault { (command : commands.Command) → command_of (map string_bytes words.now) ≡ Some command → result ≡ Status.LineFault → Rose (count_by command (T.line station.old)) (count_by command (T.line station.new)) }
    ensures disk_fault { result ≡ Status.DiskFault → Rose (T.disk station.old).faults (T.disk station.new).faults }
    ensures disk_later { (T.disk station.old).faults ≤ (T.disk station.new).faults }
{
    match command_of(words) {
        None => Status::Words,
        Some(Command::Init) => init(alloc, station),
        Some(Command::Feed) => feed(alloc, station),
        Some(Command::Audit) => audit(alloc, station),
        Some(Command::Client) => client(alloc, station),
        Some(Command::Serve { callers }) => serve(alloc, callers, station),
        Some(Command::Make { count }) => make(alloc, count, station),
    }
}
