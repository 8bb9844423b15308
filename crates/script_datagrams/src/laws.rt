//! What holds of every script of datagrams, over every network that a set-up makes.

ghost use Rattle.script_world.specs.Plays.{world_acts};
ghost use Rattle.script_bench.specs.Claims.{IsLaw};
ghost use Rattle.script_datagrams.specs.Laws.{HearsEach, RunsGiveEach};
ghost use Rattle.script_datagrams.specs.Claims.{ShownWasSent};
ghost use Rattle.law_datagram_run.specs.Datagrams.{cl_play};

use script_world::Network;

/// Whatever part of a script was run: each datagram that is shown was sent, to this system and selector, with these octets, at most the
/// initial lifetime before.
pub fn shows_sent<N: Network>()
    ensures { IsLaw (world_acts (cl_play N.link N.steps N.makes)) ShownWasSent }
{}

/// A unit that comes up at an address of transport users of an end system gives exactly one event: the datagram, or that it is no UD, or
/// that its selector has no user.
pub fn each_unit_is_heard<N: Network>()
    ensures { HearsEach N.link N.makes }
{}

/// Whatever part of a script was run, over a network whose units come to end systems alone: in each line each unit that came up gave exactly
/// one event, in order, the datagram or why there is none.
pub fn runs_give_each<N: Network>()
    ensures { RunsGiveEach N.link N.steps N.makes }
{}
