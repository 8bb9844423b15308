//! What holds of every script with relays, over every network that a set-up makes.

ghost use Rattle.script_bench.specs.Claims.{IsLaw};
ghost use Rattle.script_world.specs.Plays.{world_acts};
ghost use Rattle.script_relays.specs.Claims.{RelaysLawfully};
ghost use Rattle.script_relays.specs.Giving.{PumpsGiveAll};
ghost use Rattle.law_relay.specs.Relays.{relay_play};

use script_world::Network;

/// Whatever part of a script was run: each connection is two queues; what a relay submits at one end of a pair is a front of what the
/// other end shows; of the partners of the two ends each shows a front of what the other submitted; and each raw unit that is shown was
/// sent, to this system, from that address, with these octets, at most the initial lifetime before.
pub fn relays_lawfully<N: Network>()
    ensures { IsLaw (world_acts (relay_play N.link N.steps N.makes)) RelaysLawfully }
{
    law_tp4_lawful::lawful::<N>();
    tp4_relay::relays_units();
    law_relay::noted();
    law_relay::goes_through();
}

/// Whatever part of a script was run: after each pump all that the one end of an open pair showed was submitted at the other, unless this
/// pump's own call for the next unit was refused, as it submitted those of this pair, this way.
pub fn pumps_give_all<N: Network>()
    ensures { IsLaw (world_acts (relay_play N.link N.steps N.makes)) (PumpsGiveAll N.link N.steps N.makes) }
{}
