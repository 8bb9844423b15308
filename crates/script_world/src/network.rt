//! Networks that a set-up makes: its systems over its LANs, and its end systems by the inactive subset (X.233, Inactive Network Layer
//! Protocol subset).

ghost use Rattle.std.specs.Prelude.{◌≡◌, IfOk};

use clnp_net::ClnpNet;
use inactive_net::InactiveNet;
use lan_bag::LanBag;
use nsap::{Nsap, Port};
use osi_base::{Carrier, NoMemory};
use script_lines::Names;
use script_setup::SetUp;
use std::alloc::Global;

/// A carrier that a set-up makes.
pub trait Network: Carrier<Addr = Nsap> + Sized {
    ghost use Rattle.script_lines.specs.declared.words.Dialect.{Dialect};
    ghost use Rattle.script_lines.specs.Known.{nothing_declared};
    ghost use Rattle.script_setup.specs.SetUp.{SetUp as Said};
    ghost use Rattle.law_setup.specs.Networks.{NetworkLaws, SendsNoDatagrams};

    /// The command that runs transport entities over it.
    ghost dialect: { Dialect };

    /// What is made of a set-up.
    ghost makes: { Said → Self → Type 0 };

    /// Its scripts send no datagrams.
    ghost lines: { SendsNoDatagrams dialect };

    /// Nothing is declared yet in a script of that command.
    fn names(alloc: Global) -> Names
        ensures { result ≡ nothing_declared dialect };

    /// The network of a set-up.
    fn make(setup: SetUp) -> Result<Self, NoMemory>
        ensures { IfOk result (λ net. makes setup net) };

    /// One network is made of a set-up, and it is as a run begins. Of a set-up that is well one is made, and it answers all that it may be asked.
    ghost laws: { NetworkLaws Self.link Self.steps makes };
}

/// LANs, of which a set-up makes both networks.
///
/// `LanBag` alone has it. By it those networks are a `Network` over all such LANs: rattle takes no impl of a trait over `Carrier` for an
/// instance of them, since `LanBag` has a `Drop` that is written by hand.
pub trait Lans: Carrier<Addr = Port> + Drop + Sized {
    ghost use Rattle.esis_tables.specs.Rows.{Rows};
    ghost use Rattle.clnp_system.specs.Tables.{rows_tables};
    ghost use Rattle.law_clnp_step.specs.Network.{Network as Net, net_link};
    ghost use Rattle.law_clnp_step.specs.Step.{NetStep};
    ghost use Rattle.inactive_step.specs.Network.{Inactive, inactive_link};
    ghost use Rattle.inactive_step.specs.Step.{InactiveStep};
    ghost use Rattle.script_setup.specs.SetUp.{SetUp as Said};
    ghost use Rattle.law_setup.specs.Networks.{NetworkLaws};

    /// What is made of a set-up.
    ghost routed: { Said → Net Self Rows → Type 0 };

    /// What is made of it by the inactive subset.
    ghost subset: { Said → Inactive Self → Type 0 };

    /// The systems of a set-up.
    fn start(setup: SetUp) -> Result<ClnpNet<Self>, NoMemory>
        ensures { IfOk result (λ net. routed setup net) };

    /// Its end systems by the inactive subset.
    fn start_inactive(setup: SetUp) -> Result<InactiveNet<Self>, NoMemory>
        ensures { IfOk result (λ net. subset setup net) };

    /// The laws of the systems.
    ghost routed_laws: { NetworkLaws (net_link Self.link) (NetStep Self.link Self.steps rows_tables) routed };

    /// Those of the end systems by the inactive subset.
    ghost subset_laws: { NetworkLaws (inactive_link Self.link) (InactiveStep Self.link Self.steps) subset };
}

impl Lans for LanBag {
    ghost use Rattle.law_setup.specs.ClnpNets.{MakesNet};
    ghost use Rattle.law_setup.specs.InactiveNets.{MakesInactive};
    ghost use Rattle.law_setup.proofs.Made.{net_laws};
    ghost use Rattle.law_setup.proofs.MadeInactive.{inactive_laws};

    ghost routed = { MakesNet };

    ghost subset = { MakesInactive };

    fn start(setup: SetUp) -> Result<ClnpNet<LanBag>, NoMemory> {
        setup.start()
    }

    fn start_inactive(setup: SetUp) -> Result<InactiveNet<LanBag>, NoMemory> {
        setup.start_inactive()
    }

    ghost routed_laws = { net_laws };

    ghost subset_laws = { inactive_laws };
}

/// The systems of a script over its LANs.
pub type RoutedNet = ClnpNet<LanBag>;

impl<C: Lans> Network for ClnpNet<C> {
    ghost use Rattle.script_lines.specs.declared.words.Dialect.TheVariants.{Run};
    ghost use Rattle.law_setup.proofs.Made.{none_sent};

    ghost dialect = { Run };

    ghost lines = { none_sent };

    ghost makes = { C.routed };

    fn names(alloc: Global) -> Names {
        Names::new(alloc)
    }

    fn make(setup: SetUp) -> Result<ClnpNet<C>, NoMemory> {
        C::start(setup)
    }

    ghost laws = { C.routed_laws };
}

/// The end systems of a script over its LANs, by the inactive subset.
pub type SubsetNet = InactiveNet<LanBag>;

impl<C: Lans> Network for InactiveNet<C> {
    ghost use Rattle.script_lines.specs.declared.words.Dialect.TheVariants.{Inactive as OfInactive};
    ghost use Rattle.law_setup.proofs.MadeInactive.{none_sent};

    ghost dialect = { OfInactive };

    ghost lines = { none_sent };

    ghost makes = { C.subset };

    fn names(alloc: Global) -> Names {
        Names::inactive(alloc)
    }

    fn make(setup: SetUp) -> Result<InactiveNet<C>, NoMemory> {
        C::start_inactive(setup)
    }

    ghost laws = { C.subset_laws };
}
