//! Laws of the format. Each is the contract of a function that does nothing.

ghost use Rattle.std.specs.Prelude.{◌≡◌, ℕ, List};
ghost use Rattle.merlin_model.specs.Networks.{Network, IsNetwork};
ghost use Rattle.topology_shape.specs.Forms.{AreWellFormed};
ghost use Rattle.topology_rules.specs.Faults.{IsTopology, Refuses};
ghost use Rattle.topology_rules.specs.declared.fault.NetFault.{NetFault};
ghost use Rattle.topology_rules.specs.declared.fault.NetFault.TheVariants as fault;

use topology_shape::laws::one_shape;

/// A text stands for one network, which keeps the laws of networks, and is not refused then.
pub fn one_network()
    ensures one { (bytes : List ℕ) (net other : Network) → IsTopology bytes net →
        IsTopology bytes other → net ≡ other }
    ensures apart { (bytes : List ℕ) (net : Network) (cause : NetFault) → IsTopology bytes net →
        Refuses cause bytes → cause ≡ fault.OutOfMemory }
    ensures lawful { (bytes : List ℕ) (net : Network) → IsTopology bytes net → IsNetwork net }
    ensures forms { (bytes : List ℕ) (net : Network) → IsTopology bytes net → AreWellFormed net }
{
    one_shape();
}
