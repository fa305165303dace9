//! Laws of shapes. Each is the contract of a function that does nothing.

ghost use Rattle.std.specs.Prelude.{◌≡◌, ℕ, List};
ghost use Rattle.merlin_model.specs.Networks.{Network, AreDifferent};
ghost use Rattle.topology_shape.specs.Format.{location_names};
ghost use Rattle.topology_shape.specs.Forms.{AreWellFormed};
ghost use Rattle.topology_shape.specs.Faults.{IsShapeText, IsShapeFaultOf};
ghost use Rattle.topology_shape.specs.declared.fault.ShapeFault.{ShapeFault};
ghost use Rattle.topology_shape.specs.declared.fault.ShapeFault.TheVariants as fault;

/// A text describes one list of locations, and where these differ in name one network. It describes none where it is refused. What it describes
/// is well formed.
pub fn one_shape()
    ensures one { (bytes : List ℕ) (net other : Network) → IsShapeText bytes net →
        IsShapeText bytes other → AreDifferent (location_names other.locations) → net ≡ other }
    ensures locations { (bytes : List ℕ) (net other : Network) → IsShapeText bytes net →
        IsShapeText bytes other → net.locations ≡ other.locations }
    ensures apart { (bytes : List ℕ) (net : Network) (cause : ShapeFault) →
        IsShapeText bytes net → IsShapeFaultOf bytes cause → cause ≡ fault.OutOfMemory }
    ensures forms { (bytes : List ℕ) (net : Network) → IsShapeText bytes net → AreWellFormed net }
{}
