//! From the bytes to the shape.
ghost use Rattle.std.specs.Prelude.{IfOk, IfErr};
ghost use Rattle.serde_json.specs.View.{view};
ghost use Rattle.topology_shape.specs.Json.{IsJson};
ghost use Rattle.topology_shape.specs.Format.{IsShapeOf};
ghost use Rattle.topology_shape.specs.Wrong.{IsMisshapen};
ghost use Rattle.topology_shape.specs.Described.{described_by};
ghost use Rattle.topology_shape.specs.Faults.{FailsAs, IsJsonFaultOf, IsShapeText, IsShapeFaultOf};

use crate::fault::{ShapeFault, wrong_part};
use crate::functions::functions_in;
use crate::links::links_in;
use crate::locations::locations_in;
use crate::named::NamedLocations;
use merlin_model::network::{FnDecl, Link};
use serde_json::Value;
use std::alloc::Global;
use std::str;

/// What a topology describes, in the order of its text. Ends and places go by the number of a location of the name that was given; a place of
/// a name that no location has is the number after the last location.
#[derive(Drop)]
pub struct Shape {
    pub named: NamedLocations,
    pub links: Vec<Link>,
    pub functions: Vec<FnDecl>,
}

fn value_of(alloc: Global, bytes: &[u8]) -> Result<Value, ShapeFault>
    ensures ok { IfOk result (λ v. IsJson bytes.now (view v)) }
    ensures err { IfErr result (IsJsonFaultOf bytes.now) }
{
    let Ok(text) = str::from_utf8(bytes) else {
        return Err(ShapeFault::Json);
    };
    match Value::from_str(alloc, text) {
        Ok(value) => Ok(value),
        Err(fault) if fault.is_memory() => Err(ShapeFault::OutOfMemory),
        Err(_) => Err(ShapeFault::Json),
    }
}

// The shape that the value has.
fn shape_of(alloc: Global, value: &Value) -> Result<Shape, ShapeFault>
    ensures ok { IfOk result (λ shape. IsShapeOf (view value.now) (described_by shape)) }
    ensures err { IfErr result (FailsAs (IsMisshapen (view value.now))) }
{
    if !value.is_object() {
        return Err(wrong_part(alloc, "top"));
    }
    let locations = locations_in(alloc, value)?;
    let named = NamedLocations::new(alloc, locations)?;
    let links = links_in(alloc, value, &named)?;
    let functions = functions_in(alloc, value, &named)?;
    Ok(Shape {
        named,
        links,
        functions,
    })
}

/// The shape of the topology that the JSON text describes.
///
/// # Errors
/// `Json` where the bytes are no JSON text; `Wrong` with the first part that is missing or wrong; `OutOfMemory` where memory ran out.
pub fn read(alloc: Global, bytes: &[u8]) -> Result<Shape, ShapeFault>
    ensures ok { IfOk result (λ shape. IsShapeText bytes.now (described_by shape)) }
    ensures err { IfErr result (IsShapeFaultOf bytes.now) }
{
    let value = value_of(alloc, bytes)?;
    shape_of(alloc, &value)
}
