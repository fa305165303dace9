//! What is to be divided, and among whom.
ghost use Rattle.std.specs.Prelude.{◌≡◌, ◌<◌, Some, length, option_map, slice_get};
ghost use Rattle.fair_share.specs.Shares.{IsDemands};

use crate::cap::{Cap, Tenant};
use merlin_base::Name;
use std::marker::Model;

/// Caps, and the tenants beneath them, in the order of their text.
#[derive(Drop)]
pub struct Demands {
    pub(crate) caps: Vec<Cap>,
    pub(crate) tenants: Vec<Tenant>,
}

impl Model for Demands {
    ghost use Rattle.fair_share.specs.Shares.{Demands};

    ghost Value = { Demands };

    ghost use Rattle.fair_share.specs.Kept.{demands_in, AreKeptDemands};

    ghost view = { demands_in };

    ghost invariant = { AreKeptDemands };
}

impl Demands {
    /// The number of tenants.
    pub fn tenants(&self) -> usize
        ensures count { result ≡ length self.now.tenants }
        ensures kept { IsDemands self.now }
    {
        self.tenants.len()
    }

    /// The number of caps.
    pub fn caps(&self) -> usize
        ensures { result ≡ length self.now.caps }
    {
        self.caps.len()
    }

    /// The name of a tenant.
    pub fn tenant(&self, place: usize) -> &Name
        requires { place < length self.now.tenants }
        ensures { option_map (λ t. t.name) (slice_get self.now.tenants place) ≡ Some result.now }
    {
        &self.tenants[place].name
    }

    /// The name of a cap.
    pub fn cap(&self, place: usize) -> &Name
        requires { place < length self.now.caps }
        ensures { option_map (λ c. c.name) (slice_get self.now.caps place) ≡ Some result.now }
    {
        &self.caps[place].name
    }
}
