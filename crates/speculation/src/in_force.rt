//! The name of the entities in force.

ghost use Rattle.std.specs.Prelude.{[]};
ghost use Rattle.standard.specs.Entities.{Entities};

use std::marker::Brand;

/// The entities in force, as a type that replies carry: who reads the file of entities picks them,
/// and a reply that was made with others isn't of that type.
pub trait InForce {
    ghost entities: { Entities };
}

impl InForce for Brand {
    ghost entities = { [] };
}
