//! A role that says yes.
ghost use Rattle.aw_modular.specs.Roles.{SaysYes};
ghost use Rattle.aw_modular.specs.PartViews.{part_of};

use crate::part::Part;
use aw_base::Declared;
use aw_list::Items;

/// A part whose role says yes, with what was declared.
#[derive(Debug, Drop)]
pub struct RoleYes {
    pub part: Part,
    pub declared: Declared,
    pub ghost says: { ∥ SaysYes part.faces.offers declared part.role (part_of part) ∥₁ },
}

/// Parts whose roles say yes, one for each role in order.
pub type RoleYeses = Items<RoleYes>;
