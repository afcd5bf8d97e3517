//! The register code of a module: its instructions, what is kept beside them, which code is formed, and its listing.
#![tactic(auto)]

mod codes;
mod constants;
mod image;
mod instruction_names;
mod instruction_operands;
mod instructions;
mod laws;
mod listings;
mod operand_words;
mod operands;
mod pieces;
mod plans;
mod words;
mod writing;

pub use codes::{Code, Codes, RegKinds, Start};
pub use image::{Constants, Image};
pub use instructions::{Instr, Instrs, Kinds};
pub use laws::{effect_laws, formed_laws};
pub use listings::{listing, write_listing};
pub use operands::{Order, RegKind, Register, RegisterList, StopKind};
pub use plans::{
    IndexUse, IndexUses, LoopArgs, LoopPlan, LoopPlans, OwnedView, Owner, Ownership, PlanCopies,
    PlanCopy, PlanView, PlanViews, Role,
};
