ghost use Rattle.std.specs.Prelude.{◌≡◌};
ghost use Rattle.px_regcode.specs.Images.{image_of};
ghost use Rattle.px_regcode.specs.Formed.{IsFormed};

use crate::codes::{Code, Codes};
use crate::plans::{LoopPlan, LoopPlans};
use px_base::{Constant, Sequence};
use std::marker::Model;

/// The constants that the code of a module names.
pub type Constants = Sequence<Constant>;

/// The code of a module, which is formed: no instruction that some path comes to breaks a rule.
#[derive(Drop)]
pub struct Image {
    codes: Codes,
    loops: LoopPlans,
    constants: Constants,
}

impl Model for Image {
    ghost use Rattle.px_regcode.specs.Images.{ImageParts, image_of};
    ghost use Rattle.px_regcode.specs.Formed.{IsFormed};

    ghost Value = { ImageParts };

    ghost view = { λ i. image_of i.codes i.loops i.constants };

    ghost invariant = { λ i. IsFormed (image_of i.codes i.loops i.constants) };
}

impl Image {
    /// The image of formed code.
    pub fn new(codes: Codes, loops: LoopPlans, constants: Constants) -> Image
        requires formed { IsFormed (image_of codes loops constants) }
        ensures { result ≡ image_of codes loops constants }
    {
        Image {
            codes,
            loops,
            constants,
        }
    }

    /// The code of the module first, and that of its functions in the order of the text.
    pub fn codes(&self) -> &[Code]
        ensures { result.now ≡ self.now.codes }
    {
        self.codes.as_slice()
    }

    /// The parallel loops in the order of the text.
    pub fn loops(&self) -> &[LoopPlan]
        ensures { result.now ≡ self.now.loops }
    {
        self.loops.as_slice()
    }

    pub fn constants(&self) -> &[Constant]
        ensures { result.now ≡ self.now.constants }
    {
        self.constants.as_slice()
    }

    /// The code of each image is formed; it does nothing, and says so.
    pub fn formed(&self)
        ensures { IsFormed self.now }
    {
        let _codes = &self.codes;
    }
}
