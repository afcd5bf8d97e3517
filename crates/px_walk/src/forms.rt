use std::marker::Model;

/// What a node of the parse tree is without its parts, as contracts see it (`Form`); no value of it is made.
#[derive(Drop)]
pub struct TreeForm {
    private: (),
}

impl Model for TreeForm {
    ghost use Rattle.px_walk.specs.Forms.{Form, Pass};

    ghost Value = { Form };

    ghost view = { λ _. Pass };
}
