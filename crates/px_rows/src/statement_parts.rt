//! The parts of the text of a statement.
use crate::parts::{Part, Parts, Shown, show_one, show_three, show_two};
use px_tree::{Arm, Declaration, Declarator, Stmt, StmtForm};

impl Shown for Stmt {
    fn show<'a>(&'a self, parts: &mut Parts<'a>) {
        parts.push(Part::Stmt(self))
    }
}

/// Adds the parts of a statement.
pub fn stmt_parts<'a>(parts: &mut Parts<'a>, tree: &'a Stmt) {
    parts.node(tree.number, tree.at);
    form_parts(parts, &tree.form)
}

/// Adds the parts of a form of statement.
fn form_parts<'a>(parts: &mut Parts<'a>, form: &'a StmtForm) {
    match form {
        StmtForm::Assign(targets, value) => show_two(parts, "Assign(", targets, value),
        StmtForm::Augment(target, op, value) => show_three(parts, "Augment(", target, op, value),
        StmtForm::Pass => parts.word("Pass"),
        StmtForm::Break => parts.word("Break"),
        StmtForm::Continue => parts.word("Continue"),
        StmtForm::Return(value) => show_one(parts, "Return(", value),
        StmtForm::Raise(kind, text) => show_two(parts, "Raise(", kind, text),
        StmtForm::Global(names) => show_one(parts, "Global(", names),
        StmtForm::If(arms, otherwise) => show_two(parts, "If(", arms, otherwise),
        StmtForm::While(test, block) => show_two(parts, "While(", test, block),
        StmtForm::For(target, value, block) => show_three(parts, "For(", target, value, block),
        StmtForm::WithGil(block) => show_one(parts, "WithGil(", block),
        StmtForm::WithNogil(block) => show_one(parts, "WithNogil(", block),
        StmtForm::Declare(declaration) => show_one(parts, "Declare(", declaration),
        StmtForm::DeclareGroup(lines) => show_one(parts, "DeclareGroup(", lines),
    }
}

impl Shown for Arm {
    fn show<'a>(&'a self, parts: &mut Parts<'a>) {
        parts.node(self.number, self.at);
        self.test.show(parts);
        parts.word(" ");
        self.block.show(parts)
    }
}

impl Shown for Declaration {
    fn show<'a>(&'a self, parts: &mut Parts<'a>) {
        parts.node(self.number, self.at);
        self.typing.show(parts);
        parts.word(" ");
        self.names.show(parts)
    }
}

impl Shown for Declarator {
    fn show<'a>(&'a self, parts: &mut Parts<'a>) {
        parts.node(self.number, self.at);
        self.name.show(parts);
        parts.word(" = ");
        self.value.show(parts)
    }
}
