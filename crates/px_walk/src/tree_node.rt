use px_base::Span;
use px_tree::{
    Argument, Arm, Comment, Comparison, Declaration, Declarator, Decorator, Entry, Expr, Function,
    Import, ImportedName, Item, Link, Module, Param, Stmt, Trailer, Type,
};

/// A node of the parse tree. What has no place of its own comes with that of the row in which it stands.
#[derive(Clone, Copy)]
pub enum TreeNode<'a> {
    Module(&'a Module),
    Comment(&'a Comment),
    Import(&'a Import),
    ImportedName(&'a ImportedName),
    Function(&'a Function),
    Decorator(&'a Decorator),
    Param(&'a Param),
    Type(&'a Type),
    Stmt(&'a Stmt),
    Arm(&'a Arm),
    Declaration(&'a Declaration),
    Declarator(&'a Declarator),
    Expr(&'a Expr),
    Entry(&'a Entry),
    Trailer(&'a Trailer, Span),
    Argument(&'a Argument),
    Item(&'a Item, Span),
    Link(&'a Link),
    Comparison(&'a Comparison),
}
