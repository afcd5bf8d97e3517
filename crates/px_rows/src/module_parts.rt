//! The parts of the text of a module.
use crate::parts::{Part, Parts, Shown, show_list, show_one, show_two};
use px_base::Sequence;
use px_tree::{
    Comment, Decorator, ExceptionForm, Function, FunctionKind, Import, ImportForm, ImportedName,
    Lock, Module, ModuleItem, Param, ResultType,
};

impl Shown for Module {
    fn show<'a>(&'a self, parts: &mut Parts<'a>) {
        parts.node(self.number, self.at);
        show_list(parts, self.items.as_slice());
        parts.word(" ");
        show_list(parts, self.comments.as_slice())
    }
}

impl Shown for ModuleItem {
    fn show<'a>(&'a self, parts: &mut Parts<'a>) {
        match self {
            ModuleItem::Import(import) => show_one(parts, "Import(", import),
            ModuleItem::Function(function) => show_one(parts, "Function(", function),
            ModuleItem::Statement(statement) => show_one(parts, "Statement(", statement),
        }
    }
}

impl Shown for u8 {
    fn show<'a>(&'a self, parts: &mut Parts<'a>) {
        parts.push(Part::Number(*self as i128))
    }
}

impl Shown for Comment {
    fn show<'a>(&'a self, parts: &mut Parts<'a>) {
        parts.word("@");
        parts.push(Part::Place(self.at));
        parts.word(" ");
        show_list(parts, self.text.as_slice())
    }
}

impl Shown for Import {
    fn show<'a>(&'a self, parts: &mut Parts<'a>) {
        parts.node(self.number, self.at);
        parts.word(if self.is_cimport {
            "cimport "
        } else {
            "import "
        });
        match &self.form {
            ImportForm::Whole(name, alias) => show_two(parts, "Whole(", name, alias),
            ImportForm::Parts(from, names) => show_two(parts, "Parts(", from, names),
        }
    }
}

impl Shown for Sequence<ImportedName> {
    fn show<'a>(&'a self, parts: &mut Parts<'a>) {
        show_list(parts, self.as_slice())
    }
}

impl Shown for ImportedName {
    fn show<'a>(&'a self, parts: &mut Parts<'a>) {
        parts.node(self.number, self.at);
        self.name.show(parts);
        parts.word(" as ");
        self.alias.show(parts)
    }
}

impl Shown for Function {
    fn show<'a>(&'a self, parts: &mut Parts<'a>) {
        parts.node(self.number, self.at);
        show_beginning(self, parts);
        show_signature(self, parts);
        show_promises(self, parts);
        self.body.show(parts)
    }
}

/// Adds the place of the header of a function, its decorators, and the words that it begins with.
fn show_beginning<'a>(function: &'a Function, parts: &mut Parts<'a>) {
    parts.word("header ");
    parts.push(Part::Place(function.header_at));
    parts.word(" ");
    show_list(parts, function.decorators.as_slice());
    parts.word(" ");
    function.kind.show(parts);
    parts.word(if function.is_inline { " inline " } else { " " })
}

/// Adds what a function gives, its name and its parameters.
fn show_signature<'a>(function: &'a Function, parts: &mut Parts<'a>) {
    function.gives.show(parts);
    parts.word(" ");
    parts.push(Part::Chars(function.name.as_slice()));
    parts.word(" ");
    show_list(parts, function.params.as_slice())
}

/// Adds what a function says of exceptions and of the lock.
fn show_promises<'a>(function: &'a Function, parts: &mut Parts<'a>) {
    parts.word(" ");
    function.exception.show(parts);
    parts.word(" ");
    function.lock.show(parts);
    parts.word(" ")
}

impl Shown for Decorator {
    fn show<'a>(&'a self, parts: &mut Parts<'a>) {
        parts.node(self.number, self.at);
        self.name.show(parts);
        parts.word(" at ");
        parts.push(Part::Place(self.name_at));
        parts.word(" = ");
        self.value.show(parts)
    }
}

impl Shown for Param {
    fn show<'a>(&'a self, parts: &mut Parts<'a>) {
        parts.node(self.number, self.at);
        self.typing.show(parts);
        parts.word(" ");
        self.name.show(parts);
        parts.word(if self.is_not_none { " not None" } else { "" })
    }
}

impl Shown for FunctionKind {
    fn show<'a>(&'a self, parts: &mut Parts<'a>) {
        parts.word(match self {
            FunctionKind::Def => "Def",
            FunctionKind::Cdef => "Cdef",
            FunctionKind::Cpdef => "Cpdef",
        })
    }
}

impl Shown for ResultType {
    fn show<'a>(&'a self, parts: &mut Parts<'a>) {
        match self {
            ResultType::Unwritten => parts.word("Unwritten"),
            ResultType::Void => parts.word("Void"),
            ResultType::Of(typing) => show_one(parts, "Of(", typing),
        }
    }
}

impl Shown for ExceptionForm {
    fn show<'a>(&'a self, parts: &mut Parts<'a>) {
        match self {
            ExceptionForm::Unwritten => parts.word("Unwritten"),
            ExceptionForm::Noexcept => parts.word("Noexcept"),
            ExceptionForm::Except(value) => show_one(parts, "Except(", value),
            ExceptionForm::Maybe(value) => show_one(parts, "Maybe(", value),
            ExceptionForm::Any => parts.word("Any"),
        }
    }
}

impl Shown for Lock {
    fn show<'a>(&'a self, parts: &mut Parts<'a>) {
        parts.word(match self {
            Lock::Unwritten => "Unwritten",
            Lock::Nogil => "Nogil",
            Lock::WithGil => "WithGil",
        })
    }
}
