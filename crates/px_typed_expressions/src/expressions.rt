//! The types of expressions.

ghost use Rattle.std.specs.Prelude.{◌≡◌, ◌++◌, [], ◌∷◌, drop, Ok, IfOk, OnOk, slice_get};
ghost use Rattle.std.specs.List.{cons_option};
ghost use Rattle.px_walk.specs.HeadForms.{form_of};
ghost use Rattle.px_walk.specs.Nodes.{rose_of};
ghost use Rattle.px_walk.specs.Roses.{head_of, number_of, at_of, parts_of};
ghost use Rattle.px_typed_walk.specs.TypedView.{TypedRose, rose_of_typed};
ghost use Rattle.px_operators.specs.Outcomes.{Outcome, Gives, followed, flat};
ghost use Rattle.px_operators.specs.Operators.{operands, chain_of, comparison_of};
ghost use Rattle.px_typed_expressions.specs.Calls.{first_call, behind_value, behind_one, behind, row_of};
ghost use Rattle.px_environments.specs.Atoms.{is_long};
ghost use Rattle.px_typed_expressions.specs.Expressions.{number_of_type, truth_of, size_of, cast_of, operator_of, operators, comparison_in, comparisons, is_between, name_of, expression_of, row_operands, operands_below, expression, expression_at};
ghost use Rattle.px_operators.specs.Kept.{parts_kept};
ghost use Rattle.px_typed_expressions.specs.Typers.{environment_of};
ghost use Rattle.px_typed_expressions.specs.ExpressionsKept.{outcomes_each, trailers_of, value_operands, behind_trouble};

use crate::typer::ExpressionTyper;
use px_base::{BinOp, CType, CmpOp, NoMemory, Span, Trouble};
use px_environments::{c_comparison, first_type, is_long, is_value};
use px_names::Meaning;
use px_operators::{
    Logic, Part, all_parts, as_operands, both, chain_of, comparison_of, conditional_of, fitted,
    leaf, logic_of, not_of, one, only_part, part_of, refused, refused_with, unary_of, unbuilt,
};
use px_tree::{TypedHead, TypedTree, ValueType};
use px_typed_walk::tree_of;
use px_walk::{Head, Node, TreeNode};
use std::alloc::Global;

fn number_of_type(alloc: Global, n: i128, number: u32, at: Span) -> Result<TypedTree, Trouble>
    ensures { Gives rose_of_typed result (number_of_type n number at) }
{
    if is_long(n) {
        Ok(leaf(alloc, TypedHead::Literal(CType::Long, n), number, at))
    } else {
        Err(unbuilt(at))
    }
}

fn truth_of(alloc: Global, n: i128, number: u32, at: Span) -> TypedTree
    ensures { Ok (rose_of_typed result) ≡ truth_of n number at }
{
    leaf(alloc, TypedHead::Literal(CType::Bint, n), number, at)
}

fn size_of(alloc: Global, t: Option<ValueType>, number: u32, at: Span) -> Result<TypedTree, Trouble>
    ensures { Gives rose_of_typed result (size_of t number at) }
{
    match t {
        Some(ValueType::C(t)) => Ok(leaf(alloc, TypedHead::Sizeof(t), number, at)),
        _ => Err(refused(at)),
    }
}

fn cast_of(
    alloc: Global,
    t: Option<ValueType>,
    number: u32,
    at: Span,
    outcome: Result<TypedTree, Trouble>,
) -> Result<TypedTree, Trouble>
    ensures { (o : Outcome TypedRose) → Gives rose_of_typed outcome o → Gives rose_of_typed result (cast_of t number at o) }
{
    let Some(t) = t else {
        return Err(refused_with(at, outcome));
    };
    let operand = fitted(alloc, t, outcome?)?;
    let parts = one(alloc, operand)?;
    Ok(tree_of(TypedHead::Cast(t), number, at, parts))
}

fn operator_of(part: Head<'_>) -> Option<BinOp>
    ensures { result ≡ operator_of (form_of part.entry) }
{
    match part {
        Head::Link(op) => Some(op),
        _ => None,
    }
}

/// The operators of a chain.
fn operators(alloc: Global, node: TreeNode<'_>) -> Result<Vec<BinOp>, NoMemory>
    ensures { IfOk result (λ ops. ops.items ≡ operators (parts_of (rose_of node.entry))) }
{
    let mut ops = Vec::new(alloc);
    for k in 0..node.count() {
        add_operator(&mut ops, operator_of(node.part(k).head()))?;
    }
    Ok(ops)
}

/// Takes in an operator, where there is one.
fn add_operator(ops: &mut Vec<BinOp>, op: Option<BinOp>) -> Result<(), NoMemory>
    ensures { OnOk result (ops.new.items ≡ ops.old.items ++ cons_option op []) }
{
    if let Some(op) = op {
        ops.push(op)?;
    }
    Ok(())
}

fn comparison_in(part: Head<'_>) -> Option<CmpOp>
    ensures { result ≡ comparison_in (form_of part.entry) }
{
    match part {
        Head::Comparison(op) => c_comparison(op),
        _ => None,
    }
}

/// The comparisons of a chain.
fn comparisons(alloc: Global, node: TreeNode<'_>) -> Result<Vec<CmpOp>, Trouble>
    ensures { Gives (λ ops. ops.items) result (comparisons (at_of (rose_of node.entry)) (drop 1 (parts_of (rose_of node.entry)))) }
{
    let mut ops = Vec::new(alloc);
    for k in 1..node.count() {
        match comparison_in(node.part(k).head()) {
            Some(op) => ops.push(op)?,
            None => return Err(unbuilt(node.at())),
        }
    }
    Ok(ops)
}

/// Whether a node is between expressions, and none by itself.
fn is_between(head: Head<'_>) -> bool
    ensures { result ≡ is_between (form_of head.entry) }
{
    match head {
        Head::Type(_, _, _) => true,
        Head::Attribute(_) => true,
        Head::Call => true,
        Head::Subscript(_) => true,
        Head::Argument(_) => true,
        Head::Index => true,
        Head::Slice(_, _, _) => true,
        Head::Ellipsis => true,
        Head::Link(_) => true,
        Head::Comparison(_) => true,
        Head::Entry => true,
        _ => false,
    }
}

impl<'a> ExpressionTyper<'a> {
    /// A name as a value.
    fn name_of(&self, number: u32, at: Span) -> Result<TypedTree, Trouble>
        ensures { Gives rose_of_typed result (name_of (environment_of self.now) ((environment_of self.now).meanings number) number at) }
    {
        let Some(Meaning::Local(declaration, _)) = self.code.meaning(number) else {
            return Err(unbuilt(at));
        };
        match self.code.variable(declaration) {
            Some(variable) => {
                let head = TypedHead::Local(variable.slot, variable.value_type);
                Ok(leaf(self.alloc, head, number, at))
            }
            None => Err(unbuilt(at)),
        }
    }

    /// An expression with these operands.
    fn expression_of(&self, node: TreeNode<'_>, parts: Vec<Part>) -> Result<TypedTree, Trouble>
        ensures { Gives rose_of_typed result (expression_of (environment_of self.now) (head_of (rose_of node.entry)) (number_of (rose_of node.entry)) (at_of (rose_of node.entry)) (parts_of (rose_of node.entry))
            (parts_kept parts.items)) }
    {
        let alloc = self.alloc;
        let number = node.number();
        let at = node.at();
        match node.head() {
            Head::Name(_) => self.name_of(number, at),
            Head::Number(n) => number_of_type(alloc, n, number, at),
            Head::True => Ok(truth_of(alloc, 1, number, at)),
            Head::False => Ok(truth_of(alloc, 0, number, at)),
            Head::Sizeof => size_of(alloc, first_type(node), number, at),
            Head::Unary(op) => unary_of(alloc, op, number, at, as_operands(alloc, parts)?),
            Head::Cast => cast_of(alloc, first_type(node), number, at, only_part(at, parts)),
            Head::Chain => self.chain(node, parts),
            Head::Compare => self.comparison(node, parts),
            Head::Not => not_of(alloc, number, at, parts),
            Head::And => {
                let operands = as_operands(alloc, parts)?;
                logic_of(alloc, Logic::And, number, at, operands)
            }
            Head::Or => {
                let operands = as_operands(alloc, parts)?;
                logic_of(alloc, Logic::Or, number, at, operands)
            }
            Head::Conditional => conditional_of(alloc, number, at, parts),
            _ => Err(unbuilt(at)),
        }
    }

    /// A chain of operators with these operands.
    fn chain(&self, node: TreeNode<'_>, parts: Vec<Part>) -> Result<TypedTree, Trouble>
        ensures { Gives rose_of_typed result (followed (operands (parts_kept parts.items))
            (chain_of (environment_of self.now).cdivision (number_of (rose_of node.entry)) (at_of (rose_of node.entry)) (operators (parts_of (rose_of node.entry))))) }
    {
        let ops = operators(self.alloc, node)?;
        let operands = as_operands(self.alloc, parts)?;
        chain_of(
            self.alloc,
            self.code.cdivision,
            node.number(),
            node.at(),
            ops.as_slice(),
            operands,
        )
    }

    /// A chain of comparisons with these operands.
    fn comparison(&self, node: TreeNode<'_>, parts: Vec<Part>) -> Result<TypedTree, Trouble>
        ensures { Gives rose_of_typed result (followed (comparisons (at_of (rose_of node.entry)) (drop 1 (parts_of (rose_of node.entry))))
            (λ ops. followed (operands (parts_kept parts.items)) (comparison_of (number_of (rose_of node.entry)) (at_of (rose_of node.entry)) ops))) }
    {
        let ops = comparisons(self.alloc, node)?;
        let operands = as_operands(self.alloc, parts)?;
        comparison_of(
            self.alloc,
            node.number(),
            node.at(),
            ops.as_slice(),
            operands,
        )
    }

    /// Takes in what a node of an expression comes to: an expression itself, and of what is between expressions those below it.
    #[cycle(gather)]
    fn gather(&self, node: TreeNode<'_>, gathered: &mut Vec<Part>) -> Result<(), NoMemory>
        ensures { OnOk result (parts_kept gathered.new.items ≡ parts_kept gathered.old.items ++ operands_below (environment_of self.now) (rose_of node.entry)) }
    {
        match node.head() {
            Head::Row => self.gather_row(node, gathered),
            Head::Name(_) => self.gather_name(node, gathered),
            head => {
                if is_between(head) {
                    self.gather_parts(node, gathered)
                } else {
                    add(gathered, self.composed(node))
                }
            }
        }
    }

    /// Takes in a name where it is a value.
    fn gather_name(&self, node: TreeNode<'_>, gathered: &mut Vec<Part>) -> Result<(), NoMemory>
        ensures { OnOk result (parts_kept gathered.new.items ≡ parts_kept gathered.old.items
            ++ value_operands (environment_of self.now) ((environment_of self.now).meanings (number_of (rose_of node.entry))) (number_of (rose_of node.entry)) (at_of (rose_of node.entry))) }
    {
        if !is_value(self.code.meaning(node.number())) {
            return Ok(());
        }
        add(gathered, self.name_of(node.number(), node.at()))
    }

    /// Takes in a row, and of a call of `range` its arguments.
    #[cycle(gather)]
    fn gather_row(&self, node: TreeNode<'_>, gathered: &mut Vec<Part>) -> Result<(), NoMemory>
        ensures { OnOk result (parts_kept gathered.new.items ≡ parts_kept gathered.old.items
            ++ row_operands (environment_of self.now) (number_of (rose_of node.entry)) (at_of (rose_of node.entry)) (parts_of (rose_of node.entry)) (outcomes_each (environment_of self.now) (parts_of (rose_of node.entry)))) }
    {
        if self.code.is_range_row(node) {
            self.gather_parts(node, gathered)
        } else {
            add(gathered, self.row(node))
        }
    }

    /// Takes in what the parts of a node come to.
    #[cycle(gather)]
    fn gather_parts(&self, node: TreeNode<'_>, gathered: &mut Vec<Part>) -> Result<(), NoMemory>
        ensures { OnOk result (parts_kept gathered.new.items ≡ parts_kept gathered.old.items ++ flat (outcomes_each (environment_of self.now) (parts_of (rose_of node.entry)))) }
    {
        for k in 0..node.count() {
            self.gather(node.part(k), gathered)?;
        }
        Ok(())
    }

    /// An expression that is neither a name nor a row.
    #[cycle(gather)]
    fn composed(&self, node: TreeNode<'_>) -> Result<TypedTree, Trouble>
        ensures { Gives rose_of_typed result (expression_of (environment_of self.now) (head_of (rose_of node.entry)) (number_of (rose_of node.entry)) (at_of (rose_of node.entry)) (parts_of (rose_of node.entry))
            (flat (outcomes_each (environment_of self.now) (parts_of (rose_of node.entry))))) }
    {
        let mut below = Vec::new(self.alloc);
        self.gather_parts(node, &mut below)?;
        self.expression_of(node, below)
    }

    /// What an expression comes to, or what is below a node between expressions, in the order of the text.
    ///
    /// # Errors
    /// `NoMemory` where there is no memory for the parts; what is refused is said by the part.
    #[cycle(gather)]
    pub fn below(&self, node: TreeNode<'_>) -> Result<Vec<Part>, NoMemory>
        ensures { IfOk result (λ parts. parts_kept parts.items ≡ operands_below (environment_of self.now) (rose_of node.entry)) }
    {
        let mut gathered = Vec::new(self.alloc);
        self.gather(node, &mut gathered)?;
        Ok(gathered)
    }

    /// A row.
    #[cycle(gather)]
    fn row(&self, row: TreeNode<'_>) -> Result<TypedTree, Trouble>
        ensures { Gives rose_of_typed result (row_of (environment_of self.now) (number_of (rose_of row.entry)) (at_of (rose_of row.entry)) (parts_of (rose_of row.entry))
            (outcomes_each (environment_of self.now) (parts_of (rose_of row.entry)))) }
    {
        let Some(atom) = row.get(0) else {
            return Err(unbuilt(row.at()));
        };
        let meaning = self.code.atom_meaning(atom);
        if is_value(meaning) {
            let value = self.below(atom)?;
            return self.behind(row, 1, only_part(row.at(), value));
        }
        let Some(call) = row.get(1) else {
            return Err(unbuilt(row.at()));
        };
        let arguments = self.below(call)?;
        let called = self.first_call(meaning, row.number(), row.at(), arguments);
        self.behind(row, 2, called)
    }

    /// The first call of a row whose atom isn't a value.
    fn first_call(
        &self,
        meaning: Option<Meaning>,
        number: u32,
        at: Span,
        arguments: Vec<Part>,
    ) -> Result<TypedTree, Trouble>
        ensures { Gives rose_of_typed result (first_call (environment_of self.now) meaning number at (parts_kept arguments.items)) }
    {
        match meaning {
            Some(meaning) => self.named_call(meaning, number, at, arguments),
            None => Err(unbuilt(at)),
        }
    }

    /// What the trailers of a row from one on make of the value before them.
    #[cycle(gather)]
    fn behind(
        &self,
        row: TreeNode<'_>,
        from: usize,
        value: Result<TypedTree, Trouble>,
    ) -> Result<TypedTree, Trouble>
        ensures { (o : Outcome TypedRose) → Gives rose_of_typed value o
            → Gives rose_of_typed result (behind (at_of (rose_of row.entry)) o (trailers_of (environment_of self.now) (drop from (parts_of (rose_of row.entry))))) }
    {
        let mut so_far = value;
        for k in from..row.count() {
            let trailer = row.part(k);
            let parts = self.below(trailer)?;
            so_far = behind_one(self.alloc, row.at(), so_far, trailer, parts);
        }
        so_far
    }

    /// The typed tree of an expression.
    ///
    /// # Errors
    /// A refusal by E12 of the first place where types don't fit, and by E27 of a form that isn't built; `NoMemory` where there is no
    /// memory for the tree.
    pub fn expression(&self, node: TreeNode<'_>) -> Result<TypedTree, Trouble>
        ensures { Gives rose_of_typed result (expression (environment_of self.now) (rose_of node.entry)) }
    {
        let parts = self.below(node)?;
        only_part(node.at(), parts)
    }

    /// The typed tree of the expression that is the part of a node with that number, from 0.
    ///
    /// # Errors
    /// As for an expression; a node without the part is a form that isn't built.
    pub fn expression_at(&self, node: TreeNode<'_>, k: usize) -> Result<TypedTree, Trouble>
        ensures { Gives rose_of_typed result (expression_at (environment_of self.now) (at_of (rose_of node.entry)) (slice_get (parts_of (rose_of node.entry)) k)) }
    {
        match node.get(k) {
            Some(part) => self.expression(part),
            None => Err(unbuilt(node.at())),
        }
    }
}

/// A value isn't called.
fn behind_value(trailer: Head<'_>, at: Span) -> Trouble
    ensures { result ≡ behind_trouble (form_of trailer.entry) at }
{
    match trailer {
        Head::Call => refused(at),
        _ => unbuilt(at),
    }
}

/// What a trailer makes of the value before it, of which only what it is refused for is left.
fn called(
    value: Result<TypedTree, Trouble>,
    trailer: Head<'_>,
    at: Span,
) -> Result<TypedTree, Trouble>
    ensures { (o : Outcome TypedRose) → Gives rose_of_typed value o → Gives rose_of_typed result (followed o (λ _. behind_value at (form_of trailer.entry))) }
{
    match value {
        Ok(_) => Err(behind_value(trailer, at)),
        Err(trouble) => Err(trouble),
    }
}

/// A trailer with these parts behind a value.
fn behind_one(
    alloc: Global,
    at: Span,
    value: Result<TypedTree, Trouble>,
    trailer: TreeNode<'_>,
    parts: Vec<Part>,
) -> Result<TypedTree, Trouble>
    ensures { (o : Outcome TypedRose) → Gives rose_of_typed value o → Gives rose_of_typed result (behind_one at o (rose_of trailer.entry, parts_kept parts.items)) }
{
    let broken = called(value, trailer.head(), at);
    let (tree, _) = both(broken, all_parts(alloc, parts))?;
    Ok(tree)
}

/// Takes in what one part more comes to.
fn add(parts: &mut Vec<Part>, outcome: Result<TypedTree, Trouble>) -> Result<(), NoMemory>
    ensures { (o : Outcome TypedRose) → Gives rose_of_typed outcome o → OnOk result (parts_kept parts.new.items ≡ parts_kept parts.old.items ++ o ∷ []) }
{
    let part = part_of(outcome)?;
    parts.push(part)?;
    Ok(())
}
