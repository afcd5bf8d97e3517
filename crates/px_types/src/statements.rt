//! The types of statements.

ghost use Rattle.std.specs.Prelude.{◌≡◌, ◌++◌, [], ◌∷◌, List, Ok, IfOk, OnOk, true, map, slice_get, take};
ghost use Rattle.px_walk.specs.Nodes.{rose_of};
ghost use Rattle.px_walk.specs.Roses.{number_of, at_of, parts_of};
ghost use Rattle.px_typed_walk.specs.TypedView.{TypedRose, rose_of_typed, typed_node};
ghost use Rattle.px_operators.specs.Outcomes.{Outcome, Gives, followed, mapped, both, all_of};
ghost use Rattle.px_operators.specs.Conversions.{tested, valued};
ghost use Rattle.px_operators.specs.Operators.{operand};
ghost use Rattle.px_typed_expressions.specs.Expressions.{expression, expression_at, operands_below};
ghost use Rattle.px_types.specs.Statements.{made, fitted_to, assigned, assigned_at, assigned_each, augmented, returned_as, returned, in_loop, assignment, assign_of, augment_of, declared_with, declarator, declaration, declare_of, return_in, guarded, trees_of, range_arguments, range_parts, range_loop, for_of, statement};
ghost use Rattle.px_types.specs.StatementsKept.{trees_gathered, with_all, block_from, assigned_to};
ghost use Rattle.px_operators.specs.Kept.{trees_kept, operand_kept, operands_kept, gathers};
ghost use Rattle.px_types.specs.Typers.{environment_of};

use crate::typer::Typer;
use px_base::{BinOp, NoMemory, Span, Trouble};
use px_environments::{Variable, first_type};
use px_operators::{
    Gathered, Operand, as_operand, as_operands, binary_step, both, fitted, given, leaf, made, one,
    only, refused, refused_with, tested, two, unbuilt, valued,
};
use px_tree::{TypedHead, TypedTree, ValueType};
use px_typed_walk::{at_of, number_of, tree_of, type_of};
use px_walk::{Head, Node, TreeNode};
use sqlite_items::Items;
use std::alloc::Global;

/// A target with a value that is converted into its type.
fn fitted_to(alloc: Global, target: TypedTree, tree: TypedTree) -> Result<Items<TypedTree>, Trouble>
    ensures { Gives trees_kept result (fitted_to (rose_of_typed target, rose_of_typed tree)) }
{
    let fit = fitted(alloc, type_of(&target), tree)?;
    Ok(two(alloc, target, fit)?)
}

/// An assignment to a target.
fn assigned(
    alloc: Global,
    number: u32,
    at: Span,
    target: TypedTree,
    tree: TypedTree,
) -> Result<TypedTree, Trouble>
    ensures { Gives rose_of_typed result (assigned number at (rose_of_typed target, rose_of_typed tree)) }
{
    let parts = fitted_to(alloc, target, tree)?;
    Ok(tree_of(TypedHead::Assign, number, at, parts))
}

/// An assignment of the value at hand, which has this type and stands there, to a target.
fn assigned_given(
    alloc: Global,
    t: ValueType,
    value_at: Span,
    target: TypedTree,
) -> Result<TypedTree, Trouble>
    ensures { Gives rose_of_typed result (assigned_at t value_at (rose_of_typed target)) }
{
    let number = number_of(&target);
    let at = at_of(&target);
    let tree = leaf(alloc, TypedHead::Given(t), number, value_at);
    assigned(alloc, number, at, target, tree)
}

/// The assignments of the value at hand to several targets.
fn steps_of(
    alloc: Global,
    t: ValueType,
    value_at: Span,
    targets: Vec<TypedTree>,
) -> Result<Vec<TypedTree>, Trouble>
    ensures { Gives (λ all. trees_kept all.items) result (all_of (map (assigned_at t value_at) (trees_kept targets.items))) }
{
    let mut steps = Gathered::new(alloc);
    for target in targets {
        steps.take(assigned_given(alloc, t, value_at, target))?;
    }
    steps.all()
}

/// Some trees and one behind them.
fn with_last(mut trees: Vec<TypedTree>, last: TypedTree) -> Result<Items<TypedTree>, NoMemory>
    ensures { IfOk result (λ all. trees_kept all ≡ trees_kept trees.items ++ rose_of_typed last ∷ []) }
{
    trees.push(last)?;
    Ok(Items::from_vec(trees))
}

/// An assignment of one value to several targets.
fn assigned_each(
    alloc: Global,
    number: u32,
    at: Span,
    targets: Vec<TypedTree>,
    tree: TypedTree,
) -> Result<TypedTree, Trouble>
    ensures { Gives rose_of_typed result (assigned_each number at (trees_kept targets.items, rose_of_typed tree)) }
{
    let t = type_of(&tree);
    let value_at = at_of(&tree);
    let steps = steps_of(alloc, t, value_at, targets)?;
    let parts = with_last(steps, tree)?;
    Ok(tree_of(TypedHead::AssignEach, number, at, parts))
}

/// An assignment to one target or more.
fn assignment(
    alloc: Global,
    number: u32,
    at: Span,
    targets: Vec<TypedTree>,
    tree: TypedTree,
) -> Result<TypedTree, Trouble>
    ensures { Gives rose_of_typed result (assigned_to number at (trees_kept targets.items, rose_of_typed tree)) }
{
    if targets.len() == 1 {
        let target = only(at, targets)?;
        assigned(alloc, number, at, target, tree)
    } else {
        assigned_each(alloc, number, at, targets, tree)
    }
}

/// `target op= value`
fn augmented(
    alloc: Global,
    cdivision: bool,
    number: u32,
    at: Span,
    op: BinOp,
    target: Operand,
    right: Operand,
) -> Result<TypedTree, Trouble>
    ensures { Gives rose_of_typed result (augmented cdivision number at op (operand_kept target, operand_kept right)) }
{
    let Operand { tree, c_type } = target;
    let had = given(alloc, number, at_of(&tree), c_type);
    let step = binary_step(alloc, cdivision, number, at, op, had, right)?;
    let parts = fitted_to(alloc, tree, step)?;
    Ok(tree_of(TypedHead::Augment(op), number, at, parts))
}

/// A value as the result of a function.
fn returned_as(
    alloc: Global,
    t: ValueType,
    at: Span,
    outcome: Result<TypedTree, Trouble>,
) -> Result<TypedTree, Trouble>
    ensures { (o : Outcome TypedRose) → Gives rose_of_typed outcome o → Gives rose_of_typed result (returned_as t at o) }
{
    match t {
        ValueType::Void => Err(refused_with(at, outcome)),
        t => fitted(alloc, t, outcome?),
    }
}

/// `break` or `continue`, in a loop or not.
fn in_loop(
    alloc: Global,
    looped: bool,
    head: TypedHead,
    node: TreeNode<'_>,
) -> Result<TypedTree, Trouble>
    ensures { Gives rose_of_typed result (in_loop looped head (number_of (rose_of node.entry)) (at_of (rose_of node.entry))) }
{
    if looped {
        Ok(leaf(alloc, head, node.number(), node.at()))
    } else {
        Err(refused(node.at()))
    }
}

/// A statement without parts.
fn plain(alloc: Global, head: TypedHead, node: TreeNode<'_>) -> Result<TypedTree, Trouble>
    ensures { Gives rose_of_typed result (Ok (typed_node head (number_of (rose_of node.entry)) (at_of (rose_of node.entry)) [])) }
{
    Ok(leaf(alloc, head, node.number(), node.at()))
}

/// The trees of operands.
fn trees_of(alloc: Global, operands: Vec<Operand>) -> Result<Vec<TypedTree>, NoMemory>
    ensures { IfOk result (λ trees. trees_kept trees.items ≡ map trees_of (operands_kept operands.items)) }
{
    let mut trees = Vec::new(alloc);
    for operand in operands {
        trees.push(operand.tree)?;
    }
    Ok(trees)
}

/// The parts of a loop over `range`: its target, the arguments, and its block.
fn range_parts(
    alloc: Global,
    target: TypedTree,
    arguments: Vec<TypedTree>,
    block: Vec<TypedTree>,
) -> Result<Items<TypedTree>, NoMemory>
    ensures { IfOk result (λ parts. trees_kept parts ≡ rose_of_typed target ∷ trees_kept arguments.items ++ trees_kept block.items) }
{
    let mut parts = one(alloc, target)?;
    parts.append(Items::from_vec(arguments))?;
    parts.append(Items::from_vec(block))?;
    Ok(parts)
}

/// A loop over `range` with this target and these arguments, and with this block.
fn range_of(
    alloc: Global,
    number: u32,
    at: Span,
    header: Result<(TypedTree, Vec<TypedTree>), Trouble>,
    block: Result<Vec<TypedTree>, Trouble>,
) -> Result<TypedTree, Trouble>
    ensures { (h : Outcome (TypedRose × List TypedRose)) (b : Outcome (List TypedRose))
        → Gives (λ parts. (rose_of_typed parts.0, trees_kept parts.1.items)) header h → Gives (λ all. trees_kept all.items) block b
        → Gives rose_of_typed result (mapped (range_parts number at) (both h b)) }
{
    let ((target, arguments), block) = both(header, block)?;
    let head = TypedHead::Range(arguments.len());
    let parts = range_parts(alloc, target, arguments, block)?;
    Ok(tree_of(head, number, at, parts))
}

impl<'a> Typer<'a> {
    /// An expression alone.
    fn alone(&self, node: TreeNode<'_>) -> Result<TypedTree, Trouble>
        ensures { Gives rose_of_typed result (assignment (number_of (rose_of node.entry)) (at_of (rose_of node.entry)) [] (expression_at (environment_of self.now) (at_of (rose_of node.entry)) (slice_get (parts_of (rose_of node.entry)) 0))) }
    {
        let tree = self.expression_at(node, 0)?;
        let parts = one(self.alloc, tree)?;
        Ok(tree_of(TypedHead::Expression, node.number(), node.at(), parts))
    }

    /// The first parts of a node, which are expressions.
    fn first_expressions(&self, node: TreeNode<'_>, count: usize) -> Result<Vec<TypedTree>, Trouble>
        ensures { Gives (λ all. trees_kept all.items) result (all_of (map (expression (environment_of self.now)) (take count (parts_of (rose_of node.entry))))) }
    {
        let mut all = Gathered::new(self.alloc);
        for k in 0..count.min(node.count()) {
            all.take(self.expression(node.part(k)))?;
        }
        all.all()
    }

    /// `targets = value`
    fn assign(&self, node: TreeNode<'_>, count: usize) -> Result<TypedTree, Trouble>
        ensures { Gives rose_of_typed result (assign_of (environment_of self.now) (number_of (rose_of node.entry)) (at_of (rose_of node.entry)) count (parts_of (rose_of node.entry))) }
    {
        if count == 0 {
            return self.alone(node);
        }
        let targets = self.first_expressions(node, count);
        let (targets, tree) = both(targets, self.value_at(node, count))?;
        assignment(self.alloc, node.number(), node.at(), targets, tree)
    }

    /// The expression that is a part of a node, which is no void call.
    fn value_at(&self, node: TreeNode<'_>, k: usize) -> Result<TypedTree, Trouble>
        ensures { Gives rose_of_typed result (followed (expression_at (environment_of self.now) (at_of (rose_of node.entry)) (slice_get (parts_of (rose_of node.entry)) k)) valued) }
    {
        let tree = self.expression_at(node, k)?;
        valued(tree)
    }

    /// The operand that is a part of a node.
    fn operand_at(&self, node: TreeNode<'_>, k: usize) -> Result<Operand, Trouble>
        ensures { Gives operand_kept result (followed (expression_at (environment_of self.now) (at_of (rose_of node.entry)) (slice_get (parts_of (rose_of node.entry)) k)) operand) }
    {
        let tree = self.expression_at(node, k)?;
        as_operand(tree)
    }

    /// `target op= value`
    fn augment(&self, node: TreeNode<'_>, op: BinOp) -> Result<TypedTree, Trouble>
        ensures { Gives rose_of_typed result (augment_of (environment_of self.now) (number_of (rose_of node.entry)) (at_of (rose_of node.entry)) op (parts_of (rose_of node.entry))) }
    {
        let (target, right) = both(self.operand_at(node, 0), self.operand_at(node, 1))?;
        augmented(
            self.alloc,
            self.code.cdivision,
            node.number(),
            node.at(),
            op,
            target,
            right,
        )
    }

    /// A declared variable with the value that it is given.
    fn declared(&self, node: TreeNode<'_>, variable: Variable) -> Result<TypedTree, Trouble>
        ensures { Gives rose_of_typed result (declared_with (environment_of self.now) variable (number_of (rose_of node.entry)) (at_of (rose_of node.entry)) (parts_of (rose_of node.entry))) }
    {
        let head = TypedHead::Declarator(variable.slot, variable.value_type);
        let Some(part) = node.get(0) else {
            return plain(self.alloc, head, node);
        };
        let tree = self.expression(part)?;
        let fit = fitted(self.alloc, variable.value_type, tree)?;
        let parts = one(self.alloc, fit)?;
        Ok(tree_of(head, node.number(), node.at(), parts))
    }

    fn declarator(&self, node: TreeNode<'_>) -> Result<TypedTree, Trouble>
        ensures { Gives rose_of_typed result (declarator (environment_of self.now) (rose_of node.entry)) }
    {
        match self.code.variable(node.number()) {
            Some(variable) => self.declared(node, variable),
            None => Err(unbuilt(node.at())),
        }
    }

    /// Takes in the variables of a declaration, or the refusal of its type.
    fn take_declaration(
        &self,
        node: TreeNode<'_>,
        all: &mut Gathered<TypedTree>,
    ) -> Result<(), NoMemory>
        ensures { OnOk result (trees_gathered all.new ≡ with_all (trees_gathered all.old) (declaration (environment_of self.now) (rose_of node.entry))) }
    {
        if first_type(node).is_none() {
            return all.take(Err(refused(node.at())));
        }
        for k in 1..node.count() {
            all.take(self.declarator(node.part(k)))?;
        }
        Ok(())
    }

    /// The variables of a `cdef`.
    fn declare(&self, node: TreeNode<'_>) -> Result<TypedTree, Trouble>
        ensures { Gives rose_of_typed result (declare_of (environment_of self.now) (number_of (rose_of node.entry)) (at_of (rose_of node.entry)) (parts_of (rose_of node.entry))) }
    {
        let mut all = Gathered::new(self.alloc);
        for k in 0..node.count() {
            self.take_declaration(node.part(k), &mut all)?;
        }
        made(TypedHead::Declare, node.number(), node.at(), all.all())
    }

    /// The value of a `return` in a function with this result, if any.
    fn returns(&self, node: TreeNode<'_>, t: ValueType) -> Result<Vec<TypedTree>, Trouble>
        ensures { Gives (λ all. trees_kept all.items) result (all_of (map (returned (environment_of self.now) t) (parts_of (rose_of node.entry)))) }
    {
        let mut all = Gathered::new(self.alloc);
        for k in 0..node.count() {
            all.take(self.returned_part(node.part(k), t))?;
        }
        all.all()
    }

    fn returned_part(&self, part: TreeNode<'_>, t: ValueType) -> Result<TypedTree, Trouble>
        ensures { Gives rose_of_typed result (returned (environment_of self.now) t (rose_of part.entry)) }
    {
        returned_as(self.alloc, t, part.at(), self.expression(part))
    }

    /// A `return`, which module code hasn't.
    fn return_of(&self, node: TreeNode<'_>) -> Result<TypedTree, Trouble>
        ensures { Gives rose_of_typed result (return_in (environment_of self.now) (environment_of self.now).gives (number_of (rose_of node.entry)) (at_of (rose_of node.entry)) (parts_of (rose_of node.entry))) }
    {
        match self.code.gives {
            Some(t) => {
                let values = self.returns(node, t);
                made(TypedHead::Return, node.number(), node.at(), values)
            }
            None => {
                let values = self.first_expressions(node, node.count());
                Err(refused_with(node.at(), values))
            }
        }
    }

    /// Takes in the parts of a node from one on, which are statements or arms; the flag says that they stand in a loop.
    #[cycle(statement)]
    fn take_block(
        &self,
        looped: bool,
        node: TreeNode<'_>,
        from: usize,
        all: &mut Gathered<TypedTree>,
    ) -> Result<(), NoMemory>
        ensures { OnOk result (trees_gathered all.new ≡ gathers (trees_gathered all.old) (block_from (environment_of self.now) looped from (rose_of node.entry))) }
    {
        for k in from..node.count() {
            all.take(self.statement(looped, node.part(k)))?;
        }
        Ok(())
    }

    /// A test and the block that it guards.
    #[cycle(statement)]
    fn guarded(
        &self,
        head: TypedHead,
        looped: bool,
        node: TreeNode<'_>,
    ) -> Result<TypedTree, Trouble>
        ensures { Gives rose_of_typed result (guarded head (number_of (rose_of node.entry)) (at_of (rose_of node.entry)) (expression_at (environment_of self.now) (at_of (rose_of node.entry)) (slice_get (parts_of (rose_of node.entry)) 0))
            (block_from (environment_of self.now) looped 1 (rose_of node.entry))) }
    {
        let mut all = Gathered::new(self.alloc);
        all.take(self.test(node))?;
        self.take_block(looped, node, 1, &mut all)?;
        made(head, node.number(), node.at(), all.all())
    }

    /// The first part of a node as a test.
    fn test(&self, node: TreeNode<'_>) -> Result<TypedTree, Trouble>
        ensures { Gives rose_of_typed result (followed (expression_at (environment_of self.now) (at_of (rose_of node.entry)) (slice_get (parts_of (rose_of node.entry)) 0)) tested) }
    {
        tested(self.alloc, self.expression_at(node, 0)?)
    }

    /// Arms, and the statements of `else`.
    #[cycle(statement)]
    fn if_of(&self, head: TypedHead, looped: bool, node: TreeNode<'_>) -> Result<TypedTree, Trouble>
        ensures { Gives rose_of_typed result (made head (number_of (rose_of node.entry)) (at_of (rose_of node.entry)) (all_of (block_from (environment_of self.now) looped 0 (rose_of node.entry)))) }
    {
        let mut all = Gathered::new(self.alloc);
        self.take_block(looped, node, 0, &mut all)?;
        made(head, node.number(), node.at(), all.all())
    }

    /// The target of a loop over `range`.
    fn range_target(&self, node: TreeNode<'_>) -> Result<TypedTree, Trouble>
        ensures { Gives rose_of_typed result (mapped trees_of (followed (expression_at (environment_of self.now) (at_of (rose_of node.entry)) (slice_get (parts_of (rose_of node.entry)) 0)) operand)) }
    {
        Ok(self.operand_at(node, 0)?.tree)
    }

    /// The arguments of `range`.
    fn range_arguments(&self, value: TreeNode<'_>) -> Result<Vec<TypedTree>, Trouble>
        ensures { Gives (λ all. trees_kept all.items) result (range_arguments (operands_below (environment_of self.now) (rose_of value.entry))) }
    {
        let parts = self.below(value)?;
        let operands = as_operands(self.alloc, parts)?;
        let trees = trees_of(self.alloc, operands)?;
        Ok(trees)
    }

    /// The target and the arguments of a loop over `range`.
    fn range_header(
        &self,
        node: TreeNode<'_>,
        value: TreeNode<'_>,
    ) -> Result<(TypedTree, Vec<TypedTree>), Trouble>
        ensures { Gives (λ parts. (rose_of_typed parts.0, trees_kept parts.1.items)) result (both
            (mapped trees_of (followed (expression_at (environment_of self.now) (at_of (rose_of node.entry)) (slice_get (parts_of (rose_of node.entry)) 0)) operand))
            (range_arguments (operands_below (environment_of self.now) (rose_of value.entry)))) }
    {
        both(self.range_target(node), self.range_arguments(value))
    }

    /// The block of a loop over `range`.
    #[cycle(statement)]
    fn range_block(&self, node: TreeNode<'_>) -> Result<Vec<TypedTree>, Trouble>
        ensures { Gives (λ all. trees_kept all.items) result (all_of (block_from (environment_of self.now) true 2 (rose_of node.entry))) }
    {
        let mut all = Gathered::new(self.alloc);
        self.take_block(true, node, 2, &mut all)?;
        all.all()
    }

    /// A loop over `range`.
    #[cycle(statement)]
    fn range_loop(&self, node: TreeNode<'_>, value: TreeNode<'_>) -> Result<TypedTree, Trouble>
        ensures { Gives rose_of_typed result (range_loop (number_of (rose_of node.entry)) (at_of (rose_of node.entry))
            (expression_at (environment_of self.now) (at_of (rose_of node.entry)) (slice_get (parts_of (rose_of node.entry)) 0))
            (operands_below (environment_of self.now) (rose_of value.entry)) (block_from (environment_of self.now) true 2 (rose_of node.entry))) }
    {
        range_of(
            self.alloc,
            node.number(),
            node.at(),
            self.range_header(node, value),
            self.range_block(node),
        )
    }

    /// A `for`.
    #[cycle(statement)]
    fn for_of(&self, node: TreeNode<'_>) -> Result<TypedTree, Trouble>
        ensures { Gives rose_of_typed result (for_of (environment_of self.now) (number_of (rose_of node.entry)) (at_of (rose_of node.entry)) (parts_of (rose_of node.entry)) (block_from (environment_of self.now) true 2 (rose_of node.entry))) }
    {
        let Some(value) = node.get(1) else {
            return Err(unbuilt(node.at()));
        };
        if self.code.is_range_head(value) {
            self.range_loop(node, value)
        } else {
            Err(unbuilt(node.at()))
        }
    }

    /// A statement, or an arm of one; the flag says that it stands in a loop.
    #[cycle(statement)]
    pub(crate) fn statement(&self, looped: bool, node: TreeNode<'_>) -> Result<TypedTree, Trouble>
        ensures { Gives rose_of_typed result (statement (environment_of self.now) looped (rose_of node.entry)) }
    {
        let alloc = self.alloc;
        match node.head() {
            Head::Assign(targets) => self.assign(node, targets),
            Head::Augment(op) => self.augment(node, op),
            Head::Pass => plain(alloc, TypedHead::Pass, node),
            Head::Break => in_loop(alloc, looped, TypedHead::Break, node),
            Head::Continue => in_loop(alloc, looped, TypedHead::Continue, node),
            Head::Return => self.return_of(node),
            Head::Global(_) => plain(alloc, TypedHead::Global, node),
            Head::If(arms, has_else) => self.if_of(TypedHead::If(arms, has_else), looped, node),
            Head::Arm => self.guarded(TypedHead::Arm, looped, node),
            Head::While => self.guarded(TypedHead::While, true, node),
            Head::For => self.for_of(node),
            Head::Declare => self.declare(node),
            Head::DeclareGroup => self.declare(node),
            _ => Err(unbuilt(node.at())),
        }
    }
}
