//! What the parts of something come to.

ghost use Rattle.std.specs.Prelude.{◌≡◌, [], ◌∷◌, Ok, Err, IfOk, OnOk, List};
ghost use Rattle.px_base.specs.declared.refusals.Trouble.TheVariants as trouble;
ghost use Rattle.px_typed_walk.specs.TypedView.{TypedRose, rose_of_typed, typed_node};
ghost use Rattle.px_operators.specs.Outcomes.{Outcome, Gives, misfit, missing, mapped, all_of};
ghost use Rattle.px_operators.specs.Kept.{part_kept, parts_kept, trees_kept, gathered_kept, Takes, both_answers, refused_answer};

use px_base::{NoMemory, Refusal, Span, Trouble, earlier, precedes};
use px_tree::{TypedHead, TypedTree, room_for_one};
use px_typed_walk::tree_of;
use sqlite_items::Items;
use std::alloc::Global;

/// Types that don't fit, at a place.
pub fn refused(at: Span) -> Trouble
    ensures { result ≡ trouble.Refused (misfit at) }
{
    Trouble::Refused(Refusal {
        number: 12,
        line: at.line,
        column: at.column,
    })
}

/// A form whose types aren't built, at a place.
pub fn unbuilt(at: Span) -> Trouble
    ensures { result ≡ trouble.Refused (missing at) }
{
    Trouble::Refused(Refusal {
        number: 27,
        line: at.line,
        column: at.column,
    })
}

/// What a part comes to: its typed tree, or its first refusal.
#[derive(Drop)]
pub enum Part {
    Typed(TypedTree),
    Broken(Refusal),
}

/// What a part comes to.
///
/// # Errors
/// `NoMemory` where it came to that.
pub fn part_of(outcome: Result<TypedTree, Trouble>) -> Result<Part, NoMemory>
    ensures { (o : Outcome TypedRose) → Gives rose_of_typed outcome o → IfOk result (λ part. part_kept part ≡ o) }
{
    match outcome {
        Ok(tree) => Ok(Part::Typed(tree)),
        Err(Trouble::Refused(refusal)) => Ok(Part::Broken(refusal)),
        Err(Trouble::NoMemory) => Err(NoMemory),
    }
}

/// The typed tree of a part.
///
/// # Errors
/// Its refusal.
pub fn outcome_of(part: Part) -> Result<TypedTree, Trouble>
    ensures { Gives rose_of_typed result (part_kept part) }
{
    match part {
        Part::Typed(tree) => Ok(tree),
        Part::Broken(refusal) => Err(Trouble::Refused(refusal)),
    }
}

/// What is refused whatever its part comes to.
pub fn refused_with<T: Drop>(at: Span, outcome: Result<T, Trouble>) -> Trouble
    ensures { result ≡ refused_answer at outcome }
{
    let refusal: Result<(), Trouble> = Err(refused(at));
    match both(outcome, refusal) {
        Ok(_) => refused(at),
        Err(trouble) => trouble,
    }
}

/// What some parts came to, and of their refusals the first.
#[derive(Drop)]
pub struct Gathered<T> {
    items: Vec<T>,
    broken: Option<Refusal>,
}

impl<T: Drop> Gathered<T> {
    pub fn new(alloc: Global) -> Gathered<T>
        ensures { gathered_kept result ≡ Ok [] }
    {
        Gathered {
            items: Vec::new(alloc),
            broken: None,
        }
    }

    /// Takes in one part more.
    ///
    /// # Errors
    /// `NoMemory` where the part came to that, or there is no memory to keep it.
    pub fn take(&mut self, outcome: Result<T, Trouble>) -> Result<(), NoMemory>
        ensures { OnOk result (Takes outcome (gathered_kept self.old) (gathered_kept self.new)) }
    {
        match outcome {
            Ok(item) => {
                self.items.push(item)?;
                Ok(())
            }
            Err(Trouble::Refused(refusal)) => {
                self.broken = earlier(self.broken, Some(refusal));
                Ok(())
            }
            Err(Trouble::NoMemory) => Err(NoMemory),
        }
    }

    /// All parts, where none was refused.
    ///
    /// # Errors
    /// The first refusal.
    pub fn all(self) -> Result<Vec<T>, Trouble>
        ensures { Gives (λ all. all.items) result (gathered_kept self) }
    {
        let Gathered { items, broken } = self;
        match broken {
            Some(refusal) => Err(Trouble::Refused(refusal)),
            None => Ok(items),
        }
    }
}

/// All parts, where none is broken.
///
/// # Errors
/// The first refusal.
pub fn all_parts(alloc: Global, parts: Vec<Part>) -> Result<Vec<TypedTree>, Trouble>
    ensures { Gives (λ all. trees_kept all.items) result (all_of (parts_kept parts.items)) }
{
    let mut all = Gathered::new(alloc);
    for part in parts {
        all.take(outcome_of(part))?;
    }
    all.all()
}

/// Two parts, where neither was refused.
///
/// # Errors
/// The first refusal of the two.
pub fn both<A: Drop, B: Drop>(
    a: Result<A, Trouble>,
    b: Result<B, Trouble>,
) -> Result<(A, B), Trouble>
    ensures { result ≡ both_answers a b }
{
    match (a, b) {
        (Ok(a), Ok(b)) => Ok((a, b)),
        (Err(Trouble::NoMemory), _) => Err(Trouble::NoMemory),
        (_, Err(Trouble::NoMemory)) => Err(Trouble::NoMemory),
        (Err(Trouble::Refused(a)), Err(Trouble::Refused(b))) => {
            Err(Trouble::Refused(if precedes(&a, &b) { a } else { b }))
        }
        (Err(trouble), Ok(_)) => Err(trouble),
        (Ok(_), Err(trouble)) => Err(trouble),
    }
}

/// A node without parts.
pub fn leaf(alloc: Global, head: TypedHead, number: u32, at: Span) -> TypedTree
    ensures { rose_of_typed result ≡ typed_node head number at [] }
{
    tree_of(head, number, at, Items::new(alloc))
}

/// A node with these parts.
pub fn made(
    head: TypedHead,
    number: u32,
    at: Span,
    parts: Result<Vec<TypedTree>, Trouble>,
) -> Result<TypedTree, Trouble>
    ensures { (o : Outcome (List TypedRose)) → Gives (λ all. trees_kept all.items) parts o
        → Gives rose_of_typed result (mapped (typed_node head number at) o) }
{
    let parts = parts?;
    Ok(tree_of(head, number, at, Items::from_vec(parts)))
}

/// A list of one node.
pub fn one(alloc: Global, tree: TypedTree) -> Result<Items<TypedTree>, NoMemory>
    ensures { IfOk result (λ parts. trees_kept parts ≡ rose_of_typed tree ∷ []) }
{
    let mut parts = room_for_one(alloc)?;
    parts.push(tree)?;
    Ok(parts)
}

/// A list of two nodes.
pub fn two(alloc: Global, first: TypedTree, second: TypedTree) -> Result<Items<TypedTree>, NoMemory>
    ensures { IfOk result (λ parts. trees_kept parts ≡ rose_of_typed first ∷ rose_of_typed second ∷ []) }
{
    let mut parts = Items::from_vec(Vec::with_capacity(alloc, 2)?);
    parts.push(first)?;
    parts.push(second)?;
    Ok(parts)
}
