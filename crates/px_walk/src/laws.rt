//! Laws of walks.

ghost use Rattle.std.specs.Prelude.{◌≡◌, ℕ, ◌∷◌, List, Contains, Option, Some};
ghost use Rattle.std.specs.List.{slice_get};
ghost use Rattle.px_base.specs.declared.refusals.Refusal.{Refusal};
ghost use Rattle.px_base.specs.Findings.{IsFirst};
ghost use Rattle.px_walk.specs.Roses.{Rose, occurrences, parts_of};
ghost use Rattle.px_walk.specs.Findings.{Breaks};

use crate::node::Node;
use crate::rules::Rules;

/// Of the rules that some nodes break one at most is the first.
pub fn first_findings_are_unique<N: Node, R: Rules<N>>(rules: &R)
    ensures { (nodes : List (R.Context × Rose N.Form)) (a b : Option Refusal) →
        IsFirst (Breaks (R.judges rules.now) nodes) a → IsFirst (Breaks (R.judges rules.now) nodes) b → a ≡ b }
{}

/// A node occurs in its own tree, and what occurs in a part of it, in the context of that part.
pub fn nodes_of_parts_occur<N: Node, R: Rules<N>>(rules: &R)
    ensures itself { (context : R.Context) (node : Rose N.Form) →
        Contains (occurrences (R.down rules.now) context node) (context, node) }
    ensures parts { (context : R.Context) (node part : Rose N.Form) (k : ℕ) (other : R.Context × Rose N.Form) →
        slice_get (parts_of node) k ≡ Some part →
        Contains (occurrences (R.down rules.now) (R.down rules.now context node k) part) other →
        Contains (occurrences (R.down rules.now) context node) other }
{}
