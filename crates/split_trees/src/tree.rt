//! Trees of splits, as lists of nodes in preorder.

use calculus_table::Rel;
use std::marker::Model;

/// What a node is.
#[derive(Clone, Copy, Debug, PartialEq, Eq)]
pub enum Kind {
    /// A leaf whose network has an empty set.
    Empty,
    /// A leaf where a scenario was found.
    Found,
    /// A leaf where the search was given up.
    Open,
    /// A leaf that wasn't looked at any more.
    Later,
    /// A split of an edge into parts, with a child for each.
    Split,
}

/// A step of narrowing: the set of (i, k) is intersected with the composition of those of (i, j) and (j, k).
#[derive(Clone, Copy, Debug, PartialEq, Eq)]
pub struct Step {
    pub i: u32,
    pub j: u32,
    pub k: u32,
}

/// How the network of a node is worked.
#[derive(Debug, Drop)]
pub enum Steps {
    /// By closing it.
    Sweep,
    /// By these steps, one after another.
    List(Vec<Step>),
}

/// A node of a tree: a leaf, or a split of the edge from `i` to `j`, whose children are given by their numbers, one for
/// each part. Of a leaf only the kind and the steps count.
#[derive(Debug, Drop)]
pub struct Node {
    pub kind: Kind,
    pub i: u32,
    pub j: u32,
    pub parts: Vec<Rel>,
    pub children: Vec<u32>,
    pub steps: Steps,
}

impl Model for Node {
    ghost use Rattle.split_trees.specs.Tree.{TreeNode};
    ghost use Rattle.split_trees.specs.Steps.{node_steps};

    ghost Value = { TreeNode };

    ghost view = { λ a. record {
      kind = a.kind;
      i = a.i;
      j = a.j;
      parts = a.parts.items;
      children = a.children.items;
      steps = node_steps a.steps;
    } };
}

/// A tree: its nodes in preorder, each before those under it and these child by child.
#[derive(Debug, Drop)]
pub struct Tree {
    pub nodes: Vec<Node>,
}

impl Model for Tree {
    ghost use Rattle.std.specs.Prelude.{List};
    ghost use Rattle.split_trees.specs.Tree.{TreeNode};

    ghost Value = { List TreeNode };

    ghost view = { λ a. a.nodes.items };
}

impl Tree {
    ghost use Rattle.std.specs.Prelude.{◌≡◌, ◌<◌, ◌^◌, length, count_by};
    ghost use Rattle.split_trees.specs.Tree.{is_split};

    /// The number of splits.
    pub fn splits(&self) -> u32
        requires { length self.now < 2 ^ 32 }
        ensures { result ≡ count_by is_split self.now }
    {
        self.nodes.iter().filter(|node| node.is_split()).count() as u32
    }
}

impl Node {
    ghost use Rattle.std.specs.Prelude.{◌≡◌, length};
    ghost use Rattle.split_trees.specs.Tree.{is_split, split_parts};
    ghost use Rattle.split_trees.specs.Steps.{steps_count};
    ghost use Rattle.split_trees.specs.Tree.{arity};

    /// Whether the node is a split.
    pub fn is_split(&self) -> bool
        ensures { result ≡ is_split self.now }
    {
        matches!(self.kind, Kind::Split)
    }

    /// The number of children that the node lists.
    pub fn arity(&self) -> usize
        ensures { result ≡ arity self.now }
    {
        if self.is_split() {
            self.children.len()
        } else {
            0
        }
    }

    /// The number of steps that the node lists.
    pub fn steps_count(&self) -> usize
        ensures { result ≡ steps_count self.now.steps }
    {
        match &self.steps {
            Steps::Sweep => 0,
            Steps::List(steps) => steps.len(),
        }
    }

    /// The number of parts that the node splits an edge into.
    pub fn parts_count(&self) -> usize
        ensures { result ≡ length (split_parts self.now) }
    {
        if self.is_split() { self.parts.len() } else { 0 }
    }
}
