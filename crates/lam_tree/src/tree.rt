// A search tree.

ghost use Rattle.std.specs.Prelude.{◌≡◌, ◌<◌, ◌++◌, ◌∷◌, [], length};
ghost use Rattle.std.specs.Prelude.{OnOk, OnErr};

use crate::limits::MOST_NODES;
use crate::node::Node;
use std::alloc::{AllocError, Global};
use std::marker::Model;

/// The nodes of a search, in the order in which it came to them.
#[derive(Drop)]
pub struct Tree {
    nodes: Vec<Node>,
}

impl Model for Tree {
    ghost use Rattle.std.specs.Prelude.{List};
    ghost use Rattle.lam_tree.specs.declared.node.Node.{Node};

    ghost Value = { List Node };

    ghost view = { λ t. t.nodes.items };
}

impl Tree {
    /// The tree without nodes.
    pub fn new(alloc: Global) -> Tree
        ensures { result ≡ [] }
    {
        Tree {
            nodes: Vec::new(alloc),
        }
    }

    /// Puts a node at the end. Want of memory leaves the tree as it was.
    pub fn push(&mut self, node: Node) -> Result<(), AllocError>
        requires { length self.old < MOST_NODES }
        ensures pushed { OnOk result (self.new ≡ self.old ++ node ∷ []) }
        ensures kept { OnErr result (self.new ≡ self.old) }
    {
        self.nodes.push(node)?;
        Ok(())
    }

    /// The nodes, in order.
    pub fn nodes(&self) -> &[Node]
        ensures { result.now ≡ self.now }
    {
        self.nodes.as_slice()
    }
}
