// The lines of a tree, one after the other.

ghost use Rattle.std.specs.Prelude.{◌≡◌, ◌∷◌, [], drop, IfNone, IfSome};

use lam_tree::Node;

/// Lines that are read from the front.
pub trait Lines {
    ghost use Rattle.std.specs.Prelude.{List};
    ghost use Rattle.lam_tree.specs.declared.node.Node.{Node};

    // those that are left
    ghost rest: { Self → List Node };

    /// The next line, if one is left.
    fn next_line(&mut self) -> Option<Node>
        ensures none { IfNone result (rest self.old ≡ []) }
        ensures some { IfSome result (λ node. rest self.old ≡ node ∷ rest self.new) };
}

/// The nodes of a list.
#[derive(Drop)]
pub struct Nodes<'a> {
    pub nodes: &'a [Node],
    pub at: usize,
}

impl Lines for Nodes<'_> {
    ghost rest = { λ s. drop s.at s.nodes.now };

    fn next_line(&mut self) -> Option<Node> {
        if self.at >= self.nodes.len() {
            return None;
        }
        let node = self.nodes[self.at];
        self.at += 1;
        Some(node)
    }
}
