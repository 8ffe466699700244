//! Trees with claims that can be judged.

ghost use Rattle.std.specs.Prelude.{◌≡◌, ◌↔◌, ℕ, ◌≤◌, IfSome, IsTrue, None};
ghost use Rattle.cert_tree.specs.Trees.{Excludes, Tree};
ghost use Rattle.cert_tree.specs.Walks.{AreWays, IsBehind, IsNextOf, IsOfOpen, IsOfSome, IsOfStep, Ways};

/// A tree, what may be claimed of its nodes, and the leaves that true claims exclude; and what has
/// to be known of a node so that its claims can be told to be true or false, and so that one can go
/// on to the nodes that are longer by a step.
pub trait ClaimTree {
    /// What is claimed of a node.
    type Claim: Copy;

    /// What is known of a node.
    type Known: Copy;

    /// The nodes.
    ghost Node: { Type 0 };

    /// What nodes lead to.
    ghost Leaf: { Type 0 };

    /// Which claims are true of a node, and what is longer than it by a step.
    ghost tree: { Self → Tree Node Self.Claim };

    /// The node from which the tree goes on.
    ghost root: { Self → Node };

    /// How nodes are found by numbers.
    ghost ways: { Self → Ways Node };

    /// The claim that is written of a node.
    ghost own: { Self → Node → Self.Claim };

    /// The node begins the leaf.
    ghost begins: { Self → Node → Leaf → Type 0 };

    /// The leaf is one that true claims exclude.
    ghost refutes: { Self → Leaf → Type 0 };

    /// This is known of the node.
    ghost is_of: { Self → Self.Known → Node → Type 0 };

    /// How many steps may lead to a node.
    fn depth(&self) -> usize
        ensures { result ≡ (ways self.now).height };

    /// What is known of the root.
    fn first(&self) -> Self::Known
        ensures { is_of self.now result (root self.now) };

    /// The number of the first step by which an open node goes on, from a number on.
    fn next(&self, known: &Self::Known, from: usize) -> Option<usize>
        requires open_node { IsOfOpen (tree self.now) (is_of self.now) known.now }
        requires from { from ≤ 8192 }
        ensures { IsNextOf (is_of self.now) (ways self.now) known.now from result };

    /// What is known of the node behind an open one to which the step of a number leads.
    fn behind(&self, known: &Self::Known, number: usize) -> Self::Known
        requires { IsOfStep (tree self.now) (is_of self.now) (ways self.now) number known.now }
        ensures { IsBehind (is_of self.now) (ways self.now) known.now number (is_of self.now result) };

    /// Whether a claim is that its node is open.
    fn is_open(&self, claim: Self::Claim) -> bool
        ensures { result ≡ (tree self.now).is_open claim };

    /// Whether a claim is true.
    fn is_true(&self, known: &Self::Known, claim: Self::Claim) -> bool
        requires { IsOfSome (is_of self.now) known.now }
        ensures { (p : Node) → is_of self.now known.now p → IsTrue result ↔ (tree self.now).IsTrueOf
            p claim };

    /// Whether a claim is true of the node behind an open one to which the step of a number leads.
    /// A tree may tell it without all that would have to be known of that node; what is known of it
    /// is kept, where it is found on the way. More may be known of the open node then.
    fn judge_behind(
        &self,
        known: &mut Self::Known,
        number: usize,
        claim: Self::Claim,
        found: &mut Option<Self::Known>,
    ) -> bool
        requires step { IsOfStep (tree self.now) (is_of self.now) (ways self.now) number known.old }
        requires none { found.old ≡ None }
        ensures told { IsBehind (is_of self.now) (ways self.now) known.old number
            (λ p. IsTrue result ↔ (tree self.now).IsTrueOf p claim) }
        ensures found { IfSome found.new (λ next. IsBehind (is_of self.now) (ways self.now)
            known.old number (is_of self.now next)) }
        ensures kept { (p : Node) → is_of self.now known.old p → is_of self.now known.new p }
    {
        let next = self.behind(known, number);
        *found = Some(next);
        self.is_true(&next, claim)
    }

    /// The claim that is written of a node.
    fn own_claim(&self, known: &Self::Known) -> Self::Claim
        requires { IsOfSome (is_of self.now) known.now }
        ensures { (p : Node) → is_of self.now known.now p → result ≡ own self.now p };

    /// The claim that is written of the node behind an open one to which the step of a number
    /// leads, as `judge_behind`.
    fn tell_behind(
        &self,
        known: &mut Self::Known,
        number: usize,
        found: &mut Option<Self::Known>,
    ) -> Self::Claim
        requires step { IsOfStep (tree self.now) (is_of self.now) (ways self.now) number known.old }
        requires none { found.old ≡ None }
        ensures own { IsBehind (is_of self.now) (ways self.now) known.old number (λ p. result
            ≡ own self.now p) }
        ensures found { IfSome found.new (λ next. IsBehind (is_of self.now) (ways self.now)
            known.old number (is_of self.now next)) }
        ensures kept { (p : Node) → is_of self.now known.old p → is_of self.now known.new p }
    {
        let next = self.behind(known, number);
        *found = Some(next);
        self.own_claim(&next)
    }

    /// The ways go through the tree.
    ghost are_ways: { (it : Self) → AreWays (tree it) (root it) (ways it) };

    /// The root begins every leaf.
    ghost root_begins: { (it : Self) (leaf : Leaf) → begins it (root it) leaf };

    /// True claims exclude what refutes.
    ghost excludes: { (it : Self) → Excludes (tree it) (begins it) (refutes it) };
}
