//! What a tree's steps are charged.
ghost use Rattle.std.specs.Prelude.{◌≡◌, ℕ, ◌<◌, ◌≤◌, ◌^◌, [], List, None, Option, Bool, IfSome};
ghost use Rattle.std.specs.Bool.{Decides, OnFalse, OnTrue};
ghost use Rattle.floor_graphs.specs.Graphs.{Rate};
ghost use Rattle.priced_paths.specs.Pricings.{IsLiveNode, IsPriced};

use std::hash::Hash;
use tree_search::Space;

/// The most cases that may be told apart.
pub const MOST_CASES: usize = 16;

/// A tree whose steps are charged beforehand. Of each path something is kept, by which steps are
/// told apart, and it has settled some of the values of the leaves below. Each leaf is of some
/// case: there its steps are charged no more than its value and the case's debt leave beyond what
/// it has settled.
pub trait Pricing {
    type Tree: Space;

    /// What is kept of a path.
    type Kept: Copy + Eq + Hash;

    /// The tree.
    ghost tree: { Self → Self.Tree };

    /// What is kept of a path.
    ghost kept_of: { Self → List ℕ → Self.Kept };

    /// What a path has settled.
    ghost settled_by: { Self → List ℕ → ℕ };

    /// How many labels the steps at a depth have.
    ghost breadth: { Self → ℕ → ℕ };

    /// The step at a depth, from what is kept, under a label: what is kept behind it, and what it
    /// settles at least. None where there is no such step.
    ghost step_at: { Self → ℕ → Self.Kept → ℕ → Option (Self.Kept × ℕ) };

    /// What a case charges at a depth for a label. None where the case has no such step.
    ghost toll_at: { Self → ℕ → ℕ → ℕ → Option ℕ };

    /// At a depth a label does what a case asks for once.
    ghost reaches_at: { Self → ℕ → ℕ → ℕ → Bool };

    /// How many cases there are.
    ghost count: { Self → ℕ };

    /// What a unit of value is worth in a case, and the case's debt.
    ghost rate_of: { Self → ℕ → Rate };

    /// The tree.
    fn space(&self) -> &Self::Tree
        ensures { result.now ≡ tree self.now };

    /// What the live path of a node has settled.
    fn settled(&self, node: &<Self::Tree as Space>::Node) -> u64
        requires { IsLiveNode (Self.Tree.is_at (tree self.now) node.now)
            (Self.Tree.live (tree self.now)) }
        ensures value { (path : List ℕ) → Self.Tree.is_at (tree self.now) node.now path → result
            ≡ settled_by self.now path }
        ensures small { result < 2 ^ 48 };

    /// What is kept of the empty path.
    fn start(&self) -> Self::Kept
        ensures { result ≡ kept_of self.now [] };

    /// How many labels the steps at a depth have.
    fn labels(&self, depth: usize) -> usize
        requires { depth < Self.Tree.height (tree self.now) }
        ensures { result ≡ breadth self.now depth };

    /// The step at a depth, from what is kept, under a label.
    fn step(&self, depth: usize, kept: &Self::Kept, label: usize) -> Option<(Self::Kept, u32)>
        requires depth { depth < Self.Tree.height (tree self.now) }
        requires label { label < breadth self.now depth }
        ensures { result ≡ step_at self.now depth kept.now label };

    /// Whether a label may make a step at a depth, from what is kept. Of most labels that make none
    /// this is told sooner than by the step.
    fn may_step(&self, depth: usize, kept: &Self::Kept, label: usize) -> bool
        requires depth { depth < Self.Tree.height (tree self.now) }
        requires label { label < breadth self.now depth }
        ensures { OnFalse result (step_at self.now depth kept.now label ≡ None) };

    /// Whether the same is kept. It may be denied of what is the same, at the cost of a larger web.
    fn is_same(&self, one: &Self::Kept, other: &Self::Kept) -> bool
        ensures { OnTrue result (one.now ≡ other.now) };

    /// A number by which what is kept is looked up: the same has the same, and what differs has
    /// mostly different ones.
    fn key(&self, kept: &Self::Kept) -> u64;

    /// How many cases there are.
    fn cases(&self) -> usize
        ensures value { result ≡ count self.now }
        ensures few { result ≤ MOST_CASES };

    /// What a case charges at a depth for a label.
    fn toll(&self, case: usize, depth: usize, label: usize) -> Option<u32>
        requires case { case < count self.now }
        requires depth { depth < Self.Tree.height (tree self.now) }
        requires label { label < breadth self.now depth }
        ensures value { result ≡ toll_at self.now case depth label }
        ensures small { IfSome result (λ charge. charge < 2 ^ 24) };

    /// Whether at a depth a label does what a case asks for once.
    fn reaches(&self, case: usize, depth: usize, label: usize) -> bool
        requires case { case < count self.now }
        requires depth { depth < Self.Tree.height (tree self.now) }
        requires label { label < breadth self.now depth }
        ensures { result ≡ reaches_at self.now case depth label };

    /// What a unit of value is worth in a case, and the case's debt.
    fn rate(&self, case: usize) -> (u32, u64)
        requires { case < count self.now }
        ensures scale { result.0 ≡ (rate_of self.now case).scale }
        ensures debt { result.1 ≡ (rate_of self.now case).debt }
        ensures some { 0 < result.0 }
        ensures small { result.0 ≤ 2 ^ 12 };

    /// What is kept is the same where it is equal.
    ghost same: { (one other : Self.Kept) → Decides (Self.Kept.eq one other) (one ≡ other) };

    /// Steps are as they are kept, and each leaf is of a case.
    ghost priced: { (pricing : Self) → IsPriced (Self.Tree.live (tree pricing)) (Self.Tree.height (tree pricing))
        (kept_of pricing) (settled_by pricing) (breadth pricing) (step_at pricing) (toll_at pricing) (reaches_at pricing)
        (count pricing) (rate_of pricing) };
}
