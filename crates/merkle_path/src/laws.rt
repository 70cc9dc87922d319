//! What follows from the definitions, for anyone who proves something about trees. No function here does anything.

ghost use Rattle.std.specs.Prelude.{◌≡◌, ℕ, List, ◌+◌, ◌-◌, ◌*◌, ◌^◌, ◌<◌, ◌≤◌, length};
ghost use Rattle.lms_bytes.specs.declared.params.Params.{Params};
ghost use Rattle.merkle_path.specs.Nodes.{candidate_root, node, path, root, sibling};
ghost use Rattle.merkle_path.specs.Tree.{node_at, path_at, path_node_at, tree_of};

/// The tree over public values of leaves has each node where it belongs, and so the paths of the leaves.
pub fn nodes_of_tree()
    ensures size { (params : Params) (id : List ℕ) (key : ℕ → List ℕ)
        → length (tree_of params id key).nodes ≡ params.n * (2 ^ (params.h + 1) - 1) }
    ensures node { (params : Params) (id : List ℕ) (key : ℕ → List ℕ) (level r : ℕ)
        → level ≤ params.h → 2 ^ (params.h - level) ≤ r → r < 2 ^ (params.h - level + 1)
        → node_at (tree_of params id key) r ≡ node params id key level r }
    ensures path_node { (params : Params) (id : List ℕ) (key : ℕ → List ℕ) (q level : ℕ)
        → q < 2 ^ params.h → level < params.h
        → path_node_at (tree_of params id key) q level ≡ node params id key level (sibling params.h q level) }
    ensures path { (params : Params) (id : List ℕ) (key : ℕ → List ℕ) (q : ℕ)
        → q < 2 ^ params.h → path_at (tree_of params id key) q ≡ path params id key q }
{}

/// A leaf's public value and its path lead to the root.
pub fn path_leads_to_root()
    ensures { (params : Params) (id : List ℕ) (key : ℕ → List ℕ) (q : ℕ) → q < 2 ^ params.h
        → candidate_root params id q (key q) (path params id key q) ≡ root params id key }
{}
