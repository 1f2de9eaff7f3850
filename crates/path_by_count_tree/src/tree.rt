// The tree of least scores over a row of the table, rebuilt in linear time for each row.
ghost use Rattle.std.specs.Prelude.{◌≡◌, ◌*◌, ◌≤◌, ◌<◌, length};
ghost use Rattle.path_pieces.specs.Limits.{max_candidates};
ghost use Rattle.path_by_count_tree.specs.Tree.{Leaves, lesser_score};
ghost use Rattle.path_by_count_tree.specs.Fill.{Padded, Linked};

use path_pieces::score::Score;

// More pieces over the limit than a path can have: 2^20 + 1.
pub const NO_CANDIDATE: u32 = 1048577;

// The number of leaves for n candidates: the least power of two that is at least n.
pub fn leaves_for(n: usize) -> usize
    requires n_nonzero { 0 < n }
    requires n_le_max_candidates { n ≤ max_candidates }
    ensures { Leaves n result }
{
    n.next_power_of_two()
}

// The lesser of two scores, the first where they are equally good.
#[tactic(auto, using(path_pieces::specs::OrderLaws::score_at_most), unfolding(crate::specs::Tree::lesser_score))]
fn lesser_score(a: Score, b: Score) -> Score
    ensures { result ≡ lesser_score a b }
{
    if a <= b { a } else { b }
}

// No candidate stands at the nodes from..to: more pieces over the limit than a path can have.
pub fn pad_leaves(tree_over: &mut [u32], tree_cost: &mut [f64], from: usize, to: usize)
    requires from_le_to { from ≤ to }
    requires over_in_bounds { to ≤ length tree_over.old }
    requires cost_in_bounds { to ≤ length tree_cost.old }
    ensures { Padded tree_over.old tree_cost.old from tree_over.new
        tree_cost.new to }
{
    tree_over[from..to].fill(NO_CANDIDATE);
    tree_cost[from..to].fill(0.0);
}

// Each node's score is the lesser of its children's, from the leaves up.
pub fn link_nodes(tree_over: &mut [u32], tree_cost: &mut [f64], leaves: usize)
    requires over_in_bounds { leaves * 2 ≤ length tree_over.old }
    requires cost_in_bounds { leaves * 2 ≤ length tree_cost.old }
    ensures { Linked tree_over.old tree_cost.old leaves tree_over.new
        tree_cost.new 1 }
{
    for node in (1..leaves).rev() {
        let a = Score {
            over: tree_over[node * 2],
            cost: tree_cost[node * 2],
        };
        let b = Score {
            over: tree_over[node * 2 + 1],
            cost: tree_cost[node * 2 + 1],
        };
        let least = lesser_score(a, b);
        tree_over[node] = least.over;
        tree_cost[node] = least.cost;
    }
}
