// The function that C and Rust get for the tree walk. It takes no record, and so gives none back.
ghost use Rattle.std.specs.Prelude.{◌≡◌};
ghost use Rattle.tree.specs.Results as results;
ghost use Rattle.replies.specs.Replies.{said_of};

use replies::{Said, Say};

// Serves a slot by a walk from the root to a leaf: the name, the leaf; each mark on the way is flipped.
pub fn mandrozsi_walk(capacity: u16, board: &[u16], marks: &mut [u16]) -> Said
    ensures { (result ≡ said_of (results.walked_answer capacity board.now marks.old)) × (marks.new ≡ results.walked_marks capacity board.now marks.old) }
{
    tree::walk(capacity, board, marks).said()
}
