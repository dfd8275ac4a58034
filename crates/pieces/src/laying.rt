// Laying out afresh: the names of a board, the heaviest first, placed one after the other on idle leaves.
ghost use Rattle.std.specs.Prelude.{◌≡◌, cond, ◌&&◌, suc, ◌≤◌, ◌<◌, eqb, ltb, length, set, take};
ghost use Rattle.names.specs.Table.{Table, number_under};
ghost use Rattle.pieces.specs.Placing as placing;
ghost use Rattle.pieces.specs.Fresh as fresh;
ghost use Rattle.pieces.specs.Laying as laying;

use crate::placing::place;

// Lists a name after n others where it has a weight; how many are then listed.
fn list_name(names: &mut [u16], n: usize, x: usize, weight: usize) -> usize
    requires { (x < 65536) × (n < 4096) × (0 < weight → n < length names.old) }
    ensures { (result ≡ cond (ltb 0 weight) (suc n) n) × (names.new ≡ cond (ltb 0 weight) (set names.old n x) names.old) }
{
    if 0 < weight {
        names[n] = x as u16;
        return n + 1;
    }
    n
}

// Lists the names that have a weight, rising; how many they are. There is no heap: the list is lent, and its length returned.
pub fn list_names(sizes: &[u16], names: &mut [u16]) -> usize
    requires { Table sizes.now × (length names.old ≡ 4095) × (length (laying.holders sizes.now) ≤ 4095) }
    ensures { (result ≤ 4095) × (take result names.new ≡ laying.holders sizes.now) }
{
    let mut n: usize = 0;
    for x in 1..65536 {
        n = list_name(names, n, x, names::number_of(sizes, x));
    }
    n
}

// The larger of two weights, the second only where it is below some number.
fn heavier(r: usize, w: usize, below: usize) -> usize
    ensures { result ≡ cond (ltb r w && ltb w below) w r }
{
    if r < w && w < below { w } else { r }
}

// The largest weight below some number that one of the listed names has; 0 where there is none, as a listed name has no weight 0.
fn heaviest(sizes: &[u16], names: &[u16], below: usize) -> usize
    requires { Table sizes.now × (0 < below) }
    ensures { laying.Heaviest (number_under sizes.now) names.now (length names.now) below result }
{
    let mut r: usize = 0;
    for x in names {
        r = heavier(r, names::number_of(sizes, *x as usize), below);
    }
    r
}

// Places a stream where its weight m is the one that has its turn.
fn place_turn(board: &mut [u16], c: usize, name: u16, m: usize, w: usize)
    requires { m ≡ w → placing.Placeable c board.old name w }
    ensures { board.new ≡ cond (eqb m w) (placing.placed c board.old name w) board.old }
{
    if m == w {
        place(board, c, name, w);
    }
}

// Places the streams of one weight, by listed names in their order.
fn place_rank(board: &mut [u16], c: usize, sizes: &[u16], names: &[u16], w: usize)
    requires { Table sizes.now × fresh.Placeables c board.old (fresh.rank (number_under sizes.now) w names.now) }
    ensures { board.new ≡ fresh.all_placed c board.old (fresh.rank (number_under sizes.now) w names.now) }
{
    for x in names {
        place_turn(board, c, *x, names::number_of(sizes, *x as usize), w);
    }
}

// Places the streams of listed names, by falling weight. Weights that none of them has are passed over: so no range of weights, and no `for`.
pub fn place_all(board: &mut [u16], c: usize, sizes: &[u16], names: &[u16])
    requires { laying.Layable c board.old sizes.now names.now }
    ensures { board.new ≡ fresh.all_placed c board.old (fresh.ranks (number_under sizes.now) names.now c) }
{
    let mut w = heaviest(sizes, names, c + 1);
    while 0 < w {
        place_rank(board, c, sizes, names, w);
        w = heaviest(sizes, names, w);
    }
}
