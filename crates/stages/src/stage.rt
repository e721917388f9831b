// One stage of the search of 64 states: small functions in the shape that the vector unit likes.
ghost use Rattle.std.specs.Prelude.{◌≡◌, ◌+◌, ◌^◌, ◌<◌, ◌≤◌, min, get_or};
ghost use Rattle.cells.specs.Places.{Untouched};
ghost use Rattle.stages.specs.Stage.{pick, StageRequires, HalfRequires, Staged};

// The first for the digit 0, else the second.
pub fn pick(d: u8, x: u32, y: u32) -> u32
    ensures { result ≡ pick d x y }
{
    if d == 0 { x } else { y }
}

// The lesser of two, tested as signed: the vector unit of plain x86-64 has no unsigned test. By `min` a block of the long code takes 29 %
// more instructions.
pub fn least(x: u32, y: u32) -> u32
    requires { (x < 2 ^ 31) × (y < 2 ^ 31) }
    ensures { result ≡ min x y }
{
    if (x as i32) < (y as i32) { x } else { y }
}

// The price of the word j. Picks, not an index: the compiler makes constant masks of them.
fn price_of(j: u8, prices: [u32; 4]) -> u32
    requires { j ≤ 3 }
    ensures { result ≡ get_or prices j 0 }
{
    let [a, b, c, d] = prices;
    pick(j / 2, pick(j % 2, a, b), pick(j % 2, c, d))
}

// Half of the states, from the state `at` on.
fn half(
    costs: &mut [u32; 64],
    after: &[u32; 64],
    words: &[u8; 64],
    at: usize,
    prices: [u32; 4],
    others: [u32; 4],
)
    requires { HalfRequires costs.old after.now words.now prices others at }
    ensures staged { Staged (at + 32) after.now words.now prices costs.new }
    ensures untouched { Untouched (at + 32) costs.old costs.new }
{
    for i in 0..32 {
        let j = words[at + i];
        let x = after[2 * i] + price_of(j, prices);
        let y = after[2 * i + 1] + price_of(j, others);
        costs[at + i] = least(x, y);
    }
}

// One stage of 64 states in place, by the prices of the four words.
pub fn stage(costs: &mut [u32; 64], words: &[u8; 64], prices: [u32; 4])
    requires { StageRequires costs.old words.now prices }
    ensures { Staged 64 costs.old words.now prices costs.new }
{
    let after = *costs;
    let [a, b, c, d] = prices;
    let others = [d, c, b, a];
    half(costs, &after, words, 0, prices, others);
    half(costs, &after, words, 32, prices, others);
}
