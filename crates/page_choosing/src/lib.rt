// The choice among several writes: each is priced in turn, and the best so far is kept.
#![tactic(auto)]

ghost use Rattle.std.specs.Prelude.{◌≡◌};
ghost use Rattle.std.proofs.Math.Option.{some};
ghost use Rattle.demand.specs.Offers.{outdoes, with_offer};
ghost use Rattle.page_answers.specs.Answers.{offered};
ghost use Rattle.page_choosing.specs.Picks.{taken};

use page_answers::Answer;

// An offer that is taken: its number, its rank and its cost.
#[derive(Clone, Copy, Drop)]
pub struct Pick {
    pub number: u32,
    pub rank: u32,
    pub cost: u32,
}

// Whether an offer of this rank and cost is better than the one that is taken.
fn is_better(rank: u32, cost: u32, taken_rank: u32, taken_cost: u32) -> bool
    ensures { result ≡ outdoes rank cost taken_rank taken_cost }
{
    cost < taken_cost || cost == taken_cost && rank < taken_rank
}

// The better of what is taken so far and one more offer.
fn with_cost(pick: Option<Pick>, number: u32, rank: u32, cost: u32) -> Option<Pick>
    ensures { taken result ≡ with_offer (taken pick) number rank (some cost) }
{
    match pick {
        Some(best) if !is_better(rank, cost, best.rank, best.cost) => pick,
        _ => Some(Pick { number, rank, cost }),
    }
}

// The better of what is taken so far and what an answer offers: the cheaper, then the lower in rank, then the one that came first.
pub fn better(pick: Option<Pick>, number: u32, rank: u32, answer: Answer) -> Option<Pick>
    ensures { taken result ≡ with_offer (taken pick) number rank (offered answer) }
{
    match answer {
        Answer::Done(cost) => with_cost(pick, number, rank, cost),
        Answer::Spent(_) | Answer::Refused(_) => pick,
    }
}
