//! How a program is run.

ghost use Rattle.std.specs.Prelude.{◌≡◌};
ghost use Rattle.meaning.specs.Plans.{IsIn, in_range, most_workers, most_trips, most_blocks};
ghost use Rattle.meaning.specs.Plans.{most_turns, plan_of};

use std::marker::Model;

/// How a program is run: by how many workers, in blocks of how many trips of a DO, how many blocks
/// at a time, and with how many turns at most. Each number is in its range.
#[derive(Clone, Copy, Debug, PartialEq, Eq)]
pub struct Plan {
    workers: u64,
    block: u64,
    window: u64,
    turns: u64,
}

impl Model for Plan {
    ghost use Rattle.meaning.specs.Plans.{PlanNumbers, IsPlan};

    ghost Value = { PlanNumbers };

    ghost view = { λ p. record {
      workers = p.workers;
      block = p.block;
      window = p.window;
      turns = p.turns;
    } };

    ghost invariant = { λ p. IsPlan (record {
      workers = p.workers;
      block = p.block;
      window = p.window;
      turns = p.turns;
    }) };

    ghost inverse = { λ p. record {
      workers = p.workers;
      block = p.block;
      window = p.window;
      turns = p.turns;
    } };
}

impl Plan {
    /// The plan with these numbers: 1 to 64 workers, 1 to 1,000,000 trips in a block, 1 to 256
    /// blocks at a time and 1 to 1,000,000,000,000 turns. There is none where a number is out of
    /// its range.
    pub fn new(workers: u64, block: u64, window: u64, turns: u64) -> Option<Self>
        ensures { result ≡ plan_of workers block window turns }
    {
        if is_in(64, workers)
            && is_in(1_000_000, block)
            && is_in(256, window)
            && is_in(1_000_000_000_000, turns)
        {
            Some(Plan {
                workers,
                block,
                window,
                turns,
            })
        } else {
            None
        }
    }

    /// How many workers run a loop by stages. With one, all is run in order.
    pub fn workers(&self) -> u64
        ensures is { result ≡ self.now.workers }
        ensures range { IsIn most_workers result }
    {
        self.workers
    }

    /// How many trips a block has.
    pub fn block(&self) -> u64
        ensures is { result ≡ self.now.block }
        ensures range { IsIn most_trips result }
    {
        self.block
    }

    /// How many blocks a stage has at most.
    pub fn window(&self) -> u64
        ensures is { result ≡ self.now.window }
        ensures range { IsIn most_blocks result }
    {
        self.window
    }

    /// How many turns the run may take.
    pub fn turns(&self) -> u64
        ensures is { result ≡ self.now.turns }
        ensures range { IsIn most_turns result }
    {
        self.turns
    }
}

// 1 at least, and no more than the greatest.
fn is_in(most: u64, number: u64) -> bool
    ensures { result ≡ in_range most number }
{
    1 <= number && number <= most
}
