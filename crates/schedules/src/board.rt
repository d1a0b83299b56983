//! The board of a stage.

ghost use Rattle.std.specs.Prelude.{◌≡◌, ◌↔◌, ◌+◌, ◌*◌, ◌<◌, ◌≤◌, ◌^◌, IsTrue, IfOk, IfSome, []};
ghost use Rattle.std.specs.Prelude.{◌∷◌, ◌++◌, None, length, map, replicate, vec_len, vec_capacity};
ghost use Rattle.std.specs.Prelude.{if◌then◌else◌};
ghost use Rattle.schedules.specs.declared.place.BlockSlot.TheVariants.{Open};
ghost use Rattle.schedules.specs.Schedules.{IsIdle, IsOut, SettledOnce};
ghost use Rattle.schedules.specs.Boards.{AreEnded, AreIdle, AreNumbered, Claims, IsBoard, IsOutOf};
ghost use Rattle.schedules.specs.Boards.{IsScheduled, LetsGo, LosesNext, first_stage, given_up};
ghost use Rattle.schedules.specs.Boards.{with_run, without_run};

use crate::closed::Closed;
use crate::event::{Event, Ticket};
use crate::numbered::Numbered;
use crate::place::BlockSlot;
use std::alloc::{AllocError, Global};
use std::marker::Model;

/// Which blocks of a stage are given out, and what came of them. Contracts see its parts; what
/// happened is kept, and leads to them.
#[derive(Drop)]
pub struct Board<T: Numbered> {
    next: u32,
    outs: Vec<Option<u32>>,
    places: Vec<BlockSlot<T>>,
    events: Vec<Event>,
}

impl<T: Numbered> Model for Board<T> {
    ghost use Rattle.std.specs.Prelude.{vec_capacity};
    ghost use Rattle.schedules.specs.Boards.{Stage, IsBoard};

    ghost Value = { Stage T };

    ghost view = { λ b. record {
      next = b.next;
      outs = b.outs.items;
      places = b.places.items;
      events = b.events.items;
    } };

    ghost invariant = { λ b. IsBoard T.number T.blocks (vec_capacity b.events) (record {
      next = b.next;
      outs = b.outs.items;
      places = b.places.items;
      events = b.events.items;
    }) };
}

// Writes down what happened; there is room.
fn note(events: &mut Vec<Event>, event: Event)
    requires room { vec_len events.old < vec_capacity events.old }
    ensures items { events.new.items ≡ events.old.items ++ event ∷ [] }
    ensures capacity { vec_capacity events.old ≤ vec_capacity events.new }
{
    if events.push(event).is_err() {
        unreachable!()
    }
}

// Blocks that are neither posted nor lost.
fn open_places<T: Drop>(alloc: Global, blocks: u32) -> Result<Vec<BlockSlot<T>>, AllocError>
    ensures { IfOk result (λ v. v.items ≡ replicate blocks Open) }
{
    let mut places = Vec::with_capacity(alloc, blocks as usize)?;
    for _ in 0..blocks {
        places.push(BlockSlot::Open)?;
    }
    Ok(places)
}

// Workers that have nothing out.
fn idle_workers(alloc: Global, workers: u32) -> Result<Vec<Option<u32>>, AllocError>
    ensures { IfOk result (λ v. v.items ≡ replicate workers None) }
{
    let mut outs = Vec::with_capacity(alloc, workers as usize)?;
    for _ in 0..workers {
        outs.push(None)?;
    }
    Ok(outs)
}

impl<T: Numbered + Drop> Board<T> {
    /// A board of which nothing was given out, with room for all that can happen. The `AllocError`
    /// comes where memory was refused; later calls take none.
    pub fn new(alloc: Global, blocks: u32, workers: u32) -> Result<Board<T>, AllocError>
        requires blocks { blocks ≡ T.blocks }
        requires workers { 0 < workers }
        ensures { IfOk result (λ b. b ≡ first_stage blocks workers) }
    {
        let events = Vec::with_capacity(alloc, 2 * blocks as usize)?;
        let outs = idle_workers(alloc, workers)?;
        let places = open_places(alloc, blocks)?;
        Ok(Board {
            next: 0,
            outs,
            places,
            events,
        })
    }

    /// Whether it is a worker that has nothing out.
    pub fn idle(&self, worker: u32) -> bool
        ensures { IsTrue result ↔ IsIdle self.now.outs worker }
    {
        match self.outs.get(worker as usize) {
            Some(out) => out.is_none(),
            None => false,
        }
    }

    /// Gives the next block to an idle worker; `None` where all blocks were given out.
    pub fn claim_in(&mut self, worker: u32) -> Option<Ticket>
        requires idle { IsIdle self.old.outs worker }
        ensures claims { Claims self.old worker result self.new }
        ensures below { IfSome result (λ t. t.block < T.blocks) }
    {
        if self.next as usize >= self.places.len() {
            return None;
        }
        let ticket = Ticket {
            worker,
            block: self.next,
        };
        note(&mut self.events, Event::Claim(ticket));
        self.outs[worker as usize] = Some(ticket.block);
        self.next += 1;
        Some(ticket)
    }

    // Whether the block is out in the worker's name.
    fn is_out(&self, ticket: Ticket) -> bool
        ensures { IsTrue result ↔ IsOut self.now.outs ticket }
    {
        match self.outs.get(ticket.worker as usize) {
            Some(Some(block)) => *block == ticket.block,
            Some(None) => false,
            None => false,
        }
    }

    /// Puts a block's run at its place. It answers false, and changes nothing, exactly where the
    /// block is not out in the worker's name.
    pub fn post_in(&mut self, ticket: Ticket, run: T) -> bool
        requires { T.number run ≡ ticket.block }
        ensures is { IsTrue result ↔ IsOut self.old.outs ticket }
        ensures put { self.new ≡ (if result then with_run ticket run self.old else self.old) }
    {
        if !self.is_out(ticket) {
            drop(run);
            return false;
        }
        note(&mut self.events, Event::Post(ticket));
        self.outs[ticket.worker as usize] = None;
        self.places[ticket.block as usize] = BlockSlot::Posted(run);
        true
    }

    /// Gives a block up. It answers false, and changes nothing, exactly where the block is not out
    /// in the worker's name.
    pub fn lose_in(&mut self, ticket: Ticket) -> bool
        ensures is { IsTrue result ↔ IsOut self.old.outs ticket }
        ensures gone { self.new ≡ (if result then without_run ticket self.old else self.old) }
    {
        if !self.is_out(ticket) {
            return false;
        }
        note(&mut self.events, Event::Lose(ticket));
        self.outs[ticket.worker as usize] = None;
        self.places[ticket.block as usize] = BlockSlot::Lost;
        true
    }

    // What is true of every board.
    fn known(&self)
        ensures { IsBoard T.number T.blocks (2 * length self.now.places) self.now }
    {
        let _ = &self.next;
    }

    // The block that a worker has out.
    fn out_of(&self, worker: u32) -> Option<u32>
        ensures { IsOutOf self.now.outs worker result }
    {
        match self.outs.get(worker as usize) {
            Some(out) => *out,
            None => None,
        }
    }

    // Gives up what a worker has out.
    fn let_go(&mut self, worker: u32)
        ensures { LetsGo self.old worker self.new }
    {
        self.known();
        if let Some(block) = self.out_of(worker) {
            let _ = self.lose_in(Ticket { worker, block });
        }
    }

    // Gives up all that is out.
    fn let_all_go(&mut self)
        ensures idle { AreIdle self.new.outs }
        ensures places { map given_up self.new.places ≡ map given_up self.old.places }
    {
        let workers = self.outs.len();
        for worker in 0..workers {
            self.known();
            self.let_go(worker as u32);
        }
    }

    // Claims the next block, if there is one, and gives it up.
    fn lose_next(&mut self)
        requires { AreIdle self.old.outs }
        ensures { LosesNext self.old self.new }
    {
        self.known();
        if let Some(ticket) = self.claim_in(0) {
            let _ = self.lose_in(ticket);
        }
    }

    // Claims what was never given out, and gives it up.
    fn lose_rest(&mut self)
        requires { AreIdle self.old.outs }
        ensures idle { AreIdle self.new.outs }
        ensures all { length self.new.places ≤ self.new.next }
        ensures places { map given_up self.new.places ≡ map given_up self.old.places }
    {
        let blocks = self.places.len();
        for _ in 0..blocks {
            self.known();
            self.lose_next();
        }
        self.known();
    }

    /// Gives up what is still out, and then what was never given out.
    pub fn settle(&mut self)
        ensures once { SettledOnce T.blocks self.new.events }
        ensures ended { AreEnded self.new.places }
        ensures places { self.new.places ≡ map given_up self.old.places }
    {
        self.let_all_go();
        self.lose_rest();
        self.known();
    }

    /// Hands on what it has for each block and what happened, both unchanged.
    pub fn close(self) -> Closed<T>
        ensures places { result.places.items ≡ self.places }
        ensures events { result.events.items ≡ self.events }
        ensures scheduled { IsScheduled self }
        ensures numbered { AreNumbered T.number self.places }
        ensures blocks { length self.places ≡ T.blocks }
    {
        let Board {
            next: _,
            outs,
            places,
            events,
        } = self;
        drop(outs);
        Closed { places, events }
    }
}
