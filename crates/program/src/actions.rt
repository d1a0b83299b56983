//! What statements need, by their lines.

ghost use Rattle.std.specs.Prelude.{◌≡◌, ◌≢◌, ◌≤◌, ◌<◌, ◌+◌, ◌^◌, ℕ, IfOk, [], Some, length};
ghost use Rattle.std.specs.Prelude.{slice_get};
ghost use Rattle.std.specs.Option.{option_copied};
ghost use Rattle.program.specs.Kept.{Adds, IsNowhere, StayIn, action_at, told_in};

use crate::Action;
use crate::action::silence;
use meaning::ending::StopMessage;
use std::alloc::{AllocError, Global};

// No statement begins there.
const NOWHERE: u32 = 0xffff_ffff;

// Puts a number in the place of a line, behind those of all lines before it.
pub(crate) fn put_at(places: &mut Vec<u32>, line: u32, place: u32) -> Result<(), AllocError>
    requires free { length places.old.items ≤ line }
    ensures put { IfOk result (λ _. slice_get places.new.items line ≡ Some place) }
    ensures long { IfOk result (λ _. length places.new.items ≡ line + 1) }
    ensures kept { IfOk result (λ _. StayIn places.old.items places.new.items) }
    ensures others { (other : ℕ) → other ≢ line → IfOk result (λ _.
        IsNowhere (slice_get places.old.items other) →
        IsNowhere (slice_get places.new.items other)) }
{
    places.resize(line as usize, NOWHERE)?;
    places.push(place)?;
    Ok(())
}

/// What statements need. `places` has, for each line, where in `actions` that of its statement
/// stands.
#[derive(Drop)]
pub struct Actions {
    pub places: Vec<u32>,
    pub actions: Vec<Action>,
}

impl Actions {
    /// None yet.
    pub fn new(alloc: Global) -> Actions
        ensures places { result.places.items ≡ [] }
        ensures actions { result.actions.items ≡ [] }
    {
        Actions {
            places: Vec::new(alloc),
            actions: Vec::new(alloc),
        }
    }

    /// What the statement at a line needs.
    pub fn at(&self, line: u32) -> Option<&Action>
        ensures { option_copied result ≡ action_at self.now line }
    {
        match self.places.get(line as usize) {
            Some(place) => self.actions.get(*place as usize),
            None => None,
        }
    }

    /// Keeps what the statement at a line behind all others needs.
    pub fn add(&mut self, line: u32, action: Action) -> Result<(), AllocError>
        requires behind { length self.old.places.items ≤ line }
        requires few { length self.old.actions.items < 2 ^ 31 }
        ensures ok { IfOk result (λ _. Adds self.old line action self.new) }
        ensures long { IfOk result (λ _. length self.new.places.items ≡ line + 1) }
        ensures many { IfOk result (λ _.
            length self.new.actions.items ≡ length self.old.actions.items + 1) }
    {
        let place = self.actions.len() as u32;
        match put_at(&mut self.places, line, place) {
            Ok(()) => {
                self.actions.push(action)?;
                Ok(())
            }
            Err(AllocError) => {
                drop(action);
                Err(AllocError)
            }
        }
    }
    /// Takes out what the statement at a line tells. No memory is allocated.
    pub(crate) fn take_message(&mut self, alloc: Global, line: u32) -> StopMessage
        ensures { result ≡ told_in (action_at self.old line) }
    {
        match self.places.get(line as usize) {
            Some(place) => match self.actions.get_mut(*place as usize) {
                Some(action) => action.take_message(alloc),
                None => silence(alloc),
            },
            None => silence(alloc),
        }
    }
}
