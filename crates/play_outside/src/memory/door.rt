//! A door in memory.
ghost use Rattle.std.specs.Prelude.{◌≡◌, ◌+◌, ◌≤◌, ◌<◌, Some, None, false, [], IfOk, IfSome, map, vec_len, vec_capacity};
ghost use Rattle.std.specs.VecDeque.{deque_len};
ghost use Rattle.play_outside.specs.Listener.{IfCame, Arrives, LeavesAnswers};
ghost use Rattle.play_outside.specs.Fresh.{IsNewSink};
ghost use Rattle.play_outside.specs.memory.Door.{arrival_of, AreNewAnswers, new_answers-prop};

use super::planned_faults::PlannedFaults;
use crate::{Arrival, Link, Listener, MOST_AWAY};
use std::alloc::{AllocError, Global};
use std::collections::VecDeque;

/// A planned answer of a door in memory.
#[derive(Drop)]
pub enum DoorAnswer<L> {
    /// This link comes.
    Line(L),
    /// No link has come yet.
    Again,
}

/// A door that gives planned answers in their order, and is then closed. It keeps the links that were given back, in
/// room that it has from its creation, and exposes them.
#[derive(Drop)]
pub struct MemDoor<L: Link> {
    answers: VecDeque<DoorAnswer<L>>,
    returned: Vec<L>,
    closed: bool,
    away: u32,
    idle: u64,
    planned: PlannedFaults,
    mark: u64,
    ghost new: { AreNewAnswers L.state answers.items } by { new_answers-prop L.state answers.items },
    ghost room: { deque_len answers + away + vec_len returned ≤ vec_capacity returned },
}

impl<L: Link> MemDoor<L> {
    /// Creates a door with these answers. The calls of `next` whose numbers, counted from 1, are in `fails` return
    /// `Failed`, and use up no answer.
    pub fn new(
        alloc: Global,
        mark: u64,
        answers: Vec<DoorAnswer<L>>,
        fails: Vec<u64>,
    ) -> Result<MemDoor<L>, AllocError>
        requires { AreNewAnswers L.state answers.items }
        ensures fresh { IfOk result (λ door. ⟦<MemDoor<L> as Listener>⟧.state door ≡ record { told = Some (record { returned = []; closed = false }); away = 0; idle = 0; faults = 0; mark = mark }) }
        ensures answers { IfOk result (λ door. door.answers.items ≡ answers.items) }
    {
        let returned = Vec::with_capacity(alloc, answers.len())?;
        Ok(MemDoor {
            answers: VecDeque::from(answers),
            returned,
            closed: false,
            away: 0,
            idle: 0,
            planned: PlannedFaults::new(fails),
            mark,
        })
    }

    /// Returns the links that were given back, in order.
    pub fn returned(&self) -> &[L]
        ensures { IfSome (⟦<MemDoor<L> as Listener>⟧.state self.now).told (λ told. told.returned ≡ result.now) }
    {
        self.returned.as_slice()
    }

    /// Returns how often a call has failed.
    pub fn faults(&self) -> u64
        ensures { result ≡ (⟦<MemDoor<L> as Listener>⟧.state self.now).faults }
    {
        self.planned.count
    }
}

impl<L: Link> Listener for MemDoor<L> {
    type Line = L;

    ghost state = { λ d. record { told = Some (record { returned = d.returned.items; closed = d.closed }); away = d.away; idle = d.idle; faults = d.planned.count; mark = d.mark } };

    fn next(&mut self) -> Arrival<L>
        requires { self.old.away < MOST_AWAY }
        ensures arrives { Arrives result (⟦<MemDoor<L> as Listener>⟧.state self.entry.now) (⟦<MemDoor<L> as Listener>⟧.state self.exit.now) }
        ensures fresh { IfCame result (λ line. IsNewSink (L.state line)) }
        ensures answers { LeavesAnswers result (map arrival_of self.entry.now.answers.items) (map arrival_of self.exit.now.answers.items) }
    {
        if self.planned.fails_now() {
            self.planned.raise();
            return Arrival::Failed;
        }
        match self.answers.pop_front() {
            None => {
                self.closed = true;
                Arrival::Closed
            }
            Some(DoorAnswer::Again) => {
                self.idle = self.idle.saturating_add(1);
                Arrival::Again
            }
            Some(DoorAnswer::Line(line)) => {
                self.away += 1;
                Arrival::Came(line)
            }
        }
    }

    fn give_back(&mut self, line: L) {
        self.away -= 1;
        self.returned.push_reserved(line);
    }
}
