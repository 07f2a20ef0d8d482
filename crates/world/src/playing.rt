//! Schedules.
ghost use Rattle.std.specs.Prelude.{◌≡◌, ◌↔◌, ◌≤◌, ◌<◌, ◌+◌, ◌*◌, ◌++◌, [], ◌∷◌, IfOk, IsTrue, OnErr, OnOk, length, vec_capacity};
ghost use Rattle.history.specs.Schedules.{EndsQuiet, outputs_in_round};
ghost use Rattle.history.specs.declared.schedule.Scheduled.TheVariants.{Rounds};
ghost use Rattle.world.specs.Playing.{PlaysAll, PlaysFirst, PlaysItem, PlaysRound};
ghost use Rattle.world.specs.Worlds.{IsAtRest};

use crate::watching::LockWatch;
use crate::world::World;
use commit_log::Names;
use history::{Event, EventAnswer, MOST_ROUNDS, Output, Scheduled};
use schema::NoMemory;
use std::alloc::Global;

impl<J: Names> World<J> {
    /// Plays a schedule, item by item, and returns what is printed for it. After each event `watch` looks at the lock tables.
    ///
    /// If the last output is `Quiet`, no message can be taken and no item can be sent. Returns NoMemory if an allocation for
    /// the outputs fails: then the first of the schedule's events have happened, and nothing else.
    pub fn play(
        &mut self,
        alloc: Global,
        schedule: &[Scheduled],
        watch: &mut LockWatch,
    ) -> Result<Vec<Output>, NoMemory>
        ensures plays { IfOk result (λ outputs.
            PlaysAll schedule.now outputs.items self.old self.new) }
        ensures rest { IfOk result (λ outputs. EndsQuiet outputs.items → IsAtRest self.new) }
        ensures err { OnErr result (PlaysFirst schedule.now self.old self.new) }
    {
        let mut outputs = Vec::with_capacity(alloc, schedule.len())?;
        for item in schedule {
            self.play_item(alloc, item, &mut outputs, watch)?;
        }
        Ok(outputs)
    }

    // Plays one item of a schedule and appends what is printed for it.
    fn play_item(
        &mut self,
        alloc: Global,
        item: &Scheduled,
        outputs: &mut Vec<Output>,
        watch: &mut LockWatch,
    ) -> Result<(), NoMemory>
        ensures follows { OnOk result
            (PlaysItem item.now outputs.old.items outputs.new.items self.old self.new) }
        ensures rest { OnOk result (EndsQuiet outputs.new.items → IsAtRest self.new) }
        ensures err { OnErr result (PlaysFirst (item.now ∷ []) self.old self.new) }
        ensures same { self.new.placements.executors ≡ self.old.placements.executors }
    {
        match item {
            Scheduled::Event(event) => {
                let answer = self.step(alloc, event);
                outputs.push(Output::Event(answer))?;
                self.show_locks(alloc, outputs, watch);
                Ok(())
            }
            Scheduled::Rounds => self.run_rounds(alloc, outputs, watch),
        }
    }

    // Plays rounds until one in which nothing can happen, or `MOST_ROUNDS` of them. A round is a Take and a Send of each
    // executor in turn.
    fn run_rounds(
        &mut self,
        alloc: Global,
        outputs: &mut Vec<Output>,
        watch: &mut LockWatch,
    ) -> Result<(), NoMemory>
        ensures follows { OnOk result
            (PlaysItem Rounds outputs.old.items outputs.new.items self.old self.new) }
        ensures rest { OnOk result (EndsQuiet outputs.new.items → IsAtRest self.new) }
        ensures err { OnErr result (PlaysFirst (Rounds ∷ []) self.old self.new) }
        ensures same { self.new.placements.executors ≡ self.old.placements.executors }
    {
        let executors = self.core.placements.executors();
        for _ in 0..MOST_ROUNDS {
            outputs.reserve(2 * executors as usize)?;
            if self.run_round(alloc, outputs, watch) {
                outputs.push(Output::Quiet)?;
                return Ok(());
            }
        }
        outputs.push(Output::Limit)?;
        Ok(())
    }

    // Plays one round. Returns whether nothing could happen in it. There must be room for its outputs.
    fn run_round(&mut self, alloc: Global, outputs: &mut Vec<Output>, watch: &mut LockWatch) -> bool
        requires room { length outputs.old.items + 2 * self.old.placements.executors
            ≤ vec_capacity outputs.old }
        ensures round { PlaysRound result outputs.old.items outputs.new.items self.old self.new }
        ensures rest { IsTrue result → IsAtRest self.new }
        ensures same { self.new.placements.executors ≡ self.old.placements.executors }
    {
        let executors = self.core.placements.executors();
        let mut is_idle = true;
        for executor in 0..executors {
            let took = self.step(alloc, &Event::Take { executor });
            // (a Send changes no slice)
            self.show_locks(alloc, outputs, watch);
            let sent = self.step(alloc, &Event::Send { executor });
            is_idle = stays_idle(is_idle, &took, &sent);
            add_output(outputs, took);
            add_output(outputs, sent);
        }
        is_idle
    }

    // Shows the lock tables to who watches them, after these outputs.
    fn show_locks(&self, alloc: Global, outputs: &[Output], watch: &mut LockWatch) {
        watch.look(alloc, &self.core.parts.shards, outputs.len());
    }
}

// Whether nothing could happen so far, nor in this turn.
fn stays_idle(is_idle: bool, took: &EventAnswer, sent: &EventAnswer) -> bool
    ensures { IsTrue result ↔ (IsTrue is_idle
        × ((took.now ≡ EventAnswer.Nothing) × (sent.now ≡ EventAnswer.Nothing))) }
{
    is_idle && is_nothing(took) && is_nothing(sent)
}

// Whether the event could not happen.
fn is_nothing(answer: &EventAnswer) -> bool
    ensures { IsTrue result ↔ (answer.now ≡ EventAnswer.Nothing) }
{
    match answer {
        EventAnswer::Nothing => true,
        _ => false,
    }
}

// Appends what is printed for an event of a round.
fn add_output(outputs: &mut Vec<Output>, answer: EventAnswer)
    requires room { length outputs.old.items < vec_capacity outputs.old }
    ensures added { outputs.new.items ≡ outputs.old.items ++ outputs_in_round answer }
    ensures room { vec_capacity outputs.new ≡ vec_capacity outputs.old }
{
    match answer {
        EventAnswer::Took | EventAnswer::Sent | EventAnswer::Full | EventAnswer::Nothing => {}
        EventAnswer::Accepted { .. }
        | EventAnswer::Ordered
        | EventAnswer::Logged { .. }
        | EventAnswer::Moved
        | EventAnswer::Answered { .. } => outputs.push_reserved(Output::Event(answer)),
    }
}
