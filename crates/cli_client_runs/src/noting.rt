//! A world that notes the moment of each answer.
ghost use Rattle.std.specs.Prelude.{◌≡◌, ◌<◌, [], IfOk, OnErr, vec_len, vec_capacity};
ghost use Rattle.json_print.specs.Endings.{Ends};
ghost use Rattle.cli_client_runs.specs.Noted.{Noted};

use client_retries::TakeOffer;
use client_scripted::ServiceWorld;
use json_print::world::{PayloadOperation, run_over};
use json_print::{Ending, RunHead};
use orchestrate::World;
use retry_policy::ClassifyRetry;
use run_grammar::{Answer, Question};
use smithy_types::{List, OutOfMemory};
use std::alloc::Global;
use std::mem;

/// A world that has a clock.
pub trait Clocked: World {
    ghost use Rattle.std.specs.Prelude.{◌≡◌, ℕ};

    /// The present moment in nanoseconds.
    ghost clock: { Self → ℕ };

    /// The present moment in nanoseconds.
    fn moment(&self) -> u64
        ensures { result ≡ clock self.now };
}

impl<C: ClassifyRetry, I: TakeOffer> Clocked for ServiceWorld<C, I> {
    ghost clock = { λ w. w.parts.outside.moment };

    fn moment(&self) -> u64 {
        self.parts.outside.moment
    }
}

/// Moments that are noted where they are asked for.
#[derive(Drop)]
pub struct Notes {
    /// Whether they are asked for.
    pub asked: bool,
    /// The moment of each answer so far, in nanoseconds.
    pub moments: List<u64>,
}

impl Notes {
    /// Nothing is noted yet.
    pub fn new(asked: bool) -> Notes {
        Notes {
            asked,
            moments: List::new(),
        }
    }
}

/// A world with the moments of its answers.
#[derive(Drop)]
pub struct Noting<W: Clocked + Drop> {
    /// What answers.
    pub world: W,
    /// The moments of its answers, behind those that were noted before. Each is that of the clock
    /// once the question was answered, so a park has the moment at which it ended.
    pub moments: List<u64>,
}

impl<W: Clocked + Drop> World for Noting<W> {
    ghost use Rattle.cli_client_runs.specs.Noted.{Noted, noted_nothing};

    ghost calls = { λ n. W.calls n.world };

    ghost relates = { λ old log new. Noted W.relates W.clock old.world old.moments log new.world
        new.moments };

    fn ask(&mut self, alloc: Global, question: Question) -> Result<Answer, OutOfMemory> {
        let mut moments = with_room(alloc, &mut self.moments)?;
        match self.world.ask(alloc, question) {
            Ok(answer) => {
                moments.push_reserved(self.world.moment());
                self.moments = List::from_vec(moments);
                Ok(answer)
            }
            Err(refused) => {
                self.moments = List::from_vec(moments);
                Err(refused)
            }
        }
    }

    ghost relates_nothing = { λ n. noted_nothing W.relates W.clock n.world n.moments
        (W.relates_nothing n.world) };
}

// Moves the moments out of a list, with room for one more. Where there is no memory for the room
// the list stays as it was.
fn with_room(alloc: Global, list: &mut List<u64>) -> Result<Vec<u64>, OutOfMemory>
    ensures moments { IfOk result (λ v. v.items ≡ list.old) }
    ensures room { IfOk result (λ v. vec_len v < vec_capacity v) }
    ensures err { OnErr result (list.new ≡ list.old) }
{
    let mut moments = mem::replace(list, List::new()).into_vec(alloc);
    if moments.reserve(1).is_err() {
        *list = List::from_vec(moments);
        return Err(OutOfMemory);
    }
    Ok(moments)
}

/// A run that was made over a world with a clock.
#[derive(Drop)]
pub struct NotedRun<W> {
    /// The world behind it.
    pub world: W,
    /// How it ended.
    pub ending: Ending,
    /// The moments that were noted before, and one for each entry.
    pub moments: List<u64>,
}

/// Runs the operation over the world, whose log is empty, and notes the moment of each entry behind
/// these.
pub fn run_noting<W: Clocked + Drop>(
    alloc: Global,
    operation: &PayloadOperation,
    head: &RunHead,
    world: W,
    moments: List<u64>,
) -> Result<NotedRun<W>, OutOfMemory>
    requires { W.calls world ≡ [] }
    ensures ends { IfOk result (λ ran. Ends head.now [] (W.calls ran.world) ran.ending) }
    ensures noted { IfOk result (λ ran. Noted W.relates W.clock world moments (W.calls ran.world)
        ran.world ran.moments) }
{
    let mut noting = Noting { world, moments };
    let ending = run_over(alloc, operation, head, &mut noting)?;
    let Noting { world, moments } = noting;
    Ok(NotedRun {
        world,
        ending,
        moments,
    })
}
