//! A position in a production.
ghost use Rattle.std.specs.Prelude.{◌≡◌, ◌↔◌, true, false, cond, take, suc, Some, IfNone, IfSome};
ghost use Rattle.std.specs.Prelude.{IfOk, OnOk, List, [], ◌∷◌, ◌++◌};
ghost use Rattle.run_grammar.specs.Machine.{Spot};
ghost use Rattle.run_grammar.specs.Tests.{holds};
ghost use Rattle.run_grammar.specs.declared.kind.Kind.{Kind};
ghost use Rattle.runcheck.specs.declared.reading.walk.Frame.{Frame};
ghost use Rattle.runcheck.specs.Reading.Frames.{CutTo, Found, Reached, armed, around, is_at, is_further};
ghost use Rattle.runcheck.specs.Reading.Frames.{is_over, or_over, outside, plug, spot_of, state_of};
ghost use Rattle.runcheck.specs.Reading.Frames.{through};
ghost use Rattle.runcheck.specs.Reading.Places.{place, position_of, staged, waits};
ghost use Rattle.runcheck.specs.Reading.Productions.{production_of};
ghost use Rattle.run_grammar.specs.Entry.{pending, ready};
ghost use Rattle.run_grammar.specs.Machine.{Asks, Whole, begin, cut, first, next};
ghost use Rattle.run_grammar.specs.Production.{Nothing};

use crate::reading::production::Production;
use run_grammar::{Answer, Entry, Kind, Role, Standing, Test};
use smithy_types::OutOfMemory;
use std::alloc::Global;

/// What stands, and the last entry.
#[derive(Clone, Copy)]
pub struct Seen<'s> {
    /// What stands.
    pub standing: &'s Standing,
    /// The last entry, where there is one.
    pub last: Option<&'s Entry>,
}

/// What is left around the question at hand.
#[derive(Clone, Copy)]
pub enum Frame<'a> {
    /// Then this.
    Then(&'a Production),
    /// Further rounds of this, where the round ends with Again.
    Round(&'a Production),
    /// The scope of a deadline, and what follows where it cuts in an attempt.
    Scope(Role, &'a Production),
    /// An attempt.
    Within,
}

/// Where a production begins.
#[derive(Clone, Copy)]
pub enum Begun {
    /// Nothing is asked, and it is over.
    Over,
    /// Nothing is asked, and a further round follows.
    Further,
    /// A question of this kind is asked.
    At(Kind),
}

impl Begun {
    fn is_over(self) -> bool
        ensures { result ≡ is_over self }
    {
        matches!(self, Begun::Over)
    }

    fn is_at(self) -> bool
        ensures { result ≡ is_at self }
    {
        matches!(self, Begun::At(_))
    }

    fn is_further(self) -> bool
        ensures { result ≡ is_further self }
    {
        matches!(self, Begun::Further)
    }

    // A round that asks nothing ends the rounds.
    fn or_over(self) -> Begun
        ensures { result ≡ or_over self }
    {
        match self {
            Begun::Further => Begun::Over,
            _ => self,
        }
    }
}

// Whether the test holds.
#[tactic(auto, unfolding(run_grammar::specs::Tests::failed, run_grammar::specs::Tests::delayed, run_grammar::specs::Tests::went, run_grammar::specs::Tests::went_on, run_grammar::specs::Tests::started, run_grammar::specs::Tests::not_streaming, run_grammar::specs::Tests::body_read, run_grammar::specs::Tests::decided_yes, run_grammar::specs::Tests::decided_no_after, run_grammar::specs::Tests::decided_delay, run_grammar::specs::Tests::endpoint_stands, run_grammar::specs::Tests::load_body, run_grammar::specs::Tests::checkpoint_stands, run_grammar::specs::Tests::failure_stands, run_grammar::specs::Tests::timeout_stands, run_grammar::specs::Tests::token_needed))]
fn holds(test: Test, seen: Seen<'_>) -> bool
    ensures { result ≡ holds test (state_of seen.entry) }
{
    match seen.last {
        Some(entry) => {
            let kind = entry.question.kind();
            test.holds(kind, &entry.answer, seen.standing)
        }
        None => match test {
            Test::EndpointStands => seen.standing.endpoint.is_some(),
            Test::LoadBody => seen.standing.loads_body(),
            Test::CheckpointStands => seen.standing.context.checkpoint.is_some(),
            Test::FailureStands => seen.standing.context.is_failed(),
            Test::TimeoutStands(role) => seen.standing.nanos_for(role).is_some(),
            Test::NeedsToken => seen.standing.needs_token(),
            Test::Failed
            | Test::Delayed
            | Test::Went
            | Test::WentOn
            | Test::HasStarted(_)
            | Test::NotStreaming
            | Test::BodyRead
            | Test::DecidedYes
            | Test::DecidedNoAfter
            | Test::DecidedDelay => false,
        },
    }
}

// Puts a frame around what follows.
fn enter<'a>(left: &mut Vec<Frame<'a>>, frame: Frame<'a>) -> Result<(), OutOfMemory>
    ensures { OnOk result (left.new.items ≡ left.old.items ++ frame.entry ∷ []) }
{
    left.push(frame)?;
    Ok(())
}

// Takes the innermost frame away.
fn leave<'a>(left: &mut Vec<Frame<'a>>)
    ensures { (fs : List Frame) (f : Frame) → left.old.items ≡ fs ++ f ∷ [] → left.new.items ≡ fs }
{
    left.pop();
}

// Takes the innermost frame, where there is one.
fn inner<'a>(left: &mut Vec<Frame<'a>>) -> Option<Frame<'a>>
    ensures none { IfNone result ((left.old.items ≡ []) × (left.new.items ≡ [])) }
    ensures some { IfSome result (λ f. left.old.items ≡ left.new.items ++ f ∷ []) }
{
    left.pop()
}

// What was found within the innermost frame: where nothing is asked, the frame is left.
fn outward<'a>(begun: Begun, left: &mut Vec<Frame<'a>>) -> Begun
    ensures { (fs : List Frame) (f : Frame) (t : Spot) →
        Found begun (fs ++ f ∷ []) left.old.items t → Found result fs left.new.items (through f t) }
{
    match begun {
        Begun::At(_) => {}
        Begun::Over | Begun::Further => leave(left),
    }
    begun
}

// Where the production begins within what is left around it.
fn first<'a>(
    production: &'a Production,
    seen: Seen<'_>,
    left: &mut Vec<Frame<'a>>,
) -> Result<Begun, OutOfMemory>
    ensures { IfOk result (λ b. Found b left.old.items left.new.items
        (first (production_of production.now) (armed left.old.items) (state_of seen.entry))) }
{
    match production {
        Production::Nothing => Ok(Begun::Over),
        Production::Again => Ok(Begun::Further),
        Production::Work(kind) => Ok(Begun::At(*kind)),
        Production::Where(test, one, other) => {
            if holds(*test, seen) {
                first(one, seen, left)
            } else {
                first(other, seen, left)
            }
        }
        Production::Then(one, other) => {
            enter(left, Frame::Then(other))?;
            let begun = first(one, seen, left)?;
            if begun.is_over() {
                leave(left);
                let after = first(other, seen, left)?;
                Ok(after)
            } else {
                Ok(outward(begun, left))
            }
        }
        Production::Rounds(one, other) => {
            enter(left, Frame::Round(other))?;
            let begun = first(one, seen, left)?;
            if begun.is_further() {
                let again = first(other, seen, left)?;
                Ok(outward(again.or_over(), left))
            } else {
                Ok(outward(begun, left))
            }
        }
        Production::InAttempt(inner) => {
            enter(left, Frame::Within)?;
            let begun = first(inner, seen, left)?;
            Ok(outward(begun, left))
        }
        Production::Under(role, inner, after) => {
            enter(left, Frame::Scope(*role, after))?;
            let begun = first(inner, seen, left)?;
            Ok(outward(begun, left))
        }
    }
}

// What a frame makes of what was found within it, where nothing was asked there.
fn around<'a>(
    frame: Frame<'a>,
    begun: Begun,
    seen: Seen<'_>,
    left: &mut Vec<Frame<'a>>,
) -> Result<Begun, OutOfMemory>
    requires { is_at begun ≡ false }
    ensures { IfOk result (λ b. Found b left.old.items left.new.items
        (around frame.entry (spot_of begun) (armed left.old.items) (state_of seen.entry))) }
{
    match frame {
        Frame::Then(after) => {
            if begun.is_over() {
                let found = first(after, seen, left)?;
                Ok(found)
            } else {
                Ok(begun)
            }
        }
        Frame::Round(further) => {
            if begun.is_further() {
                enter(left, Frame::Round(further))?;
                let again = first(further, seen, left)?;
                Ok(outward(again.or_over(), left))
            } else {
                Ok(begun)
            }
        }
        Frame::Scope(_, _) | Frame::Within => Ok(begun),
    }
}

// Where the whole goes on after what was found within what is left around it.
fn resume<'a>(begun: Begun, seen: Seen<'_>, left: &mut Vec<Frame<'a>>) -> Result<Begun, OutOfMemory>
    ensures { IfOk result (λ b. (fs : List Frame) (t : Spot) → Found begun fs left.old.items t →
        Reached b left.new.items (outside fs t [] (state_of seen.entry))) }
{
    let mut found = begun;
    'frames: while !found.is_at() {
        match inner(left) {
            None => return Ok(found),
            Some(frame) => {
                found = around(frame, found, seen, left)?;
            }
        }
    }
    Ok(found)
}

// Where the whole goes on after the deadline cut the question. None where no scope of it is left.
fn cut<'a>(
    role: Role,
    seen: Seen<'_>,
    left: &mut Vec<Frame<'a>>,
) -> Result<Option<Begun>, OutOfMemory>
    ensures { IfOk result (λ o. CutTo o left.new.items (cut (plug left.old.items Nothing) role)
        (state_of seen.entry)) }
{
    let mut inside = false;
    'frames: while let Some(frame) = inner(left) {
        match frame {
            Frame::Within => inside = true,
            Frame::Scope(armed, after) => {
                if armed.is(role) {
                    let begun = begin_after(inside, after, seen, left)?;
                    let reached = resume(begun, seen, left)?;
                    return Ok(Some(reached));
                }
            }
            Frame::Then(_) | Frame::Round(_) => {}
        }
    }
    Ok(None)
}

// What follows a cut, where it lies in an attempt.
fn begin_after<'a>(
    inside: bool,
    after: &'a Production,
    seen: Seen<'_>,
    left: &mut Vec<Frame<'a>>,
) -> Result<Begun, OutOfMemory>
    ensures { IfOk result (λ b. Found b left.old.items left.new.items
        (first (cond inside (production_of after.now) Nothing) (armed left.old.items)
        (state_of seen.entry))) }
{
    if inside {
        let begun = first(after, seen, left)?;
        Ok(begun)
    } else {
        Ok(Begun::Over)
    }
}

// The deadline that is armed at this frame.
fn armed_at(left: &[Frame], at: usize) -> Option<Role>
    ensures none { IfNone result (armed (take (suc at) left.now) ≡ armed (take at left.now)) }
    ensures some { IfSome result (λ d. armed (take (suc at) left.now) ≡ d
        ∷ armed (take at left.now)) }
{
    match left.get(at) {
        None => None,
        Some(frame) => match frame {
            Frame::Scope(role, _) => Some(*role),
            Frame::Then(_) => None,
            Frame::Round(_) => None,
            Frame::Within => None,
        },
    }
}

// The innermost deadline that is armed below this frame, and its frame.
fn wait_below(left: &[Frame], below: usize) -> Option<(Role, usize)>
    ensures { waits result left.now ≡ armed (take below left.now) }
{
    let mut rest = below;
    'frames: while rest > 0 {
        rest -= 1;
        let armed = armed_at(left, rest);
        if let Some(role) = armed {
            return Some((role, rest));
        }
    }
    None
}

/// What is asked next.
#[derive(Clone, Copy)]
pub enum Stage {
    /// Nothing: the production is whole.
    Whole,
    /// Nothing: what came is no word of it.
    Dead,
    /// The question at hand.
    Asking(Kind),
    /// It is pending: the deadline that is asked next, and its frame. Where there is none, Park.
    Waiting(Kind, Option<(Role, usize)>),
    /// It is given up, since the deadline passed.
    Cutting(Kind, Role),
}

// The stage where this much was reached.
fn staged(begun: Begun) -> Stage
    ensures { result ≡ staged begun }
{
    match begun {
        Begun::Over => Stage::Whole,
        Begun::Further => Stage::Dead,
        Begun::At(kind) => Stage::Asking(kind),
    }
}

// The stage after an entry; `seen` is what stands after it.
fn moved<'a>(
    stage: Stage,
    entry: &Entry,
    seen: Seen<'_>,
    left: &mut Vec<Frame<'a>>,
) -> Result<Stage, OutOfMemory>
    ensures { IfOk result (λ g. place g left.new.items ≡
        next (place stage left.old.items) (state_of seen.entry) entry.now) }
{
    match stage {
        Stage::Whole | Stage::Dead => Ok(Stage::Dead),
        Stage::Asking(kind) => {
            if pending(entry) {
                Ok(Stage::Waiting(kind, wait_below(left, left.len())))
            } else {
                let reached = resume(Begun::Over, seen, left)?;
                Ok(staged(reached))
            }
        }
        Stage::Waiting(kind, None) => Ok(Stage::Asking(kind)),
        Stage::Waiting(kind, Some((role, below))) => {
            if pending(entry) {
                Ok(Stage::Waiting(kind, wait_below(left, below)))
            } else if is_ready(entry) {
                Ok(Stage::Cutting(kind, role))
            } else {
                Ok(Stage::Dead)
            }
        }
        Stage::Cutting(_, role) => {
            let caught = cut(role, seen, left)?;
            match caught {
                None => Ok(Stage::Dead),
                Some(reached) => Ok(staged(reached)),
            }
        }
    }
}

#[tactic(auto, unfolding(run_grammar::specs::Entry::ready))]
fn is_ready(entry: &Entry) -> bool
    ensures { result ≡ ready entry.now }
{
    matches!(entry.answer, Answer::Ready)
}

/// A position in a production.
#[derive(Drop)]
pub struct Walk<'a> {
    /// What is left around the question at hand, the outermost first.
    pub left: Vec<Frame<'a>>,
    /// What is waited for.
    pub stage: Stage,
}

impl<'a> Walk<'a> {
    /// The position before the first question.
    pub fn begin(
        alloc: Global,
        production: &'a Production,
        seen: Seen<'_>,
    ) -> Result<Walk<'a>, OutOfMemory>
        ensures { IfOk result (λ w. position_of w ≡
            begin (production_of production.now) (state_of seen.entry)) }
    {
        let mut left = Vec::new(alloc);
        let begun = first(production, seen, &mut left)?;
        let reached = resume(begun, seen, &mut left)?;
        Ok(Walk {
            left,
            stage: staged(reached),
        })
    }

    /// The kind of the question that is next. None where nothing is asked.
    pub fn asked(&self) -> Option<Kind>
        ensures some { IfSome result (λ kind. Asks (position_of self.now) kind) }
        ensures none { IfNone result ((kind : Kind) → Asks (position_of self.now) kind → ⊥) }
    {
        match self.stage {
            Stage::Whole | Stage::Dead => None,
            Stage::Asking(asked) => Some(asked),
            Stage::Waiting(_, None) => Some(Kind::Park),
            Stage::Waiting(_, Some((role, _))) => Some(Kind::Wait(role)),
            Stage::Cutting(cut, _) => Some(cut.given_up_by()),
        }
    }

    /// Whether a question of this kind is next.
    pub fn asks(&self, kind: Kind) -> bool
        ensures { (result ≡ true) ↔ Asks (position_of self.now) kind }
    {
        match self.stage {
            Stage::Whole | Stage::Dead => false,
            Stage::Asking(asked) => kind == asked,
            Stage::Waiting(_, None) => kind == Kind::Park,
            Stage::Waiting(_, Some((role, _))) => kind == Kind::Wait(role),
            Stage::Cutting(cut, _) => kind == cut.given_up_by(),
        }
    }

    /// Takes an entry; `seen` is what stands after it.
    pub fn take(&mut self, entry: &Entry, seen: Seen<'_>) -> Result<(), OutOfMemory>
        ensures { OnOk result (position_of self.new ≡
            next (position_of self.old) (state_of seen.entry) entry.now) }
    {
        self.stage = moved(self.stage, entry, seen, &mut self.left)?;
        Ok(())
    }

    /// Whether the production is whole.
    pub fn is_whole(&self) -> bool
        ensures { (result ≡ true) ↔ (position_of self.now ≡ Whole) }
    {
        matches!(self.stage, Stage::Whole)
    }
}

#[tactic(auto, unfolding(run_grammar::specs::Entry::pending))]
fn pending(entry: &Entry) -> bool
    ensures { result ≡ pending entry.now }
{
    entry.question.kind().can_wait() && matches!(entry.answer, Answer::Pending)
}
