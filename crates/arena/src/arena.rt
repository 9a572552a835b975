//! The questions that a game answers.
ghost use Rattle.std.specs.Prelude.{◌≡◌, List, length};
ghost use Rattle.std.specs.List.{slice_get};
ghost use Rattle.std.specs.Iterator.{YieldsFirst, item_count};
ghost use Rattle.arena.specs.declared.moves.Outcome.{Outcome};
ghost use Rattle.arena.specs.Meaning.{Meaning, Lawful};

use crate::moves::{Move, Outcome};

/// A game seen through questions, none of which changes it. Each question answers by the arena's
/// meaning, and the meaning is lawful.
pub trait Arena {
    type Position: Drop;

    /// How far a listing of a move's outcomes has come.
    type Listing: Drop;

    // all answers, as one fixed value
    ghost meaning: { Self → Meaning Self.Position };

    // the outcomes that a listing has yet to give
    ghost rest: { Self → Self.Listing → List (Outcome Self.Position) };

    fn start(&self) -> Self::Position
        ensures { result ≡ (meaning self.now).start };

    /// Whether two positions mean the same.
    fn same(&self, p: &Self::Position, q: &Self::Position) -> bool
        ensures { result ≡ (meaning self.now).same p.now q.now };

    /// A number to find a position by: the same position has the same number.
    fn digest(&self, p: &Self::Position) -> u32
        ensures { result ≡ (meaning self.now).digest p.now };

    fn owns(&self, p: &Self::Position) -> bool
        ensures { result ≡ (meaning self.now).owns p.now };

    fn priority(&self, p: &Self::Position) -> u8
        ensures { result ≡ (meaning self.now).priority p.now };

    fn label(&self, p: &Self::Position) -> u8
        ensures { result ≡ (meaning self.now).label p.now };

    /// Whether this is a legal move of ours.
    fn legal(&self, p: &Self::Position, m: Move) -> bool
        ensures { result ≡ (meaning self.now).legal p.now m };

    /// Begins a listing of all outcomes, in order.
    fn list(&self, p: &Self::Position, m: Move) -> Self::Listing
        ensures { rest self.now result ≡ (meaning self.now).outcomes p.now m };

    /// The next outcome of a listing.
    fn next(&self, listing: &mut Self::Listing) -> Option<Outcome<Self::Position>>
        ensures { YieldsFirst (rest self.now) listing.old result listing.new };

    /// How many outcomes our move has. An arena that knows without listing them gives its own answer.
    fn count(&self, p: &Self::Position, m: Move) -> u16
        ensures { result ≡ length ((meaning self.now).outcomes p.now m) }
    {
        let mut listing = self.list(p, m);
        let mut listed = 0;
        while let Some(_) = self.next(&mut listing) {
            listed += 1;
        }
        listed
    }

    /// The outcome at a number, from 0. An arena that knows without listing those before it gives
    /// its own answer.
    fn outcome(&self, p: &Self::Position, m: Move, i: u16) -> Option<Outcome<Self::Position>>
        ensures { result ≡ slice_get ((meaning self.now).outcomes p.now m) i }
    {
        let mut listing = self.list(p, m);
        for _ in 0..i {
            self.next(&mut listing)?;
        }
        self.next(&mut listing)
    }

    ghost lawful: { (a : Self) → Lawful (meaning a) };

    /// All outcomes of our move, in order.
    final fn outcomes(&self, p: &Self::Position, m: Move) -> Outcomes<'_, Self>
    where
        Self: Sized,
        ensures { rest result.arena.now result.listing ≡ (meaning self.now).outcomes p.now m }
    {
        Outcomes {
            arena: self,
            listing: self.list(p, m),
        }
    }
}

/// The outcomes of a move that a listing has yet to give.
#[derive(Drop)]
pub struct Outcomes<'a, A: Arena> {
    arena: &'a A,
    listing: A::Listing,
}

impl<'a, A: Arena> Iterator for Outcomes<'a, A> {
    type Item = Outcome<A::Position>;

    ghost next_gives = { YieldsFirst (λ s. A.rest s.arena.now s.listing) };

    ghost remaining = { item_count (λ s. A.rest s.arena.now s.listing) };

    fn next(&mut self) -> Option<Outcome<A::Position>> {
        self.arena.next(&mut self.listing)
    }
}
