//! What the handles of a deque do.
ghost use Rattle.std.specs.Prelude.{◌≡◌, ◌≤◌, ℕ, [], ◌∷◌, length, IfOk, IfErr, OnOk, MatchOption};
ghost use Rattle.ap_deal.specs.Deals.{blank, dealing, getting, times, WasEmpty};
ghost use Rattle.ap_deal.specs.Hands.{hand_log, dealer_log, IsOf, IsStolen, SameHand, SameDeque};

use crate::hands::{Dealer, Hand, Stolen};
use crate::rule::{Deals, Settles, Takes, Within};
use ap_list::NoMemory;
use crossbeam_deque::Steal;

impl Hand {
    /// Deals a number. It comes back only where as many numbers were dealt as the deque has first slots, or more.
    pub fn deal(&mut self, node: u32) -> Result<(), u32>
        ensures same { SameHand self.old self.new }
        ensures dealt { OnOk result (hand_log self.new ≡ dealing (hand_log self.old) (node ∷ [])) }
        ensures back { IfErr result (λ n. (n ≡ node) × (hand_log self.new ≡ hand_log self.old) × (self.old.capacity ≤ length (hand_log self.old).dealt)) }
    {
        self.worker.push_as::<Deals>(node)
    }

    /// Takes the number that was dealt first. There is none only where the deque was empty at one moment of the call.
    pub fn take_own(&mut self) -> Option<u32>
        ensures same { SameHand self.old self.new }
        ensures got { MatchOption result ((hand_log self.new ≡ hand_log self.old) × WasEmpty (hand_log self.old)) (λ n. hand_log self.new ≡ getting (hand_log self.old) (n ∷ [])) }
    {
        self.worker.pop_as::<Takes>()
    }

    /// Takes a thief's side of this deque back: what it got counts as got by the owner. No number was got oftener than it
    /// was dealt, so one that was dealt once wasn't got by both.
    pub fn settle(&mut self, dealer: Dealer)
        requires { IsOf self.old dealer }
        ensures same { SameHand self.old self.new }
        ensures got { hand_log self.new ≡ getting (hand_log self.old) (dealer_log dealer).got }
        ensures within { (x : ℕ) → times x (hand_log self.new).got ≤ times x (hand_log self.new).dealt }
    {
        let Dealer { stealer, pass } = dealer;
        self.worker.absorb::<Settles>(pass);
        self.worker.len_as::<Within>();
        drop(stealer);
    }
}

impl Dealer {
    /// A side for another thief, which got nothing. The only error is want of memory.
    pub fn split(&mut self) -> Result<Dealer, NoMemory>
        ensures same { SameDeque self.old self.new × (dealer_log self.new ≡ dealer_log self.old) }
        ensures new { IfOk result (λ d. SameDeque self.old d × (dealer_log d ≡ blank)) }
    {
        let stealer = self.stealer.clone()?;
        let pass = stealer.pass();
        Ok(Dealer { stealer, pass })
    }

    /// Takes the number that was dealt first.
    pub fn steal(&mut self) -> Stolen
        ensures same { SameDeque self.old self.new }
        ensures stolen { IsStolen result self.old self.new }
    {
        match self.stealer.steal_as::<Takes>(&mut self.pass) {
            Steal::Success(node) => Stolen::Number(node),
            Steal::Empty => Stolen::Empty,
            Steal::Retry => Stolen::Again,
        }
    }
}
