//! How often ends were looked at.

ghost use Rattle.std.specs.Prelude.{◌≡◌, ◌+◌, ◌<◌, ℕ};

use std::marker::Model;
use std::sync::ledger::{Blank, Book, Ledger, Share};

/// A count of the looks at ends: each call of an end that stands is one, in a count of the type that the end has.
///
/// What is written for every such type can make no count: it has those alone that it is handed.
pub trait Looks: Drop {
    /// How much was counted.
    ghost made: { Self → ℕ };

    /// How much a look counts.
    ghost each: { ℕ };

    /// One look more.
    fn add(&mut self)
        ensures { made self.new ≡ made self.old + each };
}

/// A count in a ledger, where a look counts 1. It takes no bytes.
#[derive(Drop)]
pub struct Counted<L: Ledger> {
    book: Book<L>,
    share: Share<L>,
}

impl<L: Ledger> Model for Counted<L> {
    ghost use Rattle.std.specs.Prelude.{ℕ, ◌<◌};

    ghost Value = { ℕ };

    ghost view = { λ s. s.book.total };

    ghost invariant = { λ s. 0 < s.share.parts };
}

impl<L: Ledger> Counted<L> {
    /// No look yet.
    pub fn new(blank: Blank) -> Counted<L>
        requires name { blank.name ≡ L.name }
        requires parts { blank.parts ≡ L.parts }
        requires some { 0 < blank.parts }
        ensures { result ≡ 0 }
    {
        let (book, share) = blank.open();
        Counted { book, share }
    }
}

impl<L: Ledger> Looks for Counted<L> {
    ghost made = { λ n. n };

    ghost each = { 1 };

    fn add(&mut self) {
        self.book.add(&mut self.share, 1);
    }
}

/// Where nobody counts: a look counts nothing.
#[derive(Clone, Copy)]
pub struct Uncounted;

impl Looks for Uncounted {
    ghost use Rattle.std.specs.Prelude.{ℕ};

    ghost made = { λ _. 0 };

    ghost each = { 0 };

    fn add(&mut self) {}
}
