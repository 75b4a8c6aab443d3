//! The turn of a pass, with the book.
ghost use Rattle.std.specs.Prelude.{◌≡◌};
ghost use Rattle.std.specs.Borrow.{sem};

/// The book, while a pass has the turn.
#[derive(Drop)]
pub struct Turn<B> {
    pub(crate) book: B,
}

impl<B> Turn<B> {
    ghost use Rattle.turn_book.specs.Lending.{LendsBook};

    /// The book, to read and to write.
    pub fn book(&mut self) -> &mut B
        ensures* lends { sem 𝓛 (LendsBook B.row self.entry result) }
        ensures value { result.now ≡ self.old.book }
    {
        &mut self.book
    }
}
