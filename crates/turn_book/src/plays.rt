//! What each step tells the pass that makes it.
ghost use Rattle.turn_book.specs.Steps.{drew, looked, recorded, passed_on, numbered, counted_up, counted_down, asked, kept_view, new_view, joined, spent};

use crate::book::Book;
use crate::view::View;
use atomic_table::{Join, Play, Split};

/// Draws a ticket.
pub(crate) struct Draw;

impl<B, I, F> Play<Option<B>, View<I, F>> for Draw {
    ghost then = { λ _ m found n. drew m found n };
}

/// Looks whose turn it is, and takes the book where it is this pass's.
pub(crate) struct Look;

impl<B: Book> Play<Option<B>, View<B::Item, B::Fixed>> for Look {
    ghost then = { λ _ m found n. looked B.items B.fixed m found n };
}

/// Records the items of the book.
pub(crate) struct Record;

impl<B: Book> Play<Option<B>, View<B::Item, B::Fixed>> for Record {
    ghost then = { λ _ m _ n. recorded B.items m n };
}

/// Gives the book back, and passes the turn on.
pub(crate) struct PassOn;

impl<B, I, F> Play<Option<B>, View<I, F>> for PassOn {
    ghost then = { λ _ m _ n. passed_on m n };
}

/// Takes a number for a new pass.
pub(crate) struct Number;

impl<B, I, F> Play<Option<B>, View<I, F>> for Number {
    ghost then = { λ _ m found n. numbered m found n };
}

/// Counts the new pass.
pub(crate) struct CountUp;

impl<B, I, F> Play<Option<B>, View<I, F>> for CountUp {
    ghost then = { λ _ m _ n. counted_up m n };
}

/// Counts the pass off that was taken in.
pub(crate) struct CountDown;

impl<B, I, F> Play<Option<B>, View<I, F>> for CountDown {
    ghost then = { λ _ m _ n. counted_down m n };
}

/// Asks how many passes are out.
pub(crate) struct Ask;

impl<B, I, F> Play<Option<B>, View<I, F>> for Ask {
    ghost then = { λ _ m found n. asked m found n };
}

/// Cuts a new pass off.
pub(crate) struct Cut;

impl<I, F> Split<View<I, F>> for Cut {
    ghost left = { kept_view };

    ghost right = { new_view };
}

/// Takes another pass in.
pub(crate) struct TakeIn;

impl<I, F> Join<View<I, F>> for TakeIn {
    ghost both = { joined };

    ghost spent = { spent };
}
