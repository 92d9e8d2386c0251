// What the scanner answers, why a case is refused, and how a list of refusals is read: from the top, by the
// first rule that applies. The laws about such lists stand in proofs/RuleLaws.antt.
// When each of them applies is left to the crates that know a case or a ledger.
#![tactic(auto)]

ghost use Rattle.std.specs.Prelude.{◌≡◌};
ghost use Rattle.refusals.specs.Rules.{accepted as accepted_of, answer, answer_in_row, not_given, is_accepted, refuses_up_to};
ghost use Rattle.refusals.specs.Reasons.{answer_for, as_answer};

use units::{Row, Which};

// The number of a refusal and its place, or 0 and 0; and of a nullifier that is refused as spent the row of
// the table in which it stands. Every other answer has row 0.
// These stay numbers: C is handed them, and a judgement's record holds any number, place and row.
#[derive(Clone, Copy)]
pub struct Answer {
    pub number: u8,
    pub place: u8,
    pub row: Row,
}

// An answer that names no row.
fn rowless(number: u8, place: u8) -> Answer
    ensures { result ≡ answer number place }
{
    Answer {
        number,
        place,
        row: Row::of(0),
    }
}

impl Answer {
    pub fn accepted() -> Answer
        ensures { result ≡ accepted_of }
    {
        rowless(0, 0)
    }

    pub fn refused(number: u8, place: u8) -> Answer
        ensures { result ≡ answer number place }
    {
        rowless(number, place)
    }

    pub fn refused_in_row(number: u8, place: u8, row: Row) -> Answer
        ensures { result ≡ answer_in_row number place row.0 }
    {
        Answer { number, place, row }
    }

    // Stands where no answer was given; no refusal has its number, and it is no pass.
    pub fn not_given() -> Answer
        ensures { result ≡ not_given }
    {
        rowless(255, 0)
    }

    pub fn is_accepted(self) -> bool
        ensures { result ≡ is_accepted self }
    {
        self.number == 0
    }

    // Whether it refuses with a number up to this one.
    pub fn refuses_up_to(self, number: u8) -> bool
        ensures { result ≡ refuses_up_to number self }
    {
        if self.number == 0 {
            return false;
        }
        self.number <= number
    }
}

// Why a case is refused, in the order of document 01's table, or the closing of a block (Damaged, NoRoom), or the
// opening of a ledger (Length, of its roll). What is asked is answered with Ok, or with the first of these that
// applies; no two of them are told alike (proofs/Told.antt), so that what is told says which it is.
#[derive(Clone, Copy)]
pub enum Refusal {
    Length,
    Damaged,
    NoRoom,
    BothPublic,
    AboveMoney(Which),
    NoAnchor,
    EqualNullifiers,
    Spent(Which, Row),
    OldOutOfRange(Which),
    PhiOutOfRange,
    PathAstray(Which),
    Unbalanced,
    WrongNullifier(Which),
    WrongAddress(Which),
    WrongTag(Which),
    WrongRho(Which),
    WrongCommitment(Which),
    PoolOutside,
}

// Its number and place, and of a spent nullifier the row.
impl From<Refusal> for Answer {
    ghost from_gives = { λ refusal a. a ≡ answer_for refusal };

    fn from(refusal: Refusal) -> Answer {
        match refusal {
            Refusal::Length => Answer::refused(1, 0),
            Refusal::Damaged => Answer::refused(2, 0),
            Refusal::NoRoom => Answer::refused(3, 0),
            Refusal::BothPublic => Answer::refused(4, 0),
            Refusal::AboveMoney(i) => Answer::refused(5, i.number()),
            Refusal::NoAnchor => Answer::refused(6, 0),
            Refusal::EqualNullifiers => Answer::refused(7, 0),
            Refusal::Spent(i, row) => Answer::refused_in_row(8, i.number(), row),
            Refusal::OldOutOfRange(i) => Answer::refused(9, i.number()),
            Refusal::PhiOutOfRange => Answer::refused(9, 3),
            Refusal::PathAstray(i) => Answer::refused(10, i.number()),
            Refusal::Unbalanced => Answer::refused(11, 0),
            Refusal::WrongNullifier(i) => Answer::refused(12, i.number()),
            Refusal::WrongAddress(i) => Answer::refused(13, i.number()),
            Refusal::WrongTag(i) => Answer::refused(14, i.number()),
            Refusal::WrongRho(i) => Answer::refused(15, i.number()),
            Refusal::WrongCommitment(i) => Answer::refused(16, i.number()),
            Refusal::PoolOutside => Answer::refused(17, 0),
        }
    }
}

// Acceptance, or the answer of the refusal.
impl From<Result<(), Refusal>> for Answer {
    ghost from_gives = { λ asked a. a ≡ as_answer asked };

    fn from(asked: Result<(), Refusal>) -> Answer {
        match asked {
            Ok(()) => Answer::accepted(),
            Err(refusal) => Answer::from(refusal),
        }
    }
}
