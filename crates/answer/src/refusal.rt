// The refusals by name, and a refusal with its place.
ghost use Rattle.std.specs.Prelude.{◌≡◌};
ghost use Rattle.answer.specs.Answers.{refused};
ghost use Rattle.answer.specs.Numbers.{number_of};

use crate::Answer;

// What a call refuses, with the number that its answer gives. Numbers 1 to 8 are a table's, 14 to 16 are of the convention profile.
#[derive(Clone, Copy, PartialEq, Eq)]
pub enum Refusal {
    Length = 1,
    Version = 2,
    NodeCount = 3,
    Kind = 4,
    Span = 5,
    Level = 6,
    Range = 7,
    Card = 8,
    Value = 9,
    ListTooShort = 10,
    Room = 11,
    Diagram = 12,
    Subjects = 13,
    MixedGroup = 14,
    RuleInOnlyOne = 15,
    RuleAsRoot = 16,
    BaseIsRule = 17,
    HeadersDiffer = 18,
    TooLarge = 19,
}

impl From<Refusal> for u8 {
    ghost from_gives = { λ refusal number. number ≡ number_of refusal };

    fn from(refusal: Refusal) -> u8 {
        refusal as u8
    }
}

impl Refusal {
    // The refusal at a place.
    pub fn at(self, place: usize) -> Refused
        ensures { result ≡ record { refusal = self; place = place } }
    {
        Refused {
            refusal: self,
            place,
        }
    }
}

// A refusal with the place that its answer gives: a node, a field, or 0.
#[derive(Clone, Copy, PartialEq, Eq)]
pub struct Refused {
    pub refusal: Refusal,
    pub place: usize,
}

impl From<Refused> for Answer {
    ghost from_gives = { λ r answer. answer ≡ refused (number_of r.refusal) r.place };

    fn from(refused: Refused) -> Answer {
        Answer::refused(u8::from(refused.refusal), refused.place)
    }
}
