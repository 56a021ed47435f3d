// Decisions, kinds of nodes, and how a group combines its children's decisions.
#![tactic(auto)]

ghost use Rattle.std.specs.Prelude.{◌≡◌, ◌<◌};
ghost use Rattle.combining.specs.Ways.{as_child, NeverIndeterminate};
ghost use Rattle.combining.specs.Running.{Started, Takes, Taken};
ghost use Rattle.combining.specs.Table.{only_one_row, first_row, row_of, Combines};

// The four decisions, by number. They are constants, as the requirements word them, and no enum: a decision is a byte in a diagram and in an answer.
#[derive(Clone, Copy)]
pub struct Decision {
    pub value: u8,
}

impl Decision {
    // none
    pub const NOT_APPLICABLE: u8 = 0;

    // may
    pub const PERMIT: u8 = 1;

    // not
    pub const DENY: u8 = 2;

    // unclear
    pub const INDETERMINATE: u8 = 3;
}

// The kinds of nodes, by number: four of groups, two of rules. They are constants, so that the kind byte of a table is matched by ranges as the
// requirements ask.
#[derive(Clone, Copy)]
pub struct Kind {
    pub value: u8,
}

impl Kind {
    // first
    pub const FIRST_APPLICABLE: u8 = 0;

    // only one
    pub const ONLY_ONE_APPLICABLE: u8 = 1;

    // may beats
    pub const PERMIT_OVERRIDES: u8 = 2;

    // may not beats
    pub const DENY_OVERRIDES: u8 = 3;

    // may rule
    pub const PERMIT_RULE: u8 = 4;

    // may not rule
    pub const DENY_RULE: u8 = 5;
}

// The four decisions, short, for the table.
const N: u8 = Decision::NOT_APPLICABLE;

const P: u8 = Decision::PERMIT;

const D: u8 = Decision::DENY;

const I: u8 = Decision::INDETERMINATE;

// A table of the ways of combining, one row after another, each by child decision. Which row is which, `row_of` says.
#[derive(Clone, Copy)]
pub struct Ways {
    pub rows: [[u8; 4]; 27],
    pub ghost combines: { Combines rows },
}

// The four ways. Under only one applicable the first child that counts gives the decision, any further one is too many, and one that does not
// count changes nothing. Deny overrides has no row for a running indeterminate, which it never has.
// The rows for a child that does not count, 4 to 7 and 19 to 22, are never read: both callers of `take` take in children that count alone. A child
// that does not apply, and so does not count, they step over, which is proved to change nothing (`over_skip` of ruling/proofs/Decisions).
const COMBINING: [[u8; 4]; 27] = [
    // first applicable
    [N, P, D, I], // 0: running N
    [P, P, P, P], // 1: running P
    [D, D, D, D], // 2: running D
    [I, I, I, I], // 3: running I
    // only one applicable: no child has counted before, and this one does not
    [N, N, N, N], // 4: running N
    [N, N, N, N], // 5: running P
    [N, N, N, N], // 6: running D
    [N, N, N, N], // 7: running I
    // permit overrides
    [N, P, D, I], // 8: running N
    [P, P, P, P], // 9: running P
    [D, P, D, D], // 10: running D
    [I, P, D, I], // 11: running I
    // deny overrides
    [N, P, D, D], // 12: running N
    [P, P, D, D], // 13: running P
    [D, D, D, D], // 14: running D
    // only one applicable: no child has counted before, and this one does
    [N, P, D, I], // 15: running N
    [N, P, D, I], // 16: running P
    [N, P, D, I], // 17: running D
    [N, P, D, I], // 18: running I
    // only one applicable: a child has counted before, and this one does not
    [N, N, N, N], // 19: running N
    [P, P, P, P], // 20: running P
    [D, D, D, D], // 21: running D
    [I, I, I, I], // 22: running I
    // only one applicable: a child has counted before, and this one does
    [I, I, I, I], // 23: running N
    [I, I, I, I], // 24: running P
    [I, I, I, I], // 25: running D
    [I, I, I, I], // 26: running I
];

// The first of only one applicable's rows, where a child has counted before or not, and this one counts or not.
fn only_one_row(counted: bool, counts: bool) -> usize
    ensures { (result ≡ only_one_row counted counts) × (result < 24) }
{
    match (counted, counts) {
        (false, false) => 4,
        (false, true) => 15,
        (true, false) => 19,
        (true, true) => 23,
    }
}

// The first of a kind's rows, where a child has counted before or not, and this one counts or not.
fn first_row(kind: u8, counted: bool, counts: bool) -> usize
    requires { kind < 4 }
    ensures { (result ≡ first_row kind counted counts) × (result < 24) }
{
    match kind {
        Kind::FIRST_APPLICABLE => 0,
        Kind::ONLY_ONE_APPLICABLE => only_one_row(counted, counts),
        Kind::PERMIT_OVERRIDES => 8,
        _ => 12,
    }
}

// Which row a group goes by: by its kind, its running decision, whether a child has counted before, and whether this one counts.
fn row_of(kind: u8, running: u8, counted: bool, counts: bool) -> usize
    requires kind_bound { (kind < 4) × (running < 4) }
    requires never_indeterminate { NeverIndeterminate kind running }
    ensures { (result ≡ row_of kind running counted counts) × (result < 27) }
{
    first_row(kind, counted, counts) + usize::from(running)
}

// A group's decision so far (document 01's running decision) and whether a child has counted, with the group's kind. The two are no Option, since
// `Takes` allows a child that gives a decision and does not count.
#[derive(Clone, Copy)]
pub struct Running {
    pub kind: u8,
    pub decision: u8,
    pub counted: bool,
}

impl Running {
    // The table of the four ways, laid out once for all groups of a ruling.
    pub fn ways() -> Ways {
        Ways { rows: COMBINING }
    }

    // Before the first child.
    pub fn start(kind: u8) -> Self
        requires { kind < 4 }
        ensures { Started kind result }
    {
        Self {
            kind,
            decision: Decision::NOT_APPLICABLE,
            counted: false,
        }
    }

    // With one child more, which gives this decision, and counts or not: by the table of the ways.
    pub fn take(self, ways: &Ways, decision: u8, counts: bool) -> Self
        requires { Takes self (as_child decision counts) }
        ensures { Taken self (as_child decision counts) result }
    {
        let row = row_of(self.kind, self.decision, self.counted, counts);
        Self {
            kind: self.kind,
            decision: ways.rows[row][usize::from(decision)],
            counted: self.counted | counts,
        }
    }
}
