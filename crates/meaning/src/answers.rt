// The words in which a run is spoken to and answers: lines, standings, calls, answers.
use refusals::Refusal;

// A line on a sheet: a value, and the level that it is written for.
#[derive(Clone, Copy, PartialEq, Eq, Debug)]
pub struct Line {
    pub level: u32,
    pub value: i32,
}

// How a run stands. All but the last are settled, and stay.
#[derive(Clone, Copy, PartialEq, Eq, Debug)]
pub enum Standing {
    // no row is left
    Ended,
    // a `stop` was taken
    Stopped { number: u32 },
    // a line to be kept finds no place on the sheet
    SheetFull,
    // as many steps were taken as the run was opened for
    BudgetSpent,
    MoreToDo,
}

// What can be asked of a run that is open.
#[derive(Clone, Copy, PartialEq, Eq, Debug)]
pub enum Call {
    // while it is being filled
    Enter { variable: u32, value: i32 },
    Start,
    // while it is under way
    Go { steps: u32 },
    Finish,
    // when it is closed
    ReadLine { number: u32 },
    Totals,
}

// What a call answers. Not a Result: a call that is left out is neither accepted nor refused, and two runs are compared answer by answer.
#[derive(Clone, Copy, PartialEq, Eq, Debug)]
pub enum Answer {
    // the run's state does not have the call
    LeftOut,
    // an entry was made, or the run was closed
    Done,
    Started {
        standing: Standing,
    },
    // the steps that this call took, and the standing
    Went {
        steps: u32,
        standing: Standing,
    },
    Kept {
        line: Line,
    },
    Sums {
        lines: u32,
        steps: u32,
        standing: Standing,
    },
    Refused {
        refusal: Refusal,
    },
}
