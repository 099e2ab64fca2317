// Where a Search stands: rounds may follow; the last round put nothing; a round was refused; or its store was not fit for it at set-up.
#[derive(Clone, Copy, PartialEq, Eq, Debug)]
pub enum Phase {
    Open,
    Closed,
    Stopped,
    Unfit,
}

// What is told of a state: how many steps its shortest route has, that it has no route, or, after so many finished rounds, neither yet.
#[derive(Clone, Copy, PartialEq, Eq, Debug)]
pub enum Answer {
    Distance(u64),
    NoRoute,
    Untold(u64),
}
