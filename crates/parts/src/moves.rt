// The table of moves: what each call does in each state.
ghost use Rattle.std.specs.Prelude.{◌≡◌};
ghost use Rattle.parts.specs.Moves.{move_of, state_number, event_number, is_idle, is_waiting, is_excluded};

#[derive(Drop)]
#[derive(Clone, Copy)]
pub enum State {
    Offline,
    Idle,
    Waiting,
    Alone,
    Excluded,
}

#[derive(Drop)]
#[derive(Clone, Copy)]
pub enum Event {
    Start,
    Heard,
    Timer,
    Queue,
    Take,
}

// The entry of a call that runs. Any other entry is the number that the call gives back, and nothing else happens.
pub const RUN: u32 = 100;

// A row for each state, a column for each event, in the order of their declarations.
pub const MOVES: [[u32; 5]; 5] = [
    [RUN, 22, 22, 22, RUN],
    [23, RUN, 0, RUN, RUN],
    [23, RUN, RUN, RUN, RUN],
    [23, 22, 22, 22, RUN],
    [23, 22, 22, 22, RUN],
];

pub fn state_number(s: State) -> usize
    ensures { result ≡ state_number s }
{
    match s {
        State::Offline => 0,
        State::Idle => 1,
        State::Waiting => 2,
        State::Alone => 3,
        State::Excluded => 4,
    }
}

pub fn event_number(e: Event) -> usize
    ensures { result ≡ event_number e }
{
    match e {
        Event::Start => 0,
        Event::Heard => 1,
        Event::Timer => 2,
        Event::Queue => 3,
        Event::Take => 4,
    }
}

pub fn move_of(s: State, e: Event) -> u32
    ensures { result ≡ move_of s e }
{
    let i = state_number(s);
    let j = event_number(e);
    MOVES[i][j]
}

pub fn is_idle(s: State) -> bool
    ensures { result ≡ is_idle s }
{
    state_number(s) == 1
}

pub fn is_waiting(s: State) -> bool
    ensures { result ≡ is_waiting s }
{
    state_number(s) == 2
}

pub fn is_excluded(s: State) -> bool
    ensures { result ≡ is_excluded s }
{
    state_number(s) == 4
}
