//! Hyperframe synchronization by the commas that begin basic frames.

ghost use Rattle.std.specs.Prelude.{◌≡◌, Bool, List, [], ◌∷◌, ◌++◌};

/// How far a receiver is with hyperframe synchronization. The states are this project's own.
#[derive(Clone, Copy, Debug, PartialEq, Eq)]
pub enum SyncState {
    /// No comma was found since the last lock ended before it held, or since the beginning.
    Hunting,
    /// A comma was found, less than a hyperframe ago.
    Found,
    /// A comma began each hyperframe since one was found.
    Held,
    /// The comma of a hyperframe is missing after the lock held.
    Lost,
}

/// The X of the last basic frame of a hyperframe.
const LAST_X: u8 = 255;

/// Looks for the commas with which hyperframes begin, a basic frame at a time.
#[derive(Clone, Copy, Debug, PartialEq, Eq)]
pub struct Acquire {
    state: SyncState,
    /// X of the last frame in a lock, and 0 outside of one.
    x: u8,
}

impl Acquire {
    ghost use Rattle.hyperframe.specs.Locks.{sync_state, sync_x};
    ghost use Rattle.hyperframe.specs.Acquires.{Acquires, kept, next};

    /// A receiver that saw no frame.
    pub fn new() -> Acquire
        ensures { Acquires result [] }
    {
        Acquire {
            state: SyncState::Hunting,
            x: 0,
        }
    }

    /// Takes the next basic frame, of which `comma` says whether its first character is the comma.
    pub fn step(&mut self, comma: bool) -> SyncState
        ensures answer { (frames : List Bool) → Acquires self.old frames → result ≡ sync_state (frames ++ comma ∷ []) }
        ensures stands { (frames : List Bool) → Acquires self.old frames → Acquires self.new (frames ++ comma ∷ []) }
    {
        *self = self.after(comma);
        self.state
    }

    /// The number X of the last frame in its hyperframe, where the frame stands in a lock.
    pub fn x(&self) -> Option<u8>
        ensures { (frames : List Bool) → Acquires self.now frames → result ≡ sync_x frames }
    {
        match self.state {
            SyncState::Found | SyncState::Held => Some(self.x),
            SyncState::Hunting | SyncState::Lost => None,
        }
    }

    /// The receiver after one more frame.
    #[tactic(auto, unfolding(crate::specs::Acquires::next))]
    fn after(self, comma: bool) -> Acquire
        ensures { kept result ≡ next (kept self) comma }
    {
        let (state, x) = match self.state {
            SyncState::Hunting | SyncState::Lost if comma => (SyncState::Found, 0),
            SyncState::Hunting | SyncState::Lost => (SyncState::Hunting, 0),
            SyncState::Found | SyncState::Held if self.x < LAST_X => (self.state, self.x + 1),
            SyncState::Found | SyncState::Held if comma => (SyncState::Held, 0),
            SyncState::Found => (SyncState::Hunting, 0),
            SyncState::Held => (SyncState::Lost, 0),
        };
        Acquire { state, x }
    }
}
