//! What a basic frame changes, and the lines that say so.

ghost use Rattle.std.specs.Prelude.{codes, decimal, ◌≡◌, ◌+◌, ◌≤◌, ◌++◌, [], length, IsTrue, Ok};
ghost use Rattle.link_text.specs.Gathered.{text_capacity};
ghost use Rattle.link_run_inspect.specs.Changes.{changed_state, changed_loss, sync_word, sync_text, loss_text, answer_words, hyperframe_text, changes_text};
ghost use Rattle.link_run_management.specs.Events.{numbered};

use control_words::{Announce, BadControl};
use hyperframe::SyncState;
use link_run_management::{put_count, put_line};
use link_text::TextBuffer;

/// What a hyperframe says in its control words.
#[derive(Clone, Copy)]
pub(crate) struct Hyperframe {
    pub(crate) z: u8,
    pub(crate) bfn: u16,
    /// The symbols in it that the line code does not spell.
    pub(crate) violations: u64,
    pub(crate) answer: Result<Announce, BadControl>,
}

/// What a basic frame changes.
#[derive(Clone, Copy)]
pub(crate) struct Changes {
    /// The number of the frame.
    pub(crate) number: u64,
    /// The state of synchronization, where it is another one than before.
    pub(crate) sync: Option<SyncState>,
    /// Whether the signal is lost, where that changed.
    pub(crate) lost: Option<bool>,
    /// The hyperframe that the frame ends, in a lock that is held.
    pub(crate) hyperframe: Option<Hyperframe>,
}

/// The state, where it is another one than before.
pub(crate) fn changed_state(before: SyncState, now: SyncState) -> Option<SyncState>
    ensures { result ≡ changed_state before now }
{
    match (before, now) {
        (SyncState::Hunting, SyncState::Hunting)
        | (SyncState::Found, SyncState::Found)
        | (SyncState::Held, SyncState::Held)
        | (SyncState::Lost, SyncState::Lost) => None,
        _ => Some(now),
    }
}

/// Whether the signal is lost, where that changed.
pub(crate) fn changed_loss(before: bool, now: bool) -> Option<bool>
    ensures { result ≡ changed_loss before now }
{
    if before == now { None } else { Some(now) }
}

fn sync_word(state: SyncState) -> &'static str
    ensures word { result.now ≡ sync_word state }
    ensures few { length result.now ≤ 40 }
{
    match state {
        SyncState::Hunting => "sync hunting",
        SyncState::Found => "sync found",
        SyncState::Held => "sync held",
        SyncState::Lost => "sync lost",
    }
}

/// Appends the line of the state of synchronization, if it is another one.
fn put_sync(number: u64, sync: Option<SyncState>, text: &mut TextBuffer)
    requires room { length text.old + 64 ≤ text_capacity }
    ensures text { text.new ≡ text.old ++ sync_text number sync }
    ensures short { length text.new ≤ length text.old + 64 }
{
    if let Some(state) = sync {
        put_line(number, sync_word(state), text);
    }
}

/// Appends the line of the signal, if that changed.
fn put_loss(number: u64, lost: Option<bool>, text: &mut TextBuffer)
    requires room { length text.old + 64 ≤ text_capacity }
    ensures text { text.new ≡ text.old ++ loss_text number lost }
    ensures short { length text.new ≤ length text.old + 64 }
{
    match lost {
        Some(true) => put_line(number, "los on", text),
        Some(false) => put_line(number, "los off", text),
        None => {}
    }
}

/// Appends two numbers with a space between them.
fn put_pair(first: u8, second: u8, text: &mut TextBuffer)
    requires room { length text.old + 41 ≤ text_capacity }
    ensures text { text.new ≡ text.old ++ (decimal first ++ codes " " ++ decimal second) }
    ensures short { length text.new ≤ length text.old + 41 }
{
    text.put_number(u64::from(first));
    text.put(b" ");
    text.put_number(u64::from(second));
}

/// Appends the line of an announcement.
fn put_announce(number: u64, a: Announce, text: &mut TextBuffer)
    requires room { length text.old + 128 ≤ text_capacity }
    ensures { text.new ≡ text.old ++ numbered number (answer_words (Ok a)) }
{
    text.put_number(number);
    text.put(b" announce ");
    put_pair(a.version, a.hdlc, text);
    text.put(b" ");
    put_pair(a.pointer, a.l1, text);
    text.put(b"\n");
}

/// Appends the line of what control words announce, or why they announce nothing.
fn put_answer(number: u64, answer: Result<Announce, BadControl>, text: &mut TextBuffer)
    requires room { length text.old + 128 ≤ text_capacity }
    ensures { text.new ≡ text.old ++ numbered number (answer_words answer) }
{
    match answer {
        Ok(a) => put_announce(number, a, text),
        Err(BadControl::Sync) => put_line(number, "bad sync", text),
        Err(BadControl::Version { .. }) => put_line(number, "bad version", text),
        Err(BadControl::Hdlc { .. }) => put_line(number, "bad hdlc", text),
        Err(BadControl::Pointer { .. }) => put_line(number, "bad pointer", text),
    }
}

/// Appends the line of Z and BFN.
fn put_numbers(number: u64, z: u8, bfn: u16, text: &mut TextBuffer)
    requires room { length text.old + 84 ≤ text_capacity }
    ensures text { text.new ≡ text.old ++ numbered number (codes "number " ++ decimal z ++ codes " " ++ decimal bfn) }
    ensures short { length text.new ≤ length text.old + 84 }
{
    text.put_number(number);
    text.put(b" number ");
    text.put_number(u64::from(z));
    text.put(b" ");
    text.put_number(u64::from(bfn));
    text.put(b"\n");
}

/// Appends the lines of a hyperframe, if the frame ended one.
fn put_hyperframe(number: u64, hyperframe: Option<Hyperframe>, text: &mut TextBuffer)
    requires room { length text.old + 320 ≤ text_capacity }
    ensures { text.new ≡ text.old ++ hyperframe_text number hyperframe }
{
    if let Some(hyperframe) = hyperframe {
        put_numbers(number, hyperframe.z, hyperframe.bfn, text);
        put_count(number, "violations ", hyperframe.violations, text);
        put_answer(number, hyperframe.answer, text);
    }
}

impl Changes {
    /// Whether there is no line to say.
    #[tactic(auto, unfolding(crate::specs::Changes::changes_text))]
    pub(crate) fn is_none(&self) -> bool
        ensures { IsTrue result → changes_text self.now ≡ [] }
    {
        matches!((self.sync, self.lost, self.hyperframe), (None, None, None))
    }

    /// Appends the lines of what changed.
    #[tactic(auto, unfolding(crate::specs::Changes::changes_text))]
    pub(crate) fn put(&self, text: &mut TextBuffer)
        requires room { length text.old + 512 ≤ text_capacity }
        ensures { text.new ≡ text.old ++ changes_text self.now }
    {
        put_sync(self.number, self.sync, text);
        put_loss(self.number, self.lost, text);
        put_hyperframe(self.number, self.hyperframe, text);
    }
}
