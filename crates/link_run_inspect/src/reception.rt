//! The basic frames of a line as they are received, beside the management channels.

ghost use Rattle.std.specs.Prelude.{◌≡◌, ◌+◌, ◌*◌, ◌^◌, ◌<◌, ◌≤◌, ◌==◌, if◌then◌else◌, ◌++◌, ℕ, List, [], ◌∷◌, length, take, drop, IfOk, IfSome};
ghost use Rattle.std.specs.Option.{ForSome};
ghost use Rattle.std.specs.Result.{ForOk};
ghost use Rattle.control_words.specs.Announcement.{IsWithinTable};
ghost use Rattle.link_base.specs.WordSize.{IsWordSize};
ghost use Rattle.line_code.specs.Packed.{symbols_in};
ghost use Rattle.link_run_inspect.specs.Frames.{control_word, is_first, ends_in};

use crate::changes::{Changes, Hyperframe, changed_loss, changed_state};
use crate::words::{announced, numbers};
use arrayvec::ArrayVec;
use hyperframe::{Acquire, Los, SyncState};
use line_code::{Rd, four_octets, is_comma, read_symbols, symbol_at};
use link_base::NoMemory;
use std::alloc::Global;

/// Basic frames in a hyperframe.
const HYPERFRAME: usize = 256;
/// The octets that have four symbols.
const GROUP: usize = 5;
/// The number of the last frame in its hyperframe.
const LAST_X: u8 = 255;

/// The hyperframe whose frames are coming.
#[derive(Drop)]
pub(crate) struct InHand {
    /// The control words of a hyperframe, of which those that came stand first.
    pub(crate) control: Vec<u8>,
    /// The symbols in its frames that the line code does not spell.
    pub(crate) violations: u64,
}

impl InHand {
    /// Keeps the control word and the violations of the frame of number `x` in its hyperframe.
    fn keep(&mut self, x: u8, word: &[u8], violations: u64)
        requires room { 256 * length word.now ≤ length self.old.control.items }
        requires fits { self.old.violations + violations < 2 ^ 64 }
        ensures control { self.new.control.items
            ≡ take (length word.now * x) self.old.control.items ++ word.now ++ drop (length word.now * (x + 1)) self.old.control.items }
        ensures violations { self.new.violations ≡ (if x == 0 then 0 else self.old.violations) + violations }
    {
        if x == 0 {
            self.violations = 0;
        }
        self.violations += violations;
        let at = word.len() * usize::from(x);
        self.control[at..at + word.len()].copy_from_slice(word);
    }

    /// Keeps the control word and the violations of a frame, if it stands in a lock.
    fn follow(&mut self, x: Option<u8>, word: &[u8], violations: u64)
        requires room { 256 * length word.now ≤ length self.old.control.items }
        requires fits { self.old.violations + violations < 2 ^ 64 }
        ensures control { IfSome x (λ x. self.new.control.items
            ≡ take (length word.now * x) self.old.control.items ++ word.now ++ drop (length word.now * (x + 1)) self.old.control.items) }
        ensures violations { IfSome x (λ x. self.new.violations ≡ (if x == 0 then 0 else self.old.violations) + violations) }
        ensures few { self.new.violations ≤ self.old.violations + violations }
        ensures place { IfSome x (λ x. x < 256) }
        ensures len { length self.new.control.items ≡ length self.old.control.items }
    {
        if let Some(x) = x {
            self.keep(x, word, violations);
        }
    }
}

/// What is kept of the basic frames so far.
#[derive(Drop)]
pub(crate) struct Reception {
    /// The octets of a word.
    pub(crate) width: usize,
    /// How many frames there were.
    pub(crate) number: u64,
    /// The running disparity after them.
    pub(crate) disparity: Rd,
    /// The symbols that the line code does not spell.
    pub(crate) violations: u64,
    pub(crate) acquire: Acquire,
    /// What `acquire` answered at the last frame.
    pub(crate) state: SyncState,
    pub(crate) los: Los,
    /// What `los` answered at the last frame.
    pub(crate) lost: bool,
    pub(crate) in_hand: InHand,
    pub ghost is_width: { IsWordSize width },
    pub ghost whole: { length in_hand.control.items ≡ 256 * width },
    pub ghost few: { violations ≤ 256 * number },
    pub ghost fewer: { in_hand.violations ≤ 256 * number },
    pub ghost in_limit: { number ≤ 2097152 },
}

/// Whether a frame at this place begins a hyperframe.
fn is_first(x: Option<u8>) -> bool
    ensures { result ≡ is_first x }
{
    matches!(x, Some(0))
}

/// Whether a frame at this place ends a hyperframe, in a lock that is held.
fn ends_in(state: SyncState, x: Option<u8>) -> bool
    ensures { result ≡ ends_in state x }
{
    matches!((state, x), (SyncState::Held, Some(LAST_X)))
}

/// The octets of the control word of a frame.
fn control_word(width: usize, octets: &[u8]) -> ArrayVec<u8, 16>
    requires size { IsWordSize width }
    requires frame { length octets.now ≡ 20 * width }
    ensures word { result.items ≡ control_word width (symbols_in octets.now) }
    ensures len { length result.items ≡ width }
{
    let mut word = ArrayVec::new();
    for group in 0..width.div_ceil(4) {
        let four = four_octets(octets, GROUP * group);
        word.try_extend_from_slice(&four).unwrap();
    }
    word.truncate(width);
    word
}

impl Reception {
    ghost use Rattle.std.specs.Prelude.{Some};
    ghost use Rattle.link_run_inspect.specs.Receives.{Receives};
    ghost use Rattle.link_run_inspect.specs.Changes.{changes_of, hyperframe_at};

    /// Before the first frame.
    pub(crate) fn begin(alloc: Global, width: usize) -> Result<Reception, NoMemory>
        requires { IsWordSize width }
        ensures stands { IfOk result (λ r. Receives r []) }
        ensures same { IfOk result (λ r. (r.width ≡ width) × (r.number ≡ 0)) }
    {
        Ok(Reception {
            width,
            number: 0,
            disparity: Rd::Minus,
            violations: 0,
            acquire: Acquire::new(),
            state: SyncState::Hunting,
            los: Los::new(),
            lost: false,
            in_hand: InHand {
                control: vec![in alloc; 0; HYPERFRAME * width]?,
                violations: 0,
            },
        })
    }

    /// Takes the next frame, and says what it changes.
    #[tactic(auto, unfolding(crate::specs::Changes::changes_of))]
    pub(crate) fn take(&mut self, octets: &[u8]) -> Changes
        requires frame { length octets.now ≡ 20 * self.old.width }
        requires room { self.old.number < 2097152 }
        ensures changes { (frames : List (List ℕ)) → Receives self.old frames
            → result ≡ changes_of self.old.width frames (symbols_in octets.now) }
        ensures stands { (frames : List (List ℕ)) → Receives self.old frames
            → Receives self.new (frames ++ symbols_in octets.now ∷ []) }
        ensures width { self.new.width ≡ self.old.width }
        ensures number { self.new.number ≡ self.old.number + 1 }
        ensures within { ForSome result.hyperframe (λ h. ForOk h.answer (IsWithinTable self.new.width)) }
    {
        let number = self.number;
        let before = self.state;
        let was_lost = self.lost;
        self.receive(octets);
        Changes {
            number,
            sync: changed_state(before, self.state),
            lost: changed_loss(was_lost, self.lost),
            hyperframe: self.hyperframe(),
        }
    }

    /// Takes the next frame.
    fn receive(&mut self, octets: &[u8])
        requires frame { length octets.now ≡ 20 * self.old.width }
        requires room { self.old.number < 2097152 }
        ensures stands { (frames : List (List ℕ)) → Receives self.old frames
            → Receives self.new (frames ++ symbols_in octets.now ∷ []) }
        ensures width { self.new.width ≡ self.old.width }
        ensures number { self.new.number ≡ self.old.number + 1 }
    {
        let line = read_symbols(octets, self.disparity);
        let word = control_word(self.width, octets);
        self.number += 1;
        self.violations += u64::from(line.violations);
        self.disparity = line.disparity;
        self.state = self.acquire.step(is_comma(symbol_at(octets, 0)));
        let x = self.acquire.x();
        self.lost = self.los.step(is_first(x), line.violations);
        self.in_hand
            .follow(x, word.as_slice(), u64::from(line.violations));
    }

    /// The hyperframe that the last frame ended, if it did in a lock that is held.
    fn hyperframe(&self) -> Option<Hyperframe>
        ensures hyperframe { (frames : List (List ℕ)) → Receives self.now frames → result ≡ hyperframe_at self.now.width frames }
        ensures within { ForSome result (λ h. ForOk h.answer (IsWithinTable self.now.width)) }
    {
        if !ends_in(self.state, self.acquire.x()) {
            return None;
        }
        let (z, bfn) = numbers(self.width, &self.in_hand.control);
        Some(Hyperframe {
            z,
            bfn,
            violations: self.in_hand.violations,
            answer: announced(self.width, &self.in_hand.control),
        })
    }
}
