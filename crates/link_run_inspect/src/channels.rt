//! The two management channels, as far as the line's frames hand bits to their readers.

ghost use Rattle.std.specs.Prelude.{◌≡◌, ◌*◌, length, IfOk, OnOk, OnErr};
ghost use Rattle.std.specs.Option.{ForSome};
ghost use Rattle.std.specs.Result.{ForOk};
ghost use Rattle.link_base.specs.Faults.{HasCause};
ghost use Rattle.link_base.specs.WordSize.{IsWordSize};
ghost use Rattle.control_words.specs.Announcement.{IsWithinTable};
ghost use Rattle.link_text.specs.Gathered.{Gathers, BreaksOff};
ghost use Rattle.link_run_inspect.specs.Managed.{has_same_channels};

use crate::changes::Changes;
use crate::channel_octets::{Octets, take_fast, take_slow};
use arrayvec::ArrayVec;
use control_words::Announce;
use ethernet_channel::FastReader;
use hdlc_channel::SlowReader;
use hyperframe::SyncState;
use link_base::{Failed, NoMemory, Sink};
use link_run_management::push_octets;
use link_text::TextBuffer;
use std::alloc::Global;

/// The readers of the two channels.
#[derive(Drop)]
pub(crate) struct Channels {
    /// The last announcement since the readers began anew.
    pub(crate) announced: Option<Announce>,
    pub(crate) slow: SlowReader,
    pub(crate) fast: FastReader,
    /// The octets of a channel on their way to its reader.
    octets: Octets,
}

/// Whether an announcement has the same channels as the one before it.
fn has_same_channels(before: Option<Announce>, a: Announce) -> bool
    ensures { result ≡ has_same_channels before a }
{
    match before {
        Some(before) => before.hdlc == a.hdlc && before.pointer == a.pointer,
        None => false,
    }
}

impl Channels {
    ghost use Rattle.link_run_inspect.specs.Managed.{Managed, begun, kept_at, handed_in, after_state, after_hyperframe};
    ghost use Rattle.link_run_inspect.specs.Events.{handed_text, followed_text};
    ghost use Rattle.link_run_inspect.specs.Handed.{Manages};

    /// Readers at their beginning. All memory that they need is taken here.
    pub(crate) fn begin(alloc: Global) -> Result<Channels, NoMemory>
        ensures { IfOk result (λ c. Manages c begun) }
    {
        let slow = SlowReader::begin(alloc)?;
        let fast = FastReader::begin(alloc)?;
        Ok(Channels {
            announced: None,
            slow,
            fast,
            octets: ArrayVec::new(),
        })
    }

    /// Lets both readers begin anew.
    pub(crate) fn restart(&mut self)
        ensures { Manages self.new begun }
    {
        self.announced = None;
        self.slow.restart();
        self.fast.restart();
    }

    /// Lets both readers begin anew where an announcement has other channels than the one before it.
    #[tactic(auto, unfolding(crate::specs::Managed::kept_at))]
    fn keep(&mut self, a: Announce)
        ensures { (m : Managed) → Manages self.old m → Manages self.new (kept_at m a) }
    {
        if !has_same_channels(self.announced, a) {
            self.restart();
        }
    }

    /// Hands in the octets of a hyperframe with this announcement, and appends the lines of what they complete.
    fn hand_in<K: Sink>(
        &mut self,
        number: u64,
        width: usize,
        control: &[u8],
        a: Announce,
        text: &mut TextBuffer,
        out: &mut K,
    ) -> Result<(), Failed>
        requires size { IsWordSize width }
        requires within { IsWithinTable width a }
        requires whole { length control.now ≡ 256 * width }
        ensures cause { HasCause (K.taken out.old).faults (K.taken out.new).faults result }
        ensures stands { OnOk result ((m : Managed) → Manages self.old m → Manages self.new (handed_in width control.now a m)) }
        ensures gathers { OnOk result ((m : Managed) → Manages self.old m
            → Gathers (handed_text number width control.now a m) text.old (K.taken out.old) text.new (K.taken out.new)) }
        ensures fails { OnErr result ((m : Managed) → Manages self.old m
            → BreaksOff (handed_text number width control.now a m) text.old (K.taken out.old) (K.taken out.new)) }
    {
        take_slow(width, control, a, &mut self.octets);
        match push_octets(&mut self.slow, number, self.octets.as_slice(), text, out) {
            Ok(()) => {}
            Err(failed) => return Err(failed),
        }
        take_fast(width, control, a, &mut self.octets);
        match push_octets(&mut self.fast, number, self.octets.as_slice(), text, out) {
            Ok(()) => {}
            Err(failed) => return Err(failed),
        }
        self.announced = Some(a);
        Ok(())
    }

    /// Follows a frame after which synchronization is in this state, and which ended a hyperframe with these control words,
    /// if it did. Appends the lines of what is found then.
    pub(crate) fn follow<K: Sink>(
        &mut self,
        changes: &Changes,
        state: SyncState,
        width: usize,
        control: &[u8],
        text: &mut TextBuffer,
        out: &mut K,
    ) -> Result<(), Failed>
        requires size { IsWordSize width }
        requires whole { length control.now ≡ 256 * width }
        requires within { ForSome changes.now.hyperframe (λ h. ForOk h.answer (IsWithinTable width)) }
        ensures cause { HasCause (K.taken out.old).faults (K.taken out.new).faults result }
        ensures stands { OnOk result ((m : Managed) → Manages self.old m
            → Manages self.new (after_hyperframe width control.now state changes.now.hyperframe m)) }
        ensures gathers { OnOk result ((m : Managed) → Manages self.old m
            → Gathers (followed_text changes.now.number width control.now changes.now.hyperframe m) text.old (K.taken out.old) text.new (K.taken out.new)) }
        ensures fails { OnErr result ((m : Managed) → Manages self.old m
            → BreaksOff (followed_text changes.now.number width control.now changes.now.hyperframe m) text.old (K.taken out.old) (K.taken out.new)) }
    {
        let Some(hyperframe) = changes.hyperframe else {
            self.follow_state(state);
            return Ok(());
        };
        let Ok(a) = hyperframe.answer else {
            self.restart();
            return Ok(());
        };
        self.keep(a);
        self.hand_in(changes.number, width, control, a, text, out)
    }

    /// Lets both readers begin anew where a lock that was held is lost.
    fn follow_state(&mut self, state: SyncState)
        ensures { (m : Managed) → Manages self.old m → Manages self.new (after_state state m) }
    {
        if let SyncState::Lost = state {
            self.restart();
        }
    }
}
