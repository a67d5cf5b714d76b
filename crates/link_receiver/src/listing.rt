// The samples that leave, as entries.
ghost use Rattle.std.specs.Prelude.{◌≡◌, ◌+◌, ◌*◌, ◌<◌, ◌≤◌, ◌^◌, ◌++◌, ◌∷◌, [], All, length};
ghost use Rattle.std.specs.Int.{bit_at};
ghost use Rattle.std.specs.Vec.{vec_capacity, vec_len};
ghost use Rattle.link_receiver_blocks.specs.Containers.{unless_marked};
ghost use Rattle.link_receiver.specs.Runs.{CanBeListed, entries_from, entries_of_kept};

use crate::carrier_in_hand::CarrierInHand;
use crate::entry::Entry;
use sample_bits::RawIq;

// A sample, or none where bit `i` of the marks is 1.
fn unless_marked(marks: u32, i: u32, sample: RawIq) -> Option<RawIq>
    requires { i < 32 }
    ensures { result ≡ unless_marked (bit_at marks i) sample }
{
    if marks >> i & 1 == 1 {
        None
    } else {
        Some(sample)
    }
}

// Appends an entry, for which there is room.
fn put(entries: &mut Vec<Entry>, entry: Entry)
    requires { vec_len entries.old < vec_capacity entries.old }
    ensures items { entries.new.items ≡ entries.old.items ++ entry ∷ [] }
    ensures len { vec_len entries.new ≡ vec_len entries.old + 1 }
    ensures room { vec_capacity entries.old ≤ vec_capacity entries.new }
{
    let _ = entries.push(entry);
}

// Appends the entries of what is kept of carrier `c`, which left at tick `tick`.
fn list_carrier(kept: &CarrierInHand, tick: u64, c: u32, entries: &mut Vec<Entry>)
    requires can { CanBeListed kept.now }
    requires room { vec_len entries.old + 32 ≤ vec_capacity entries.old }
    ensures items { entries.new.items ≡ entries.old.items ++ entries_of_kept tick c kept.now }
    ensures len { vec_len entries.new ≤ vec_len entries.old + 32 }
    ensures room { vec_capacity entries.old ≤ vec_capacity entries.new }
{
    for i in 0..kept.count {
        let entry = Entry {
            tick,
            carrier: c,
            number: kept.number + u64::from(i),
            value: unless_marked(kept.marks, i, kept.samples[i as usize]),
        };
        put(entries, entry);
    }
}

/// Puts the entries of what is kept of the carriers, which left at tick `tick`, in place of those that are there.
pub fn list_carriers(carriers: &[CarrierInHand], tick: u64, entries: &mut Vec<Entry>)
    requires few { length carriers.now < 2 ^ 32 }
    requires can { All CanBeListed carriers.now }
    requires room { 32 * length carriers.now ≤ vec_capacity entries.old }
    ensures items { entries.new.items ≡ entries_from tick 0 carriers.now }
    ensures room { vec_capacity entries.old ≤ vec_capacity entries.new }
{
    entries.clear();
    for c in 0..carriers.len() {
        list_carrier(&carriers[c], tick, c as u32, entries);
    }
}
