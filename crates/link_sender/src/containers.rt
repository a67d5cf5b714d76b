// A basic frame, made of its control word and the containers of all carriers.
ghost use Rattle.std.specs.Prelude.{◌≡◌, ◌*◌, ◌<◌, All, length, map};
ghost use Rattle.plan_checker.specs.Rules.{IsGood};
ghost use Rattle.plan_checker.specs.WordSize.{word_size};
ghost use Rattle.link_sender_blocks.specs.InHand.{after_frame};
ghost use Rattle.link_sender.specs.Containers.{AreMapped, MakesFrame, SendsContainers};

use carrier_plan::Plan;
use link_sender_blocks::SamplesInHand;

/// Writes the next basic frame into octets of which only those of the control word and of the containers change.
pub fn make_frame(plan: &Plan, word: &[u8], carriers: &mut [SamplesInHand], octets: &mut [u8])
    requires good { IsGood plan.now }
    requires word { length word.now ≡ word_size plan.now.option }
    requires mapped { AreMapped plan.now carriers.old }
    requires room { length octets.old ≡ 16 * word_size plan.now.option }
    ensures frame { MakesFrame plan.now word.now carriers.old octets.old octets.new }
    ensures small { All (λ octet. octet < 256) octets.new }
    ensures next { carriers.new ≡ map after_frame carriers.old }
{
    let size = word.len();
    octets[..size].copy_from_slice(word);
    send_containers(plan, carriers, &mut octets[size..]);
}

// Writes the container of each carrier into the IQ data block. All other bits stay.
fn send_containers(plan: &Plan, carriers: &mut [SamplesInHand], block: &mut [u8])
    requires good { IsGood plan.now }
    requires mapped { AreMapped plan.now carriers.old }
    requires room { length block.old ≡ 15 * word_size plan.now.option }
    ensures containers { SendsContainers plan.now carriers.old block.old block.new }
    ensures next { carriers.new ≡ map after_frame carriers.old }
{
    for c in 0..carriers.len() {
        carriers[c].send(plan.carriers.at(c).pieces.as_slice(), block);
    }
}
