// What is wrong with how flows share out the carriers.
use carrier_plan::Flow;

/// How flows fail to share out the carriers and the control words.
#[derive(Clone, Copy, Debug, PartialEq, Eq)]
pub enum Sharing {
    /// A flow's id is above 255.
    LargeId {
        flow: usize,
        id: u32,
    },
    /// Two flows have one id.
    SameId {
        earlier: usize,
        flow: usize,
        id: u32,
    },
    /// A flow lists a number that is no carrier's.
    NoCarrier {
        flow: usize,
        number: u32,
        carriers: usize,
    },
    /// A flow lists a number after one that is not below it.
    NotAscending {
        flow: usize,
        number: u32,
        before: u32,
    },
    /// A carrier is in no flow, or in several.
    Flows {
        carrier: usize,
        count: usize,
    },
    /// No flow has control, or several have.
    Controls {
        count: usize,
    },
}

// The first fault among the ids, then among the lists, then in how often carriers are listed, and then in control.
pub(crate) fn sharing_of(flows: &[Flow], carriers: usize) -> Sharing {
    if let Some(sharing) = wrong_id(flows) {
        return sharing;
    }
    for (f, flow) in flows.iter().enumerate() {
        if let Some(sharing) = wrong_list(f, flow.carriers.as_slice(), carriers) {
            return sharing;
        }
    }
    for carrier in 0..carriers {
        let count = flows_with(flows, carrier);
        if count != 1 {
            return Sharing::Flows { carrier, count };
        }
    }
    Sharing::Controls {
        count: flows.iter().filter(|flow| flow.control).count(),
    }
}

fn wrong_id(flows: &[Flow]) -> Option<Sharing> {
    for (f, flow) in flows.iter().enumerate() {
        let id = flow.id;
        if id > 255 {
            return Some(Sharing::LargeId { flow: f, id });
        }
        if let Some(earlier) = flows.iter().position(|other| other.id == id)
            && earlier < f
        {
            return Some(Sharing::SameId {
                earlier,
                flow: f,
                id,
            });
        }
    }
    None
}

fn wrong_list(flow: usize, list: &[u32], carriers: usize) -> Option<Sharing> {
    let mut last = None;
    for number in list {
        let number = *number;
        if number as usize >= carriers {
            return Some(Sharing::NoCarrier {
                flow,
                number,
                carriers,
            });
        }
        if let Some(before) = last
            && number <= before
        {
            return Some(Sharing::NotAscending {
                flow,
                number,
                before,
            });
        }
        last = Some(number);
    }
    None
}

fn flows_with(flows: &[Flow], carrier: usize) -> usize {
    flows
        .iter()
        .filter(|flow| {
            flow.carriers
                .as_slice()
                .iter()
                .any(|number| *number as usize == carrier)
        })
        .count()
}
